//! Audits routes: prints, leg by leg, what a planner can check by hand. Money is in mils.
#![tactic(auto)]

mod bottom_sheet;
mod cheapest;
mod members;
mod pile_sheet;
mod rounds;
mod sheet;

use anyhow::Context;
use book::{Book, Leg};
use cheapest::{Route, cheaper_of};
use cuts::Cuts;
use ng::Ng;
use pile_sheet::Pile;
use round::Round;
use rounds::{early_close, four_visits, two_visits};
use sheet::print_sheet;
use std::io;
use stops::StopSet;
use tier::{Refusal, Tier};
use town::Town;

fn print_legs(rt: &HostRuntime, book: &Book, from: usize) -> io::Result<()> {
    for to in 0..=book.stops() {
        if from != to
            && let Some(Leg { cost, minutes }) = book.leg(from, to)
        {
            println!(rt; "  leg {from} to {to}: cost {cost}, {minutes} minutes")?;
        }
    }
    Ok(())
}

// The book as its deck has it.
fn print_book(rt: &HostRuntime, book: &Book) -> io::Result<()> {
    let capacity = book.fleet().capacity;
    println!(rt; "  capacity {capacity}")?;
    for stop in 1..=book.stops() {
        if let Some(visit) = book.visit(stop) {
            let opens = visit.opens;
            let closes = visit.closes;
            let load = visit.load;
            println!(rt; "  stop {stop}: window {opens} to {closes}, load {load}")?;
        }
    }
    for from in 0..=book.stops() {
        print_legs(rt, book, from)?;
    }
    Ok(())
}

// Both orders of the two visits, and which visit comes first in the cheapest.
fn print_orders(rt: &HostRuntime, round: &Round) -> io::Result<()> {
    let first = print_sheet(rt, round, &[1, 2])?;
    let second = print_sheet(rt, round, &[2, 1])?;
    match cheaper_of(first, second) {
        Some(Route::First) => println!(rt; "  in the cheapest, visit 1 comes first"),
        Some(Route::Second) => println!(rt; "  in the cheapest, visit 2 comes first"),
        None => println!(rt; "  neither order is admitted"),
    }
}

fn set_duals(round: &mut Round, duals: [i64; 2]) -> Result<(), Refusal> {
    for (stop, dual) in (1..=2).zip(duals) {
        round.set(1, stop, dual)?;
    }
    Ok(())
}

fn audit(rt: &HostRuntime, title: &str, book: Book, duals: [i64; 2]) -> anyhow::Result<()> {
    println!(rt; "{title}")?;
    print_book(rt, &book)?;
    let mut round = Round::new(book);
    set_duals(&mut round, duals)
        .ok()
        .context("a dual was refused")?;
    let [first, second] = duals;
    println!(rt; "  duals {first} and {second}")?;
    print_orders(rt, &round)?;
    println!(rt)?;
    Ok(())
}

// Over Town: a charger on the way, and one that comes too late.
fn audit_town(rt: &HostRuntime) -> anyhow::Result<()> {
    let book = two_visits(10)?;
    println!(rt; "The two visits over Town: battery 9, a charger at stop 2, at most 2 stops")?;
    let town = Town::new(book);
    print_sheet(rt, &town, &[1, 2])?;
    print_sheet(rt, &town, &[2, 1])?;
    print_sheet(rt, &town, &[1])?;
    print_sheet(rt, &town, &[2, 1, 2])?;
    println!(rt)?;
    Ok(())
}

fn add_cut(pile: &mut Pile) -> Result<(), Refusal> {
    let three = StopSet::just(1)
        .joined(StopSet::just(2))
        .joined(StopSet::just(3));
    pile.tighten(3, 0, three, 5)
}

// Over ng and cuts: a stop that comes back until it is remembered, and a cut that is paid.
fn audit_pile(rt: &HostRuntime) -> anyhow::Result<()> {
    let book = four_visits()?;
    println!(rt; "Four visits over Round with ng and cuts: legs of cost 2 and one minute")?;
    let mut pile = Cuts::new(Ng::new(Round::new(book)));
    println!(rt; "  each stop alone in its neighbourhood, no cut")?;
    print_sheet(rt, &pile, &[1, 2, 1])?;
    println!(rt; "  stop 1 in the neighbourhood of stop 2")?;
    pile.tighten(2, 2, StopSet::just(1), 0)
        .ok()
        .context("a tighten was refused")?;
    print_sheet(rt, &pile, &[1, 2, 1])?;
    println!(rt; "  cut 0 at stops 1, 2 and 3, penalty 5")?;
    add_cut(&mut pile).ok().context("a cut was refused")?;
    print_sheet(rt, &pile, &[1, 2, 3])?;
    print_sheet(rt, &pile, &[1, 4, 2])?;
    println!(rt; "  stop 4 in the memory of cut 0")?;
    pile.tighten(3, 0, StopSet::just(4), 0)
        .ok()
        .context("a tighten was refused")?;
    print_sheet(rt, &pile, &[1, 4, 2])?;
    Ok(())
}

fn main(rt: HostRuntime) -> anyhow::Result<()> {
    audit(&rt, "Two visits", two_visits(10)?, [0, 0])?;
    audit(
        &rt,
        "Two visits that are worth their duals",
        two_visits(10)?,
        [16, 18],
    )?;
    audit(&rt, "Stop 1 closes at minute 8", early_close()?, [16, 18])?;
    audit(&rt, "Vans that carry 4", two_visits(4)?, [16, 18])?;
    audit_town(&rt)?;
    audit_pile(&rt)
}
