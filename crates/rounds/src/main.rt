//! Sittings over several piles: lists of calls, and their answers as a planner reads them.
#![tactic(auto)]

mod instances;
mod print;

use cuts::Cuts;
use instances::{all_day, struck_visits, three_visits, two_visits};
use ng::Ng;
use price::ROW_LENGTH;
use print::print_answers;
use round::Round;
use sitting::{Call, Sitting};
use stops::StopSet;
use tier::Tier;
use town::Town;

const fn set(index: usize, amount: i64) -> Call {
    Call::Set {
        tier: 1,
        index,
        amount,
    }
}

fn tighten(tier: usize, index: usize, members: StopSet, amount: i64) -> Call {
    Call::Tighten {
        tier,
        index,
        members,
        amount,
    }
}

const fn price(places: usize) -> Call {
    Call::Price {
        places,
        row: ROW_LENGTH,
    }
}

// Opens a sitting on the pile for two vans, and carries out the calls.
fn sit<T: Tier + Drop>(
    rt: &HostRuntime,
    title: &str,
    pile: T,
    calls: &[Call],
) -> anyhow::Result<()> {
    println!(rt; "{title}")?;
    let mut sitting = Sitting::open(pile, 2);
    let answers = sitting.carry_out(rt.alloc(), calls)?;
    print_answers(rt, calls, &answers)?;
    println!(rt)?;
    Ok(())
}

fn plain_round(rt: &HostRuntime) -> anyhow::Result<()> {
    let book = two_visits()?;
    let calls = [
        price(3),
        set(1, 16),
        set(2, 18),
        price(5),
        price(6),
        set(3, 1),
        price(0),
        Call::Price {
            places: 6,
            row: ROW_LENGTH - 1,
        },
    ];
    sit(rt, "Two visits over Round", Round::new(book), &calls)
}

fn plain_town(rt: &HostRuntime) -> anyhow::Result<()> {
    let book = two_visits()?;
    let calls = [price(20), set(1, 16), set(2, 18), price(20), price(8)];
    sit(rt, "Two visits over Town", Town::new(book), &calls)
}

fn with_ng(rt: &HostRuntime) -> anyhow::Result<()> {
    let book = two_visits()?;
    let one = StopSet::just(1);
    let two = StopSet::just(2);
    let calls = [
        set(1, 16),
        set(2, 18),
        price(5),
        tighten(2, 1, two, 0),
        price(5),
        tighten(2, 2, one, 0),
        price(5),
        tighten(2, 1, StopSet::just(3), 0),
    ];
    sit(
        rt,
        "Two visits over Round with ng",
        Ng::new(Round::new(book)),
        &calls,
    )
}

fn with_cuts(rt: &HostRuntime) -> anyhow::Result<()> {
    let book = three_visits()?;
    let all = StopSet::just(1)
        .joined(StopSet::just(2))
        .joined(StopSet::just(3));
    let calls = [
        set(1, 6),
        set(2, 4),
        tighten(2, 1, all, 0),
        tighten(2, 2, all, 0),
        tighten(2, 3, all, 0),
        price(100),
        tighten(3, 0, all, 3),
        price(100),
        tighten(3, 2, all, 3),
        Call::Set {
            tier: 3,
            index: 0,
            amount: -1,
        },
        price(100),
    ];
    sit(
        rt,
        "Three visits over Round with ng and cuts",
        Cuts::new(Ng::new(Round::new(book))),
        &calls,
    )
}

fn struck(rt: &HostRuntime) -> anyhow::Result<()> {
    let book = struck_visits()?;
    sit(
        rt,
        "Three places suffice, since one label is struck",
        Round::new(book),
        &[price(3), price(2)],
    )
}

fn five_tiers(rt: &HostRuntime) -> anyhow::Result<()> {
    let book = two_visits()?;
    let calls = [
        set(1, 16),
        tighten(5, 1, StopSet::just(2), 0),
        tighten(6, 1, StopSet::just(2), 0),
        price(5),
    ];
    sit(
        rt,
        "Two visits under a pile of five tiers",
        Ng::new(Cuts::new(Ng::new(Cuts::new(Round::new(book))))),
        &calls,
    )
}

fn longest(rt: &HostRuntime) -> anyhow::Result<()> {
    let book = all_day()?;
    let calls = [set(1, 1), set(2, 1), price(2880), price(2881)];
    sit(
        rt,
        "Two stops, open all day, a minute from each other",
        Round::new(book),
        &calls,
    )
}

fn main(rt: HostRuntime) -> anyhow::Result<()> {
    plain_round(&rt)?;
    plain_town(&rt)?;
    with_ng(&rt)?;
    with_cuts(&rt)?;
    struck(&rt)?;
    five_tiers(&rt)?;
    longest(&rt)
}
