//! Prices rounds of 25, 40 and 60 stops, with ng neighbourhoods of 8 and with 0, 8 and 32 cuts, and
//! prints the counts; given the word `time`, the milliseconds too.
#![tactic(auto)]

mod rounds;

use anyhow::{Context, anyhow};
use cuts::Cuts;
use ng::Ng;
use price::{Label, MOST_LABELS, PriceRefusal, Priced, ROW_LENGTH};
use round::Round;
use rounds::{Draws, Point, distance, points, round};
use sitting::Sitting;
use std::time::Instant;
use std::{env, io};
use stops::StopSet;
use tier::{Refusal, Tier};

type Pile = Cuts<Ng<Round>>;

// The eight stops nearest to this one, itself among them.
fn nearest(stop: usize, here: Point, points: &[Point]) -> StopSet {
    let mut chosen = StopSet::just(stop);
    for _ in 0..7 {
        let next = points
            .iter()
            .enumerate()
            .skip(1)
            .filter(|(other, _)| !chosen.has(*other))
            .min_by_key(|(_, there)| distance(here, **there));
        if let Some((other, _)) = next {
            chosen = chosen.joined(StopSet::just(other));
        }
    }
    chosen
}

fn three_stops(stops: usize, draws: &mut Draws) -> StopSet {
    let below = stops.min(60) as u32;
    (0..3).fold(StopSet::empty(), |set, _| {
        set.joined(StopSet::just(draws.next(below) as usize + 1))
    })
}

// Duals of 300 to 899 mils, neighbourhoods of eight, and so many cuts with penalties of 1 to 100; a
// draw of fewer than three stops is refused and makes no cut. As many duals are drawn whatever the
// number of stops.
fn prepare(
    pile: &mut Pile,
    cuts: usize,
    points: &[Point],
    draws: &mut Draws,
) -> Result<usize, Refusal> {
    for stop in 1..61 {
        let dual = i64::from(draws.next(600)) + 300;
        if let Some(here) = points.get(stop) {
            pile.set(1, stop, dual)?;
            pile.tighten(2, stop, nearest(stop, *here, points), 0)?;
        }
    }
    let stops = points.len().saturating_sub(1);
    // counted by hand: a refused draw makes no cut, and after 64 draws it stops
    let mut made = 0;
    for _ in 0..64 {
        if made < cuts {
            let penalty = i64::from(draws.next(100)) + 1;
            let members = three_stops(stops, draws);
            if pile.tighten(3, made, members, penalty).is_ok() {
                made += 1;
            }
        }
    }
    Ok(made)
}

// Printed piece by piece: the words are this program's own.
fn print_answer(rt: &HostRuntime, answer: Result<Priced<usize>, PriceRefusal>) -> io::Result<()> {
    match answer {
        Ok(Priced { lowest, counts }) => {
            match lowest {
                Some(lowest) => print!(rt; "lowest {} by {} stops; ", lowest.cost, lowest.route)?,
                None => print!(rt; "no route; ")?,
            }
            print!(rt; "{counts}")
        }
        Err(refusal) => print!(rt; "{refusal}"),
    }
}

fn price_pile(rt: &HostRuntime, pile: Pile, timed: bool) -> anyhow::Result<()> {
    let mut store = vec![in rt.alloc(); Label::blank(pile.start()); MOST_LABELS]?;
    let mut row = vec![in rt.alloc(); 0; ROW_LENGTH]?;
    let sitting = Sitting::open(pile, 10);
    let start = Instant::now(rt)?;
    let answer = sitting.price(&mut store, &mut row);
    let spent = start.elapsed(rt)?;
    print_answer(rt, answer)?;
    if timed {
        let millis = spent.as_millis();
        print!(rt; "; {millis} ms")?;
    }
    println!(rt)?;
    Ok(())
}

fn bench(rt: &HostRuntime, stops: usize, cuts: usize, timed: bool) -> anyhow::Result<()> {
    let mut draws = Draws::new(7);
    let all = points(&mut draws);
    let points = all.get(..=stops).context("over 60 stops")?;
    let book = round(points, &mut draws)?;
    let mut pile = Cuts::new(Ng::new(Round::new(book)));
    let made = prepare(&mut pile, cuts, points, &mut draws).map_err(|_| anyhow!(
        "a call was refused"
    ))?;
    print!(rt; "{stops} stops, {made} cuts: ")?;
    price_pile(rt, pile, timed)
}

fn main(rt: HostRuntime) -> anyhow::Result<()> {
    let timed = env::args(&rt)?.any(|word| word.as_str() == "time");
    for stops in [25, 40, 60] {
        for cuts in [0, 8, 32] {
            bench(&rt, stops, cuts, timed)?;
        }
    }
    Ok(())
}
