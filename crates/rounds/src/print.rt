//! Calls and answers, as a planner reads them. Money is in mils.
use price::{Counts, Lowest, Priced, ROW_LENGTH};
use sitting::{Answer, Call, Done};
use std::io;
use stops::StopSet;

fn print_members(rt: &HostRuntime, members: StopSet) -> io::Result<()> {
    for stop in (0..64).filter(|stop| members.has(*stop)) {
        print!(rt; " {stop}")?;
    }
    Ok(())
}

// Printed piece by piece: the words are this program's own.
fn print_call(rt: &HostRuntime, call: Call) -> io::Result<()> {
    match call {
        Call::Set {
            tier,
            index,
            amount,
        } => print!(rt; "  set {index} of tier {tier} to {amount}: "),
        Call::Tighten {
            tier,
            index,
            members,
            amount,
        } => {
            print!(rt; "  tighten {index} of tier {tier} by")?;
            print_members(rt, members)?;
            print!(rt; " for {amount}: ")
        }
        Call::Price { places, row } => {
            print!(rt; "  price in {places} places")?;
            if row != ROW_LENGTH {
                print!(rt; ", a row of {row}")?;
            }
            print!(rt; ": ")
        }
    }
}

// A long route is cut after its first stops.
fn print_route(rt: &HostRuntime, route: &[usize]) -> io::Result<()> {
    for stop in route.iter().take(8) {
        print!(rt; " {stop}")?;
    }
    let stops = route.len();
    if stops > 8 {
        print!(rt; " .. ({stops} stops)")?;
    }
    Ok(())
}

fn print_lowest(rt: &HostRuntime, lowest: &Lowest<Vec<usize>>) -> io::Result<()> {
    print!(rt; "lowest {} by route", lowest.cost)?;
    print_route(rt, &lowest.route)?;
    print!(rt; ", no plan under {}", lowest.floor)
}

fn print_answer(rt: &HostRuntime, answer: &Answer) -> io::Result<()> {
    match answer {
        Ok(Done::Taken) => println!(rt; "taken"),
        Ok(Done::Priced(Priced { lowest, counts })) => {
            match lowest {
                Some(lowest) => print_lowest(rt, lowest)?,
                None => print!(rt; "no route")?,
            }
            // Not by `Display`: here the words say that labels are kept.
            let Counts {
                kept,
                struck,
                turned,
            } = counts;
            println!(rt; "; {kept} labels kept, {struck} struck, {turned} turned away")
        }
        Err(refusal) => println!(rt; "{refusal}"),
    }
}

/// Every call with its answer.
pub(crate) fn print_answers(
    rt: &HostRuntime,
    calls: &[Call],
    answers: &[Answer],
) -> io::Result<()> {
    for (call, answer) in calls.iter().zip(answers) {
        print_call(rt, *call)?;
        print_answer(rt, answer)?;
    }
    Ok(())
}
