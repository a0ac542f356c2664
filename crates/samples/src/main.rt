//! Prints what the definition of price gives on small cases. Nothing is priced here: each function
//! answers a literal that is proved to be what the definition gives.
#![tactic(auto)]

mod prices;

use price::{Lowest, Priced};
use prices::{
    Told, at_high_duals, at_no_duals, too_heavy, with_a_cut, with_a_cut_without_gaps, with_gaps,
    with_ties, without_gaps,
};
use std::io;

// Printed piece by piece: the words are this program's own.
fn print_price(rt: &HostRuntime, price: Priced<&[usize]>) -> io::Result<()> {
    let Priced { lowest, counts } = price;
    let Some(Lowest { cost, route, floor }) = lowest else {
        return println!(rt; "  no route; {} kept", counts.kept);
    };
    print!(rt; "  lowest {cost} by route")?;
    for stop in route {
        print!(rt; " {stop}")?;
    }
    println!(rt)?;
    println!(rt; "  floor {floor}")?;
    println!(rt; "  {counts}")
}

fn print_told(rt: &HostRuntime, title: &str, told: Told) -> io::Result<()> {
    println!(rt; "{title}")?;
    match told {
        Ok(price) => print_price(rt, price)?,
        Err(refusal) => println!(rt; "  {refusal}")?,
    }
    println!(rt)
}

fn main(rt: HostRuntime) -> io::Result<()> {
    print_told(&rt, "Two visits at duals 0, three places", at_no_duals())?;
    print_told(
        &rt,
        "Two visits at duals 16 and 18, five places",
        at_high_duals(),
    )?;
    print_told(&rt, "Two visits, vans that carry 1", too_heavy())?;
    print_told(&rt, "Three visits with ties, seven places", with_ties())?;
    print_told(&rt, "Round, ng and a cut", with_a_cut())?;
    print_told(
        &rt,
        "The same, costs compared without the gap",
        with_a_cut_without_gaps(),
    )?;
    print_told(&rt, "A detour with a penalty", with_gaps())?;
    print_told(&rt, "The same without the gap", without_gaps())
}
