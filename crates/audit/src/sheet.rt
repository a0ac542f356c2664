//! The work sheet of a route: every leg, and what the route costs or why it is barred.
use std::fmt::Display;
use std::io;
use tier::{Tier, replay};

/// A pile whose routes have a work sheet.
pub(crate) trait Sheet: Tier {
    /// Why a van cannot go on.
    type Barred: Display + Copy;

    /// The heads of the columns after `from` and `to`.
    const COLUMNS: &'static str;

    /// How wide the columns are up to the charge, and with it.
    const WIDTH: usize;

    /// The state after a leg and its charge.
    fn step(
        &self,
        state: Self::State,
        from: usize,
        to: usize,
    ) -> Result<(Self::State, i64), Self::Barred>;

    /// The charge for going home.
    fn home(&self, state: Self::State, from: usize) -> Result<i64, Self::Barred>;

    /// Prints the columns of a leg.
    fn print_columns(rt: &HostRuntime, state: Self::State, charge: i64) -> io::Result<()>;
}

// The legs in order, up to the first that is barred.
fn print_legs<T: Sheet>(rt: &HostRuntime, pile: &T, route: &[usize]) -> io::Result<()> {
    let columns = T::COLUMNS;
    println!(rt; "    from  to  {columns}")?;
    let mut state = pile.start();
    let mut from = 0;
    for to in route {
        print!(rt; "    {from:>4}  {to:>2}  ")?;
        match pile.step(state, from, *to) {
            Ok((next, charge)) => {
                T::print_columns(rt, next, charge)?;
                state = next;
                from = *to;
            }
            Err(barred) => return println!(rt; "barred: {barred}"),
        }
    }
    print!(rt; "    {from:>4}   0  ")?;
    let width = T::WIDTH;
    match pile.home(state, from) {
        Ok(charge) => println!(rt; "{charge:>width$}"),
        Err(barred) => println!(rt; "barred: {barred}"),
    }
}

/// Prints the work sheet of a route, and answers its reduced cost if it is admitted.
pub(crate) fn print_sheet<T: Sheet>(
    rt: &HostRuntime,
    pile: &T,
    route: &[usize],
) -> io::Result<Option<i64>> {
    print!(rt; "  route")?;
    for stop in route {
        print!(rt; " {stop}")?;
    }
    println!(rt)?;
    print_legs(rt, pile, route)?;
    let cost = replay(pile, route);
    match cost {
        Some(mils) => println!(rt; "    reduced cost {mils}")?,
        None => println!(rt; "    not admitted")?,
    }
    Ok(cost)
}
