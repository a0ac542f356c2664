//! The work sheet over a bottom alone.
use super::sheet::Sheet;
use bottom::{Bottom, Rules};
use round::{RoundRules, RoundState};
use std::fmt::Display;
use std::io;
use town::{TownRules, TownState};

/// Rules whose states fill the columns of a work sheet.
pub(crate) trait Columns: Rules<Barred: Display> {
    /// The heads of the columns.
    const HEADS: &'static str;

    fn print_state(rt: &HostRuntime, state: Self::State) -> io::Result<()>;
}

/// The minute of arrival and the load.
impl Columns for RoundRules {
    const HEADS: &'static str = "arrives  load  charge";

    fn print_state(rt: &HostRuntime, state: RoundState) -> io::Result<()> {
        let RoundState { minute, load } = state;
        print!(rt; "{minute:>7}  {load:>4}")
    }
}

/// The charge that is left and the stops made.
impl Columns for TownRules {
    const HEADS: &'static str = " charge  made    cost";

    fn print_state(rt: &HostRuntime, state: TownState) -> io::Result<()> {
        let TownState { charge, made } = state;
        print!(rt; "{charge:>7}  {made:>4}")
    }
}

impl<R: Columns> Sheet for Bottom<R> {
    type Barred = R::Barred;

    const COLUMNS: &'static str = R::HEADS;

    const WIDTH: usize = 21;

    fn step(&self, state: R::State, from: usize, to: usize) -> Result<(R::State, i64), R::Barred> {
        Bottom::step(self, state, from, to)
    }

    fn home(&self, state: R::State, from: usize) -> Result<i64, R::Barred> {
        let leg = self.go_home(state, from)?;
        Ok(i64::from(leg.cost))
    }

    fn print_columns(rt: &HostRuntime, state: R::State, charge: i64) -> io::Result<()> {
        R::print_state(rt, state)?;
        println!(rt; "  {charge:>6}")
    }
}
