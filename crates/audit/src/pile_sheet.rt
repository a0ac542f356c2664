//! The work sheet over Round with ng and cuts: what is remembered, and which bits stand.
use super::members::Members;
use super::sheet::Sheet;
use cuts::{Bits, Cuts, CutsState};
use ng::{Ng, NgState};
use round::{Round, RoundState};
use std::{fmt, io};
use stops::StopSet;
use tier::Tier;

/// Round, with ng at tier 2 and cuts at tier 3.
pub(crate) type Pile = Cuts<Ng<Round>>;

type PileState = CutsState<NgState<RoundState>>;

/// Why a van cannot go on over the pile.
#[derive(Clone, Copy)]
pub(crate) enum Barred {
    /// with what is remembered
    Leg(StopSet),
    Home,
}

impl fmt::Display for Barred {
    fn fmt<W: fmt::Write>(&self, f: &mut fmt::Formatter<W>) -> fmt::Result {
        match self {
            Barred::Leg(memory) => {
                let memory = Members(*memory);
                write!(f, "remembers {memory}")
            }
            Barred::Home => write!(f, "there is no way home"),
        }
    }
}

// The cuts whose bit is 1, as a set.
fn standing(bits: Bits) -> StopSet {
    (0..32).filter(|cut| bits.has(*cut)).fold(
        StopSet::empty(),
        |cuts, cut| cuts.joined(StopSet::just(cut)),
    )
}

impl Sheet for Pile {
    type Barred = Barred;

    const COLUMNS: &'static str = "minute  charge  remembers, bits";

    const WIDTH: usize = 14;

    fn step(&self, state: PileState, from: usize, to: usize) -> Result<(PileState, i64), Barred> {
        self.reach(state, from, to)
            .ok_or(Barred::Leg(state.below.memory))
    }

    fn home(&self, state: PileState, from: usize) -> Result<i64, Barred> {
        self.finish(state, from).ok_or(Barred::Home)
    }

    fn print_columns(rt: &HostRuntime, state: PileState, charge: i64) -> io::Result<()> {
        let minute = state.below.below.minute;
        let memory = Members(state.below.memory);
        let bits = Members(standing(state.bits));
        println!(rt; "{minute:>6}  {charge:>6}  {memory}, {bits}")
    }
}
