//! The worked figures: small examples that a planner can check by hand.
#![tactic(auto)]

mod worked;

ghost use Rattle.std.specs.Prelude.{◌≡◌};
ghost use Rattle.figures.specs.Figures.{figures, Worked};

pub use worked::WorkedFigures;

#[cfg(test)]
mod road;
#[cfg(test)]
mod rounds;
#[cfg(test)]
mod towns;

/// The figures, of the definitions.
pub fn worked_figures() -> WorkedFigures
    ensures numbers { result ≡ figures }
    ensures shown { Worked result }
{
    WorkedFigures {
        arrives: 8,
        waits: 9,
        in_time: 10,
        late: 11,
        full: 10,
        over: 11,
        forgets: 0b10,
        remembers: 0b110,
        penalty: 5,
        used_up: 0,
        filled: 40,
        too_far: 4,
    }
}
