//! The Round bottom: time windows and loads.
#![tactic(auto)]

mod state;

ghost use Rattle.std.specs.Prelude.{◌≡◌, ◌+◌, max};
ghost use Rattle.round.specs.Round.{arrive, round_driving};
ghost use Rattle.round.specs.Laws.{home_costs, round_base_laws};

use book::{Fleet, Leg, Visit};
use bottom::{Bottom, Rules};
pub use state::{Barred, RoundState};

/// The rules of Round: a van arrives in time windows and carries loads.
#[derive(Clone, Copy)]
pub struct RoundRules;

/// Round: a bottom whose stops have time windows and loads.
pub type Round = Bottom<RoundRules>;

// The minute of arrival: the leg is driven, and the van waits for the window to open.
fn arrives(visit: Visit, leg: Leg, minute: u16) -> u32
    ensures { result ≡ arrive visit leg minute }
{
    u32::from(visit.opens).max(u32::from(minute) + u32::from(leg.minutes))
}

impl Rules for RoundRules {
    type State = RoundState;

    type Barred = Barred;

    ghost driving = { round_driving };

    ghost homes = { home_costs };

    ghost lawful = { round_base_laws };

    fn start(fleet: Fleet) -> RoundState {
        RoundState { minute: 0, load: 0 }
    }

    fn key(state: RoundState) -> u64 {
        u64::from(state.minute)
    }

    fn no_leg() -> Barred {
        Barred::NoLeg
    }

    fn drive(
        fleet: Fleet,
        leg: Leg,
        visit: Visit,
        state: RoundState,
    ) -> Result<RoundState, Barred> {
        let minute = arrives(visit, leg, state.minute);
        if minute > u32::from(visit.closes) {
            return Err(Barred::TooLate(minute, visit.closes));
        }
        let load = u32::from(state.load) + u32::from(visit.load);
        if load > u32::from(fleet.capacity) {
            return Err(Barred::TooHeavy(load, fleet.capacity));
        }
        Ok(RoundState {
            minute: minute as u16,
            load: load as u16,
        })
    }

    fn go_home(leg: Leg, state: RoundState) -> Result<Leg, Barred> {
        Ok(leg)
    }

    fn gap(a: RoundState, b: RoundState) -> Option<u64> {
        (a.minute <= b.minute && a.load <= b.load).then_some(0)
    }
}
