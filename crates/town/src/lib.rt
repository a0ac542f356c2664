//! The Town bottom: a battery, chargers and a limit on the stops made.
#![tactic(auto)]

mod barred;
mod state;

ghost use Rattle.std.specs.Prelude.{◌≡◌, ◌≤◌, Ok, Err, if◌then◌else◌, refl};
ghost use Rattle.town.specs.Town.{covered, left_after, town_driving};
ghost use Rattle.town.specs.Laws.{town_base_laws};

pub use barred::Barred;
use book::{Fleet, Leg, Visit};
use bottom::{Bottom, Rules};
pub use state::TownState;

/// The rules of Town: a van drives on a battery and makes a limited number of stops.
#[derive(Clone, Copy)]
pub struct TownRules;

/// Town: a bottom whose vans drive on a battery and make a limited number of stops.
pub type Town = Bottom<TownRules>;

// Whether the charge is enough for a leg.
fn cover(leg: Leg, charge: u16) -> Result<(), Barred>
    ensures { result ≡ (if covered leg charge then Ok tt else Err (Barred.TooFar leg.minutes charge)) }
{
    if leg.minutes <= charge {
        Ok(())
    } else {
        Err(Barred::TooFar(leg.minutes, charge))
    }
}

// The charge on arrival, after a leg that was covered: a charger fills the battery.
fn charge_left(visit: Visit, leg: Leg, battery: u16, charge: u16) -> u16
    requires { leg.minutes ≤ charge }
    ensures { result ≡ left_after visit leg battery charge }
{
    if visit.charger {
        battery
    } else {
        charge - leg.minutes
    }
}

impl Rules for TownRules {
    type State = TownState;

    type Barred = Barred;

    ghost driving = { town_driving };

    ghost homes = { λ b s i. refl };

    ghost lawful = { town_base_laws };

    fn start(fleet: Fleet) -> TownState {
        TownState {
            charge: fleet.battery,
            made: 0,
        }
    }

    fn key(state: TownState) -> u64 {
        u64::from(state.made)
    }

    fn no_leg() -> Barred {
        Barred::NoLeg
    }

    fn drive(fleet: Fleet, leg: Leg, visit: Visit, state: TownState) -> Result<TownState, Barred> {
        cover(leg, state.charge)?;
        let made = u16::from(state.made) + 1;
        if made > u16::from(fleet.most) {
            return Err(Barred::TooMany(made, fleet.most));
        }
        Ok(TownState {
            charge: charge_left(visit, leg, fleet.battery, state.charge),
            made: made as u8,
        })
    }

    fn go_home(home: Leg, state: TownState) -> Result<Leg, Barred> {
        cover(home, state.charge)?;
        Ok(home)
    }

    fn gap(a: TownState, b: TownState) -> Option<u64> {
        (a.charge >= b.charge && a.made <= b.made).then_some(0)
    }
}
