//! The calls on a sitting: set, tighten and price, as definitions, and the theorem about them.
//!
//! `specs/Calls.antt` says what each call answers and leaves, `specs/Promises.antt` what is
//! promised of the answers, whatever the calls.
#![tactic(auto)]

mod refusal;

ghost use Rattle.std.specs.Prelude.{◌≡◌};
ghost use Rattle.calls.specs.Calls.{early_refusal};
ghost use Rattle.calls.specs.Promises.{Promises};
ghost use Rattle.calls.specs.Refusals.{refusal as «refusal_of»};

pub use refusal::PriceRefusal;
use tier::{MOST_TIERS, Tier};

/// A price takes this many vans at most, whatever book the pile has.
pub const MOST_VANS: usize = 60;

/// A price takes this many places for labels at most.
pub const MOST_LABELS: usize = 262144;

/// The row for a route must hold this many numbers.
pub const ROW_LENGTH: usize = 1440;

/// The refusals of a price before any label is made, by the pile, the vans, the places of the store and
/// the numbers of the row.
///
/// The promises of a sitting on this pile stand here, for every number of vans and all calls.
pub fn refuse_early<T: Tier>(
    pile: &T,
    vans: usize,
    places: usize,
    row: usize,
) -> Result<(), PriceRefusal>
    ensures refusal { «refusal_of» result ≡ early_refusal (T.meaning.answers (T.value pile.now)) vans places row }
    ensures promises { Promises T.meaning (T.value pile.now) }
{
    if pile.tiers() > MOST_TIERS {
        return Err(PriceRefusal::TooManyTiers);
    }
    if !(1..=MOST_VANS).contains(&vans) {
        return Err(PriceRefusal::BadVans);
    }
    if pile.stops() == 0 || !(1..=MOST_LABELS).contains(&places) {
        return Err(PriceRefusal::BadPlaces);
    }
    if row < ROW_LENGTH {
        return Err(PriceRefusal::ShortRow);
    }
    Ok(())
}
