//! Labelling: how the lowest route is found, as a definition, with what it comes to.
//!
//! The definition is `specs/Labelling.antt`; what is proved of it is in `specs/Moments.antt` and
//! `specs/Lowest.antt`, and stands on the contracts below for every kind of state.
#![tactic(auto)]

ghost use Rattle.std.specs.Prelude.{◌≡◌};
ghost use Rattle.labelling.specs.Moments.{EveryMoment};
ghost use Rattle.labelling.specs.Lowest.{Ends, StaysTreated, CoversNoTreated, CountsAddUp, FindsLowest, StaysSmall};
ghost use Rattle.tier.specs.Laws.{greatest_key};

/// The route that labelling finds has at most this many stops, up to four tiers and by the laws of
/// sizes and keys.
pub fn row_length<S>() -> usize
    ensures length { result ≡ greatest_key }
    ensures moments { EveryMoment S }
    ensures lowest { FindsLowest S }
    ensures small { StaysSmall S }
{
    last_key()
}

fn last_key() -> usize
    ensures { result ≡ greatest_key }
{
    1440
}

/// Labelling needs no more turns than there are places.
pub fn most_turns<S>(places: usize) -> usize
    ensures turns { result ≡ places }
    ensures ends { Ends S }
    ensures treated { StaysTreated S }
    ensures unstruck { CoversNoTreated S }
    ensures counts { CountsAddUp S }
{
    turns_in(places)
}

// Each turn treats one label, which keeps its place.
fn turns_in(places: usize) -> usize
    ensures { result ≡ places }
{
    places
}
