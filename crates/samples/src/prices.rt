//! Prices of small cases. Each function tells what the definition of price gives.
ghost use Rattle.std.specs.Prelude.{◌≡◌, true, false, pos};
ghost use Rattle.samples.specs.CutVisits.{price_cut, price_cut_without};
ghost use Rattle.samples.specs.Penalty.{price_trip};
ghost use Rattle.samples.specs.ThreeVisits.{price_three};
ghost use Rattle.samples.specs.Told.{answer};
ghost use Rattle.samples.specs.TwoVisits.{price_two};

use price::{Counts, Lowest, PriceRefusal, Priced};

/// What a price tells.
pub(crate) type Told = Result<Priced<&'static [usize]>, PriceRefusal>;

/// Two visits at duals 0, with three places: each of the two long ways is turned away.
pub(crate) fn at_no_duals() -> Told
    ensures { answer result ≡ price_two 10 (pos 0) (pos 0) 3 }
{
    Ok(Priced {
        lowest: Some(Lowest {
            cost: 20,
            route: &[1],
            floor: 0,
        }),
        counts: Counts {
            kept: 3,
            struck: 0,
            turned: 2,
        },
    })
}

/// The same at duals 16 and 18: five places do not suffice.
pub(crate) fn at_high_duals() -> Told
    ensures { answer result ≡ price_two 10 (pos 16) (pos 18) 5 }
{
    Err(PriceRefusal::StoreFull)
}

/// The same with vans that carry 1: only the root is kept.
pub(crate) fn too_heavy() -> Told
    ensures { answer result ≡ price_two 1 (pos 0) (pos 0) 3 }
{
    Ok(Priced {
        lowest: None,
        counts: Counts {
            kept: 1,
            struck: 0,
            turned: 0,
        },
    })
}

/// Three visits with ties, a strike, and places that just suffice.
pub(crate) fn with_ties() -> Told
    ensures { answer result ≡ price_three }
{
    Ok(Priced {
        lowest: Some(Lowest {
            cost: -5,
            route: &[2, 3, 2],
            floor: -4,
        }),
        counts: Counts {
            kept: 9,
            struck: 2,
            turned: 2,
        },
    })
}

/// Round, ng and a cut: the cheapest route goes by stop 3 first.
pub(crate) fn with_a_cut() -> Told
    ensures { answer result ≡ price_cut }
{
    Ok(Priced {
        lowest: Some(Lowest {
            cost: -3,
            route: &[3, 1, 2],
            floor: 4,
        }),
        counts: Counts {
            kept: 10,
            struck: 0,
            turned: 4,
        },
    })
}

/// The same if costs were compared without the gap: that route is lost.
pub(crate) fn with_a_cut_without_gaps() -> Told
    ensures { answer result ≡ price_cut_without }
{
    Ok(Priced {
        lowest: Some(Lowest {
            cost: -1,
            route: &[1, 2],
            floor: 6,
        }),
        counts: Counts {
            kept: 6,
            struck: 0,
            turned: 5,
        },
    })
}

/// A detour that is cheaper at stop 2, and dearer in the end by a penalty.
pub(crate) fn with_gaps() -> Told
    ensures { answer result ≡ price_trip true }
{
    Ok(Priced {
        lowest: Some(Lowest {
            cost: 5,
            route: &[2, 3],
            floor: 0,
        }),
        counts: Counts {
            kept: 6,
            struck: 0,
            turned: 0,
        },
    })
}

/// The same if costs were compared without the gap: the direct way to stop 2 is struck.
pub(crate) fn without_gaps() -> Told
    ensures { answer result ≡ price_trip false }
{
    Ok(Priced {
        lowest: Some(Lowest {
            cost: 9,
            route: &[1, 2, 3],
            floor: 0,
        }),
        counts: Counts {
            kept: 5,
            struck: 1,
            turned: 0,
        },
    })
}
