//! When a label covers another, or dominates it: it is at the same stop, and costs no more even with
//! the gap.
ghost use Rattle.std.specs.Prelude.{◌≡◌};
ghost use Rattle.labelling.specs.Labelling.{covers as «covers_of», within_gap as «within_gap_of»};
ghost use Rattle.price.specs.Labels.{view};

use crate::label::Label;
use tier::Tier;

// Stop and cost are compared first: a gap is dear to ask for, and never below 0.
pub(crate) fn covers<T: Tier>(tier: &T, k: &Label<T::State>, l: &Label<T::State>) -> bool
    ensures { result ≡ «covers_of» (T.meaning.answers (T.value tier.now)) (view k.now) (view l.now) }
{
    if k.stop != l.stop || k.cost > l.cost {
        return false;
    }
    within_gap(tier.gap(k.state, l.state), k.cost, l.cost)
}

// Whether there is a gap, and a with it is at most b. The sum is made in a wider word, so that no
// cost and no gap leaves it.
fn within_gap(gap: Option<u64>, a: i64, b: i64) -> bool
    ensures { result ≡ «within_gap_of» gap a b }
{
    gap.is_some_and(|g| i128::from(a) + i128::from(g) <= i128::from(b))
}
