//! Searches of a store. Only its first `used` places can hold labels; the rest are blank.
ghost use Rattle.std.specs.Prelude.{◌≡◌, ◌<◌, ◌≤◌, length, IfSome, count_by};
ghost use Rattle.store.specs.Works.{covered_at, falls as «falls_of», strike_at};
ghost use Rattle.price.specs.Labels.{writing};
ghost use Rattle.price.specs.Places.{blocks as «blocks_of», first_free as «first_free»};

use crate::covers::covers;
use crate::desk::Desk;
use crate::label::Label;
use tier::Tier;

// k is live, and covers l.
fn blocks<T: Tier>(tier: &T, k: &Label<T::State>, l: &Label<T::State>) -> bool
    ensures { result ≡ «blocks_of» (T.meaning.answers (T.value tier.now)) l.now k.now }
{
    k.status.live() && covers(tier, k, l)
}

// k waits, and l covers it.
fn falls<T: Tier>(tier: &T, l: &Label<T::State>, k: &Label<T::State>) -> bool
    ensures { let m = T.meaning.answers (T.value tier.now) in result ≡ «falls_of» (writing m.start) m l.now k.now }
{
    k.status.waits() && covers(tier, l, k)
}

/// Strikes every waiting label that `offered` covers: its place is blank then. Answers how many
/// there were.
pub(crate) fn strike<T: Tier>(
    tier: &T,
    labels: &mut [Label<T::State>],
    offered: &Label<T::State>,
) -> usize
    ensures struck { let m = T.meaning.answers (T.value tier.now) in labels.new ≡ strike_at (writing m.start) m offered.now labels.old }
    ensures count { let m = T.meaning.answers (T.value tier.now) in result ≡ count_by («falls_of» (writing m.start) m offered.now) labels.old }
{
    let blank = Label::blank(tier.start());
    // A loop: a chain over what it may change tells nothing of what it wrote.
    let mut count = 0;
    for label in labels {
        if falls(tier, offered, label) {
            *label = blank;
            count += 1;
        }
    }
    count
}

impl<T: Tier> Desk<'_, T> {
    ghost use Rattle.price.specs.Desks.{answers, hand};

    /// Whether a live label covers `offered`.
    pub(crate) fn turned_away(&self, offered: &Label<T::State>) -> bool
        ensures { result ≡ covered_at (hand self.now) (answers self.now) offered.now self.now.store.now }
    {
        let labels = &self.store[..self.used];
        labels.iter().any(|k| blocks(self.tier, k, offered))
    }

    /// The first blank place, if there is one.
    pub(crate) fn first_blank(&self) -> Option<usize>
        ensures value { result ≡ «first_free» 0 self.now.store.now }
        ensures within { IfSome result (λ i. i < length self.now.store.now) }
        ensures near { IfSome result (λ i. i ≤ self.now.used) }
    {
        self.store
            .iter()
            .take(self.used + 1)
            .position(|k| !k.status.live())
    }
}
