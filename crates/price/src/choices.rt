//! Which label is treated next.
ghost use Rattle.std.specs.Prelude.{◌≡◌, ◌<◌, IfSome};
ghost use Rattle.store.specs.Places.{Picks};
ghost use Rattle.price.specs.Labels.{reading};

use crate::desk::Desk;
use crate::label::Label;
use tier::Tier;

// Labels are treated by key, on ties by number.
fn rank<T: Tier>(tier: &T, label: &Label<T::State>) -> (u64, usize)
    ensures { result ≡ ((T.meaning.answers (T.value tier.now)).key label.now.state, label.now.number) }
{
    (tier.key(label.state), label.number)
}

impl<T: Tier> Desk<'_, T> {
    ghost use Rattle.price.specs.Desks.{answers};

    /// The place of the waiting label of least key, on ties of least number; `None` if none waits.
    pub(crate) fn choose(&self) -> Option<usize>
        ensures first { Picks (reading (answers self.now).start) (λ l. (answers self.now).key l.state) self.now.store.now result }
        ensures within { IfSome result (λ i. i < self.now.used) }
    {
        let labels = &self.store[..self.used];
        let waiting = labels.iter().enumerate().filter(|(_, k)| k.status.waits());
        let next = waiting.min_by_key(|(_, k)| rank(self.tier, k));
        next.map(|(place, _)| place)
    }
}
