//! An offered label: it is turned away, or it strikes what it covers and is kept.
ghost use Rattle.std.specs.Prelude.{◌≡◌, ◌^◌, is_ok};
ghost use Rattle.store.specs.Works.{offer_at};
ghost use Rattle.price.specs.Progress.{Few};

use crate::desk::Desk;
use crate::label::Label;
use crate::places::strike;
use tier::Tier;

/// Live labels fill the store.
#[derive(Clone, Copy)]
pub(crate) struct Crowded;

impl<T: Tier> Desk<'_, T> {
    ghost use Rattle.price.specs.Desks.{answers, hand, so_far, Comes};

    /// Offers a label to the store.
    pub(crate) fn offer(&mut self, label: &Label<T::State>) -> Result<(), Crowded>
        requires { Few (2 ^ 40) self.old.progress }
        ensures { Comes self.old self.new (is_ok result) (offer_at (hand self.old) (answers self.old) label.now (so_far self.old)) }
    {
        if self.turned_away(label) {
            self.progress.counts.turned += 1;
            return Ok(());
        }
        self.progress.counts.struck += strike(self.tier, &mut self.store[..self.used], label);
        let Some(place) = self.first_blank() else {
            return Err(Crowded);
        };
        self.used = self.used.max(place + 1);
        self.store[place] = *label;
        self.progress.counts.kept += 1;
        Ok(())
    }
}
