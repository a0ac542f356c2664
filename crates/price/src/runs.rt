//! Labelling from the root until no label waits.
ghost use Rattle.std.specs.Prelude.{◌≡◌, ◌<◌, ◌≤◌, length, is_ok, None};
ghost use Rattle.tier.specs.Laws.{most_tiers};
ghost use Rattle.labelling.specs.Labelling.{by_key, begin, labelling};
ghost use Rattle.store.specs.Works.{Beside, Matches};
ghost use Rattle.price.specs.Progress.{outcome};

use crate::desk::Desk;
use crate::offers::Crowded;
use tier::Tier;

impl<T: Tier> Desk<'_, T> {
    ghost use Rattle.price.specs.Desks.{answers, hand, so_far};

    /// Treats the label that is next, until none waits.
    pub(crate) fn treat_all(&mut self) -> Result<(), Crowded>
        requires few { (answers self.old).tiers ≤ most_tiers }
        requires places { 0 < length self.old.store.now }
        requires begun { Beside (hand self.old) (answers self.old) (length self.old.store.now) None (so_far self.old) (begin (answers self.old)) }
        ensures lent { self.new.store.ghost_name ≡ self.old.store.ghost_name }
        ensures comes { Matches (hand self.old) (answers self.old) (length self.old.store.now) None (outcome (is_ok result) self.new.store.now self.new.progress) (labelling (answers self.old) (by_key (answers self.old)) (length self.old.store.now)) }
    {
        while let Some(place) = self.choose() {
            self.treat(place)?;
        }
        Ok(())
    }
}
