//! A layer that passes every question down.
ghost use Rattle.std.specs.Prelude.{◌≡◌};
ghost use Rattle.stranger.specs.Through.{through};
ghost use Rattle.stranger.specs.Passing.{through_lawful};

use stops::StopSet;
use tier::{MOST_TIERS, Refusal, Tier, height_over};

/// The state below, and nothing more.
#[derive(Clone, Copy)]
pub struct Passed<S> {
    pub below: S,
}

/// Stands on any tier and adds nothing to it.
#[derive(Drop)]
pub struct Through<B> {
    below: B,
}

impl<B: Tier> Through<B> {
    pub fn new(below: B) -> Through<B>
        ensures { result.below ≡ below }
    {
        Through { below }
    }
}

// Each layer is a record of its own over the state below, as the rules of this project ask: so each hands
// down by itself what it does not change.
impl<B: Tier> Tier for Through<B> {
    type State = Passed<B::State>;

    ghost meaning = { through B.Tier.meaning };

    ghost value = { λ t. B.Tier.value t.below };

    ghost lawful = { λ t. through_lawful B.Tier.meaning (B.Tier.value t.below) (B.Tier.lawful t.below) };

    fn stops(&self) -> usize {
        self.below.stops()
    }

    fn tiers(&self) -> usize {
        height_over(self.below.tiers())
    }

    fn start(&self) -> Passed<B::State> {
        Passed {
            below: self.below.start(),
        }
    }

    fn key(&self, state: Passed<B::State>) -> u64 {
        self.below.key(state.below)
    }

    fn reach(
        &self,
        state: Passed<B::State>,
        from: usize,
        to: usize,
    ) -> Option<(Passed<B::State>, i64)> {
        if self.tiers() > MOST_TIERS {
            return None;
        }
        let (below, charge) = self.below.reach(state.below, from, to)?;
        Some((Passed { below }, charge))
    }

    fn finish(&self, state: Passed<B::State>, from: usize) -> Option<i64> {
        if self.tiers() > MOST_TIERS {
            return None;
        }
        self.below.finish(state.below, from)
    }

    fn gap(&self, a: Passed<B::State>, b: Passed<B::State>) -> Option<u64> {
        if self.tiers() > MOST_TIERS {
            return Some(0);
        }
        self.below.gap(a.below, b.below)
    }

    fn credit(&self) -> i64 {
        if self.tiers() > MOST_TIERS {
            return 0;
        }
        self.below.credit()
    }

    fn set(&mut self, tier: usize, index: usize, amount: i64) -> Result<(), Refusal> {
        if tier == self.tiers() {
            return Err(Refusal::NotAtThisTier);
        }
        self.below.set(tier, index, amount)
    }

    fn tighten(
        &mut self,
        tier: usize,
        index: usize,
        members: StopSet,
        amount: i64,
    ) -> Result<(), Refusal> {
        if tier == self.tiers() {
            return Err(Refusal::NotAtThisTier);
        }
        self.below.tighten(tier, index, members, amount)
    }
}
