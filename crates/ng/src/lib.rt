//! The ng-route relaxation, as a layer over any tier.
//!
//! A state remembers some of the stops that it visited and cannot reach those again. On reaching a
//! stop it forgets what is not in that stop's neighbourhood.
#![tactic(auto)]

ghost use Rattle.std.specs.Prelude.{◌≡◌, ◌<◌};
ghost use Rattle.stops.specs.Stops.{most_places};
ghost use Rattle.layer.specs.Layers.{layer_at};
ghost use Rattle.ng.specs.Ng.{near_of, first_near, recall, ng as «ng_meaning», ng_pairing, ng_kind};
ghost use Rattle.layer.proofs.Lawful.{made_lawful};
ghost use Rattle.ng.specs.Laws.{AnyTable, ng_kind_laws};

use std::array;
use stops::{MOST_PLACES, StopSet};
use tier::{MOST_TIERS, Refusal, Tier, height_over};

/// The state below, and the stops that are remembered.
#[derive(Clone, Copy)]
pub struct NgState<S> {
    pub below: S,
    pub memory: StopSet,
}

/// Stands on any tier; `near` has the neighbourhood of each stop.
#[derive(Drop)]
pub struct Ng<B> {
    below: B,
    near: [StopSet; MOST_PLACES],
}

// The neighbourhoods at first: each place alone.
fn each_alone() -> [StopSet; MOST_PLACES]
    ensures { result ≡ first_near }
{
    array::from_fn(StopSet::just)
}

// What is remembered on reaching a stop with this neighbourhood.
fn remembered(memory: StopSet, near: StopSet, stop: usize) -> StopSet
    requires { stop < most_places }
    ensures { result.word ≡ recall near.word stop memory.word }
{
    memory.common(near).joined(StopSet::just(stop))
}

impl<B: Tier> Ng<B> {
    /// Over the tier below, with each stop alone in its neighbourhood.
    pub fn new(below: B) -> Ng<B>
        ensures below { result.below ≡ below }
        ensures near { result.near ≡ first_near }
    {
        Ng {
            below,
            near: each_alone(),
        }
    }

    // The neighbourhood of a stop.
    fn neighbours(&self, stop: usize) -> StopSet
        requires { stop < most_places }
        ensures { result.word ≡ near_of self.now.near stop }
    {
        self.near[stop]
    }
}

// Each layer is a record of its own over the state below, as the rules of this project ask: so each hands
// down by itself what it does not change.
impl<B: Tier> Tier for Ng<B> {
    type State = NgState<B::State>;

    ghost meaning = { «ng_meaning» B.Tier.meaning };

    ghost value = { λ t. layer_at (B.Tier.value t.below) t.near };

    ghost lawful = { λ t. made_lawful ng_pairing ng_kind AnyTable ng_kind_laws B.Tier.meaning (B.Tier.value t.below) t.near (B.Tier.lawful t.below) tt };

    fn stops(&self) -> usize {
        self.below.stops()
    }

    fn tiers(&self) -> usize {
        height_over(self.below.tiers())
    }

    fn start(&self) -> NgState<B::State> {
        NgState {
            below: self.below.start(),
            memory: StopSet::empty(),
        }
    }

    fn key(&self, state: NgState<B::State>) -> u64 {
        self.below.key(state.below)
    }

    fn reach(
        &self,
        state: NgState<B::State>,
        from: usize,
        to: usize,
    ) -> Option<(NgState<B::State>, i64)> {
        if self.tiers() > MOST_TIERS {
            return None;
        }
        let (below, charge) = self.below.reach(state.below, from, to)?;
        if state.memory.has(to) {
            return None;
        }
        let memory = remembered(state.memory, self.neighbours(to), to);
        Some((NgState { below, memory }, charge))
    }

    fn finish(&self, state: NgState<B::State>, from: usize) -> Option<i64> {
        if self.tiers() > MOST_TIERS {
            return None;
        }
        self.below.finish(state.below, from)
    }

    fn gap(&self, a: NgState<B::State>, b: NgState<B::State>) -> Option<u64> {
        if self.tiers() > MOST_TIERS {
            return Some(0);
        }
        let gap = self.below.gap(a.below, b.below)?;
        a.memory.within(b.memory).then_some(gap)
    }

    fn credit(&self) -> i64 {
        if self.tiers() > MOST_TIERS {
            return 0;
        }
        self.below.credit()
    }

    fn set(&mut self, tier: usize, index: usize, amount: i64) -> Result<(), Refusal> {
        if tier == self.tiers() {
            return Err(Refusal::NotAtThisTier);
        }
        self.below.set(tier, index, amount)
    }

    fn tighten(
        &mut self,
        tier: usize,
        index: usize,
        members: StopSet,
        amount: i64,
    ) -> Result<(), Refusal> {
        if tier != self.tiers() {
            return self.below.tighten(tier, index, members, amount);
        }
        let stops = self.below.stops();
        if !(1..=stops).contains(&index) {
            return Err(Refusal::NoSuchIndex);
        }
        if !members.all_stops(stops) {
            return Err(Refusal::BadMembers);
        }
        if amount != 0 {
            return Err(Refusal::BadAmount);
        }
        self.near[index] = self.neighbours(index).joined(members);
        Ok(())
    }
}
