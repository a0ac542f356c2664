//! Cuts as a layer over any tier.
ghost use Rattle.std.specs.Prelude.{◌≡◌, []};
ghost use Rattle.layer.specs.Layers.{layer_at};
ghost use Rattle.cuts.specs.Contents.{cuts_of};
ghost use Rattle.cuts.specs.Layer.{cuts, cuts_pairing, cuts_kind};
ghost use Rattle.layer.proofs.Lawful.{made_lawful};
ghost use Rattle.tier.specs.Refusals.{Did};
ghost use Rattle.cuts.specs.Tables.{Good, set_penalty};
ghost use Rattle.cuts.specs.TablesLemmas.{cuts_kind_laws};
ghost use Rattle.cuts.specs.Arrays.{table_good};

use super::bits::Bits;
use super::table::CutTable;
use layer::{add_charge, add_gap};
use stops::StopSet;
use tier::{MOST_TIERS, Refusal, Tier, height_over};

/// The state below, with the bits of the cuts.
#[derive(Clone, Copy)]
pub struct CutsState<S> {
    pub below: S,
    pub bits: Bits,
}

/// Stands on any tier, and charges the penalties of its cuts.
#[derive(Drop)]
pub struct Cuts<B> {
    below: B,
    table: CutTable,
}

impl<B: Tier> Cuts<B> {
    /// A layer without cuts.
    pub fn new(below: B) -> Cuts<B>
        ensures below { result.below ≡ below }
        ensures table { cuts_of result.table ≡ [] }
    {
        Cuts {
            below,
            table: CutTable::new(),
        }
    }

    // A set at the layer's own height.
    fn set_own(&mut self, index: usize, amount: i64) -> Result<(), Refusal>
        ensures did { Did (set_penalty (cuts_of self.old.table) index amount) (cuts_of self.old.table) result (cuts_of self.new.table) }
        ensures below { self.new.below ≡ self.old.below }
    {
        self.table.set_penalty(index, amount)
    }
}

// Each layer is a record of its own over the state below, as the rules of this project ask: so each hands
// down by itself what it does not change.
impl<B: Tier> Tier for Cuts<B> {
    type State = CutsState<B::State>;

    ghost meaning = { cuts B.Tier.meaning };

    ghost value = { λ t. layer_at (B.Tier.value t.below) (cuts_of t.table) };

    ghost lawful = { λ t.
        let d = B.Tier.meaning in
        let v = B.Tier.value t.below in
        made_lawful cuts_pairing cuts_kind Good cuts_kind_laws d v (cuts_of t.table) (B.Tier.lawful t.below) (table_good (d.answers v).stops t.table) };

    fn stops(&self) -> usize {
        self.below.stops()
    }

    fn tiers(&self) -> usize {
        height_over(self.below.tiers())
    }

    fn start(&self) -> CutsState<B::State> {
        CutsState {
            below: self.below.start(),
            bits: Bits::none(),
        }
    }

    fn key(&self, state: CutsState<B::State>) -> u64 {
        self.below.key(state.below)
    }

    fn reach(
        &self,
        state: CutsState<B::State>,
        from: usize,
        to: usize,
    ) -> Option<(CutsState<B::State>, i64)> {
        if self.tiers() > MOST_TIERS {
            return None;
        }
        let (below, charge) = self.below.reach(state.below, from, to)?;
        let total = add_charge(charge, self.table.charge(to, state.bits))?;
        let bits = self.table.bits_after(to, state.bits);
        Some((CutsState { below, bits }, total))
    }

    fn finish(&self, state: CutsState<B::State>, from: usize) -> Option<i64> {
        if self.tiers() > MOST_TIERS {
            return None;
        }
        self.below.finish(state.below, from)
    }

    fn gap(&self, a: CutsState<B::State>, b: CutsState<B::State>) -> Option<u64> {
        if self.tiers() > MOST_TIERS {
            return Some(0);
        }
        let below = self.below.gap(a.below, b.below)?;
        add_gap(below, self.table.gap(a.bits, b.bits))
    }

    fn credit(&self) -> i64 {
        if self.tiers() > MOST_TIERS {
            return 0;
        }
        self.below.credit() - self.table.penalties() as i64
    }

    fn set(&mut self, tier: usize, index: usize, amount: i64) -> Result<(), Refusal> {
        if tier == self.tiers() {
            return self.set_own(index, amount);
        }
        self.below.set(tier, index, amount)
    }

    fn tighten(
        &mut self,
        tier: usize,
        index: usize,
        members: StopSet,
        amount: i64,
    ) -> Result<(), Refusal> {
        if tier == self.tiers() {
            return self
                .table
                .tighten(self.below.stops(), index, members, amount);
        }
        self.below.tighten(tier, index, members, amount)
    }
}
