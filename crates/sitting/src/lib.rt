//! A sitting: a pile with a number of vans, reached by set, tighten and price alone.
#![tactic(auto)]

mod refusal;
mod runs;
mod told;

ghost use Rattle.std.specs.Prelude.{◌≡◌};
ghost use Rattle.tier.specs.Refusals.{Did};
ghost use Rattle.price.specs.Prices.{IsPriced};

use price::{Label, PriceRefusal, Priced, price};
pub use refusal::CallRefusal;
use stops::StopSet;
use tier::{Refusal, Tier};
pub use told::{Answer, Call, Done};

/// A pile at whatever value it stands, and a number of vans. It holds the pile: only the calls of the
/// sitting reach it.
#[derive(Drop)]
pub struct Sitting<T> {
    pile: T,
    vans: usize,
}

// Each call says that the vans stay: a call with a `&mut` may change any field.
impl<T: Tier> Sitting<T> {
    /// Opens a sitting on the pile as it stands, with any number of vans.
    pub fn open(pile: T, vans: usize) -> Self
        ensures pile { result.pile ≡ pile }
        ensures vans { result.vans ≡ vans }
    {
        Sitting { pile, vans }
    }

    /// A set goes to the pile.
    pub fn set(&mut self, tier: usize, index: usize, amount: i64) -> Result<(), Refusal>
        ensures did { Did (T.meaning.sets (T.value self.old.pile) tier index amount) (T.value self.old.pile) result (T.value self.new.pile) }
        ensures vans { self.new.vans ≡ self.old.vans }
    {
        self.pile.set(tier, index, amount)
    }

    /// A tighten goes to the pile.
    // Four numbers, as the rules of this project name the call; each tier takes them apart at once.
    pub fn tighten(
        &mut self,
        tier: usize,
        index: usize,
        members: StopSet,
        amount: i64,
    ) -> Result<(), Refusal>
        ensures did { Did (T.meaning.tightens (T.value self.old.pile) tier index members.word amount) (T.value self.old.pile) result (T.value self.new.pile) }
        ensures vans { self.new.vans ≡ self.old.vans }
    {
        self.pile.tighten(tier, index, members, amount)
    }

    /// The lowest route over the pile, and the floor under every plan for the sitting's vans. Labels
    /// are kept in the store, and the route goes into the row; what they held plays no part in the
    /// answer. The sitting stays as it is.
    pub fn price(
        &self,
        store: &mut [Label<T::State>],
        row: &mut [usize],
    ) -> Result<Priced<usize>, PriceRefusal>
        ensures { IsPriced (T.meaning.answers (T.value self.now.pile)) self.now.vans store.old store.new row.old row.new result }
    {
        price(&self.pile, self.vans, store, row)
    }
}
