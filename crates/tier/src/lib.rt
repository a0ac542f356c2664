//! The tier interface: what a resource model answers, by its meaning, and the laws that it keeps.
//!
//! A tier is a resource model along a route. A bottom stands by itself; a layer stands on a tier
//! and adds to its states; a pile is a bottom under layers.
#![tactic(auto)]

mod height;
mod refusal;
mod replays;

ghost use Rattle.std.specs.Prelude.{◌≡◌};
ghost use Rattle.tier.specs.Meaning.{Meaning};
ghost use Rattle.tier.specs.Laws.{Lawful};
ghost use Rattle.tier.specs.Refusals.{Did};

pub use height::{MOST_TIERS, height_over};
pub use refusal::Refusal;
pub use replays::replay;
use stops::StopSet;

/// A resource model along a route. Its meaning fixes the answer to every question for all
/// arguments, and what each call gives; `value` is where this tier stands now.
pub trait Tier {
    type State: Copy;

    ghost meaning: { Meaning Self.State };

    ghost value: { Self → meaning.Value };

    /// The stops are 1 to this number; place 0 is the depot.
    fn stops(&self) -> usize
        ensures { result ≡ (meaning.answers (value self.now)).stops };

    /// 1 for a bottom; for a layer one more than below, held at 5.
    fn tiers(&self) -> usize
        ensures { result ≡ (meaning.answers (value self.now)).tiers };

    /// The state at the depot.
    fn start(&self) -> Self::State
        ensures { result ≡ (meaning.answers (value self.now)).start };

    /// A whole number that rises along each route.
    fn key(&self, state: Self::State) -> u64
        ensures { result ≡ (meaning.answers (value self.now)).key state };

    /// The new state and the charge, or barred.
    fn reach(&self, state: Self::State, from: usize, to: usize) -> Option<(Self::State, i64)>
        ensures { result ≡ (meaning.answers (value self.now)).reach state from to };

    /// The charge for going home, or barred.
    fn finish(&self, state: Self::State, from: usize) -> Option<i64>
        ensures { result ≡ (meaning.answers (value self.now)).finish state from };

    /// Of two states that stand at one stop: by how much `a` may do worse than `b` in all that
    /// follows, or absent.
    fn gap(&self, a: Self::State, b: Self::State) -> Option<u64>
        ensures { result ≡ (meaning.answers (value self.now)).gap a b };

    /// The sum of the duals less the penalties.
    fn credit(&self) -> i64
        ensures { result ≡ (meaning.answers (value self.now)).credit };

    /// Puts the number at `index` of the tier at that height to `amount`, as a stop's dual or a
    /// cut's penalty; a refusal leaves the tier as it was.
    fn set(&mut self, tier: usize, index: usize, amount: i64) -> Result<(), Refusal>
        ensures { Did (meaning.sets (value self.old) tier index amount) (value self.old) result (value self.new) };

    /// Adds `members` to what the tier at that height remembers at `index`, or makes something new
    /// there; a refusal leaves the tier as it was.
    fn tighten(
        &mut self,
        tier: usize,
        index: usize,
        members: StopSet,
        amount: i64,
    ) -> Result<(), Refusal>
        ensures { Did (meaning.tightens (value self.old) tier index members.word amount) (value self.old) result (value self.new) };

    // The interface's sentences and the nine laws, of every value that the tier can come to.
    ghost lawful: { (t : Self) → Lawful meaning (value t) };
}
