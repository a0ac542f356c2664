//! The rules of a kind of bottom.
ghost use Rattle.std.specs.Prelude.{◌≡◌, ℕ};
ghost use Rattle.book.specs.Books.{Contents};
ghost use Rattle.book.proofs.Kept.{InRanges};
ghost use Rattle.duals.specs.Bottoms.{BaseLaws};
ghost use Rattle.bottom.specs.Driving.{Driving, gone_home, home_cost, base_of};

use book::{Fleet, Leg, Visit};

/// How the vans of one kind of bottom drive, whatever the book and the duals.
pub trait Rules {
    type State: Copy;

    /// Why a leg is barred.
    type Barred: Copy;

    ghost driving: { Driving Self.State Self.Barred };

    /// The state at the depot.
    fn start(fleet: Fleet) -> Self::State
        ensures { result ≡ driving.start fleet };

    /// A whole number that rises along each route.
    fn key(state: Self::State) -> u64
        ensures { result ≡ driving.key state };

    /// That there is no such leg.
    fn no_leg() -> Self::Barred
        ensures { result ≡ driving.no_leg };

    /// The state after a leg to this visit, or why it is barred.
    fn drive(
        fleet: Fleet,
        leg: Leg,
        visit: Visit,
        state: Self::State,
    ) -> Result<Self::State, Self::Barred>
        ensures { result ≡ driving.drive fleet leg visit state };

    /// The leg home, or why it is barred.
    fn go_home(leg: Leg, state: Self::State) -> Result<Leg, Self::Barred>
        ensures { result ≡ driving.go_home leg state };

    /// By how much `a` may do worse than `b`, or absent.
    fn gap(a: Self::State, b: Self::State) -> Option<u64>
        ensures { result ≡ driving.gap a b };

    // The way home costs what its leg does.
    ghost homes: { (b : Contents) (s : Self.State) (i : ℕ) → driving.finish b s i ≡ home_cost (gone_home driving b s i) };

    // The laws that know no duals, over every book.
    ghost lawful: { (b : Contents) → InRanges b → BaseLaws (base_of driving b) };
}
