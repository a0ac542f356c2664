//! The type of a bottom.
ghost use Rattle.std.specs.Prelude.{◌≡◌, if◌then◌else◌, Some, None, pos, ◌-ℤ◌};
ghost use Rattle.book.specs.Books.{contents, is_stop, can_go, visit_at, leg_at};
ghost use Rattle.book.proofs.Kept.{in_ranges};
ghost use Rattle.duals.specs.Duals.{dual_of, zero_duals};
ghost use Rattle.duals.specs.Bottoms.{bottom_at, bottom as «bottom_meaning»};
ghost use Rattle.bottom.specs.Driving.{driven, charged, gone_home, base_of};
ghost use Rattle.duals.proofs.Lawful.{bottom_lawful};

use super::rules::Rules;
use book::{Book, Leg, Visit};
use duals::{Duals, refused_tighten};
use std::marker::PhantomData;
use stops::StopSet;
use tier::{Refusal, Tier};

/// A book with duals, over which vans drive by the rules `R`.
#[derive(Drop)]
pub struct Bottom<R> {
    book: Book,
    duals: Duals,
    rules: PhantomData<R>,
    ghost agree: { duals.stops ≡ book.stops },
}

impl<R: Rules> Bottom<R> {
    /// The bottom over a book, with all duals 0.
    pub fn new(book: Book) -> Bottom<R>
        ensures { bottom_at (contents result.book) result.duals.amounts ≡ bottom_at (contents book) zero_duals }
    {
        let duals = Duals::new(book.stops());
        Bottom {
            book,
            duals,
            rules: PhantomData,
        }
    }

    /// The state after a leg, or why it is barred.
    pub fn drive(&self, state: R::State, from: usize, to: usize) -> Result<R::State, R::Barred>
        ensures { result ≡ driven R.driving (contents self.now.book) state from to }
    {
        let (leg, visit) = self.way(from, to).ok_or(R::no_leg())?;
        R::drive(self.book.fleet(), leg, visit, state)
    }

    /// The state after a leg and its charge, or why it is barred.
    pub fn step(
        &self,
        state: R::State,
        from: usize,
        to: usize,
    ) -> Result<(R::State, i64), R::Barred>
        ensures { result ≡ charged (pos (leg_at (contents self.now.book) from to).cost -ℤ dual_of self.now.duals.amounts to) (driven R.driving (contents self.now.book) state from to) }
    {
        let (leg, visit) = self.way(from, to).ok_or(R::no_leg())?;
        let next = R::drive(self.book.fleet(), leg, visit, state)?;
        Ok((next, self.duals.charge(leg.cost, to)))
    }

    /// The leg home, or why it is barred.
    pub fn go_home(&self, state: R::State, from: usize) -> Result<Leg, R::Barred>
        ensures { result ≡ gone_home R.driving (contents self.now.book) state from }
    {
        let leg = self.way_home(from).ok_or(R::no_leg())?;
        R::go_home(leg, state)
    }

    // The leg from a place to a stop other than that place, with the visit of that stop.
    fn way(&self, from: usize, to: usize) -> Option<(Leg, Visit)>
        ensures { result ≡ (if can_go (contents self.now.book) from to then Some (leg_at (contents self.now.book) from to, visit_at (contents self.now.book) to) else None) }
    {
        if from == to {
            return None;
        }
        let leg = self.book.leg(from, to)?;
        let visit = self.book.visit(to)?;
        Some((leg, visit))
    }

    // The leg home from a stop.
    fn way_home(&self, from: usize) -> Option<Leg>
        ensures { result ≡ (if is_stop (contents self.now.book) from then Some (leg_at (contents self.now.book) from 0) else None) }
    {
        if from == 0 {
            return None;
        }
        self.book.leg(from, 0)
    }
}

impl<R: Rules> Tier for Bottom<R> {
    type State = R::State;

    ghost meaning = { «bottom_meaning» (base_of R.driving) };

    ghost value = { λ t. bottom_at (contents t.book) t.duals.amounts };

    ghost lawful = { λ t. bottom_lawful (base_of R.driving) (contents t.book) (R.lawful (contents t.book) (in_ranges t.book)) t.duals.amounts t.duals.ranged };

    fn stops(&self) -> usize {
        self.book.stops()
    }

    fn tiers(&self) -> usize {
        1
    }

    fn start(&self) -> R::State {
        R::start(self.book.fleet())
    }

    fn key(&self, state: R::State) -> u64 {
        R::key(state)
    }

    fn reach(&self, state: R::State, from: usize, to: usize) -> Option<(R::State, i64)> {
        self.step(state, from, to).ok()
    }

    fn finish(&self, state: R::State, from: usize) -> Option<i64> {
        let home = self.go_home(state, from).ok()?;
        Some(i64::from(home.cost))
    }

    fn gap(&self, a: R::State, b: R::State) -> Option<u64> {
        R::gap(a, b)
    }

    fn credit(&self) -> i64 {
        self.duals.credit()
    }

    fn set(&mut self, tier: usize, index: usize, amount: i64) -> Result<(), Refusal> {
        self.duals.set(tier, index, amount)
    }

    fn tighten(
        &mut self,
        tier: usize,
        index: usize,
        members: StopSet,
        amount: i64,
    ) -> Result<(), Refusal> {
        Err(refused_tighten(tier))
    }
}
