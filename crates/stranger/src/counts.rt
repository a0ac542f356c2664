//! The counting bottom as a tier.
ghost use Rattle.std.specs.Prelude.{◌≡◌, ◌==◌, if◌then◌else◌};
ghost use Rattle.tier.specs.Refusals.{number as «number_of»};
ghost use Rattle.stranger.specs.Counter.{counter};
ghost use Rattle.stranger.specs.Counting.{counter_lawful};

use super::counter::Counter;
use stops::StopSet;
use tier::{Refusal, Tier};

/// How many visits were made.
#[derive(Clone, Copy)]
pub struct Count {
    pub made: u8,
}

// Why this bottom takes no set and no tighten.
fn refused(tier: usize) -> Refusal
    ensures { «number_of» result ≡ (if tier == 1 then 7 else 6) }
{
    if tier == 1 {
        Refusal::NotAtThisTier
    } else {
        Refusal::NoSuchTier
    }
}

impl Tier for Counter {
    type State = Count;

    ghost meaning = { counter };

    ghost value = { λ t. record { stops = t.stops; most = t.most } };

    ghost lawful = { λ t. counter_lawful _ t.few t.short };

    fn stops(&self) -> usize {
        self.stops
    }

    fn tiers(&self) -> usize {
        1
    }

    fn start(&self) -> Count {
        Count { made: 0 }
    }

    fn key(&self, state: Count) -> u64 {
        u64::from(state.made)
    }

    fn reach(&self, state: Count, from: usize, to: usize) -> Option<(Count, i64)> {
        if to == from
            || to == 0
            || to > self.stops
            || from > self.stops
            || state.made >= self.most
        {
            return None;
        }
        let next = Count {
            made: state.made + 1,
        };
        Some((next, 10 * to as i64 + 1))
    }

    fn finish(&self, state: Count, from: usize) -> Option<i64> {
        (1..=self.stops).contains(&from).then_some(5)
    }

    fn gap(&self, a: Count, b: Count) -> Option<u64> {
        (a.made <= b.made).then_some(0)
    }

    fn credit(&self) -> i64 {
        0
    }

    fn set(&mut self, tier: usize, index: usize, amount: i64) -> Result<(), Refusal> {
        Err(refused(tier))
    }

    fn tighten(
        &mut self,
        tier: usize,
        index: usize,
        members: StopSet,
        amount: i64,
    ) -> Result<(), Refusal> {
        Err(refused(tier))
    }
}
