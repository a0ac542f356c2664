//! Duals: the part that all bottoms share.
//!
//! A bottom's reach charges the cost of a leg less the dual of the stop reached; its credit is the
//! sum of the duals; set changes one of them.
#![tactic(auto)]

mod table;

ghost use Rattle.std.specs.Prelude.{◌≡◌, ◌≤◌, min, pos, ◌-ℤ◌};
ghost use Rattle.stops.specs.Stops.{most_stops};
ghost use Rattle.tier.specs.Refusals.{number as «number_of», Did};
ghost use Rattle.duals.specs.Duals.{dual_of, zero_duals, sum_of_duals, set_dual, tighten_refusal};

use stops::{MOST_PLACES, MOST_STOPS};
pub use table::Duals;
use tier::Refusal;

const MOST_DUAL: i64 = 1 << 30;

impl Duals {
    /// All duals 0; more than 60 stops count as 60.
    pub fn new(stops: usize) -> Duals
        ensures stops { result.stops ≡ min stops most_stops }
        ensures amounts { result.amounts ≡ zero_duals }
    {
        Duals {
            stops: stops.min(MOST_STOPS),
            amounts: [0; MOST_PLACES],
        }
    }

    /// The dual of a stop; what stands in the table at a number that is no stop, and 0 past it.
    pub fn dual(&self, stop: usize) -> i64
        ensures { result ≡ dual_of self.now.amounts stop }
    {
        self.amounts.get(stop).copied().unwrap_or(0)
    }

    /// What a leg to this stop is charged: its cost less the dual.
    pub fn charge(&self, cost: u32, to: usize) -> i64
        ensures { result ≡ pos cost -ℤ dual_of self.now.amounts to }
    {
        i64::from(cost) - self.dual(to)
    }

    /// The sum of the duals.
    pub fn credit(&self) -> i64
        ensures { result ≡ sum_of_duals self.now.amounts self.now.stops }
    {
        // A loop: that each partial sum fits a word is its invariant.
        let mut sum = 0i64;
        for dual in &self.amounts[1..=self.stops] {
            sum += *dual;
        }
        sum
    }

    /// Puts the dual of the stop `index` at `amount`; a refusal changes nothing.
    pub fn set(&mut self, tier: usize, index: usize, amount: i64) -> Result<(), Refusal>
        ensures did { Did (set_dual self.old.stops self.old.amounts tier index amount) self.old.amounts result self.new.amounts }
        ensures stops { self.new.stops ≡ self.old.stops }
    {
        if tier != 1 {
            return Err(Refusal::NoSuchTier);
        }
        if !(1..=self.stops).contains(&index) {
            return Err(Refusal::NoSuchIndex);
        }
        if !(-MOST_DUAL..=MOST_DUAL).contains(&amount) {
            return Err(Refusal::BadAmount);
        }
        self.amounts[index] = amount;
        Ok(())
    }
}

/// Why a bottom refuses a tighten: it takes none.
pub fn refused_tighten(tier: usize) -> Refusal
    ensures { «number_of» result ≡ tighten_refusal tier }
{
    if tier == 1 {
        Refusal::NotAtThisTier
    } else {
        Refusal::NoSuchTier
    }
}
