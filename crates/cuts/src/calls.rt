//! Making a table of cuts, and changing it.
ghost use Rattle.std.specs.Prelude.{◌≡◌, ◌<◌, cond, Ok, Err, [], length, ◌==◌, unsigned_abs};
ghost use Rattle.tier.specs.Refusals.{Did};
ghost use Rattle.cuts.specs.Contents.{cuts_of};
ghost use Rattle.cuts.specs.Cuts.{most_cuts};
ghost use Rattle.cuts.specs.Tables.{in_range, three_stops, set_penalty, tighten_old, tighten_new, tighten_cut};

use super::cut::Cut;
use super::table::CutTable;
use arrayvec::ArrayVec;
use std::cmp::Ordering;
use stops::StopSet;
use tier::Refusal;

const MOST_PENALTY: u32 = 1 << 30;

// The amount as a penalty, which is 0 to 2^30.
fn as_penalty(amount: i64) -> Result<u32, Refusal>
    ensures { result ≡ cond (in_range amount) (Ok (unsigned_abs amount)) (Err Refusal.BadAmount) }
{
    match u32::try_from(amount) {
        Ok(penalty) if penalty <= MOST_PENALTY => Ok(penalty),
        _ => Err(Refusal::BadAmount),
    }
}

// Whether the members are three of the stops 1 to `stops`.
fn are_three(stops: usize, members: StopSet) -> bool
    ensures { result ≡ three_stops stops members.word }
{
    members.all_stops(stops) && members.count(stops) == 3
}

impl CutTable {
    /// The table without cuts.
    pub(crate) fn new() -> CutTable
        ensures { cuts_of result ≡ [] }
    {
        CutTable {
            cuts: ArrayVec::new(),
        }
    }

    /// Puts the penalty of the cut `index` at `amount`; a refusal changes nothing.
    pub(crate) fn set_penalty(&mut self, index: usize, amount: i64) -> Result<(), Refusal>
        ensures { Did (set_penalty (cuts_of self.old) index amount) (cuts_of self.old) result (cuts_of self.new) }
    {
        let cut = self.cuts.get_mut(index).ok_or(Refusal::NoSuchIndex)?;
        cut.penalty = as_penalty(amount)?;
        Ok(())
    }

    /// Adds `members` to the memory of the cut `index`, or makes them a new cut at the next index,
    /// whose penalty is `amount`; a refusal changes nothing.
    pub(crate) fn tighten(
        &mut self,
        stops: usize,
        index: usize,
        members: StopSet,
        amount: i64,
    ) -> Result<(), Refusal>
        ensures { Did (tighten_cut stops (cuts_of self.old) index members.word amount) (cuts_of self.old) result (cuts_of self.new) }
    {
        match index.cmp(&self.cuts.len()) {
            Ordering::Less => self.remember(stops, index, members, amount),
            Ordering::Equal => self.add(stops, members, amount),
            Ordering::Greater => Err(Refusal::NoSuchIndex),
        }
    }

    // Whether there is no place for another cut.
    fn is_full(&self) -> bool
        ensures { result ≡ (length (cuts_of self.now) == most_cuts) }
    {
        self.cuts.is_full()
    }

    // Adds to the memory of a cut.
    fn remember(
        &mut self,
        stops: usize,
        index: usize,
        members: StopSet,
        amount: i64,
    ) -> Result<(), Refusal>
        requires { index < length (cuts_of self.old) }
        ensures { Did (tighten_old stops (cuts_of self.old) index members.word amount) (cuts_of self.old) result (cuts_of self.new) }
    {
        if !members.all_stops(stops) {
            return Err(Refusal::BadMembers);
        }
        if amount != 0 {
            return Err(Refusal::BadAmount);
        }
        self.cuts[index] = self.cuts[index].remembering(members);
        Ok(())
    }

    // Makes a new cut.
    fn add(&mut self, stops: usize, members: StopSet, amount: i64) -> Result<(), Refusal>
        ensures { Did (tighten_new stops (cuts_of self.old) members.word amount) (cuts_of self.old) result (cuts_of self.new) }
    {
        if self.is_full() {
            return Err(Refusal::TableFull);
        }
        if !are_three(stops, members) {
            return Err(Refusal::BadMembers);
        }
        let penalty = as_penalty(amount)?;
        self.cuts.push(Cut {
            stops: members,
            memory: members,
            penalty,
        });
        Ok(())
    }
}
