//! One price, from its refusals to its answer.
ghost use Rattle.std.specs.Prelude.{◌≡◌, ◌^◌, ◌<◌, ◌≤◌, length, pos, None, unsigned_abs};
ghost use Rattle.std.specs.Int.{int_min};
ghost use Rattle.tier.specs.Laws.{most_tiers, greatest_key};
ghost use Rattle.labelling.specs.Labelling.{by_key, labelling};
ghost use Rattle.calls.specs.Calls.{most_vans, early_refusal, floor as «floor_of»};
ghost use Rattle.price.specs.Prices.{IsPriced, Labelled, ToldFrom, Tells};

use crate::answer::{Lowest, Priced};
use crate::desk::Desk;
use crate::label::Label;
use crate::offers::Crowded;
use crate::progress::Progress;
use crate::rows::{clear, write_route, zero_from};
use calls::{PriceRefusal, refuse_early};
use tier::Tier;

// The lesser of 0 and the lowest. A function of its own, for the proof of the floor uses this clause.
fn lesser(cost: i64) -> i64
    ensures { result ≡ int_min (pos 0) cost }
{
    0i64.min(cost)
}

// A pile and a number of vans, neither of which is refused.
#[derive(Drop)]
struct Query<'a, T: Tier> {
    pile: &'a T,
    vans: usize,
    ghost few: { (T.meaning.answers (T.value pile.now)).tiers ≤ most_tiers },
    ghost fleet: { vans ≤ most_vans },
}

impl<T: Tier> Query<'_, T> {
    // Labels from the root on; where the places do not suffice, the store is blank.
    fn label_all(&self, store: &mut [Label<T::State>]) -> Result<Progress, PriceRefusal>
        requires places { 0 < length store.old }
        requires short { length store.old ≤ 2 ^ 18 }
        ensures { let m = T.meaning.answers (T.value self.now.pile.now) in Labelled m (length store.old) (labelling m (by_key m) (length store.old)) result store.new }
    {
        let mut desk = Desk::begin(self.pile, store);
        match desk.treat_all() {
            Ok(()) => Ok(desk.progress),
            Err(Crowded) => {
                clear(store, self.pile.start());
                Err(PriceRefusal::StoreFull)
            }
        }
    }

    // The credit, and for each van the lesser of 0 and the lowest.
    fn floor(&self, cost: i64) -> i64
        requires { unsigned_abs cost ≤ 2 ^ 50 }
        ensures { result ≡ «floor_of» (T.meaning.answers (T.value self.now.pile.now)) self.now.vans cost }
    {
        self.pile.credit() + self.vans as i64 * lesser(cost)
    }

    // What the end of labelling tells; the route goes into the row.
    fn tell(
        &self,
        store: &[Label<T::State>],
        progress: Progress,
        row: &mut [usize],
    ) -> Priced<usize>
        requires long { greatest_key ≤ length row.old }
        requires labelled { ToldFrom (T.meaning.answers (T.value self.now.pile.now)) (length store.now) store.now progress }
        ensures { Tells (T.meaning.answers (T.value self.now.pile.now)) self.now.vans (length store.now) result row.old row.new }
    {
        let counts = progress.counts;
        match progress.best {
            None => {
                zero_from(row, 0);
                Priced {
                    lowest: None,
                    counts,
                }
            }
            Some((cost, last)) => {
                let route = write_route(store, last, row);
                let floor = self.floor(cost);
                Priced {
                    lowest: Some(Lowest { cost, route, floor }),
                    counts,
                }
            }
        }
    }

    // A price that is not refused before a label is made; apart, so that what the refusals must leave
    // is required here.
    fn price(
        &self,
        store: &mut [Label<T::State>],
        row: &mut [usize],
    ) -> Result<Priced<usize>, PriceRefusal>
        requires { None ≡ early_refusal (T.meaning.answers (T.value self.now.pile.now)) self.now.vans (length store.old) (length row.old) }
        ensures { IsPriced (T.meaning.answers (T.value self.now.pile.now)) self.now.vans store.old store.new row.old row.new result }
    {
        let progress = self.label_all(store)?;
        Ok(self.tell(store, progress, row))
    }
}

/// The lowest reduced cost of a route over the pile, the route, and the floor under every plan for so
/// many vans. Labels are kept in the store, one to a place; the route goes into the row.
///
/// What the store and the row held before plays no part in the answer. A refusal leaves the row as it
/// was; the store is then as it was too, or blank if its places did not suffice.
pub fn price<T: Tier>(
    pile: &T,
    vans: usize,
    store: &mut [Label<T::State>],
    row: &mut [usize],
) -> Result<Priced<usize>, PriceRefusal>
    ensures { IsPriced (T.meaning.answers (T.value pile.now)) vans store.old store.new row.old row.new result }
{
    refuse_early(pile, vans, store.len(), row.len())?;
    Query { pile, vans }.price(store, row)
}
