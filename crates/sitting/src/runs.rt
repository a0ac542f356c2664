//! Lists of calls on a sitting, one after the other.
ghost use Rattle.std.specs.Prelude.{◌≡◌, map, replicate, IfOk, vec_len, OnErr};
ghost use Rattle.labelling.specs.Labelling.{by_key};
ghost use Rattle.calls.specs.Calls.{priced, step, run};
ghost use Rattle.calls.specs.Promises.{Promise, Carried, CutShort};
ghost use Rattle.price.specs.Prices.{answered};
ghost use Rattle.sitting.specs.Answers.{called, meant, judged as «judged_of»};

use crate::Sitting;
use crate::refusal::CallRefusal;
use crate::told::{Answer, Call, Done};
use price::{Label, Lowest, PriceRefusal, Priced, ROW_LENGTH, refuse_early};
use std::alloc::{AllocError, Global};
use tier::{Refusal, Tier};

// So many of one value.
// `vec!` clones, and no law says that a clone of a `Copy` value equals it.
fn filled<X: Copy>(heap: Global, count: usize, value: X) -> Result<Vec<X>, AllocError>
    ensures { IfOk result (λ v. (v.items ≡ replicate count value) × (vec_len v ≡ count)) }
{
    let mut all = Vec::new(heap);
    all.resize(count, value)?;
    Ok(all)
}

// What a set or tighten answers.
fn judged(res: Result<(), Refusal>) -> Answer
    ensures { meant result ≡ «judged_of» res }
{
    res?;
    Ok(Done::Taken)
}

// What a price answers, with its route taken out of the row.
fn told(res: Result<Priced<usize>, PriceRefusal>, mut row: Vec<usize>) -> Answer
    ensures { meant result ≡ answered res row.items }
{
    let Priced { lowest, counts } = res?;
    let lowest = lowest.map(|Lowest { cost, route, floor }| {
        row.truncate(route);
        Lowest {
            cost,
            route: row,
            floor,
        }
    });
    Ok(Done::Priced(Priced { lowest, counts }))
}

// That the vans stay is said at each call: a call with a `&mut` may change any field.
impl<T: Tier> Sitting<T> {
    // A price with a store and a row of its own, made only if it is not refused before; a row longer
    // than a price needs answers alike.
    fn price_alone(&self, heap: Global, places: usize, row: usize) -> Result<Answer, AllocError>
        ensures { IfOk result (λ a. meant a ≡ priced (T.meaning.answers (T.value self.now.pile)) (by_key (T.meaning.answers (T.value self.now.pile))) self.now.vans places row) }
    {
        if let Err(refusal) = refuse_early(&self.pile, self.vans, places, row) {
            return Ok(Err(CallRefusal::from(refusal)));
        }
        let mut store = filled(heap, places, Label::blank(self.pile.start()))?;
        let mut row = filled(heap, ROW_LENGTH, 0)?;
        let result = self.price(&mut store, &mut row);
        Ok(told(result, row))
    }

    // One call, and its answer.
    fn make(&mut self, heap: Global, call: Call) -> Result<Answer, AllocError>
        ensures answer { IfOk result (λ a. meant a ≡ (step T.meaning self.old.vans (T.value self.old.pile) (called call)).0) }
        ensures after { T.value self.new.pile ≡ (step T.meaning self.old.vans (T.value self.old.pile) (called call)).1 }
        ensures vans { self.new.vans ≡ self.old.vans }
    {
        match call {
            Call::Set {
                tier,
                index,
                amount,
            } => Ok(judged(self.set(tier, index, amount))),
            Call::Tighten {
                tier,
                index,
                members,
                amount,
            } => Ok(judged(self.tighten(tier, index, members, amount))),
            Call::Price { places, row } => self.price_alone(heap, places, row),
        }
    }

    // The calls one after the other. Apart from `carry_out`, whose promises then follow from these clauses
    // alone, so that a wrong call there is refused where it stands.
    fn make_all(&mut self, heap: Global, calls: &[Call]) -> Result<Vec<Answer>, AllocError>
        ensures carried { IfOk result (λ out. Carried T.meaning self.old.vans (T.value self.old.pile) (map called calls.now) (map meant out.items) (T.value self.new.pile)) }
        ensures cut_short { OnErr result (CutShort T.meaning self.old.vans (T.value self.old.pile) (map called calls.now) (T.value self.new.pile)) }
        ensures promise { Promise T.meaning self.old.vans (T.value self.old.pile) (run T.meaning self.old.vans (T.value self.old.pile) (map called calls.now)) }
        ensures vans { self.new.vans ≡ self.old.vans }
    {
        let mut answers = Vec::new(heap);
        for call in calls {
            let answer = self.make(heap, *call)?;
            answers.push(answer)?;
        }
        Ok(answers)
    }

    /// Carries out the calls one after the other, each on the sitting that the one before left, and
    /// answers each of them. For want of memory it stops short, with the sitting where the calls
    /// already made left it.
    pub fn carry_out(&mut self, heap: Global, calls: &[Call]) -> Result<Vec<Answer>, AllocError>
        ensures carried { IfOk result (λ out. Carried T.meaning self.old.vans (T.value self.old.pile) (map called calls.now) (map meant out.items) (T.value self.new.pile)) }
        ensures cut_short { OnErr result (CutShort T.meaning self.old.vans (T.value self.old.pile) (map called calls.now) (T.value self.new.pile)) }
        ensures promise { Promise T.meaning self.old.vans (T.value self.old.pile) (run T.meaning self.old.vans (T.value self.old.pile) (map called calls.now)) }
        ensures vans { self.new.vans ≡ self.old.vans }
    {
        self.make_all(heap, calls)
    }
}
