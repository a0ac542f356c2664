//! A turn of labelling: the label chosen tries to finish, and then goes on to every stop.
ghost use Rattle.std.specs.Prelude.{◌≡◌, ◌^◌, ◌<◌, is_ok, slice_index_or};
ghost use Rattle.std.specs.List.{range_with_len};
ghost use Rattle.store.specs.Works.{go_on_at, go_on_to_at, treat_at, try_finish_at};
ghost use Rattle.price.specs.Labels.{blank, view, writing};
ghost use Rattle.price.specs.Progress.{lower as «lower_of», Few, Sound};

use crate::desk::Desk;
use crate::label::{Label, Parent, Status};
use crate::offers::Crowded;
use tier::Tier;

// The lower of a new total and the best so far; of equal totals the earlier stays, so no `min` of the pairs.
fn lower(total: i64, place: usize, best: Option<(i64, usize)>) -> Option<(i64, usize)>
    ensures { result ≡ «lower_of» total place best }
{
    match best {
        Some((least, _)) if least <= total => best,
        _ => Some((total, place)),
    }
}

// The best total after the label at `place` has tried to finish; at the depot it does not try.
fn try_finish<T: Tier>(
    tier: &T,
    label: &Label<T::State>,
    place: usize,
    best: Option<(i64, usize)>,
) -> Option<(i64, usize)>
    requires { Sound (T.meaning.answers (T.value tier.now)) label.now }
    ensures { let m = T.meaning.answers (T.value tier.now) in result ≡ try_finish_at (writing m.start) m place (view label.now) best }
{
    if label.stop == 0 {
        return best;
    }
    let Some(home) = tier.finish(label.state, label.stop) else {
        return best;
    };
    lower(label.cost + home, place, best)
}

// Two facts stay in the contracts: `sound` is of a label under this tier, and the bound of `few` is 2^32
// before a turn and 2^40 within it.
impl<T: Tier> Desk<'_, T> {
    ghost use Rattle.price.specs.Desks.{answers, hand, so_far, Comes};

    // The label at `place` goes on to a stop: what it reaches is offered.
    fn go_on(&mut self, label: &Label<T::State>, place: usize, stop: usize) -> Result<(), Crowded>
        requires sound { Sound (answers self.old) label.now }
        requires few { Few (2 ^ 40) self.old.progress }
        ensures { Comes self.old self.new (is_ok result) (go_on_at (hand self.old) (answers self.old) place (view label.now) stop (so_far self.old)) }
    {
        let Some((state, charge)) = self.tier.reach(label.state, label.stop, stop) else {
            return Ok(());
        };
        self.offer(&Label {
            stop,
            state,
            cost: label.cost + charge,
            parent: Some(Parent {
                place,
                number: label.number,
            }),
            number: self.progress.counts.kept,
            status: Status::Waiting,
        })
    }

    // The label at `place` goes on to the stops 1 to n in order.
    fn go_on_to_all(&mut self, label: &Label<T::State>, place: usize) -> Result<(), Crowded>
        requires sound { Sound (answers self.old) label.now }
        requires few { Few (2 ^ 32) self.old.progress }
        ensures { Comes self.old self.new (is_ok result) (go_on_to_at (hand self.old) (answers self.old) place (view label.now) (range_with_len 1 (answers self.old).stops) (so_far self.old)) }
    {
        for stop in 1..=self.tier.stops() {
            self.go_on(label, place, stop)?;
        }
        Ok(())
    }

    /// Treats the label at `place`.
    pub(crate) fn treat(&mut self, place: usize) -> Result<(), Crowded>
        requires within { place < self.old.used }
        requires sound { Sound (answers self.old) (slice_index_or self.old.store.now place (blank (answers self.old).start)) }
        requires few { Few (2 ^ 32) self.old.progress }
        ensures { Comes self.old self.new (is_ok result) (treat_at (hand self.old) (answers self.old) place (so_far self.old)) }
    {
        let mut label = self.store[place];
        label.status = Status::Treated;
        self.store[place] = label;
        self.progress.best = try_finish(self.tier, &label, place, self.progress.best);
        self.go_on_to_all(&label, place)
    }
}
