//! The desk at which labels are made.
ghost use Rattle.std.specs.Prelude.{◌≡◌, ◌^◌, ◌<◌, ◌≤◌, length, replicate, None, slice_set};
ghost use Rattle.std.proofs.Props.{props};
ghost use Rattle.store.specs.Works.{Beside};
ghost use Rattle.labelling.specs.Labelling.{begin};
ghost use Rattle.price.specs.Labels.{blank as «blank_at», waiting as «waiting_at», root as «root_at»};
ghost use Rattle.price.specs.Places.{Unused};
ghost use Rattle.price.specs.Progress.{at_first};

use crate::label::Label;
use crate::progress::Progress;
use crate::rows::clear;
use tier::Tier;

/// A tier, the lent store, and how far labelling has come.
#[derive(Drop)]
pub(crate) struct Desk<'a, T: Tier> {
    pub(crate) tier: &'a T,
    pub(crate) store: &'a mut [Label<T::State>],
    /// the places from here on are blank; some before it may be blank too, so it is no length
    pub(crate) used: usize,
    pub(crate) progress: Progress,
    ghost unused: { Unused (T.meaning.answers (T.value tier.now)).start used store.now } by { Prim.hlevel props },
    ghost short: { length store.now ≤ 2 ^ 18 },
}

impl<'a, T: Tier> Desk<'a, T> {
    ghost use Rattle.price.specs.Desks.{answers, hand, so_far};

    /// The root waits at the first place, and the others are blank.
    pub(crate) fn begin(tier: &'a T, store: &'a mut [Label<T::State>]) -> Self
        requires places { 0 < length store.old }
        requires short { length store.old ≤ 2 ^ 18 }
        ensures tier { result.tier ≡ tier.entry }
        ensures lent { result.store.ghost_name ≡ store.entry.ghost_name }
        ensures root { result.store.now ≡ slice_set (replicate (length store.old) («blank_at» (answers result).start)) 0 («waiting_at» 0 («root_at» (answers result).start)) }
        ensures used { result.used ≡ 1 }
        ensures progress { result.progress ≡ at_first }
        ensures begun { Beside (hand result) (answers result) (length store.old) None (so_far result) (begin (answers result)) }
    {
        let start = tier.start();
        clear(store, start);
        store[0] = Label::root(start);
        Desk {
            tier,
            store,
            used: 1,
            progress: Progress::begin(),
        }
    }
}
