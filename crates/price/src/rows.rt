//! Writing into what the caller lent: the route of a label, zeros and blanks.
ghost use Rattle.std.specs.Prelude.{◌≡◌, ◌-◌, ◌<◌, ◌≤◌, ◌++◌, length, take, drop, replicate, reverse};
ghost use Rattle.tier.specs.Laws.{greatest_key};
ghost use Rattle.price.specs.Labels.{blank as «blank_at»};
ghost use Rattle.price.specs.Routes.{FallsBack, way_back};

use crate::label::Label;

/// Puts zeros into the row from `from` on, to its very end.
pub(crate) fn zero_from(row: &mut [usize], from: usize)
    requires { from ≤ length row.old }
    ensures { row.new ≡ take from row.old ++ replicate (length row.old - from) 0 }
{
    row[from..].fill(0);
}

/// Blanks every place.
// A `fill` asks that a clone cannot fail, and `Copy` does not say so.
pub(crate) fn clear<S: Copy>(store: &mut [Label<S>], start: S)
    ensures { store.new ≡ replicate (length store.old) («blank_at» start) }
{
    let blank = Label::blank(start);
    for place in store {
        *place = blank;
    }
}

// Writes the way to the label at `last` into the first places of the row, its last stop first;
// answers how many stops it has.
fn write_back<S: Copy>(store: &[Label<S>], last: usize, row: &mut [usize]) -> usize
    requires within { last < length store.now }
    requires back { FallsBack store.now }
    requires short { length (way_back store.now last) ≤ length row.old }
    ensures stops { result ≡ length (way_back store.now last) }
    ensures row { row.new ≡ reverse (way_back store.now last) ++ drop result row.old }
{
    // A loop: a closure must be safe for any label, also for one whose parent is past the slice.
    let mut label = &store[last];
    let mut stops = 0;
    while let Some(parent) = label.parent {
        row[stops] = label.stop;
        stops += 1;
        label = &store[parent.place];
    }
    stops
}

/// Writes the way to the label at `last` into the row, and zeros after it; answers how many stops it
/// has.
pub(crate) fn write_route<S: Copy>(store: &[Label<S>], last: usize, row: &mut [usize]) -> usize
    requires within { last < length store.now }
    requires back { FallsBack store.now }
    requires short { length (way_back store.now last) ≤ greatest_key }
    requires long { greatest_key ≤ length row.old }
    ensures stops { result ≡ length (way_back store.now last) }
    ensures row { row.new ≡ way_back store.now last ++ replicate (length row.old - length (way_back store.now last)) 0 }
{
    let stops = write_back(store, last, row);
    row[..stops].reverse();
    zero_from(row, stops);
    stops
}
