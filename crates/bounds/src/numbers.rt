//! Numbers in their ranges, and in their order.
ghost use Rattle.std.specs.Prelude.{◌≡◌};
ghost use Rattle.std.specs.Range.{range_inclusive_start, range_inclusive_end};
ghost use Rattle.std.specs.Result.{result_map_both};
ghost use Rattle.text.specs.Readers.{Read};
ghost use Rattle.form.specs.Forms.{same, numeral};
ghost use Rattle.bounds.specs.Bounds.{ranged, ordered, number_within, number_in_order};

use super::fault::BookFault;
use super::natural::Natural;
use form::{FormFault, Numeral, due_number};
use std::ops::RangeInclusive;
use text::Cursor;

fn in_range<N: Natural>(n: Numeral, range: RangeInclusive<N>) -> Result<N, BookFault>
    ensures { result_map_both N.value same result ≡ ranged (N.value (range_inclusive_start range)) (N.value (range_inclusive_end range)) (numeral n) }
{
    let (least, most) = range.into_inner();
    if !(least.to_u64()..=most.to_u64()).contains(&n.value) {
        return Err(BookFault::Range(n.place));
    }
    N::try_from(n.value).map_err(|_| BookFault::Range(n.place))
}

// A number outside its range is told before one out of order.
fn in_order(n: Numeral, range: RangeInclusive<usize>, due: usize) -> Result<(), BookFault>
    ensures { result ≡ ordered (range_inclusive_start range) (range_inclusive_end range) due (numeral n) }
{
    let number = in_range(n, range)?;
    if number != due {
        return Err(BookFault::Order(n.place));
    }
    Ok(())
}

/// A number in a range.
pub fn due_within<N: Natural>(cursor: &mut Cursor, range: RangeInclusive<N>) -> Result<N, BookFault>
    ensures { Read N.value cursor.old cursor.new result (number_within (N.value (range_inclusive_start range)) (N.value (range_inclusive_end range))) }
{
    let n = due_number(cursor)?;
    in_range(n, range)
}

/// The number `due`, of the numbers in a range.
pub fn due_in_order(
    cursor: &mut Cursor,
    range: RangeInclusive<usize>,
    due: usize,
) -> Result<(), BookFault>
    ensures { Read same cursor.old cursor.new result (number_in_order (range_inclusive_start range) (range_inclusive_end range) due) }
{
    let n = due_number(cursor)?;
    in_order(n, range, due)
}
