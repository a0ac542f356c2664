//! The first line: how many stops there are, and the fleet.
ghost use Rattle.output.specs.Outputs.{Wrote};
ghost use Rattle.deck.specs.Bytes.{first_line_bytes};

use super::items::{close_line, open_line, write_item};
use book::Fleet;
use output::{Full, Out};
use words::Keyword;

/// `(deck (stops N) (vans V) (capacity C) (battery B) (most M))`
pub(crate) fn write_first_line(out: &mut Out, stops: usize, fleet: Fleet) -> Result<(), Full>
    ensures { Wrote out.old out.new result (first_line_bytes stops fleet) }
{
    open_line(out, Keyword::Deck)?;
    write_item(out, Keyword::Stops, stops as u64)?;
    write_item(out, Keyword::Vans, u64::from(fleet.vans))?;
    write_item(out, Keyword::Capacity, u64::from(fleet.capacity))?;
    write_item(out, Keyword::Battery, u64::from(fleet.battery))?;
    write_item(out, Keyword::Most, u64::from(fleet.most))?;
    close_line(out)
}
