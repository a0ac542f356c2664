//! The first line: how many stops there are, and the fleet.
ghost use Rattle.std.specs.Prelude.{◌≡◌};
ghost use Rattle.text.specs.Readers.{Read};
ghost use Rattle.form.specs.Forms.{same};
ghost use Rattle.deck.specs.Lines.{first_line};

use super::items::read_item;
use book::{Fleet, MOST_BATTERY, MOST_MADE, MOST_VANS};
use bounds::{BookFault, close_line, open_line};
use form::FormFault;
use stops::MOST_STOPS;
use text::Cursor;
use words::Keyword;

#[derive(Clone, Copy)]
pub(crate) struct FirstLine {
    pub(crate) stops: usize,
    pub(crate) fleet: Fleet,
}

/// `(deck (stops N) (vans V) (capacity C) (battery B) (most M))`
pub(crate) fn read_first_line(cursor: &mut Cursor) -> Result<FirstLine, BookFault>
    ensures { Read same cursor.old cursor.new result first_line }
{
    open_line(cursor, Keyword::Deck)?;
    let stops = read_item(cursor, Keyword::Stops, 1..=MOST_STOPS)?;
    let vans = read_item(cursor, Keyword::Vans, 1..=MOST_VANS)?;
    let capacity = read_item(cursor, Keyword::Capacity, 0..=u16::MAX)?;
    let battery = read_item(cursor, Keyword::Battery, 1..=MOST_BATTERY)?;
    let most = read_item(cursor, Keyword::Most, 1..=MOST_MADE)?;
    close_line(cursor)?;
    Ok(FirstLine {
        stops,
        fleet: Fleet {
            vans,
            capacity,
            battery,
            most,
        },
    })
}
