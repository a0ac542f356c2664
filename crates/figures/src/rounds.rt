//! Figures of Round: arrivals, windows and loads.
use super::road::road;
use book::{OutOfRange, Visit};
use round::{Barred, Round, RoundState};
use std::test::Fail;
use tier::{Tier, replay};

// The first stop has a load of 2 and the same window as a heavy one.
fn round_with(visit: Visit, minutes: u16) -> Result<Round, OutOfRange> {
    let mut book = road(visit, minutes)?;
    book.put_visit(1, heavy(2))?;
    Ok(Round::new(book))
}

fn window(opens: u16, closes: u16) -> Visit {
    Visit {
        opens,
        closes,
        ..Visit::default()
    }
}

fn heavy(load: u16) -> Visit {
    Visit {
        load,
        ..window(0, 20)
    }
}

fn standing(minute: u16, load: u16) -> RoundState {
    RoundState { minute, load }
}

#[test]
fn waits_for_the_window(rt: HostRuntime) -> Result<(), Fail> {
    let open = round_with(window(0, 20), 3)?;
    assert_eq!(rt; open.drive(standing(5, 0), 1, 2), Ok(standing(8, 0)));
    let opening = round_with(window(9, 20), 3)?;
    assert_eq!(rt; opening.drive(standing(5, 0), 1, 2), Ok(standing(9, 0)));
    Ok(())
}

#[test]
fn arrives_by_the_close(rt: HostRuntime) -> Result<(), Fail> {
    let near = round_with(window(0, 10), 2)?;
    assert_eq!(rt; near.drive(standing(8, 0), 1, 2), Ok(standing(10, 0)));
    let far = round_with(window(0, 10), 3)?;
    assert_eq!(rt;
        far.drive(standing(8, 0), 1, 2),
        Err(Barred::TooLate(11, 10))
    );
    Ok(())
}

#[test]
fn carries_the_capacity(rt: HostRuntime) -> Result<(), Fail> {
    let full = round_with(heavy(2), 3)?;
    assert_eq!(rt; full.drive(standing(5, 8), 1, 2), Ok(standing(8, 10)));
    let over = round_with(heavy(3), 3)?;
    assert_eq!(rt;
        over.drive(standing(5, 8), 1, 2),
        Err(Barred::TooHeavy(11, 10))
    );
    Ok(())
}

#[test]
fn duals_are_taken_off(rt: HostRuntime) -> Result<(), Fail> {
    let mut round = round_with(window(0, 20), 3)?;
    assert_eq!(rt; replay(&round, &[1, 2]), Some(4));
    assert!(rt; round.set(1, 2, 18).is_ok());
    assert_eq!(rt; replay(&round, &[1, 2]), Some(-14));
    assert_eq!(rt; replay(&round, &[1, 1]), None);
    assert_eq!(rt; replay(&round, &[]), None);
    assert_eq!(rt; replay(&round, &[3]), None);
    assert!(rt; round.set(1, 3, 18).is_err());
    assert!(rt; round.set(2, 2, 18).is_err());
    assert!(rt; round.set(1, 2, 1 << 40).is_err());
    assert_eq!(rt; round.credit(), 18);
    Ok(())
}
