//! Figures of Town: charge, chargers and the stops made.
use super::road::road;
use book::{Leg, OutOfRange, Visit};
use std::test::Fail;
use tier::{Tier, replay};
use town::{Barred, Town, TownState};

// From the second stop home it is as far as to it.
fn town_with(charger: bool, minutes: u16) -> Result<Town, OutOfRange> {
    let visit = Visit {
        opens: 0,
        closes: 20,
        load: 3,
        charger,
    };
    let mut book = road(visit, minutes)?;
    book.put_leg(2, 0, Leg { cost: 12, minutes })?;
    Ok(Town::new(book))
}

fn standing(charge: u16, made: u8) -> TownState {
    TownState { charge, made }
}

#[test]
fn a_minute_uses_a_unit(rt: HostRuntime) -> Result<(), Fail> {
    let near = town_with(false, 3)?;
    assert_eq!(rt; near.drive(standing(3, 1), 1, 2), Ok(standing(0, 2)));
    let far = town_with(false, 4)?;
    assert_eq!(rt; far.drive(standing(3, 1), 1, 2), Err(Barred::TooFar(4, 3)));
    Ok(())
}

#[test]
fn a_charger_fills_the_battery_of_a_van_that_comes_so_far(rt: HostRuntime) -> Result<(), Fail> {
    let near = town_with(true, 3)?;
    assert_eq!(rt; near.drive(standing(3, 1), 1, 2), Ok(standing(40, 2)));
    let far = town_with(true, 4)?;
    assert_eq!(rt; far.drive(standing(3, 1), 1, 2), Err(Barred::TooFar(4, 3)));
    Ok(())
}

#[test]
fn makes_the_most_stops(rt: HostRuntime) -> Result<(), Fail> {
    let near = town_with(false, 3)?;
    assert_eq!(rt; near.drive(standing(3, 3), 1, 2), Ok(standing(0, 4)));
    assert_eq!(rt;
        near.drive(standing(3, 4), 1, 2),
        Err(Barred::TooMany(5, 4))
    );
    let far = town_with(false, 4)?;
    assert_eq!(rt; far.drive(standing(3, 4), 1, 2), Err(Barred::TooFar(4, 3)));
    Ok(())
}

#[test]
fn the_way_home_uses_charge_too(rt: HostRuntime) -> Result<(), Fail> {
    let near = town_with(false, 3)?;
    assert_eq!(rt; near.finish(standing(3, 1), 2), Some(12));
    let far = town_with(false, 4)?;
    assert_eq!(rt; far.finish(standing(3, 1), 2), None);
    Ok(())
}

#[test]
fn a_route_gets_home_on_its_charge(rt: HostRuntime) -> Result<(), Fail> {
    let plain = town_with(false, 20)?;
    assert_eq!(rt; plain.start().charge, 40);
    assert_eq!(rt; replay(&plain, &[1, 2]), None);
    let mut charging = town_with(true, 20)?;
    assert_eq!(rt; replay(&charging, &[1, 2]), Some(16));
    assert!(rt; charging.set(1, 2, 18).is_ok());
    assert_eq!(rt; replay(&charging, &[1, 2]), Some(-2));
    assert_eq!(rt; charging.credit(), 18);
    Ok(())
}
