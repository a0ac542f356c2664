use super::{Counter, Through};
use tier::{Refusal, Tier, replay};

#[test]
fn a_route_costs_its_stops_and_the_way_home(rt: HostRuntime) {
    let bottom = Counter::new(5, 3);
    assert_eq!(rt; replay(&bottom, &[2, 4, 1]), Some(78));
    let layer = Through::new(bottom);
    assert_eq!(rt; replay(&layer, &[2, 4, 1]), Some(78));
    let pile = Through::new(layer);
    assert_eq!(rt; replay(&pile, &[2, 4, 1]), Some(78));
}

#[test]
fn one_stop_too_many_is_barred(rt: HostRuntime) {
    let bottom = Counter::new(5, 3);
    assert_eq!(rt; replay(&bottom, &[2, 4, 1, 3]), None);
    assert_eq!(rt; replay(&Through::new(bottom), &[2, 4, 1, 3]), None);
}

#[test]
fn there_are_at_most_sixty_stops(rt: HostRuntime) {
    let bottom = Counter::new(100, 1);
    assert_eq!(rt; replay(&bottom, &[60]), Some(606));
    assert_eq!(rt; replay(&bottom, &[61]), None);
}

#[test]
fn over_four_tiers_nothing_is_reached(rt: HostRuntime) {
    let four = Through::new(Through::new(Through::new(Counter::new(5, 3))));
    assert_eq!(rt; replay(&four, &[1]), Some(16));
    let five = Through::new(four);
    assert_eq!(rt; five.tiers(), 5);
    assert_eq!(rt; replay(&five, &[1]), None);
    assert_eq!(rt; Through::new(five).tiers(), 5);
}

#[test]
fn the_layer_refuses_its_own_number_and_passes_others_down(rt: HostRuntime) {
    let mut pile = Through::new(Counter::new(5, 3));
    assert_eq!(rt; pile.set(2, 1, 0).map_err(Refusal::number), Err(7));
    assert_eq!(rt; pile.set(1, 1, 0).map_err(Refusal::number), Err(7));
    assert_eq!(rt; pile.set(3, 1, 0).map_err(Refusal::number), Err(6));
}
