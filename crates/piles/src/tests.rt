// Refusals are compared by number, as they are known outside.
use cuts::Cuts;
use ng::Ng;
use stops::StopSet;
use stranger::Counter;
use tier::{Refusal, Tier, replay};

// The set of two stops.
fn pair(a: usize, b: usize) -> StopSet {
    StopSet::just(a).joined(StopSet::just(b))
}

#[test]
fn ng_bars_a_remembered_stop(rt: HostRuntime) {
    let mut pile = Ng::new(Counter::new(5, 4));
    assert_eq!(rt; replay(&pile, &[1, 2, 1]), Some(48));
    assert_eq!(rt; pile.tighten(2, 2, StopSet::just(1), 0), Ok(()));
    assert_eq!(rt; replay(&pile, &[1, 2, 1]), None);
    assert_eq!(rt; replay(&pile, &[1, 2, 3, 1]), Some(79));
}

#[test]
fn cuts_charge_the_second_visit(rt: HostRuntime) {
    let mut pile = Cuts::new(Ng::new(Counter::new(5, 4)));
    let three = pair(1, 2).joined(StopSet::just(3));
    assert_eq!(rt; replay(&pile, &[1, 4, 2]), Some(78));
    assert_eq!(rt; pile.tighten(3, 0, three, 5), Ok(()));
    assert_eq!(rt; replay(&pile, &[1, 4, 2]), Some(78));
    assert_eq!(rt; replay(&pile, &[1, 2, 4]), Some(83));
    assert_eq!(rt; pile.tighten(3, 0, StopSet::just(4), 0), Ok(()));
    assert_eq!(rt; replay(&pile, &[1, 4, 2]), Some(83));
    assert_eq!(rt; pile.credit(), -5);
}

#[test]
fn calls_are_refused_in_order(rt: HostRuntime) {
    let mut pile = Cuts::new(Ng::new(Counter::new(5, 4)));
    let outside = StopSet::just(0);
    assert_eq!(rt; pile.set(0, 0, 0).map_err(Refusal::number), Err(6));
    assert_eq!(rt; pile.set(4, 0, 0).map_err(Refusal::number), Err(6));
    assert_eq!(rt; pile.set(2, 9, 9).map_err(Refusal::number), Err(7));
    assert_eq!(rt;
        pile.tighten(1, 9, outside, 9).map_err(Refusal::number),
        Err(7)
    );
    assert_eq!(rt;
        pile.tighten(2, 9, outside, 9).map_err(Refusal::number),
        Err(8)
    );
    assert_eq!(rt;
        pile.tighten(2, 5, outside, 9).map_err(Refusal::number),
        Err(10)
    );
    assert_eq!(rt;
        pile.tighten(2, 5, StopSet::empty(), 9)
            .map_err(Refusal::number),
        Err(9)
    );
    assert_eq!(rt;
        pile.tighten(3, 1, outside, 9).map_err(Refusal::number),
        Err(8)
    );
    assert_eq!(rt;
        pile.tighten(3, 0, pair(1, 2), 1 << 40)
            .map_err(Refusal::number),
        Err(10)
    );
    assert_eq!(rt; pile.set(3, 0, 1).map_err(Refusal::number), Err(8));
}

#[test]
fn there_are_at_most_thirty_two_cuts(rt: HostRuntime) {
    let mut pile = Cuts::new(Counter::new(5, 4));
    let three = pair(1, 2).joined(StopSet::just(3));
    for cut in 0..32 {
        assert_eq!(rt; pile.tighten(2, cut, three, 1), Ok(()));
    }
    assert_eq!(rt; pile.credit(), -32);
    assert_eq!(rt;
        pile.tighten(2, 33, StopSet::just(0), -1)
            .map_err(Refusal::number),
        Err(8)
    );
    assert_eq!(rt;
        pile.tighten(2, 32, StopSet::just(0), -1)
            .map_err(Refusal::number),
        Err(11)
    );
    assert_eq!(rt; pile.set(2, 31, 1 << 30), Ok(()));
    assert_eq!(rt; pile.set(2, 31, -1).map_err(Refusal::number), Err(9));
    assert_eq!(rt; pile.set(2, 32, 1).map_err(Refusal::number), Err(8));
}

#[test]
fn four_tiers_reach_and_five_do_not(rt: HostRuntime) {
    let four = Ng::new(Cuts::new(Ng::new(Counter::new(5, 4))));
    assert_eq!(rt; four.tiers(), 4);
    assert_eq!(rt; replay(&four, &[1, 2]), Some(37));
    let mut five = Cuts::new(four);
    assert_eq!(rt; five.tiers(), 5);
    assert_eq!(rt; replay(&five, &[1, 2]), None);
    assert_eq!(rt; five.finish(five.start(), 1), None);
    assert_eq!(rt; five.gap(five.start(), five.start()), Some(0));
    let three = pair(1, 2).joined(StopSet::just(3));
    assert_eq!(rt; five.tighten(5, 0, three, 5), Ok(()));
    assert_eq!(rt; five.tighten(5, 0, StopSet::just(4), 0), Ok(()));
    assert_eq!(rt; five.credit(), 0);
}

#[test]
fn six_tiers_are_held_at_five(rt: HostRuntime) {
    let five = Ng::new(Ng::new(Ng::new(Ng::new(Counter::new(5, 4)))));
    let mut six = Ng::new(five);
    assert_eq!(rt; six.tiers(), 5);
    assert_eq!(rt; six.tighten(5, 1, StopSet::just(2), 0), Ok(()));
    assert_eq!(rt;
        six.tighten(6, 1, StopSet::just(2), 0)
            .map_err(Refusal::number),
        Err(6)
    );
    assert_eq!(rt; replay(&six, &[1]), None);
}

#[test]
fn the_topmost_layer_takes_the_fifth_tier(rt: HostRuntime) {
    let fifth = Cuts::new(Ng::new(Ng::new(Ng::new(Counter::new(5, 4)))));
    let mut six = Ng::new(fifth);
    assert_eq!(rt; six.set(5, 0, 1).map_err(Refusal::number), Err(7));
}
