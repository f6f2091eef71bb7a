//! The worked tables, run through the calls.
use crate::plans::plan_of;
use elastic::overflow;
use lots::Lot;
use rule::{Idle, Rule, Turned, Verdict};
use rules::{NotFirst, Overload, TimeTable};
use std::test::Fail;
use tree::Search;

#[test]
fn work_is_left_over(rt: HostRuntime) {
    let mut lots = [Lot::new(4, 6, 2, 2), Lot::new(0, 6, 5, 1)];
    assert_eq!(rt; overflow(2, &lots), Ok((1, 4)));
    assert_eq!(rt; Overload.apply(2, &mut lots), Ok(Verdict::Dead));
    assert_eq!(rt; lots, [Lot::new(4, 6, 2, 2), Lot::new(0, 6, 5, 1)]);
}

#[test]
fn a_minute_shorter_it_fits(rt: HostRuntime) {
    let mut lots = [Lot::new(4, 6, 2, 2), Lot::new(0, 6, 4, 1)];
    assert_eq!(rt; overflow(2, &lots), Ok((0, 3)));
    assert_eq!(rt; Overload.apply(2, &mut lots), Ok(Verdict::Still));
    assert_eq!(rt; lots, [Lot::new(4, 6, 2, 2), Lot::new(0, 6, 4, 1)]);
}

#[test]
fn a_lot_more_lowers_the_overflow(rt: HostRuntime) {
    let mut lots = [
        Lot::new(0, 1, 1, 2),
        Lot::new(0, 3, 3, 1),
        Lot::new(1, 3, 1, 1),
    ];
    assert_eq!(rt; overflow(2, &lots[..2]), Ok((1, 3)));
    assert_eq!(rt; overflow(2, &lots), Ok((0, 4)));
    assert_eq!(rt; Overload.apply(2, &mut lots), Ok(Verdict::Still));
}

#[test]
fn not_first_moves_the_second(rt: HostRuntime) {
    let mut lots = [Lot::new(0, 5, 3, 1), Lot::new(0, 9, 3, 1)];
    assert_eq!(rt; NotFirst.apply(1, &mut lots), Ok(Verdict::Moved));
    assert_eq!(rt; lots, [Lot::new(0, 5, 3, 1), Lot::new(3, 9, 3, 1)]);
    let mut shorter = [Lot::new(0, 5, 3, 1), Lot::new(0, 9, 2, 1)];
    assert_eq!(rt; NotFirst.apply(1, &mut shorter), Ok(Verdict::Still));
    assert_eq!(rt; shorter, [Lot::new(0, 5, 3, 1), Lot::new(0, 9, 2, 1)]);
}

#[test]
fn turned_not_first_moves_a_latest_end(rt: HostRuntime) {
    let mut lots = [
        Lot::new(10_075, 10_080, 3, 1),
        Lot::new(10_071, 10_080, 3, 1),
    ];
    let pile = Turned { rule: NotFirst };
    assert_eq!(rt; pile.apply(1, &mut lots), Ok(Verdict::Moved));
    assert_eq!(rt;
        lots,
        [
            Lot::new(10_075, 10_080, 3, 1),
            Lot::new(10_071, 10_077, 3, 1),
        ]
    );
}

#[test]
fn not_first_moves_twice(rt: HostRuntime) -> Result<(), Fail> {
    let full = Lot::new(4, 6, 2, 2);
    let short = Lot::new(0, 6, 3, 1);
    let mut lots = [full, short, Lot::new(0, 12, 5, 1)];
    let mut plan = plan_of(2, &lots)?;
    assert_eq!(rt; NotFirst.apply(2, &mut lots), Ok(Verdict::Moved));
    assert_eq!(rt; lots, [full, short, Lot::new(3, 12, 5, 1)]);
    assert_eq!(rt; NotFirst.apply(2, &mut lots), Ok(Verdict::Moved));
    assert_eq!(rt; lots, [full, short, Lot::new(6, 12, 5, 1)]);
    assert_eq!(rt; plan.tighten(&NotFirst), (Verdict::Moved, 3));
    assert_eq!(rt; plan.lots(), lots.as_slice());
    Ok(())
}

#[test]
fn time_table_moves_twice(rt: HostRuntime) -> Result<(), Fail> {
    let fixed = Lot::new(0, 4, 3, 2);
    let mut lots = [fixed, Lot::new(0, 9, 2, 1)];
    let mut plan = plan_of(2, &lots)?;
    assert_eq!(rt; TimeTable.apply(2, &mut lots), Ok(Verdict::Moved));
    assert_eq!(rt; lots, [fixed, Lot::new(2, 9, 2, 1)]);
    assert_eq!(rt; TimeTable.apply(2, &mut lots), Ok(Verdict::Moved));
    assert_eq!(rt; lots, [fixed, Lot::new(3, 9, 2, 1)]);
    assert_eq!(rt; plan.tighten(&TimeTable), (Verdict::Moved, 3));
    assert_eq!(rt; plan.lots(), lots.as_slice());
    Ok(())
}

#[test]
fn two_lots_on_one_tray(rt: HostRuntime) -> Result<(), Fail> {
    let lot = Lot::new(0, 2, 1, 1);
    let plan = plan_of(1, &[lot, lot])?;
    let mut trail = [lot; 6];
    let mut starts = [9, 9];
    let spent = plan.solve(&Idle, 4, &mut trail, &mut starts);
    assert_eq!(rt; spent, Ok(Search::Spent { nodes: 4 }));
    assert_eq!(rt; starts, [9, 9]);
    let best = plan.solve(&Idle, 5, &mut trail, &mut starts);
    assert_eq!(rt; best, Ok(Search::Best { end: 2, nodes: 5 }));
    assert_eq!(rt; starts, [0, 1]);
    Ok(())
}

#[test]
fn two_lots_in_one_minute(rt: HostRuntime) -> Result<(), Fail> {
    let lot = Lot::new(0, 1, 1, 1);
    let plan = plan_of(1, &[lot, lot])?;
    let mut trail = [lot; 6];
    let mut starts = [9, 9];
    let none = plan.solve(&Idle, 1, &mut trail, &mut starts);
    assert_eq!(rt; none, Ok(Search::None { nodes: 1 }));
    assert_eq!(rt; starts, [9, 9]);
    Ok(())
}
