//! Plans under the rules of the house: what the worked tables do not show.
use lots::{Lot, Refusal};
use plan::Plan;
use rule::Verdict;
use rules::{NotFirst, TimeTable, house_pile};
use std::test::Fail;
use tree::Search;

// A plan of this capacity, with these lots.
pub(crate) fn plan_of(capacity: u16, lots: &[Lot]) -> Result<Plan, Refusal> {
    let mut plan = Plan::new();
    plan.open(capacity)?;
    for lot in lots {
        plan.admit(*lot)?;
    }
    Ok(plan)
}

// A lot that fills the machine from 4 to 6, one that has to run before it, and one that then
// has to run after it.
fn crowded() -> [Lot; 3] {
    [
        Lot::new(4, 6, 2, 2),
        Lot::new(0, 6, 3, 1),
        Lot::new(0, 12, 5, 1),
    ]
}

#[test]
fn narrow_goes_by_the_windows_that_are_left(rt: HostRuntime) -> Result<(), Fail> {
    let lots = crowded();
    let mut plan = plan_of(2, &lots)?;
    assert_eq!(rt; plan.tighten(&NotFirst), (Verdict::Moved, 3));
    let left = [lots[0], lots[1], Lot::new(6, 12, 5, 1)];
    assert_eq!(rt; plan.narrow(2, 0, 10), Err(Refusal::NoRoom));
    assert_eq!(rt; plan.lots(), left.as_slice());
    assert_eq!(rt; plan.tighten(&NotFirst), (Verdict::Still, 1));
    assert_eq!(rt; plan.lots(), left.as_slice());
    Ok(())
}

#[test]
fn house_moves_both_ends(rt: HostRuntime) -> Result<(), Fail> {
    let lots = crowded();
    let mut plan = plan_of(2, &lots)?;
    assert_eq!(rt; plan.tighten(&house_pile()), (Verdict::Moved, 2));
    assert_eq!(rt;
        plan.lots(),
        [lots[0], Lot::new(0, 4, 3, 1), Lot::new(6, 12, 5, 1)].as_slice()
    );
    // A rule that is lent is the rule.
    assert_eq!(rt; plan.tighten(&&house_pile()), (Verdict::Still, 1));
    Ok(())
}

// The first application moves the second lot to 2, and the next finds both fixed at that
// minute.
#[test]
fn dead_puts_the_windows_back(rt: HostRuntime) -> Result<(), Fail> {
    let lots = [Lot::new(0, 4, 3, 1), Lot::new(0, 4, 2, 1)];
    let mut plan = plan_of(1, &lots)?;
    assert_eq!(rt; plan.tighten(&TimeTable), (Verdict::Dead, 2));
    assert_eq!(rt; plan.lots(), lots.as_slice());
    Ok(())
}

#[test]
fn solve_finds_the_best_schedule(rt: HostRuntime) -> Result<(), Fail> {
    let lots = crowded();
    let mut plan = plan_of(2, &lots)?;
    let mut trail = [lots[0]; 13];
    let mut starts = [9; 4];
    assert_eq!(rt; plan.tighten(&house_pile()), (Verdict::Moved, 2));
    let found = plan.solve(&house_pile(), 100, &mut trail, &mut starts);
    assert_eq!(rt; found, Ok(Search::Best { end: 11, nodes: 5 }));
    assert_eq!(rt; starts, [4, 0, 6, 9]);
    assert_eq!(rt; trail, [Lot::default(); 13]);
    assert_eq!(rt;
        plan.lots(),
        [lots[0], Lot::new(0, 4, 3, 1), Lot::new(6, 12, 5, 1)].as_slice()
    );
    Ok(())
}

#[test]
fn a_refused_solve_alters_nothing(rt: HostRuntime) -> Result<(), Fail> {
    let lot = Lot::new(0, 2, 1, 1);
    let plan = plan_of(1, &[lot, lot])?;
    let mut trail = [lot; 6];
    let mut starts = [9; 2];
    assert_eq!(rt;
        plan.solve(&house_pile(), 0, &mut trail[0..5], &mut starts[0..1]),
        Err(Refusal::Budget)
    );
    assert_eq!(rt;
        plan.solve(&house_pile(), 1, &mut trail[0..5], &mut starts[0..1]),
        Err(Refusal::Trail)
    );
    assert_eq!(rt;
        plan.solve(&house_pile(), 1, &mut trail, &mut starts[0..1]),
        Err(Refusal::Starts)
    );
    assert_eq!(rt; trail, [lot; 6]);
    assert_eq!(rt; starts, [9; 2]);
    Ok(())
}
