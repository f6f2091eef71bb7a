//! What an application of a rule leaves of a table, and what tighten leaves of a plan.

use crate::naive::{Defined, settled, slack};
use crate::schedules::{is_schedule, schedules};
use crate::tables::Sample;
use crate::tally::{Case, Tally};
use anyhow::anyhow;
use lots::{HORIZON, Lot, MAX_CAPACITY, MAX_LOTS};
use plan::Plan;
use rule::Verdict;
use std::alloc::Global;
use std::io;

fn is_lawful(capacity: u16, lots: &[Lot]) -> bool {
    1 <= capacity
        && capacity <= MAX_CAPACITY
        && lots.len() <= MAX_LOTS
        && lots.iter().all(|lot| {
            1 <= lot.p
                && 1 <= lot.c
                && lot.c <= capacity
                && u32::from(lot.est) + u32::from(lot.p) <= u32::from(lot.lct)
                && lot.lct <= HORIZON
        })
}

// Whether there are as many lots, and each has the run and the trays that it had.
fn is_same_work(old: &[Lot], new: &[Lot]) -> bool {
    old.len() == new.len() && old.iter().zip(new).all(|(a, b)| a.p == b.p && a.c == b.c)
}

fn is_narrower(old: &[Lot], new: &[Lot]) -> bool {
    old.iter()
        .zip(new)
        .all(|(a, b)| a.est <= b.est && b.lct <= a.lct)
}

// Whether these lots, or that there are none, are what the verdict and the new table say.
fn is_as_defined(defined: &Option<Vec<Lot>>, verdict: Verdict, new: &[Lot]) -> bool {
    match defined {
        None => verdict == Verdict::Dead,
        Some(left) => verdict != Verdict::Dead && left.as_slice() == new,
    }
}

// What holds of an application, and of tighten.
fn compare_left(
    tally: &mut Tally<'_>,
    case: Case<'_>,
    verdict: Verdict,
    new: &[Lot],
) -> io::Result<()> {
    let capacity = case.sample.capacity;
    let old = case.sample.lots.as_slice();
    let schedules = case.sample.schedules.as_slice();
    tally.compare(case, "the new table is lawful", is_lawful(capacity, new))?;
    tally.compare(case, "the lots keep their work", is_same_work(old, new))?;
    tally.compare(case, "no window is wider", is_narrower(old, new))?;
    let kept = schedules
        .iter()
        .all(|starts| is_schedule(capacity, new, starts));
    tally.compare(case, "each schedule is kept", kept)?;
    let dead = verdict == Verdict::Dead;
    tally.compare(
        case,
        "dead only without a schedule",
        !dead || schedules.is_empty(),
    )?;
    tally.compare(
        case,
        "moved exactly where the table is another",
        (verdict == Verdict::Moved) == (old != new),
    )
}

/// Compares one application of the rule.
pub fn compare_application<R: Defined>(
    heap: Global,
    tally: &mut Tally<'_>,
    case: Case<'_>,
    rule: &R,
) -> anyhow::Result<()> {
    let Case { sample, rule: name } = case;
    let Sample { capacity, lots, .. } = sample;
    let mut new = lots.clone()?;
    let verdict = rule
        .apply(*capacity, new.as_mut_slice())
        .map_err(|_| anyhow!("{name} refuses {sample}"))?;
    compare_left(tally, case, verdict, new.as_slice())?;
    let defined = rule.defined(heap, *capacity, lots.as_slice())?;
    let agrees = is_as_defined(&defined, verdict, new.as_slice());
    tally.compare(case, "applied as it is defined", agrees)?;
    Ok(())
}

/// A plan that holds the lots of the sample.
pub fn plan_of(sample: &Sample) -> anyhow::Result<Plan> {
    let mut plan = Plan::new();
    plan.open(sample.capacity)
        .map_err(|_| anyhow!("open refuses {sample}"))?;
    for lot in &sample.lots {
        plan.admit(*lot)
            .map_err(|_| anyhow!("admit refuses {sample}"))?;
    }
    Ok(plan)
}

/// Compares tighten by the rule.
pub fn compare_tighten<R: Defined>(
    heap: Global,
    tally: &mut Tally<'_>,
    case: Case<'_>,
    rule: &R,
) -> anyhow::Result<()> {
    let Sample { capacity, lots, .. } = case.sample;
    let mut plan = plan_of(case.sample)?;
    let (verdict, applications) = plan.tighten(rule);
    let new = plan.lots();
    compare_left(tally, case, verdict, new)?;
    let same_capacity = plan.capacity() == *capacity;
    tally.compare(case, "tighten keeps the capacity", same_capacity)?;
    let after = schedules(heap, *capacity, new)?;
    let same_schedules = after.as_slice() == case.sample.schedules.as_slice();
    tally.compare(case, "tighten keeps the schedules", same_schedules)?;
    let most = slack(lots.as_slice()).saturating_add(1);
    tally.compare(case, "applied at most so often", applications <= most)?;
    let (defined, defined_applications) = settled(heap, rule, *capacity, lots.as_slice())?;
    let agrees = is_as_defined(&defined, verdict, new) && applications == defined_applications;
    tally.compare(case, "tightened as it is defined", agrees)?;
    Ok(())
}
