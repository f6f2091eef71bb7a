//! What the overflow, the rules and tighten are defined to be, computed minute by minute and lot by
//! lot.

use crate::schedules::{earliest_end, latest_start};
use lots::{HORIZON, Lot};
use rule::{Both, Idle, Rule, Turned};
use rules::{House, NotFirst, Overload, TimeTable};
use std::alloc::{AllocError, Global};

/// The lots that a rule leaves, and none where it is dead.
pub type Left = Result<Option<Vec<Lot>>, AllocError>;

/// A rule with its definition.
pub trait Defined: Rule {
    /// What the rule is defined to make of a lawful table.
    fn defined(&self, heap: Global, capacity: u16, lots: &[Lot]) -> Left;
}

fn earliest(lots: &[Lot]) -> u16 {
    lots.iter().map(|lot| lot.est).min().unwrap_or(0)
}

fn latest(lots: &[Lot]) -> u16 {
    lots.iter().map(|lot| lot.lct).max().unwrap_or(0)
}

// The trays of the lots for which the test holds.
fn trays<F: Fn(&Lot) -> bool>(lots: &[Lot], test: F) -> u64
    requires callable { F.IsAlwaysCallable test }
{
    let mut trays = 0u64;
    for lot in lots {
        if test(lot) {
            trays = trays.saturating_add(u64::from(lot.c));
        }
    }
    trays
}

/// The overflow, in tray-minutes: what is left over in the minute before the latest end.
pub fn overflow(capacity: u16, lots: &[Lot]) -> u64 {
    let mut left = 0u64;
    for minute in earliest(lots)..latest(lots) {
        let available = trays(lots, |lot| lot.est <= minute && minute < lot.lct);
        let required = trays(lots, |lot| {
            lot.est <= minute && u32::from(minute) < earliest_end(lot)
        });
        let wanted = required.saturating_add(left);
        let used = wanted.min(available.min(u64::from(capacity)));
        left = wanted - used;
    }
    left
}

/// How many minutes are the est, the ect or the lct of some lot.
pub fn points(lots: &[Lot]) -> usize {
    if lots.is_empty() {
        return 0;
    }
    (u32::from(earliest(lots))..=u32::from(latest(lots)))
        .filter(|minute| {
            lots.iter().any(|lot| {
                u32::from(lot.est) == *minute
                    || earliest_end(lot) == *minute
                    || u32::from(lot.lct) == *minute
            })
        })
        .count()
}

// The lots, each starting at its bound or later, and none where a run does not fit then.
fn raised(heap: Global, lots: &[Lot], bounds: &[u16]) -> Left {
    let mut left = Vec::new(heap);
    for (lot, bound) in lots.iter().zip(bounds) {
        let est = lot.est.max(*bound);
        if u32::from(est) + u32::from(lot.p) > u32::from(lot.lct) {
            return Ok(None);
        }
        left.push(Lot { est, ..*lot })?;
    }
    Ok(Some(left))
}

impl Defined for Idle {
    fn defined(&self, heap: Global, _capacity: u16, lots: &[Lot]) -> Left {
        Ok(Some(lots.to_vec(heap)?))
    }
}

impl Defined for Overload {
    fn defined(&self, heap: Global, capacity: u16, lots: &[Lot]) -> Left {
        for last in lots {
            let mut due = Vec::new(heap);
            for lot in lots {
                if lot.lct <= last.lct {
                    due.push(*lot)?;
                }
            }
            if overflow(capacity, due.as_slice()) > 0 {
                return Ok(None);
            }
        }
        Ok(Some(lots.to_vec(heap)?))
    }
}

// Whether the lot is running at a minute, whenever it starts.
fn is_fixed_at(lot: &Lot, minute: u16) -> bool {
    latest_start(lot) <= minute && u32::from(minute) < earliest_end(lot)
}

// Whether the fixed parts take more trays at a minute than there are.
fn passes_capacity(capacity: u16, lots: &[Lot], minute: u16) -> bool {
    trays(lots, |lot| is_fixed_at(lot, minute)) > u64::from(capacity)
}

// The minute after the last at which the lot, started at its est, does not fit beside the fixed
// parts of the others.
fn time_table_bound(capacity: u16, lots: &[Lot], number: usize, lot: &Lot) -> u16 {
    let mut bound = 0;
    for minute in lot.est..lot.est.saturating_add(lot.p) {
        let others = lots
            .iter()
            .enumerate()
            .filter(|(other, at)| *other != number && is_fixed_at(at, minute))
            .fold(0u64, |trays, (_, at)| trays.saturating_add(u64::from(at.c)));
        if others.saturating_add(u64::from(lot.c)) > u64::from(capacity) {
            bound = minute.saturating_add(1);
        }
    }
    bound
}

impl Defined for TimeTable {
    fn defined(&self, heap: Global, capacity: u16, lots: &[Lot]) -> Left {
        if (earliest(lots)..latest(lots)).any(|minute| passes_capacity(capacity, lots, minute)) {
            return Ok(None);
        }
        let mut bounds = Vec::new(heap);
        for (number, lot) in lots.iter().enumerate() {
            bounds.push(time_table_bound(capacity, lots, number, lot))?;
        }
        raised(heap, lots, bounds.as_slice())
    }
}

// The bound that another lot puts on the est of this one.
fn bound_by(
    heap: Global,
    capacity: u16,
    lots: &[Lot],
    number: usize,
    lot: &Lot,
    other: &Lot,
) -> Result<u16, AllocError> {
    let mut cut = Vec::new(heap);
    for (at, each) in lots.iter().enumerate() {
        if at != number && u32::from(lot.est) < earliest_end(each) && each.lct <= other.lct {
            cut.push(*each)?;
        }
    }
    let least = cut.iter().map(|each| earliest_end(each)).min().unwrap_or(0);
    let first = earliest(cut.as_slice());
    let end = lot.est.saturating_add(lot.p).min(other.lct);
    if first < end {
        cut.push(Lot {
            est: first,
            lct: end,
            p: end - first,
            ..*lot
        })?;
    }
    if overflow(capacity, cut.as_slice()) > 0 {
        Ok(u16::try_from(least).unwrap_or(u16::MAX))
    } else {
        Ok(0)
    }
}

// The greatest bound that the others put on the est of this one.
fn not_first_bound(
    heap: Global,
    capacity: u16,
    lots: &[Lot],
    number: usize,
    lot: &Lot,
) -> Result<u16, AllocError> {
    let mut bound = 0u16;
    for (at, other) in lots.iter().enumerate() {
        if at != number && u32::from(lot.est) < earliest_end(other) {
            bound = bound.max(bound_by(heap, capacity, lots, number, lot, other)?);
        }
    }
    Ok(bound)
}

impl Defined for NotFirst {
    fn defined(&self, heap: Global, capacity: u16, lots: &[Lot]) -> Left {
        let mut bounds = Vec::new(heap);
        for (number, lot) in lots.iter().enumerate() {
            bounds.push(not_first_bound(heap, capacity, lots, number, lot)?)?;
        }
        raised(heap, lots, bounds.as_slice())
    }
}

// The lots in the week read backwards.
fn turned(heap: Global, lots: &[Lot]) -> Result<Vec<Lot>, AllocError> {
    let mut turned = Vec::new(heap);
    for lot in lots {
        turned.push(Lot {
            est: HORIZON.saturating_sub(lot.lct),
            lct: HORIZON.saturating_sub(lot.est),
            ..*lot
        })?;
    }
    Ok(turned)
}

impl<X: Defined> Defined for Turned<X> {
    fn defined(&self, heap: Global, capacity: u16, lots: &[Lot]) -> Left {
        let backwards = turned(heap, lots)?;
        match self.rule.defined(heap, capacity, backwards.as_slice())? {
            Some(left) => Ok(Some(turned(heap, left.as_slice())?)),
            None => Ok(None),
        }
    }
}

impl<X: Defined, Y: Defined> Defined for Both<X, Y> {
    fn defined(&self, heap: Global, capacity: u16, lots: &[Lot]) -> Left {
        match self.first.defined(heap, capacity, lots)? {
            Some(left) => self.second.defined(heap, capacity, left.as_slice()),
            None => Ok(None),
        }
    }
}

impl Defined for House {
    fn defined(&self, heap: Global, capacity: u16, lots: &[Lot]) -> Left {
        let narrowed = Both {
            first: Overload,
            second: Both {
                first: TimeTable,
                second: NotFirst,
            },
        };
        let backwards = Turned {
            rule: Both {
                first: TimeTable,
                second: NotFirst,
            },
        };
        Both {
            first: narrowed,
            second: backwards,
        }
        .defined(heap, capacity, lots)
    }
}

/// The sum of lst − est over the lots, in minutes.
pub fn slack(lots: &[Lot]) -> u32 {
    lots.iter().fold(0u32, |slack, lot| {
        slack.saturating_add(u32::from(latest_start(lot).saturating_sub(lot.est)))
    })
}

/// The lots that are left once nothing changes any more, none where the rule is dead; and the
/// number of applications.
pub fn settled<R: Defined>(
    heap: Global,
    rule: &R,
    capacity: u16,
    lots: &[Lot],
) -> Result<(Option<Vec<Lot>>, u32), AllocError> {
    let mut now = lots.to_vec(heap)?;
    let mut applications = 0u32;
    for _ in 0..=slack(lots) {
        applications = applications.saturating_add(1);
        let Some(left) = rule.defined(heap, capacity, now.as_slice())? else {
            return Ok((None, applications));
        };
        if left.as_slice() == now.as_slice() {
            break;
        }
        now = left;
    }
    Ok((Some(now), applications))
}
