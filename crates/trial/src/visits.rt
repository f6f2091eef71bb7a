//! The tree that a search is defined to visit, node by node.

use crate::naive::{Defined, settled};
use crate::schedules::{earliest_end, end, is_schedule, latest_start, ways};
use lots::Lot;
use std::alloc::{AllocError, Global};

/// A start for each lot, by number, and the minute at which the last is out.
#[derive(Drop)]
pub struct Schedule {
    pub end: u16,
    pub starts: Vec<u16>,
}

/// The best schedule of a table, and how many nodes were visited.
#[derive(Drop)]
pub struct Visited {
    pub best: Option<Schedule>,
    pub nodes: u32,
}

// What becomes of a node.
#[derive(Drop)]
enum Fate {
    Closed,
    Found(Schedule),
    // The nodes below, the left one and the right one.
    Fork(Vec<Lot>, Vec<Lot>),
}

// The lots, each out before the end of the best known, and none where a run does not fit then.
fn sooner(
    heap: Global,
    best: &Option<Schedule>,
    lots: &[Lot],
) -> Result<Option<Vec<Lot>>, AllocError> {
    let mut sooner = Vec::new(heap);
    for lot in lots {
        let lct = match best {
            Some(schedule) => lot.lct.min(schedule.end.saturating_sub(1)),
            None => lot.lct,
        };
        let lot = Lot { lct, ..*lot };
        if earliest_end(&lot) > u32::from(lct) {
            return Ok(None);
        }
        sooner.push(lot)?;
    }
    Ok(Some(sooner))
}

// The lots, with the window of one of them changed.
fn changed<F: Fn(&Lot) -> Lot>(
    heap: Global,
    lots: &[Lot],
    number: usize,
    change: F,
) -> Result<Vec<Lot>, AllocError>
    requires callable { F.IsAlwaysCallable change }
{
    let mut changed = Vec::new(heap);
    for (at, lot) in lots.iter().enumerate() {
        changed.push(if at == number { change(lot) } else { *lot })?;
    }
    Ok(changed)
}

// The two nodes below, branched on the lot of a number.
fn fork(heap: Global, lots: &[Lot], number: usize) -> Result<Fate, AllocError> {
    let left = changed(
        heap,
        lots,
        number,
        |lot| Lot {
            lct: lot.est.saturating_add(lot.p),
            ..*lot
        },
    )?;
    let right = changed(
        heap,
        lots,
        number,
        |lot| Lot {
            est: lot.est.saturating_add(1),
            ..*lot
        },
    )?;
    Ok(Fate::Fork(left, right))
}

// What becomes of a node whose lots each have one start.
fn leaf(heap: Global, capacity: u16, lots: &[Lot]) -> Result<Fate, AllocError> {
    let starts: Vec<u16> = lots.iter().map(|lot| lot.est).collect(heap)?;
    if !is_schedule(capacity, lots, starts.as_slice()) {
        return Ok(Fate::Closed);
    }
    let end = u16::try_from(end(lots, starts.as_slice())).unwrap_or(u16::MAX);
    Ok(Fate::Found(Schedule { end, starts }))
}

fn look<R: Defined>(
    heap: Global,
    rule: &R,
    capacity: u16,
    best: &Option<Schedule>,
    lots: &[Lot],
) -> Result<Fate, AllocError> {
    let Some(lots) = sooner(heap, best, lots)? else {
        return Ok(Fate::Closed);
    };
    let (Some(lots), _) = settled(heap, rule, capacity, lots.as_slice())? else {
        return Ok(Fate::Closed);
    };
    let choice = lots
        .iter()
        .enumerate()
        .filter(|(_, lot)| lot.est < latest_start(lot))
        .min_by_key(|(_, lot)| lot.est);
    match choice {
        Some((number, _)) => fork(heap, lots.as_slice(), number),
        None => leaf(heap, capacity, lots.as_slice()),
    }
}

/// Visits the whole tree over a table.
pub fn visit<R: Defined>(
    heap: Global,
    rule: &R,
    capacity: u16,
    lots: &[Lot],
) -> Result<Visited, AllocError> {
    let mut unvisited = Vec::new(heap);
    unvisited.push(lots.to_vec(heap)?)?;
    let mut visited = Visited {
        best: None,
        nodes: 0,
    };
    // More than enough: there are fewer than two nodes for each way.
    for _ in 0..ways(lots).saturating_mul(2) {
        let Some(node) = unvisited.pop() else {
            break;
        };
        visited.nodes = visited.nodes.saturating_add(1);
        match look(heap, rule, capacity, &visited.best, node.as_slice())? {
            Fate::Closed => {}
            Fate::Found(schedule) => visited.best = Some(schedule),
            Fate::Fork(left, right) => {
                unvisited.push(right)?;
                unvisited.push(left)?;
            }
        }
    }
    Ok(visited)
}
