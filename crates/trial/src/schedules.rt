//! Schedules, found by trying every start of every lot.
ghost use Rattle.std.specs.Prelude.{◌≤◌};

use crate::tables::MOST_LOTS;
use lots::Lot;
use std::alloc::{AllocError, Global};

/// A start for each lot, by number, and 0 past the last.
pub type Starts = [u16; MOST_LOTS];

// The minute at which a lot with this start is out.
fn end_of(lot: &Lot, start: u16) -> u32 {
    u32::from(start) + u32::from(lot.p)
}

/// The ect of the lot. `Lot::ect` and `Lot::lst` are among what is tried, so neither is called.
pub fn earliest_end(lot: &Lot) -> u32 {
    end_of(lot, lot.est)
}

/// The lst of the lot.
pub fn latest_start(lot: &Lot) -> u16 {
    lot.lct.saturating_sub(lot.p)
}

// The trays in use at a minute.
fn load(lots: &[Lot], starts: &[u16], minute: u32) -> u32 {
    lots.iter()
        .zip(starts)
        .filter(|(lot, start)| u32::from(**start) <= minute && minute < end_of(lot, **start))
        .fold(0u32, |load, (lot, _)| load.saturating_add(u32::from(lot.c)))
}

/// The minute at which the last lot is out, and 0 without lots.
pub fn end(lots: &[Lot], starts: &[u16]) -> u32 {
    lots.iter()
        .zip(starts)
        .map(|(lot, start)| end_of(lot, *start))
        .max()
        .unwrap_or(0)
}

// Whether a run that starts then keeps within the window of the lot.
fn is_in_window(lot: &Lot, start: u16) -> bool {
    lot.est <= start && end_of(lot, start) <= u32::from(lot.lct)
}

/// Whether each lot runs within its window, and no minute has more trays in use than there are.
pub fn is_schedule(capacity: u16, lots: &[Lot], starts: &[u16]) -> bool {
    let in_windows = lots
        .iter()
        .zip(starts)
        .all(|(lot, start)| is_in_window(lot, *start));
    let first = lots.iter().map(|lot| lot.est).min().unwrap_or(0);
    let trays = u32::from(capacity);
    lots.len() <= starts.len()
        && in_windows
        && (u32::from(first)..end(lots, starts)).all(|minute| load(lots, starts, minute) <= trays)
}

// How many minutes a lot may start at.
fn choices(lot: &Lot) -> u64
    ensures bound { 1 ≤ result }
{
    u64::from(latest_start(lot).saturating_sub(lot.est)) + 1
}

/// In how many ways each lot can get a start: W.
pub fn ways(lots: &[Lot]) -> u64 {
    lots.iter()
        .fold(1u64, |ways, lot| ways.saturating_mul(choices(lot)))
}

// The starts that one of the ways gives. The start of the first lot changes first, and so the order
// of two ways is that of their starts, whatever the windows are.
fn starts_of(lots: &[Lot], way: u64) -> Starts {
    let mut starts = [0; MOST_LOTS];
    let mut rest = way;
    for (start, lot) in starts.iter_mut().zip(lots) {
        let choice = rest % choices(lot);
        *start = u16::try_from(u64::from(lot.est).saturating_add(choice)).unwrap_or(u16::MAX);
        rest /= choices(lot);
    }
    starts
}

/// Every schedule, in the order of the ways.
pub fn schedules(heap: Global, capacity: u16, lots: &[Lot]) -> Result<Vec<Starts>, AllocError> {
    let mut found = Vec::new(heap);
    for way in 0..ways(lots) {
        let starts = starts_of(lots, way);
        if is_schedule(capacity, lots, &starts) {
            found.push(starts)?;
        }
    }
    Ok(found)
}
