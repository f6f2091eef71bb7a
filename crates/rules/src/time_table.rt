//! The rule time-table: a lot starts after the minutes at which it does not fit beside the fixed
//! parts of the others.
ghost use Rattle.std.specs.Prelude.{◌≡◌, ℕ, ◌<◌, ◌≤◌, length, replicate, slice_index};
ghost use Rattle.lots.specs.Limits.{horizon};
ghost use Rattle.lots.specs.Tables.{ect, LawfulLot};
ghost use Rattle.rules.specs.TimeTable.{fixed_trays, fixed_load, some_passes, after_last, bound_of, time_table};
ghost use Rattle.rules.specs.Laws.TimeTables.{time_table_sound};
ghost use Rattle.rules.specs.Private.Changes.{begun_at, ended_at, greatest_below};

use lots::{HORIZON, Lot, MAX_LOTS, Refusal, Table};
use rule::{Rule, Verdict, raise};
use std::ops::Range;

// How many minutes the week has.
const MINUTES: usize = HORIZON as usize;

// How many minutes there are at which a fixed part may end: the one after the week is the last.
const END_MINUTES: usize = MINUTES + 1;

// The trays that the lot holds at a minute, whenever it starts.
fn fixed_at(lot: Lot, minute: u32) -> u16
    ensures answer { result ≡ fixed_trays lot minute }
{
    if u32::from(lot.lst()) <= minute && minute < lot.ect() {
        lot.c
    } else {
        0
    }
}

// Enters where the fixed parts of a table begin and end: at each minute, the trays of those that
// begin there and of those that end there. All fixed parts lie within the minutes of the answer.
fn enter(table: Table, begun: &mut [u16; MINUTES], ended: &mut [u16; END_MINUTES]) -> Range<usize>
    requires begun_blank { begun.old ≡ replicate MINUTES 0 }
    requires ended_blank { ended.old ≡ replicate END_MINUTES 0 }
    ensures begun { (t : ℕ) → t < MINUTES
        → slice_index begun.new t ≡ begun_at table.entry.lots.now t }
    ensures ended { (t : ℕ) → t < END_MINUTES
        → slice_index ended.new t ≡ ended_at table.entry.lots.now t }
    ensures before { (t : ℕ) → t < result.start → fixed_load table.entry.lots.now t ≡ 0 }
    ensures after { (t : ℕ) → result.end ≤ t → fixed_load table.entry.lots.now t ≡ 0 }
    ensures in_week { (result.start ≤ MINUTES) × (result.end ≤ MINUTES) }
{
    let mut first = MINUTES;
    let mut last = 0;
    for lot in table.lots {
        let start = usize::from(lot.lst());
        let end = lot.ect() as usize;
        // The lst of a lot with no fixed part may lie past its ect.
        if start < end {
            begun[start] += lot.c;
            ended[end] += lot.c;
            first = first.min(start);
            last = last.max(end);
        }
    }
    first..last
}

// The trays that the fixed parts of all lots of a table hold, one number for each minute of the
// week, and the greatest of these.
#[derive(Drop)]
struct Loads<'a> {
    table: Table<'a>,
    by_minute: &'a [u16; MINUTES],
    greatest: u16,
    ghost loaded: { (t : ℕ) → t < horizon
        → slice_index by_minute.now t ≡ fixed_load table.lots.now t },
    ghost is_greatest: { greatest ≡ greatest_below (fixed_load table.lots.now) horizon },
}

impl<'a> Loads<'a> {
    ghost use Rattle.rules.specs.Private.Loads.{lacks_room, is_blocked_under};

    // The loads of a table, in an array of zeros that is lent: over the minutes, the sum of what
    // begins at each less what ends there.
    fn of(table: Table<'a>, by_minute: &'a mut [u16; MINUTES]) -> Loads<'a>
        requires blank { by_minute.old ≡ replicate MINUTES 0 }
        ensures answer { result.table ≡ table.entry }
    {
        let mut ended = [0; END_MINUTES];
        let minutes = enter(table, by_minute, &mut ended);
        let mut load = 0;
        let mut greatest = 0;
        for minute in minutes.start..minutes.end {
            load = load + by_minute[minute] - ended[minute];
            by_minute[minute] = load;
            greatest = greatest.max(load);
        }
        Loads {
            table,
            by_minute,
            greatest,
        }
    }

    // Whether the load passes the capacity at some minute.
    fn some_passes(&self) -> bool
        ensures answer { result ≡ some_passes self.now.table.capacity self.now.table.lots.now }
    {
        self.greatest > self.table.capacity
    }

    // Whether a lot of the table does not fit at a minute beside the fixed parts of the others.
    fn lacks_room(&self, lot: Lot, minute: u32) -> bool
        requires has_trays { lot.c ≤ self.now.table.capacity }
        requires in_week { minute < horizon }
        ensures answer { result ≡ lacks_room self.now lot minute }
    {
        let load = self.by_minute[minute as usize];
        let room = self.table.capacity - lot.c;
        // The own fixed part only makes more room, so most minutes are told by the load alone.
        load > room && load > room + fixed_at(lot, minute)
    }

    // The minute after the last at which a lot of the table, started at its est, does not fit
    // beside the fixed parts of the others; 0 where there is none.
    fn bound(&self, lot: Lot) -> u16
        requires lawful { LawfulLot self.now.table.capacity lot }
        ensures answer { result ≡ after_last (is_blocked_under self.now lot) (ect lot) }
    {
        (u32::from(lot.est)..lot.ect())
            .rev()
            .find(|minute| self.lacks_room(lot, *minute))
            .map_or(0, |minute| (minute + 1) as u16)
    }

    // The new bounds of the lots, by number; 0 past the last lot.
    fn bounds(&self) -> [u16; MAX_LOTS]
        ensures answer { let table = self.now.table in (j : ℕ) → j < length table.lots.now
            → slice_index result j ≡ bound_of table.capacity table.lots.now j }
    {
        let mut bounds = [0; MAX_LOTS];
        for (number, lot) in self.table.lots.iter().enumerate() {
            bounds[number] = self.bound(*lot);
        }
        bounds
    }
}

/// The rule time-table: each lot starts after its last minute, before its ect, at which it does not
/// fit beside the fixed parts of the others. Dead where the fixed parts of one minute pass the
/// capacity (docs/RULES.md, "Time-table").
#[derive(Clone, Copy, Default, Debug)]
pub struct TimeTable;

impl Rule for TimeTable {
    ghost meaning = { λ _. time_table };

    ghost sound = { λ x. time_table_sound };

    // Not inlined: a pile would keep the loads of the week on its stack once for each level.
    #[inline(never)]
    fn apply(&self, capacity: u16, lots: &mut [Lot]) -> Result<Verdict, Refusal> {
        let table = Table::new(capacity, lots)?;
        let mut by_minute = [0; MINUTES];
        let loads = Loads::of(table, &mut by_minute);
        if loads.some_passes() {
            return Ok(Verdict::Dead);
        }
        let bounds = loads.bounds();
        Ok(raise(lots, &bounds))
    }
}

#[cfg(test)]
mod tests {
    use super::*;

    #[test]
    fn a_lot_starts_after_its_blocked_minutes(rt: HostRuntime) {
        let mut lots = [Lot::new(0, 4, 3, 2), Lot::new(0, 9, 2, 1)];
        assert_eq!(rt; TimeTable.apply(2, &mut lots), Ok(Verdict::Moved));
        assert_eq!(rt; lots, [Lot::new(0, 4, 3, 2), Lot::new(2, 9, 2, 1)]);
        assert_eq!(rt; TimeTable.apply(2, &mut lots), Ok(Verdict::Moved));
        assert_eq!(rt; lots, [Lot::new(0, 4, 3, 2), Lot::new(3, 9, 2, 1)]);
        assert_eq!(rt; TimeTable.apply(2, &mut lots), Ok(Verdict::Still));
        assert_eq!(rt; lots, [Lot::new(0, 4, 3, 2), Lot::new(3, 9, 2, 1)]);
    }

    #[test]
    fn fixed_parts_that_pass_the_capacity_are_dead(rt: HostRuntime) {
        let mut lots = [Lot::new(0, 1, 1, 1); 2];
        assert_eq!(rt; TimeTable.apply(1, &mut lots), Ok(Verdict::Dead));
        assert_eq!(rt; lots, [Lot::new(0, 1, 1, 1); 2]);
    }

    #[test]
    fn fixed_parts_may_pass_the_capacity_in_the_last_minute(rt: HostRuntime) {
        let lots_at_the_end = [
            Lot::new(HORIZON - 2, HORIZON, 2, 1),
            Lot::new(HORIZON - 1, HORIZON, 1, 1),
        ];
        let mut lots = lots_at_the_end;
        assert_eq!(rt; TimeTable.apply(1, &mut lots), Ok(Verdict::Dead));
        assert_eq!(rt; lots, lots_at_the_end);
        assert_eq!(rt; TimeTable.apply(2, &mut lots), Ok(Verdict::Still));
    }

    #[test]
    fn fixed_parts_that_touch_just_fit(rt: HostRuntime) {
        let first = Lot::new(0, 3, 3, 2);
        let second = Lot::new(3, 5, 2, 2);
        let mut lots = [first, second, Lot::new(0, 20, 6, 1)];
        assert_eq!(rt; TimeTable.apply(2, &mut lots), Ok(Verdict::Moved));
        assert_eq!(rt; lots, [first, second, Lot::new(5, 20, 6, 1)]);
        assert_eq!(rt; TimeTable.apply(2, &mut lots), Ok(Verdict::Still));
    }

    #[test]
    fn an_unlawful_table_is_refused(rt: HostRuntime) {
        let mut lots = [Lot::new(0, 4, 3, 2), Lot::new(0, 9, 2, 1)];
        assert_eq!(rt; TimeTable.apply(1, &mut lots), Err(Refusal::Unlawful));
        assert_eq!(rt; lots, [Lot::new(0, 4, 3, 2), Lot::new(0, 9, 2, 1)]);
    }
}
