//! Lots, the law of their tables, and the numbers by which calls refuse.
#![tactic(auto)]

ghost use Rattle.std.specs.Prelude.{◌≡◌, ◌+◌, ◌≤◌, ◌↔◌, IsTrue};
ghost use Rattle.lots.specs.Refusals.{refusal_number};
ghost use Rattle.lots.specs.Tables.{ect as earliest_end, lst as latest_start, LawfulLot, Lawful};

mod table;

pub use table::Table;

/// The last minute of the week: every lot is out by then.
pub const HORIZON: u16 = 10_080;
/// The most trays that a machine may have.
pub const MAX_CAPACITY: u16 = 200;
/// The most lots that a table may have.
pub const MAX_LOTS: usize = 64;

/// One lot of goods, lawful or not (docs/RULES.md, "Lots, tables and schedules").
#[derive(Clone, Copy, PartialEq, Eq, Default, Debug)]
pub struct Lot {
    /// The earliest start: the minute from which it may go in.
    pub est: u16,
    /// The latest completion: the minute by which it must be out.
    pub lct: u16,
    /// How many minutes it runs.
    pub p: u16,
    /// How many trays it takes.
    pub c: u16,
}

impl Lot {
    /// The lot of these four numbers, whatever they are.
    pub const fn new(est: u16, lct: u16, p: u16, c: u16) -> Lot
        ensures answer { (result.est ≡ est) × (result.lct ≡ lct) × (result.p ≡ p) × (result.c ≡ c) }
    {
        Lot { est, lct, p, c }
    }

    /// Est + p: the earliest minute at which the lot can be out.
    pub fn ect(&self) -> u32
        ensures answer { result ≡ earliest_end self.now }
    {
        u32::from(self.est) + u32::from(self.p)
    }

    /// Lct − p, and 0 where the run is longer than lct. It is the latest minute at which a lot that
    /// fits its window can go in; whether it fits is for `fits` to say.
    pub fn lst(&self) -> u16
        ensures answer { result ≡ latest_start self.now }
    {
        self.lct.saturating_sub(self.p)
    }

    /// Whether the run fits the window: est + p is at most lct.
    pub fn fits(&self) -> bool
        ensures answer { IsTrue result ↔ (earliest_end self.now ≤ self.now.lct) }
    {
        self.ect() <= u32::from(self.lct)
    }

    /// Whether the lot is lawful in a table of this capacity: it runs, it takes trays and no more
    /// than there are, its run fits its window, and its window ends in the week.
    pub fn is_lawful(&self, capacity: u16) -> bool
        ensures answer { IsTrue result ↔ LawfulLot capacity self.now }
    {
        1 <= self.p && 1 <= self.c && self.c <= capacity && self.fits() && self.lct <= HORIZON
    }
}

/// Whether a capacity and lots are a lawful table (docs/RULES.md, "Lots, tables and schedules").
pub fn is_lawful(capacity: u16, lots: &[Lot]) -> bool
    ensures answer { IsTrue result ↔ Lawful capacity lots.now }
{
    if capacity < 1 || capacity > MAX_CAPACITY {
        return false;
    }
    // The lots are counted as they are looked at, so a slice of any length is answered soon.
    for (number, lot) in lots.iter().enumerate() {
        if number >= MAX_LOTS || !lot.is_lawful(capacity) {
            return false;
        }
    }
    true
}

/// Why a call refuses (docs/REFUSALS.md). Every format names a refusal by its number, which never
/// changes.
#[derive(Clone, Copy, PartialEq, Eq, Debug)]
pub enum Refusal {
    /// 1, of open: the capacity is 0 or above `MAX_CAPACITY`.
    Capacity = 1,
    /// 2, of admit: `MAX_LOTS` lots are in.
    TableFull = 2,
    /// 3, of admit: the lot takes no tray, or more than the capacity.
    Trays = 3,
    /// 4, of admit: the lot runs for 0 minutes.
    Run = 4,
    /// 5, of admit: est + p is above lct, or lct is above `HORIZON`.
    Window = 5,
    /// 6, of narrow: no lot has this number.
    NoSuchLot = 6,
    /// 7, of narrow: the span ends before it begins, or past `HORIZON`.
    Span = 7,
    /// 8, of narrow: the lot's run does not fit what would be left of its window.
    NoRoom = 8,
    /// 9, of `Table::new`, every rule, settle and overflow: the table is not lawful.
    Unlawful = 9,
    /// 10, of solve: the budget is 0.
    Budget = 10,
    /// 11, of solve: the trail has fewer than n × n + n cells, for n lots.
    Trail = 11,
    /// 12, of solve: there are fewer than n places for starts, for n lots.
    Starts = 12,
    /// 13, of a sheet: the print buffer is too short.
    PrintBuffer = 13,
    /// 14, of a sheet: it is too long.
    SheetLength = 14,
    /// 15, of a line of a sheet: it is not of the form that is due there.
    Line = 15,
    /// 16, of a line of a sheet: it is one command more than a sheet may have.
    Commands = 16,
}

impl From<Refusal> for u8 {
    ghost from_gives = { λ refusal number. number ≡ refusal_number refusal };

    fn from(refusal: Refusal) -> u8 {
        refusal as u8
    }
}

#[cfg(test)]
mod tests {
    use super::*;

    const WEEK: Lot = Lot {
        est: 0,
        lct: HORIZON,
        p: HORIZON,
        c: 1,
    };

    #[test]
    fn capacity_is_1_to_200(rt: HostRuntime) {
        assert!(rt; !is_lawful(0, &[]));
        assert!(rt; is_lawful(1, &[]));
        assert!(rt; is_lawful(200, &[WEEK]));
        assert!(rt; !is_lawful(201, &[WEEK]));
    }

    #[test]
    fn lots_are_at_most_64(rt: HostRuntime) {
        assert!(rt; is_lawful(1, &[WEEK; 64]));
        assert!(rt; !is_lawful(1, &[WEEK; 65]));
    }

    #[test]
    fn a_lot_fits_its_window(rt: HostRuntime) {
        assert!(rt; WEEK.is_lawful(1));
        assert!(rt; !Lot { est: 1, ..WEEK }.is_lawful(1));
        assert!(rt;
            !Lot {
                lct: 10_081,
                ..WEEK
            }
            .is_lawful(1)
        );
        assert!(rt;
            !Lot {
                est: 60_000,
                ..WEEK
            }
            .is_lawful(1)
        );
        assert!(rt; !Lot { p: 0, ..WEEK }.is_lawful(1));
    }

    #[test]
    fn a_lot_fits_the_trays(rt: HostRuntime) {
        assert!(rt; !Lot { c: 0, ..WEEK }.is_lawful(1));
        assert!(rt; Lot { c: 24, ..WEEK }.is_lawful(24));
        assert!(rt; !Lot { c: 25, ..WEEK }.is_lawful(24));
    }

    #[test]
    fn a_lawless_lot_is_found_at_the_end(rt: HostRuntime) {
        assert!(rt; !is_lawful(1, &[WEEK, Lot { p: 0, ..WEEK }]));
    }

    #[test]
    fn an_earliest_end_may_pass_16_bits(rt: HostRuntime) {
        let late = Lot {
            est: 65_535,
            p: 65_535,
            ..WEEK
        };
        assert_eq!(rt; late.ect(), 131_070);
    }

    #[test]
    fn a_latest_start_is_0_where_the_run_is_longer_than_lct(rt: HostRuntime) {
        assert_eq!(rt;
            Lot {
                lct: 9,
                p: 3,
                ..WEEK
            }
            .lst(),
            6
        );
        assert_eq!(rt;
            Lot {
                lct: 3,
                p: 9,
                ..WEEK
            }
            .lst(),
            0
        );
    }

    #[test]
    fn refusals_have_their_numbers(rt: HostRuntime) {
        assert_eq!(rt; u8::from(Refusal::Capacity), 1);
        assert_eq!(rt; u8::from(Refusal::Unlawful), 9);
        assert_eq!(rt; u8::from(Refusal::Commands), 16);
    }
}
