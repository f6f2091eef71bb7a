//! The elastic profile of a list of lots, and how much of its work overflows the windows.
#![tactic(auto)]

ghost use Rattle.std.specs.Prelude.{Ok};
ghost use Rattle.elastic.specs.Overflow.{OverflowAnswered, FewPoints, NoneIfSchedulable};

use lots::{Lot, Refusal, Table};

mod points;
mod profile;
mod walk;

use points::Points;
pub use profile::Profile;
use walk::left_over;

/// The overflow of a table, in trays times minutes, and the number of points of its profile
/// (docs/RULES.md, "The elastic profile").
pub fn overflow_of(table: Table<'_>) -> (u32, usize)
    ensures answer { OverflowAnswered table.entry.capacity table.entry.lots.now (Ok result) }
    ensures points { FewPoints table.entry.lots.now (Ok result) }
    ensures none_if_schedulable { NoneIfSchedulable table.entry.capacity table.entry.lots.now
        (Ok result) }
{
    let points = Points::of(table);
    let points = points.as_slice();
    (left_over(points, table.capacity), points.len())
}

/// The overflow, in trays times minutes, and the number of points of the profile of any lots under
/// any capacity. Refused with 9, `Unlawful`, where they are no lawful table.
pub fn overflow(capacity: u16, lots: &[Lot]) -> Result<(u32, usize), Refusal>
    ensures answer { OverflowAnswered capacity lots.now result }
    ensures points { FewPoints lots.now result }
    ensures none_if_schedulable { NoneIfSchedulable capacity lots.now result }
{
    Ok(overflow_of(Table::new(capacity, lots)?))
}

#[cfg(test)]
mod tests {
    use super::*;

    const FULL: Lot = Lot {
        est: 4,
        lct: 6,
        p: 2,
        c: 2,
    };

    const LONG: Lot = Lot {
        est: 0,
        lct: 6,
        p: 5,
        c: 1,
    };

    const WEEK: Lot = Lot {
        est: 0,
        lct: 10_080,
        p: 10_080,
        c: 1,
    };

    #[test]
    fn no_lots_have_no_points(rt: HostRuntime) {
        assert_eq!(rt; overflow(1, &[]), Ok((0, 0)));
        assert_eq!(rt; overflow(200, &[]), Ok((0, 0)));
    }

    #[test]
    fn unlawful_tables_are_refused(rt: HostRuntime) {
        assert_eq!(rt; overflow(0, &[]), Err(Refusal::Unlawful));
        assert_eq!(rt; overflow(201, &[]), Err(Refusal::Unlawful));
        assert_eq!(rt;
            overflow(
                1,
                &[Lot {
                    lct: 10_081,
                    ..WEEK
                }],
            ),
            Err(Refusal::Unlawful)
        );
        assert_eq!(rt;
            overflow(
                1,
                &[Lot {
                    est: 60_000,
                    ..WEEK
                }],
            ),
            Err(Refusal::Unlawful)
        );
        assert_eq!(rt; overflow(64, &[WEEK; 65]), Err(Refusal::Unlawful));
    }

    #[test]
    fn one_minute_too_long(rt: HostRuntime) {
        assert_eq!(rt; overflow(2, &[FULL, LONG]), Ok((1, 4)));
        assert_eq!(rt; overflow(2, &[FULL, Lot { p: 4, ..LONG }]), Ok((0, 3)));
    }

    #[test]
    fn a_lot_more_can_lower_it(rt: HostRuntime) {
        let early = Lot::new(0, 1, 1, 2);
        let whole = Lot::new(0, 3, 3, 1);
        let late = Lot::new(1, 3, 1, 1);
        assert_eq!(rt; overflow(2, &[early, whole]), Ok((1, 3)));
        assert_eq!(rt; overflow(2, &[early, whole, late]), Ok((0, 4)));
    }

    #[test]
    fn lots_come_in_at_any_time_and_once(rt: HostRuntime) {
        let lots = [FULL, LONG];
        let table = Table::new(2, &lots).expect(&rt, "the table is lawful");
        let mut profile = Profile::new(table);
        assert_eq!(rt; profile.overflow(), (0, 0));
        profile.add(1);
        profile.add(1);
        profile.add(2);
        assert_eq!(rt; profile.overflow(), (0, 3));
        profile.add(0);
        assert_eq!(rt; profile.overflow(), (1, 4));
    }

    #[test]
    fn a_stand_in_keeps_its_trays_until_it_ends(rt: HostRuntime) {
        let first = Lot {
            lct: 5,
            p: 3,
            ..LONG
        };
        let lots = [first, Lot { lct: 9, ..first }];
        let table = Table::new(1, &lots).expect(&rt, "the table is lawful");
        let mut profile = Profile::new(table);
        profile.add(0);
        assert_eq!(rt; profile.overflow_beside(1, 3), (1, 3));
        assert_eq!(rt; profile.overflow_beside(1, 2), (0, 3));
        assert_eq!(rt; profile.overflow_beside(2, 3), (0, 3));
    }

    #[test]
    fn a_lot_may_come_before_all_that_was_walked(rt: HostRuntime) {
        let lots = [FULL, LONG];
        let table = Table::new(2, &lots).expect(&rt, "the table is lawful");
        let mut profile = Profile::new(table);
        profile.add(0);
        assert_eq!(rt; profile.overflow(), (0, 2));
        profile.add(1);
        assert_eq!(rt; profile.overflow(), (1, 4));
        assert_eq!(rt; profile.overflow(), (1, 4));
    }

    #[test]
    fn an_emptied_profile_is_as_new(rt: HostRuntime) {
        let lots = [FULL, LONG];
        let table = Table::new(2, &lots).expect(&rt, "the table is lawful");
        let mut profile = Profile::of(table);
        assert_eq!(rt; profile.overflow(), (1, 4));
        profile.clear();
        assert_eq!(rt; profile.overflow(), (0, 0));
        profile.add(1);
        assert_eq!(rt; profile.overflow(), (0, 3));
    }

    // Each lot takes a tray for 64 minutes, so with one tray 191 of 64 × 64 are done by the end.
    #[test]
    fn as_many_points_as_fit(rt: HostRuntime) {
        let mut lots = [WEEK; 64];
        for (number, lot) in lots.iter_mut().enumerate() {
            let est = number as u16;
            *lot = Lot::new(est, est + 128, 64, 1);
        }
        assert_eq!(rt; overflow(64, &lots), Ok((0, 192)));
        let table = Table::new(1, &lots).expect(&rt, "the table is lawful");
        assert_eq!(rt; Profile::of(table).overflow(), (3905, 192));
    }

    #[test]
    fn a_week_of_64_lots(rt: HostRuntime) {
        assert_eq!(rt; overflow(64, &[WEEK; 64]), Ok((0, 2)));
        assert_eq!(rt; overflow(63, &[WEEK; 64]), Ok((10_080, 2)));
    }
}
