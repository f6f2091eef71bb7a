//! The rule overload: dead where the lots that must all be out by some minute are overfull.
ghost use Rattle.std.specs.Prelude.{◌≡◌};
ghost use Rattle.rules.specs.Overload.{ends_of, some_overfull as overfull_at_some, overload};
ghost use Rattle.rules.specs.Laws.OverloadSound.{overload_sound};

use crate::ends::Ends;
use elastic::Profile;
use lots::{Lot, Refusal, Table};
use rule::{Rule, Verdict};

/// The rule overload: dead where the lots that must all be out by some latest end are overfull, and
/// still else (docs/RULES.md, "Overload").
#[derive(Clone, Copy, Default, Debug)]
pub struct Overload;

// Whether, for some latest end, the lots that must be out by then are overfull. Those due by a
// later end have all those due by an earlier one, so one profile grows from end to end.
fn some_overfull(table: Table<'_>) -> bool
    ensures answer { let T = table.entry.lots.now in
        result ≡ overfull_at_some table.entry.capacity T (ends_of T) }
{
    let ends = Ends::of(table);
    let mut profile = Profile::new(table);
    for end in ends.row.as_slice() {
        ends.grow(&mut profile, *end, |_, _| true);
        let (left, _points) = profile.overflow();
        if left > 0 {
            return true;
        }
    }
    false
}

impl Rule for Overload {
    ghost meaning = { λ _. overload };

    ghost sound = { λ x. overload_sound };

    // Not inlined: a pile would keep the profile on its stack once for each level.
    #[inline(never)]
    fn apply(&self, capacity: u16, lots: &mut [Lot]) -> Result<Verdict, Refusal> {
        if some_overfull(Table::new(capacity, lots)?) {
            Ok(Verdict::Dead)
        } else {
            Ok(Verdict::Still)
        }
    }
}

#[cfg(test)]
mod tests {
    use super::*;

    #[test]
    fn too_much_by_a_latest_end_is_dead(rt: HostRuntime) {
        let mut lots = [Lot::new(4, 6, 2, 2), Lot::new(0, 6, 5, 1)];
        assert_eq!(rt; Overload.apply(2, &mut lots), Ok(Verdict::Dead));
        assert_eq!(rt; lots, [Lot::new(4, 6, 2, 2), Lot::new(0, 6, 5, 1)]);
        lots[1].p = 4;
        assert_eq!(rt; Overload.apply(2, &mut lots), Ok(Verdict::Still));
        assert_eq!(rt; lots, [Lot::new(4, 6, 2, 2), Lot::new(0, 6, 4, 1)]);
    }

    #[test]
    fn what_is_due_later_does_not_count(rt: HostRuntime) {
        let mut lots = [
            Lot::new(0, 1, 1, 2),
            Lot::new(0, 3, 3, 1),
            Lot::new(1, 3, 1, 1),
        ];
        assert_eq!(rt; Overload.apply(2, &mut lots), Ok(Verdict::Still));
        assert_eq!(rt; Overload.apply(1, &mut lots), Err(Refusal::Unlawful));
        assert_eq!(rt;
            lots,
            [
                Lot::new(0, 1, 1, 2),
                Lot::new(0, 3, 3, 1),
                Lot::new(1, 3, 1, 1)
            ]
        );
    }

    #[test]
    fn what_is_due_earlier_counts(rt: HostRuntime) {
        let mut lots = [Lot::new(0, 3, 3, 1), Lot::new(0, 5, 3, 1)];
        assert_eq!(rt; Overload.apply(1, &mut lots), Ok(Verdict::Dead));
        lots[1].p = 2;
        assert_eq!(rt; Overload.apply(1, &mut lots), Ok(Verdict::Still));
        assert_eq!(rt; lots, [Lot::new(0, 3, 3, 1), Lot::new(0, 5, 2, 1)]);
    }

    #[test]
    fn all_lots_of_one_latest_end_count(rt: HostRuntime) {
        let mut lots = [
            Lot::new(0, 6, 2, 1),
            Lot::new(0, 9, 1, 1),
            Lot::new(0, 6, 2, 1),
            Lot::new(0, 9, 1, 1),
            Lot::new(0, 6, 3, 1),
        ];
        assert_eq!(rt; Overload.apply(1, &mut lots), Ok(Verdict::Dead));
        lots[4].p = 2;
        assert_eq!(rt; Overload.apply(1, &mut lots), Ok(Verdict::Still));
    }
}
