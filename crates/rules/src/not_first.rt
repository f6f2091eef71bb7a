//! The rule not-first: a lot that cannot start before one of some others has ended starts at their
//! least ect or later.
ghost use Rattle.std.specs.Prelude.{◌≡◌, ℕ, ◌<◌, ◌≤◌, length, slice_index};
ghost use Rattle.std.proofs.Props.{props};
ghost use Rattle.lots.specs.Tables.{lot_at};
ghost use Rattle.elastic.specs.Added.{table_of, marks_of, added_lots};
ghost use Rattle.elastic.specs.Profile.{creq};
ghost use Rattle.rules.specs.Overload.{due_lots};
ghost use Rattle.rules.specs.Private.Ends.{Requirements};
ghost use Rattle.rules.specs.NotFirst.{least_ect, greatest_bound, not_first};
ghost use Rattle.rules.specs.Laws.NotFirstSound.{not_first_sound};

use crate::chosen::chosen;
use crate::ends::Ends;
use arrayvec::ArrayVec;
use elastic::Profile;
use lots::{Lot, MAX_LOTS, Refusal, Table};
use rule::{Rule, Verdict, raise};

// The least ect, and 0 without lots.
fn least_end(lots: &[Lot]) -> u32
    ensures answer { result ≡ least_ect lots.now }
{
    lots.iter().map(|lot| lot.ect()).min().unwrap_or(0)
}

// One lot of a table, of which is asked whether it can start before some others have ended.
#[derive(Clone, Copy)]
struct Candidate<'a> {
    ends: &'a Ends<'a>,
    number: usize,
    lot: Lot,
    ghost stands: { number < length ends.now.table.lots.now },
    ghost own: { lot ≡ lot_at ends.now.table.lots.now number } by { Prim.hlevel props },
}

impl Candidate<'_> {
    ghost use Rattle.rules.specs.Private.Candidates.{own_table, is_in_cuts, cut_of, bound_of_cut, own_bound};

    // Whether the lot of a number is another, and cannot be out by the est of this one. Such a lot
    // is in the cut up to its latest end, and in those up to later ones.
    fn is_in_cuts(&self, number: usize, lot: &Lot) -> bool
        ensures answer { result ≡ is_in_cuts self.now number lot.now }
    {
        number != self.number && u32::from(self.lot.est) < lot.ect()
    }

    // The lots of the cut up to a minute.
    fn cut(&self, minute: u16) -> ArrayVec<Lot, MAX_LOTS>
        ensures answer { result.items ≡ cut_of self.now minute }
    {
        chosen(self.ends.table, |number, lot| {
            self.is_in_cuts(number, lot) && lot.lct <= minute
        })
    }

    // The bound that the cut up to a minute puts on its est, by the profile of that cut; 0 where it
    // puts none. The cut requires no more than the lots that are due by then, so where these leave
    // room for its trays, nothing is left over, and the profile is not asked.
    fn bound_at(&self, profile: &mut Profile<'_>, minute: u16, required: u32) -> u16
        requires table { table_of profile.old ≡ own_table self.now }
        requires cut { added_lots profile.old ≡ cut_of self.now minute }
        requires required { let due = due_lots minute (own_table self.now).lots.now in
            (t : ℕ) → creq due t ≤ required }
        ensures table { table_of profile.new ≡ table_of profile.old }
        ensures added { marks_of profile.new ≡ marks_of profile.old }
        ensures bound { result ≡ bound_of_cut self.now minute }
    {
        if required <= u32::from(self.ends.table.capacity - self.lot.c) {
            return 0;
        }
        let until = (self.lot.est + self.lot.p).min(minute);
        let (left, _points) = profile.overflow_beside(self.number, until);
        if left == 0 {
            return 0;
        }
        least_end(self.cut(minute).as_slice()) as u16
    }

    // The greatest bound that the latest ends put on its est. The cut up to a later end has all the
    // lots of an earlier one, so the profile grows from end to end.
    fn bound(&self, profile: &mut Profile<'_>, required: &[u32; MAX_LOTS]) -> u16
        requires table { table_of profile.old ≡ own_table self.now }
        requires required { Requirements (own_table self.now).lots.now self.now.ends.now.row
            required.now }
        ensures table { table_of profile.new ≡ table_of profile.old }
        ensures answer { result ≡ own_bound self.now }
    {
        profile.clear();
        let ends = self.ends;
        let mut bound = 0;
        for end in ends.row.as_slice() {
            if ends.grow(profile, *end, |number, lot| self.is_in_cuts(number, lot)) {
                bound = bound.max(self.bound_at(profile, end.lct, required[end.lot]));
            }
        }
        bound
    }
}

// The new bounds of the lots, by number; 0 past the last lot.
fn bounds_of(table: Table<'_>) -> [u16; MAX_LOTS]
    ensures answer { let T = table.entry.lots.now in (i : ℕ) → i < length T
        → slice_index result i ≡ greatest_bound table.entry.capacity T i (length T) }
{
    let ends = Ends::of(table);
    let mut profile = Profile::new(table);
    let required = ends.requirements(&mut profile);
    let mut bounds = [0; MAX_LOTS];
    for (number, lot) in table.lots.iter().enumerate() {
        let candidate = Candidate {
            ends: &ends,
            number,
            lot: *lot,
        };
        bounds[number] = candidate.bound(&mut profile, &required);
    }
    bounds
}

/// The rule not-first: a lot that cannot start before some lot of a cut has ended starts at the
/// least ect in that cut, or later (docs/RULES.md, "Not-first").
#[derive(Clone, Copy, Default, Debug)]
pub struct NotFirst;

impl Rule for NotFirst {
    ghost meaning = { λ _. not_first };

    ghost sound = { λ x. not_first_sound };

    // Not inlined: a pile would keep the profile on its stack once for each level.
    #[inline(never)]
    fn apply(&self, capacity: u16, lots: &mut [Lot]) -> Result<Verdict, Refusal> {
        let bounds = bounds_of(Table::new(capacity, lots)?);
        Ok(raise(lots, &bounds))
    }
}

#[cfg(test)]
mod tests {
    use super::*;
    use rule::Turned;

    #[test]
    fn a_lot_that_cannot_run_before_another_starts_after_it(rt: HostRuntime) {
        let mut lots = [Lot::new(0, 5, 3, 1), Lot::new(0, 9, 3, 1)];
        assert_eq!(rt; NotFirst.apply(1, &mut lots), Ok(Verdict::Moved));
        assert_eq!(rt; lots, [Lot::new(0, 5, 3, 1), Lot::new(3, 9, 3, 1)]);
        assert_eq!(rt; NotFirst.apply(1, &mut lots), Ok(Verdict::Still));
        assert_eq!(rt; lots, [Lot::new(0, 5, 3, 1), Lot::new(3, 9, 3, 1)]);
    }

    #[test]
    fn a_lot_that_can_run_before_another_stays(rt: HostRuntime) {
        let mut lots = [Lot::new(0, 5, 3, 1), Lot::new(0, 9, 2, 1)];
        assert_eq!(rt; NotFirst.apply(1, &mut lots), Ok(Verdict::Still));
        assert_eq!(rt; NotFirst.apply(0, &mut lots), Err(Refusal::Unlawful));
        assert_eq!(rt; lots, [Lot::new(0, 5, 3, 1), Lot::new(0, 9, 2, 1)]);
    }

    #[test]
    fn each_lot_asks_a_profile_of_its_own_cuts(rt: HostRuntime) {
        let mut lots = [
            Lot::new(0, 4, 2, 1),
            Lot::new(0, 4, 2, 1),
            Lot::new(0, 9, 1, 1),
        ];
        assert_eq!(rt; NotFirst.apply(1, &mut lots), Ok(Verdict::Moved));
        assert_eq!(rt;
            lots,
            [
                Lot::new(0, 4, 2, 1),
                Lot::new(0, 4, 2, 1),
                Lot::new(2, 9, 1, 1)
            ]
        );
    }

    #[test]
    fn turned_it_lowers_the_latest_end(rt: HostRuntime) {
        let mut lots = [Lot::new(10075, 10080, 3, 1), Lot::new(10071, 10080, 3, 1)];
        assert_eq!(rt;
            Turned { rule: NotFirst }.apply(1, &mut lots),
            Ok(Verdict::Moved)
        );
        assert_eq!(rt;
            lots,
            [Lot::new(10075, 10080, 3, 1), Lot::new(10071, 10077, 3, 1)]
        );
    }
}
