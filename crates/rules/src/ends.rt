//! The distinct latest ends of a table, in their order, and the lots of each.
ghost use Rattle.std.specs.Prelude.{◌≡◌, ◌<◌, ◌≤◌, ℕ, Bool, length};
ghost use Rattle.std.proofs.Props.{props};
ghost use Rattle.lots.specs.Limits.{max_lots};
ghost use Rattle.lots.specs.declared.Lot.{Lot as AnyLot};
ghost use Rattle.elastic.specs.Added.{table_of};
ghost use Rattle.rules.specs.Private.Ends.{Lowest, DistinctEnds, Next, Chained, Requirements};

use elastic::Profile;
use lots::{Lot, MAX_LOTS, Table};
use row::{ArrayRow, Keyed};

/// A latest end, with the lowest number of a lot that has it.
#[derive(Clone, Copy, Default)]
pub(crate) struct End {
    /// The minute.
    pub(crate) lct: u16,
    /// The lot's number, from 0.
    pub(crate) lot: usize,
}

impl Keyed for End {
    type Key = u16;

    ghost keyed = { λ x. x.lct };

    fn key(&self) -> u16 {
        self.lct
    }
}

// The distinct latest ends of the lots of a table, in their order.
fn distinct_ends(table: Table<'_>) -> ArrayRow<End, MAX_LOTS>
    ensures answer { DistinctEnds table.entry.lots.now result }
{
    let mut ends = ArrayRow::new();
    // Of the lots with one latest end, the first to come is the lowest, and stays.
    for (number, lot) in table.lots.iter().enumerate() {
        ends.put(End {
            lct: lot.lct,
            lot: number,
        });
    }
    ends
}

// The next number of a lot with the same latest end; the number of lots where there is none.
fn next_of(lots: &[Lot], number: usize) -> usize
    requires lot { number < length lots.now }
    ensures answer { Next lots.now number result }
{
    for other in number + 1..lots.len() {
        if lots[other].lct == lots[number].lct {
            return other;
        }
    }
    lots.len()
}

// The next numbers of all lots, by number.
fn chain(lots: &[Lot]) -> [usize; MAX_LOTS]
    requires few { length lots.now ≤ max_lots }
    ensures answer { Chained lots.now result }
{
    let mut next = [0; MAX_LOTS];
    for number in 0..lots.len() {
        next[number] = next_of(lots, number);
    }
    next
}

/// The distinct latest ends of the lots of a table, and the lots of each.
#[derive(Drop)]
pub(crate) struct Ends<'a> {
    /// The table.
    pub(crate) table: Table<'a>,
    /// The ends, in their order.
    pub(crate) row: ArrayRow<End, MAX_LOTS>,
    // By number: the next lot with the same latest end, or the number of lots.
    next: [usize; MAX_LOTS],
    ghost distinct: { DistinctEnds table.lots.now row } by { Prim.hlevel props },
    ghost chained: { Chained table.lots.now next } by { Prim.hlevel props },
}

impl<'a> Ends<'a> {
    ghost use Rattle.rules.specs.Private.Growing.{Grown};
    ghost use Rattle.rules.specs.Private.Tests.{Tests};

    /// The latest ends of a table.
    pub(crate) fn of(table: Table<'a>) -> Ends<'a>
        ensures table { result.table ≡ table.entry }
    {
        Ends {
            table,
            row: distinct_ends(table),
            next: chain(table.lots),
        }
    }

    /// Adds to a profile those lots of an end of which the test of their number and themselves
    /// holds, and answers whether there are any.
    pub(crate) fn grow<F: Fn(usize, &Lot) -> bool>(
        &self,
        profile: &mut Profile<'_>,
        end: End,
        test: F,
    ) -> bool
        requires table { table_of profile.old ≡ self.now.table }
        requires lowest { Lowest self.now.table.lots.now end }
        requires callable { F.IsAlwaysCallable test }
        ensures table { table_of profile.new ≡ table_of profile.old }
        ensures grown { (p : ℕ → AnyLot → Bool) → Tests (F.post test) p
            → Grown self.now.table.lots.now p end.lct profile.old profile.new result }
    {
        let lots = self.table.lots;
        let mut any = false;
        let mut number = end.lot;
        while number < lots.len() {
            if test(number, &lots[number]) {
                profile.add(number);
                any = true;
            }
            number = self.next[number];
        }
        any
    }

    /// By the lowest lot of each end: the most trays that the lots due by it require at one minute,
    /// if each starts at its est. The profile is cleared, and has all lots afterwards.
    pub(crate) fn requirements(&self, profile: &mut Profile<'_>) -> [u32; MAX_LOTS]
        requires table { table_of profile.old ≡ self.now.table }
        ensures table { table_of profile.new ≡ table_of profile.old }
        ensures answer { Requirements self.now.table.lots.now self.now.row result }
    {
        profile.clear();
        let mut most = [0; MAX_LOTS];
        for end in self.row.as_slice() {
            self.grow(profile, *end, |_, _| true);
            most[end.lot] = profile.most_required();
        }
        most
    }
}
