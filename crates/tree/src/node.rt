//! One node of the tree: what is left of its lots, and what becomes of it.
ghost use Rattle.std.specs.Prelude.{◌≡◌, ◌↔◌, IsTrue};
ghost use Rattle.lots.specs.Schedules.{end as end_of};
ghost use Rattle.lots.specs.Tables.{Fits, Lawful};
ghost use Rattle.tree.specs.Tree.{under, earliest_starts as starts_of};
ghost use Rattle.tree.specs.Private.Held.{best_known, IsBranchLot, Seen};

use crate::load::{is_within, last_end};
use arrayvec::ArrayVec;
use lots::{Lot, MAX_LOTS, Table};
use rule::{Rule, Verdict, settle};

/// The best schedule known: its starts by number, and when it ends.
#[derive(Drop)]
pub(crate) struct Known {
    pub(crate) end: u16,
    pub(crate) starts: ArrayVec<u16, MAX_LOTS>,
}

impl Known {
    // Every lot at its est.
    fn of(table: Table<'_>) -> Known
        ensures end { result.end ≡ end_of table.entry.lots.now (starts_of table.entry.lots.now) }
        ensures starts { result.starts.items ≡ starts_of table.entry.lots.now }
    {
        let mut starts = ArrayVec::new();
        // There is room for the lots of every table.
        for lot in table.lots {
            starts.push(lot.est);
        }
        Known {
            end: last_end(table.lots) as u16,
            starts,
        }
    }
}

/// What becomes of a visited node.
#[derive(Drop)]
pub(crate) enum Fate {
    /// It is closed, and the best known stays.
    Closed,
    /// It is closed, and this is the best known now.
    Found(Known),
    /// The two nodes below it are branched on the lot with this number.
    Fork(usize),
}

// Has each lot out before the end of the best known, and answers whether every run fits then.
fn cut_under(best: &Option<Known>, lots: &mut [Lot]) -> bool
    requires fits { Fits lots.old }
    ensures after { lots.new ≡ under (best_known best.now) lots.old }
    ensures fits { IsTrue result ↔ Fits lots.new }
{
    let Some(known) = best else {
        return true;
    };
    let last = known.end.saturating_sub(1);
    for lot in lots.iter_mut() {
        lot.lct = lot.lct.min(last);
    }
    lots.iter().all(|lot| lot.fits())
}

// The lot to branch on: of those with a choice of starts the first of the least est.
fn branch_lot(lots: &[Lot]) -> Option<usize>
    ensures answer { IsBranchLot lots.now result }
{
    let mut pick: Option<usize> = None;
    for (number, lot) in lots.iter().enumerate() {
        if lot.est < lot.lst() && pick.is_none_or(|j| lot.est < lots[j].est) {
            pick = Some(number);
        }
    }
    pick
}

/// Looks at a node: writes what is left of its lots over them, and answers what becomes of it.
pub(crate) fn look<R: Rule>(rule: &R, capacity: u16, best: &Option<Known>, lots: &mut [Lot]) -> Fate
    requires lawful { Lawful capacity lots.old }
    ensures answer { Seen (R.meaning rule.now) capacity (best_known best.now) lots.old lots.new
        result }
{
    if !cut_under(best, lots) {
        return Fate::Closed;
    }
    // A lawful table is never refused.
    let (verdict, _) = settle(rule, capacity, lots).unwrap();
    if let Verdict::Dead = verdict {
        return Fate::Closed;
    }
    if let Some(j) = branch_lot(lots) {
        return Fate::Fork(j);
    }
    let table = Table { capacity, lots };
    if is_within(table) {
        Fate::Found(Known::of(table))
    } else {
        Fate::Closed
    }
}
