//! The search: it visits the tree of a table, left before right, as far as the budget reaches.
ghost use Rattle.std.specs.Prelude.{◌≡◌, ◌+◌, ◌-◌, ◌*◌, ◌<◌, ◌≤◌, ◌∷◌, length, IfOk};
ghost use Rattle.lots.specs.Limits.{horizon};
ghost use Rattle.lots.specs.Tables.{ect as earliest_end, lot_at};
ghost use Rattle.tree.specs.Answer.{nodes as nodes_of, trail_cells, Solved, Right};
ghost use Rattle.tree.specs.Private.Held.{best_known, Explores};
ghost use Rattle.tree.specs.Private.Stack.{unvisited, Standing, Advances};
ghost use Rattle.tree.specs.Tree.{ways, at_once as starts_at_once, a_minute_later as starts_a_minute_later, left as left_of, right as right_of};

use crate::Search;
use crate::node::{Fate, Known, look};
use crate::trail::Trail;
use arrayvec::ArrayVec;
use lots::{Lot, MAX_LOTS, Refusal, Table};
use rule::Rule;

// Where a search has stopped: the best known, the nodes visited, and whether one is unvisited.
#[derive(Drop)]
struct Explored {
    best: Option<Known>,
    nodes: u32,
    open: bool,
}

// The lot, starting at its est.
fn at_once(lot: Lot) -> Lot
    requires in_week { earliest_end lot ≤ horizon }
    ensures answer { result ≡ starts_at_once lot }
{
    Lot {
        lct: lot.est + lot.p,
        ..lot
    }
}

// The lot, starting after its est.
fn a_minute_later(lot: Lot) -> Lot
    requires in_week { lot.est ≤ horizon }
    ensures answer { result ≡ starts_a_minute_later lot }
{
    Lot {
        est: lot.est + 1,
        ..lot
    }
}

// Saves the right node below these lots, and then the left, which is visited first.
fn fork(trail: &mut Trail<'_>, lots: &mut [Lot], number: usize)
    requires room { trail.old.depth < trail.old.table_len }
    requires len { length lots.old ≡ trail.old.table_len }
    requires inside { number < length lots.old }
    requires in_week { earliest_end (lot_at lots.old number) ≤ horizon }
    ensures same_len { trail.new.table_len ≡ trail.old.table_len }
    ensures forked { unvisited trail.new
        ≡ left_of number lots.old ∷ right_of number lots.old ∷ unvisited trail.old }
{
    let lot = lots[number];
    lots[number] = a_minute_later(lot);
    trail.push(lots);
    lots[number] = at_once(lot);
    trail.push(lots);
}

// Visits a node that was taken off the trail.
fn visit<R: Rule>(
    rule: &R,
    capacity: u16,
    mut lots: ArrayVec<Lot, MAX_LOTS>,
    trail: &mut Trail<'_>,
    best: &mut Option<Known>,
)
    requires standing { Standing capacity trail.old.table_len (lots.items ∷ unvisited trail.old) }
    ensures same_len { trail.new.table_len ≡ trail.old.table_len }
    ensures advances { Advances (R.meaning rule.now) capacity (best_known best.old)
        (lots.items ∷ unvisited trail.old) (best_known best.new) (unvisited trail.new) }
{
    let lots = lots.as_mut_slice();
    match look(rule, capacity, best, lots) {
        Fate::Closed => {}
        Fate::Found(known) => *best = Some(known),
        Fate::Fork(number) => fork(trail, lots, number),
    }
}

// Visits the tree over a table, with its unvisited nodes in these cells.
fn explore<R: Rule>(rule: &R, table: Table<'_>, budget: u32, cells: &mut [Lot]) -> Explored
    requires cells { trail_cells (length table.lots.now) ≤ length cells.old }
    ensures answer { Explores (R.meaning rule.now) table.entry.capacity table.entry.lots.now budget
        result }
{
    let mut trail = Trail::over(cells, table.lots.len());
    let mut best = None;
    let mut nodes = 0;
    trail.push(table.lots);
    while nodes < budget {
        let Some(lots) = trail.pop() else {
            break;
        };
        visit(rule, table.capacity, lots, &mut trail, &mut best);
        nodes += 1;
    }
    Explored {
        best,
        nodes,
        open: !trail.is_empty(),
    }
}

/// What a search for a best schedule of a table by a rule comes to, with `budget` nodes to visit at
/// most (docs/SEARCH.md). With best, the first n places hold the starts by number, for n lots.
///
/// It refuses with `Budget`, `Trail` or `Starts`, the first that applies: the budget is 0, the
/// trail has fewer than n × n + n cells, there are fewer than n places for starts. A refused search
/// alters nothing. After any other every cell of the trail is blank, also past those it asks for,
/// and the places for starts are as they were but for those that best writes.
pub fn solve<R: Rule>(
    rule: &R,
    table: Table<'_>,
    budget: u32,
    trail: &mut [Lot],
    starts: &mut [u16],
) -> Result<Search, Refusal>
    ensures exact { Solved (R.meaning rule.now) table.entry.capacity table.entry.lots.now budget
        trail.old trail.new starts.old starts.new result }
    ensures short { IfOk result (λ search. nodes_of search ≤ 2 * ways table.entry.lots.now - 1) }
    ensures right { IfOk result (Right table.entry.capacity table.entry.lots.now starts.new) }
{
    let n = table.lots.len();
    if budget == 0 {
        return Err(Refusal::Budget);
    }
    if trail.len() < Trail::cells_for(n) {
        return Err(Refusal::Trail);
    }
    if starts.len() < n {
        return Err(Refusal::Starts);
    }
    let Explored { best, nodes, open } = explore(rule, table, budget, trail);
    trail.fill(Lot::default());
    if open {
        return Ok(Search::Spent { nodes });
    }
    let Some(schedule) = best else {
        return Ok(Search::None { nodes });
    };
    starts[..n].copy_from_slice(schedule.starts.as_slice());
    Ok(Search::Best {
        end: schedule.end,
        nodes,
    })
}

#[cfg(test)]
mod tests {
    use super::*;
    use crate::MAX_TRAIL;
    use rule::Idle;

    const LOOSE: Lot = Lot {
        est: 0,
        lct: 2,
        p: 1,
        c: 1,
    };

    const BLANK: Lot = Lot {
        est: 0,
        lct: 0,
        p: 0,
        c: 0,
    };

    const FIXED: Lot = Lot { lct: 1, ..LOOSE };

    // A search by the rule that does nothing.
    fn search(
        capacity: u16,
        lots: &[Lot],
        budget: u32,
        trail: &mut [Lot],
        starts: &mut [u16],
    ) -> Result<Search, Refusal> {
        solve(&Idle, Table::new(capacity, lots)?, budget, trail, starts)
    }

    #[test]
    fn two_lots_go_in_one_after_the_other(rt: HostRuntime) {
        let mut trail = [LOOSE; 8];
        let mut starts = [7; 3];
        let best = Search::Best { end: 2, nodes: 5 };
        assert_eq!(rt;
            search(1, &[LOOSE, LOOSE], 5, &mut trail, &mut starts),
            Ok(best)
        );
        // Cells and places past those that two lots take: all cells are blank, and no other place
        // is written.
        assert_eq!(rt; trail, [BLANK; 8]);
        assert_eq!(rt; starts, [0, 1, 7]);
    }

    #[test]
    fn a_budget_is_spent_where_a_node_is_unvisited(rt: HostRuntime) {
        let mut trail = [LOOSE; 6];
        let mut starts = [7; 2];
        let spent = Search::Spent { nodes: 4 };
        assert_eq!(rt;
            search(1, &[LOOSE, LOOSE], 4, &mut trail, &mut starts),
            Ok(spent)
        );
        assert_eq!(rt; trail, [BLANK; 6]);
        assert_eq!(rt; starts, [7, 7]);
    }

    #[test]
    fn two_lots_at_once_have_no_schedule(rt: HostRuntime) {
        let mut trail = [LOOSE; 6];
        let mut starts = [7; 2];
        let none = Search::None { nodes: 1 };
        assert_eq!(rt;
            search(1, &[FIXED, FIXED], 9, &mut trail, &mut starts),
            Ok(none)
        );
        assert_eq!(rt; trail, [BLANK; 6]);
        assert_eq!(rt; starts, [7, 7]);
    }

    #[test]
    fn no_lots_take_no_room(rt: HostRuntime) {
        let best = Search::Best { end: 0, nodes: 1 };
        assert_eq!(rt; search(1, &[], 1, &mut [], &mut []), Ok(best));
    }

    #[test]
    fn a_refusal_is_the_first_that_applies_and_alters_nothing(rt: HostRuntime) {
        let lots = [LOOSE, LOOSE];
        let mut trail = [LOOSE; 6];
        let mut starts = [7; 2];
        assert_eq!(rt;
            search(1, &lots, 0, &mut trail[..5], &mut starts[..1]),
            Err(Refusal::Budget)
        );
        assert_eq!(rt;
            search(1, &lots, 1, &mut trail[..5], &mut starts[..1]),
            Err(Refusal::Trail)
        );
        assert_eq!(rt;
            search(1, &lots, 1, &mut trail, &mut starts[..1]),
            Err(Refusal::Starts)
        );
        assert_eq!(rt; trail, [LOOSE; 6]);
        assert_eq!(rt; starts, [7, 7]);
    }

    #[test]
    fn a_table_may_be_full(rt: HostRuntime) {
        let mut trail = [LOOSE; MAX_TRAIL];
        let mut starts = [7; MAX_LOTS];
        assert_eq!(rt;
            search(200, &[LOOSE; MAX_LOTS], 1, &mut trail, &mut starts),
            Ok(Search::Spent { nodes: 1 })
        );
        assert_eq!(rt; starts, [7; MAX_LOTS]);
        assert_eq!(rt;
            search(200, &[FIXED; MAX_LOTS], 1, &mut trail, &mut starts),
            Ok(Search::Best { end: 1, nodes: 1 })
        );
        assert_eq!(rt; starts, [0; MAX_LOTS]);
        assert_eq!(rt;
            search(1, &[FIXED; MAX_LOTS], 1, &mut trail, &mut starts),
            Ok(Search::None { nodes: 1 })
        );
        assert_eq!(rt; trail, [BLANK; MAX_TRAIL]);
    }
}
