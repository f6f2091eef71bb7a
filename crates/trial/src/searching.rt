//! What solve answers, and what it leaves of the memory that it is lent.

use crate::naive::Defined;
use crate::narrowing::plan_of;
use crate::schedules::{end, is_schedule, ways};
use crate::tables::Sample;
use crate::tally::{Case, Tally};
use crate::visits::{Schedule, Visited, visit};
use lots::{Lot, Refusal};
use plan::Plan;
use rule::Rule;
use std::alloc::{AllocError, Global};
use std::io;
use tree::Search;

// A search that visits more nodes is tried with only the least and the greatest budget below its
// count.
const MOST_BUDGETS: u32 = 60;
// What each lent cell holds before a search.
const OLD_LOT: Lot = Lot {
    est: 1,
    lct: 9,
    p: 2,
    c: 3,
};

// What each lent place holds before a search.
const OLD_START: u16 = u16::MAX;
// How many cells, and how many places, are lent past those that are needed.
const MORE: usize = 3;

// What is lent to a search, and how many nodes it may visit.
#[derive(Clone, Copy)]
struct Lent {
    budget: u32,
    cells: usize,
    places: usize,
}

// What a search answers, and what it leaves.
#[derive(Drop)]
struct Answer {
    result: Result<Search, Refusal>,
    trail: Vec<Lot>,
    starts: Vec<u16>,
}

impl Answer {
    fn is_trail_blank(&self) -> bool {
        self.trail.iter().all(|cell| *cell == Lot::default())
    }

    // Whether the places for starts from this one on are as they were.
    fn are_starts_old(&self, from: usize) -> bool {
        self.starts
            .iter()
            .skip(from)
            .all(|start| *start == OLD_START)
    }

    // Whether it refuses for this cause, and alters nothing.
    fn refuses(&self, refusal: Refusal) -> bool {
        self.result == Err(refusal)
            && self.trail.iter().all(|cell| *cell == OLD_LOT)
            && self.are_starts_old(0)
    }
}

// A plan and a rule, by which it is searched.
#[derive(Drop)]
struct Solver<'a, R> {
    heap: Global,
    plan: Plan,
    rule: &'a R,
}

impl<R: Rule> Solver<'_, R> {
    fn ask(&self, lent: Lent) -> Result<Answer, AllocError> {
        let Lent {
            budget,
            cells,
            places,
        } = lent;
        let mut trail = vec![in self.heap; OLD_LOT; cells]?;
        let mut starts = vec![in self.heap; OLD_START; places]?;
        let result = self.plan.solve(
            self.rule,
            budget,
            trail.as_mut_slice(),
            starts.as_mut_slice(),
        );
        Ok(Answer {
            result,
            trail,
            starts,
        })
    }
}

// Compares a whole search with all schedules.
fn compare_best(tally: &mut Tally<'_>, case: Case<'_>, whole: &Answer) -> io::Result<()> {
    let lots = case.sample.lots.as_slice();
    let starts = whole.starts.as_slice();
    let (best, nodes) = match whole.result {
        Ok(Search::Best { end, nodes }) => (Some(u32::from(end)), nodes),
        Ok(Search::None { nodes }) => (None, nodes),
        Ok(Search::Spent { .. }) | Err(_) => {
            return tally.compare(case, "a whole search is best or none", false);
        }
    };
    let least = case
        .sample
        .schedules
        .iter()
        .map(|starts| end(lots, starts))
        .min();
    tally.compare(case, "the best end is the least", best == least)?;
    let right = match best {
        Some(best) => {
            is_schedule(case.sample.capacity, lots, starts) && end(lots, starts) == best
        }
        None => whole.are_starts_old(0),
    };
    tally.compare(case, "the starts are a schedule with that end", right)?;
    let few = u64::from(nodes) < ways(lots).saturating_mul(2);
    tally.compare(case, "at most 2W - 1 nodes", few)?;
    tally.compare(case, "the trail is blank", whole.is_trail_blank())
}

// Whether a whole search is what the visit of the tree finds.
fn is_as_visited(whole: &Answer, visited: &Visited) -> bool {
    let nodes = visited.nodes;
    match &visited.best {
        Some(Schedule { end, starts }) => {
            whole.result == Ok(Search::Best { end: *end, nodes })
                && whole.starts.as_slice() == starts.as_slice()
        }
        None => whole.result == Ok(Search::None { nodes }),
    }
}

// Whether a search of so many nodes is tried with a budget.
fn is_tried(budget: u32, nodes: u32) -> bool {
    nodes <= MOST_BUDGETS || budget == 1 || budget.saturating_add(1) == nodes
}

// Compares a search within a budget below the count of the whole one.
fn compare_spent(
    tally: &mut Tally<'_>,
    case: Case<'_>,
    budget: u32,
    answer: &Answer,
) -> io::Result<()> {
    let spent = answer.result == Ok(Search::Spent { nodes: budget }) && answer.are_starts_old(0);
    tally.compare(case, "spent below the count", spent)?;
    tally.compare(
        case,
        "spent leaves the trail blank",
        answer.is_trail_blank(),
    )
}

// Compares a search within a budget that is just enough, or more, with the whole one, for which
// just enough was lent.
fn compare_enough(
    tally: &mut Tally<'_>,
    case: Case<'_>,
    whole: &Answer,
    answer: &Answer,
) -> io::Result<()> {
    let same_starts = answer
        .starts
        .iter()
        .zip(&whole.starts)
        .all(|(a, b)| *a == *b);
    let same = answer.result == whole.result && same_starts;
    tally.compare(case, "the budget of the count is enough", same)?;
    let past = case.sample.lots.len();
    tally.compare(
        case,
        "later places keep what they held",
        answer.are_starts_old(past),
    )?;
    tally.compare(case, "every cell is blank", answer.is_trail_blank())
}

// Compares what is refused where the budget is 0, or one cell or one place is missing.
fn compare_refusals<R: Rule>(
    tally: &mut Tally<'_>,
    case: Case<'_>,
    solver: &Solver<'_, R>,
    least: Lent,
) -> anyhow::Result<()> {
    let none = solver.ask(Lent { budget: 0, ..least })?;
    tally.compare(case, "10 without a budget", none.refuses(Refusal::Budget))?;
    let (Some(cells), Some(places)) = (least.cells.checked_sub(1), least.places.checked_sub(1))
    else {
        // Without lots nothing need be lent.
        return Ok(());
    };
    let nothing = Lent {
        budget: 0,
        cells,
        places,
    };
    let none = solver.ask(nothing)?;
    tally.compare(case, "10 before 11 and 12", none.refuses(Refusal::Budget))?;
    let short = solver.ask(Lent {
        budget: 1,
        ..nothing
    })?;
    tally.compare(case, "11 before 12", short.refuses(Refusal::Trail))?;
    let few = solver.ask(Lent { places, ..least })?;
    tally.compare(case, "12 for a place", few.refuses(Refusal::Starts))?;
    Ok(())
}

// Just enough cells and places for a search of so many lots, and the greatest budget.
fn least_for(count: usize) -> Lent {
    Lent {
        budget: u32::MAX,
        cells: count.saturating_mul(count).saturating_add(count),
        places: count,
    }
}

/// Compares searches by the rule.
pub fn compare_solve<R: Defined>(
    heap: Global,
    tally: &mut Tally<'_>,
    case: Case<'_>,
    rule: &R,
) -> anyhow::Result<()> {
    let Sample { capacity, lots, .. } = case.sample;
    let lots = lots.as_slice();
    let plan = plan_of(case.sample)?;
    let solver = Solver { heap, plan, rule };
    let least = least_for(lots.len());
    let whole = solver.ask(least)?;
    compare_best(tally, case, &whole)?;
    let visited = visit(heap, rule, *capacity, lots)?;
    let agrees = is_as_visited(&whole, &visited);
    tally.compare(case, "searched as it is defined", agrees)?;
    let nodes = visited.nodes;
    let more = Lent {
        budget: nodes,
        cells: least.cells.saturating_add(MORE),
        places: least.places.saturating_add(MORE),
    };
    for budget in (1..nodes).filter(|budget| is_tried(*budget, nodes)) {
        compare_spent(tally, case, budget, &solver.ask(Lent { budget, ..more })?)?;
    }
    for budget in [nodes, nodes.saturating_add(1)] {
        compare_enough(tally, case, &whole, &solver.ask(Lent { budget, ..more })?)?;
    }
    compare_refusals(tally, case, &solver, least)?;
    let kept = solver.plan.capacity() == *capacity && solver.plan.lots() == lots;
    tally.compare(case, "solve leaves the plan as it was", kept)?;
    Ok(())
}
