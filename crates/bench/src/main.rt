//! Measures what the calls cost: an overflow, an application of a rule, a tighten, and a node of a
//! search.
#![tactic(auto)]

use anyhow::anyhow;
use arrayvec::ArrayVec;
use elastic::overflow;
use lots::{Lot, MAX_LOTS};
use plan::Plan;
use rule::{Idle, Rule};
use rules::{NotFirst, Overload, TimeTable, house_pile};
use std::env;
use std::time::Instant;
use tables::{Windows, table};
use tree::{MAX_TRAIL, Search};

mod tables;

// The trays of the machine that is measured.
const CAPACITY: u16 = 24;

// How many lots are measured at a time.
const COUNTS: [usize; 4] = [8, 16, 32, MAX_LOTS];

// A search has one tray, and one more for each so many lots: so few that it has to branch.
const LOTS_FOR_A_TRAY: u16 = 4;

// How many calls are measured, of which the mean is printed.
const CALLS: u32 = 200;

// The most nodes that a measured search visits.
const BUDGET: u32 = 2_000;

const NANOS_PER_SECOND: u128 = 1_000_000_000;

// The names, in the order in which they are printed.
const BENCHMARKS: [&str; 8] = [
    "overflow",
    "overload",
    "timetable",
    "notfirst",
    "house",
    "tighten",
    "solve-idle",
    "solve-house",
];

// A call that is measured.
trait Call {
    fn make(&self, lots: &[Lot]) -> anyhow::Result<()>;
}

struct Overflow;

impl Call for Overflow {
    fn make(&self, lots: &[Lot]) -> anyhow::Result<()> {
        overflow(CAPACITY, lots).map_err(|_| anyhow!("the table is refused"))?;
        Ok(())
    }
}

// One application of a rule.
#[derive(Drop)]
struct Application<'a, R> {
    rule: &'a R,
}

impl<R: Rule> Call for Application<'_, R> {
    fn make(&self, lots: &[Lot]) -> anyhow::Result<()> {
        // In an array: on the heap time-table takes up to twice as long.
        let mut work = ArrayVec::<Lot, MAX_LOTS>::try_from(lots)?;
        self.rule
            .apply(CAPACITY, &mut work)
            .map_err(|_| anyhow!("the table is refused"))?;
        Ok(())
    }
}

// A tighten by the house pile, of a plan that is made for it.
struct Tightening;

impl Call for Tightening {
    fn make(&self, lots: &[Lot]) -> anyhow::Result<()> {
        plan_of(CAPACITY, lots)?.tighten(&house_pile());
        Ok(())
    }
}

// A plan that holds the lots.
fn plan_of(capacity: u16, lots: &[Lot]) -> anyhow::Result<Plan> {
    let mut plan = Plan::new();
    plan.open(capacity)
        .map_err(|_| anyhow!("the capacity is refused"))?;
    for lot in lots {
        plan.admit(*lot).map_err(|_| anyhow!("a lot is refused"))?;
    }
    Ok(plan)
}

// The nanoseconds of one call on these lots, as the mean of many.
fn nanos(rt: &HostRuntime, call: &dyn Call, lots: &[Lot]) -> anyhow::Result<u128> {
    let start = Instant::now(rt)?;
    for _ in 0..CALLS {
        call.make(lots)?;
    }
    Ok(start.elapsed(rt)?.as_nanos() / u128::from(CALLS))
}

// One line for each number of lots: short windows, and windows over the week.
fn measure(rt: &HostRuntime, call: &dyn Call) -> anyhow::Result<()> {
    let short_table = table(Windows::Short);
    let week_table = table(Windows::Week);
    for count in COUNTS {
        let short = nanos(rt, call, &short_table[..count])?;
        let week = nanos(rt, call, &week_table[..count])?;
        println!(rt; "{count} lots: {short} ns short, {week} ns week")?;
    }
    Ok(())
}

// One line for each number of lots: how many nodes a search visits in a second.
fn measure_search<R: Rule>(rt: &HostRuntime, rule: &R) -> anyhow::Result<()> {
    let lots = table(Windows::Short);
    let mut trail = [Lot::default(); MAX_TRAIL];
    let mut starts = [0; MAX_LOTS];
    for count in COUNTS {
        let plan = plan_of(1 + count as u16 / LOTS_FOR_A_TRAY, &lots[..count])?;
        let start = Instant::now(rt)?;
        let found = plan
            .solve(rule, BUDGET, &mut trail, &mut starts)
            .map_err(|_| anyhow!("the search is refused"))?;
        let nanos = start.elapsed(rt)?.as_nanos().max(1);
        let nodes = nodes_of(found);
        let pace = u128::from(nodes) * NANOS_PER_SECOND / nanos;
        println!(rt; "{count} lots: {nodes} nodes, {pace} nodes a second")?;
    }
    Ok(())
}

fn nodes_of(found: Search) -> u32 {
    match found {
        Search::Best { nodes, .. } | Search::None { nodes } | Search::Spent { nodes } => nodes,
    }
}

fn run(rt: &HostRuntime) -> anyhow::Result<()> {
    let asked = env::args(rt)?.nth(1);
    let Some(asked) = asked else {
        for name in BENCHMARKS {
            rt.println(name)?;
        }
        return Ok(());
    };
    match asked.as_str() {
        "overflow" => measure(rt, &Overflow),
        "overload" => measure(rt, &Application { rule: &Overload }),
        "timetable" => measure(rt, &Application { rule: &TimeTable }),
        "notfirst" => measure(rt, &Application { rule: &NotFirst }),
        "house" => measure(
            rt,
            &Application {
                rule: &house_pile(),
            },
        ),
        "tighten" => measure(rt, &Tightening),
        "solve-idle" => measure_search(rt, &Idle),
        "solve-house" => measure_search(rt, &house_pile()),
        _ => Err(anyhow!("no benchmark has this name")),
    }
}

fn main(rt: HostRuntime) -> anyhow::Result<()> {
    run(&rt)
}
