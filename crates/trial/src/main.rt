//! Tries random tables: what the overflow, the rules, tighten and solve say of them, beside every
//! start of every lot.
#![tactic(auto)]

use anyhow::anyhow;
use naive::{Defined, overflow, points};
use narrowing::{compare_application, compare_tighten};
use rand_pcg::Pcg32;
use rule::{Idle, Turned};
use rules::{NotFirst, Overload, TimeTable, house_pile};
use searching::compare_solve;
use std::alloc::Global;
use tables::Sample;
use tally::{Case, Tally};

mod naive;
mod narrowing;
mod schedules;
mod searching;
mod tables;
mod tally;
mod visits;

// How many tables are tried.
const TABLES: usize = 2_100;
// The generator's seed and stream are those of its published demonstration, so its first words are
// known.
const SEED: u64 = 42;

const STREAM: u64 = 54;

fn compare_overflow(tally: &mut Tally<'_>, sample: &Sample) -> anyhow::Result<()> {
    let case = Case {
        sample,
        rule: "overflow",
    };
    let lots = sample.lots.as_slice();
    let Ok((left, count)) = elastic::overflow(sample.capacity, lots) else {
        return Err(anyhow!("overflow refuses {sample}"));
    };
    let none = left == 0 || sample.schedules.is_empty();
    tally.compare(case, "none where there is a schedule", none)?;
    let same = u64::from(left) == overflow(sample.capacity, lots);
    tally.compare(case, "as it is defined", same)?;
    tally.compare(case, "a point for each minute", count == points(lots))?;
    Ok(())
}

fn compare_rule<R: Defined>(
    heap: Global,
    tally: &mut Tally<'_>,
    case: Case<'_>,
    rule: &R,
) -> anyhow::Result<()> {
    compare_application(heap, tally, case, rule)?;
    compare_tighten(heap, tally, case, rule)
}

fn compare_rules(heap: Global, tally: &mut Tally<'_>, sample: &Sample) -> anyhow::Result<()> {
    let case = |rule| Case { sample, rule };
    let turned_house = Turned { rule: house_pile() };
    compare_rule(heap, tally, case("idle"), &Idle)?;
    compare_rule(heap, tally, case("overload"), &Overload)?;
    compare_rule(heap, tally, case("time-table"), &TimeTable)?;
    compare_rule(heap, tally, case("not-first"), &NotFirst)?;
    compare_rule(
        heap,
        tally,
        case("turned overload"),
        &Turned { rule: Overload },
    )?;
    compare_rule(
        heap,
        tally,
        case("turned time-table"),
        &Turned { rule: TimeTable },
    )?;
    compare_rule(
        heap,
        tally,
        case("turned not-first"),
        &Turned { rule: NotFirst },
    )?;
    compare_rule(heap, tally, case("house"), &house_pile())?;
    compare_rule(heap, tally, case("turned house"), &turned_house)
}

// Fewer rules than are applied, since each searches within many budgets.
fn compare_searches(heap: Global, tally: &mut Tally<'_>, sample: &Sample) -> anyhow::Result<()> {
    let case = |rule| Case { sample, rule };
    compare_solve(heap, tally, case("search by idle"), &Idle)?;
    compare_solve(heap, tally, case("search by not-first"), &NotFirst)?;
    compare_solve(
        heap,
        tally,
        case("search by turned not-first"),
        &Turned { rule: NotFirst },
    )?;
    compare_solve(heap, tally, case("search by house"), &house_pile())
}

fn run(rt: &HostRuntime) -> anyhow::Result<()> {
    let heap = rt.alloc();
    let mut random = Pcg32::new(SEED, STREAM);
    let mut tally = Tally::new(rt);
    let mut schedules = 0usize;
    for number in 0..TABLES {
        let sample = Sample::random(heap, &mut random, number)?;
        schedules = schedules.saturating_add(sample.schedules.len());
        compare_overflow(&mut tally, &sample)?;
        compare_rules(heap, &mut tally, &sample)?;
        compare_searches(heap, &mut tally, &sample)?;
    }
    let comparisons = tally.comparisons;
    let differences = tally.differences;
    println!(rt; "{TABLES} tables with {schedules} schedules")?;
    println!(rt; "{comparisons} comparisons, {differences} differences")?;
    if differences > 0 {
        return Err(anyhow!("the programs are not what they are defined to be"));
    }
    Ok(())
}

fn main(rt: HostRuntime) -> anyhow::Result<()> {
    run(&rt)
}
