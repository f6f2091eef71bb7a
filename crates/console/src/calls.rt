//! Answers a line: reads the call that it writes, makes the call, and says what came of it.
ghost use Rattle.std.specs.Prelude.{◌≡◌, IfOk, IfErr, MatchResult};
ghost use Rattle.lots.specs.Texts.{space};
ghost use Rattle.lots.specs.Tables.{Table};
ghost use Rattle.console.specs.Lines.{overflow_call, rule_call, open_call, admit_call, narrow_call, tighten_call, solve_call, windows_call, SolveForm, Asks, Answered};
ghost use Rattle.console.specs.Private.Faults.{Unread, Makes, MakesNamed};
ghost use Rattle.console.specs.Syntax.{pieces};

use crate::answers::{Answer, Fault};
use crate::parts::Parts;
use crate::piles::Pile;
use crate::words::{budget, lot, numbers, table};
use lots::Lot;
use plan::Plan;
use rule::Rule;
use std::alloc::{AllocError, Global};
use std::str::from_utf8;

/// The answer to the line (docs/CONSOLE.md), or nothing where the line is empty or a comment.
pub fn answer(heap: Global, plan: &mut Plan, line: &[u8]) -> Result<Option<Answer>, AllocError>
    ensures answer { IfOk result (Answered line.now plan.old plan.new) }
    ensures kept { IfErr result (λ _. plan.new ≡ plan.old) }
{
    if matches!(line.first(), None | Some(b'#')) {
        return Ok(None);
    }
    match call(heap, plan, line) {
        Ok(answer) => Ok(Some(answer)),
        Err(Fault::Unknown) => Ok(Some(Answer::Unknown)),
        Err(Fault::Refused(refusal)) => Ok(Some(Answer::Refused(refusal))),
        Err(Fault::Memory) => Err(AllocError),
    }
}

// Makes the call that the first word names.
fn call(heap: Global, plan: &mut Plan, line: &[u8]) -> Result<Answer, Fault>
    ensures answer { MakesNamed (pieces space line.now) plan.old plan.new result }
{
    let text = from_utf8(line).map_err(|_| Fault::Unknown)?;
    let mut words = Parts::cut(text, ' ');
    match words.next() {
        Some("overflow") => overflow(heap, words),
        Some("rule") => rule(heap, words),
        Some("open") => open(plan, words),
        Some("admit") => admit(plan, words),
        Some("narrow") => narrow(plan, words),
        Some("tighten") => tighten(heap, plan, words),
        Some("solve") => solve(heap, plan, words),
        Some("windows") => windows(heap, plan, words),
        _ => Err(Fault::Unknown),
    }
}

// `overflow C CELL..`
fn overflow(heap: Global, words: Parts<'_>) -> Result<Answer, Fault>
    ensures answer { (P : Table) → Makes overflow_call words.entry P P result }
{
    let (capacity, lots) = table(heap, words)?;
    let (left, points) = elastic::overflow(capacity, lots.as_slice())?;
    Ok(Answer::Overflow { left, points })
}

// `rule PILE C CELL..`
fn rule(heap: Global, mut words: Parts<'_>) -> Result<Answer, Fault>
    ensures answer { (P : Table) → Makes rule_call words.entry P P result }
{
    let pile = Pile::read(heap, words.next().ok_or(Fault::Unknown)?)?;
    let (capacity, mut lots) = table(heap, words)?;
    let verdict = pile.apply(capacity, lots.as_mut_slice())?;
    Ok(Answer::Applied { verdict, lots })
}

// `open C`
fn open(plan: &mut Plan, words: Parts<'_>) -> Result<Answer, Fault>
    ensures answer { Makes open_call words.entry plan.old plan.new result }
{
    let [capacity] = numbers::<1>(words).ok_or(Fault::Unknown)?;
    plan.open(capacity)?;
    Ok(Answer::Done)
}

// `admit EST LCT P C`
fn admit(plan: &mut Plan, words: Parts<'_>) -> Result<Answer, Fault>
    ensures answer { Makes admit_call words.entry plan.old plan.new result }
{
    let lot = lot(words).ok_or(Fault::Unknown)?;
    let number = plan.admit(lot)?;
    Ok(Answer::Admitted { number })
}

// `narrow LOT FROM TO`
fn narrow(plan: &mut Plan, words: Parts<'_>) -> Result<Answer, Fault>
    ensures answer { Makes narrow_call words.entry plan.old plan.new result }
{
    let [lot, from, to] = numbers::<3>(words).ok_or(Fault::Unknown)?;
    plan.narrow(lot as usize, from, to)?;
    Ok(Answer::Done)
}

// `tighten PILE`
fn tighten(heap: Global, plan: &mut Plan, mut words: Parts<'_>) -> Result<Answer, Fault>
    ensures answer { Makes tighten_call words.entry plan.old plan.new result }
{
    let pile = Pile::read(heap, words.next().ok_or(Fault::Unknown)?)?;
    if words.next().is_some() {
        return Err(Fault::Unknown);
    }
    let (verdict, applications) = plan.tighten(&pile);
    Ok(Answer::Tightened {
        verdict,
        applications,
    })
}

// What a search is asked to do, with how many cells for its trail and how many places for starts.
#[derive(Drop)]
struct Asked {
    pile: Pile,
    budget: u32,
    cells: u16,
    places: u16,
}

// The words `PILE BUDGET TRAIL STARTS`.
fn search_words(heap: Global, mut words: Parts<'_>) -> Result<Asked, Fault>
    ensures answer { MatchResult result
        (λ s. SolveForm words.entry s.pile s.budget s.cells s.places)
        (λ f. Unread f (Asks solve_call words.entry → ⊥)) }
{
    let pile = Pile::read(heap, words.next().ok_or(Fault::Unknown)?)?;
    let budget = words.next().and_then(budget).ok_or(Fault::Unknown)?;
    let [cells, places] = numbers::<2>(words).ok_or(Fault::Unknown)?;
    Ok(Asked {
        pile,
        budget,
        cells,
        places,
    })
}

// `solve PILE BUDGET TRAIL STARTS`
fn solve(heap: Global, plan: &Plan, words: Parts<'_>) -> Result<Answer, Fault>
    ensures answer { Makes solve_call words.entry plan.now plan.now result }
{
    let Asked {
        pile,
        budget,
        cells,
        places,
    } = search_words(heap, words)?;
    let mut trail = vec![in heap; Lot::default(); usize::from(cells)]?;
    let mut starts = vec![in heap; 0; usize::from(places)]?;
    let search = plan.solve(&pile, budget, trail.as_mut_slice(), starts.as_mut_slice())?;
    starts.truncate(plan.lots().len());
    Ok(Answer::Solved { search, starts })
}

// `windows`
fn windows(heap: Global, plan: &Plan, mut words: Parts<'_>) -> Result<Answer, Fault>
    ensures answer { Makes windows_call words.entry plan.now plan.now result }
{
    if words.next().is_some() {
        return Err(Fault::Unknown);
    }
    let lots = plan.lots().to_vec(heap)?;
    Ok(Answer::Windows {
        capacity: plan.capacity(),
        lots,
    })
}
