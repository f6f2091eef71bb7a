//! The piles that a word can name.
ghost use Rattle.std.specs.Prelude.{◌≡◌, ◌++◌, MatchOption, MatchResult};
ghost use Rattle.console.specs.Piles.{pile_meaning, Names};
ghost use Rattle.console.specs.Private.Front.{Lacks, BeginsWithPile, LacksPile};
ghost use Rattle.console.specs.Private.Faults.{Unread};
ghost use Rattle.console.specs.Laws.PileSound.{pile_sound};

use crate::answers::Fault;
use lots::{Lot, Refusal};
use rule::{Both, Idle, Rule, Turned, Verdict};
use rules::{NotFirst, Overload, TimeTable, house_pile};
use std::alloc::Global;

// The most levels of a pile that is read: reading and applying it take room on the stack for each.
const MAX_LEVELS: u16 = 500;

/// A pile that a word can name, and a rule itself (docs/RULES.md).
#[derive(Drop)]
pub enum Pile {
    Idle,
    Overload,
    TimeTable,
    NotFirst,
    /// The pile that the house uses.
    House,
    /// The pile, turned.
    Turned(Box<Pile>),
    /// The first pile, and then the second.
    Both(Box<Pile>, Box<Pile>),
}

impl Pile {
    /// The pile that the word names (docs/CONSOLE.md), or why it is not read, which is no refusal.
    pub fn read(heap: Global, word: &str) -> Result<Pile, Fault>
        ensures answer { MatchResult result
            (Names word.now)
            (λ f. Unread f ((p : Pile) → Names word.now p → ⊥)) }
    {
        let (pile, rest) = front(heap, MAX_LEVELS, word)?;
        if !rest.is_empty() {
            return Err(Fault::Unknown);
        }
        Ok(pile)
    }
}

// The pile whose word the text begins with, and the rest of the text.
fn front<'a>(heap: Global, levels: u16, text: &'a str) -> Result<(Pile, &'a str), Fault>
    ensures answer { MatchResult result
        (λ r. BeginsWithPile text.now levels r.0 r.1.now)
        (λ f. Unread f (LacksPile text.now levels)) }
{
    if levels == 0 {
        return Err(Fault::Unknown);
    }
    if let Some(rest) = text.strip_prefix("turned(") {
        let (pile, rest) = front(heap, levels - 1, rest)?;
        let rest = past(")", rest)?;
        return Ok((Pile::Turned(Box::new(heap, pile)?), rest));
    }
    if let Some(rest) = text.strip_prefix("both(") {
        let (first, rest) = front(heap, levels - 1, rest)?;
        let rest = past(",", rest)?;
        let (second, rest) = front(heap, levels - 1, rest)?;
        let rest = past(")", rest)?;
        let pile = Pile::Both(Box::new(heap, first)?, Box::new(heap, second)?);
        return Ok((pile, rest));
    }
    plain(text).ok_or(Fault::Unknown)
}

// The rest of a text that begins with the mark.
fn past<'a>(mark: &str, text: &'a str) -> Result<&'a str, Fault>
    ensures answer { MatchResult result
        (λ rest. text.now ≡ mark.now ++ rest.now)
        (λ f. Unread f (Lacks text.now mark.now)) }
{
    text.strip_prefix(mark).ok_or(Fault::Unknown)
}

// The same of a pile that stands alone. No name begins another.
fn plain<'a>(text: &'a str) -> Option<(Pile, &'a str)>
    ensures answer { MatchOption result
        (LacksPile text.now 1)
        (λ r. BeginsWithPile text.now 1 r.0 r.1.now) }
{
    if let Some(rest) = text.strip_prefix("idle") {
        Some((Pile::Idle, rest))
    } else if let Some(rest) = text.strip_prefix("overload") {
        Some((Pile::Overload, rest))
    } else if let Some(rest) = text.strip_prefix("timetable") {
        Some((Pile::TimeTable, rest))
    } else if let Some(rest) = text.strip_prefix("notfirst") {
        Some((Pile::NotFirst, rest))
    } else if let Some(rest) = text.strip_prefix("house") {
        Some((Pile::House, rest))
    } else {
        None
    }
}

impl Rule for Pile {
    ghost meaning = { pile_meaning };

    ghost sound = { λ x. pile_sound x };

    fn apply(&self, capacity: u16, lots: &mut [Lot]) -> Result<Verdict, Refusal> {
        match self {
            Pile::Idle => Idle.apply(capacity, lots),
            Pile::Overload => Overload.apply(capacity, lots),
            Pile::TimeTable => TimeTable.apply(capacity, lots),
            Pile::NotFirst => NotFirst.apply(capacity, lots),
            Pile::House => house_pile().apply(capacity, lots),
            Pile::Turned(rule) => Turned { rule: &**rule }.apply(capacity, lots),
            Pile::Both(first, second) => {
                let both = Both {
                    first: &**first,
                    second: &**second,
                };
                both.apply(capacity, lots)
            }
        }
    }
}
