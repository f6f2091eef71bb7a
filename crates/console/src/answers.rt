//! What a line is answered, and why a call comes to no answer of its own.
ghost use Rattle.std.specs.Prelude.{◌≡◌, Some};
ghost use Rattle.std.specs.Fmt.{WritesOnOk};
ghost use Rattle.lots.specs.Texts.{numbers as written_numbers};
ghost use Rattle.console.specs.Shown.{shown_answer, shown_cells, shown_search};
ghost use Rattle.console.specs.declared.answers.Fault.TheVariants.{Refused as refused_by, Memory as out_of_memory};

use lots::{Lot, Refusal};
use rule::Verdict;
use std::alloc::{AllocError, AllocFailed};
use std::fmt;
use tree::Search;

/// The answer to a line. It is shown as the line that the program writes (docs/CONSOLE.md).
#[derive(Drop)]
pub enum Answer {
    /// The overflow of a table, in tray-minutes, and the number of points of its profile.
    Overflow { left: u32, points: usize },
    /// A rule's verdict on a table, and the table afterwards.
    Applied { verdict: Verdict, lots: Vec<Lot> },
    /// The plan is opened, or a lot of it is narrowed.
    Done,
    /// The number of the lot that is admitted.
    Admitted { number: usize },
    /// The verdict on the plan, and how often the rule was applied.
    Tightened { verdict: Verdict, applications: u32 },
    /// The plan's capacity, in trays, and its lots.
    Windows { capacity: u16, lots: Vec<Lot> },
    /// What a search found, and the starts of the best schedule, in minutes.
    Solved { search: Search, starts: Vec<u16> },
    /// The call refuses, by its number (docs/REFUSALS.md).
    Refused(Refusal),
    /// The line writes no call.
    Unknown,
}

// Writes each lot as ` est,lct,p,c`.
fn write_cells<W: fmt::Write>(lots: &[Lot], f: &mut fmt::Formatter<W>) -> fmt::Result
    ensures answer { WritesOnOk W.Write.write_str_gives f.old result (shown_cells lots.now) f.new }
{
    for lot in lots {
        let Lot { est, lct, p, c } = *lot;
        write!(f, " {est},{lct},{p},{c}")?;
    }
    Ok(())
}

// Writes each number after a space.
fn write_numbers<W: fmt::Write>(numbers: &[u16], f: &mut fmt::Formatter<W>) -> fmt::Result
    ensures answer { WritesOnOk W.Write.write_str_gives f.old result
        (written_numbers numbers.now) f.new }
{
    for number in numbers {
        write!(f, " {number}")?;
    }
    Ok(())
}

// Writes what a search found, and the starts of the best schedule.
fn write_search<W: fmt::Write>(
    search: Search,
    starts: &[u16],
    f: &mut fmt::Formatter<W>,
) -> fmt::Result
    ensures answer { WritesOnOk W.Write.write_str_gives f.old result
        (shown_search search starts.now) f.new }
{
    match search {
        Search::Best { end, nodes } => {
            write!(f, "best {end} {nodes}")?;
            write_numbers(starts, f)
        }
        Search::None { nodes } => write!(f, "none {nodes}"),
        Search::Spent { nodes } => write!(f, "spent {nodes}"),
    }
}

impl fmt::Display for Answer {
    ghost output = { λ a. Some (shown_answer a) };

    fn fmt<W: fmt::Write>(&self, f: &mut fmt::Formatter<W>) -> fmt::Result {
        match self {
            Answer::Overflow { left, points } => write!(f, "{left} {points}"),
            Answer::Applied { verdict, lots } => {
                write!(f, "{verdict}")?;
                write_cells(lots.as_slice(), f)
            }
            Answer::Done => f.write_str("ok"),
            Answer::Admitted { number } => write!(f, "{number}"),
            Answer::Tightened {
                verdict,
                applications,
            } => write!(f, "{verdict} {applications}"),
            Answer::Windows { capacity, lots } => {
                write!(f, "{capacity}")?;
                write_cells(lots.as_slice(), f)
            }
            Answer::Solved { search, starts } => write_search(*search, starts.as_slice(), f),
            Answer::Refused(refusal) => write!(f, "refused {}", u8::from(*refusal)),
            Answer::Unknown => f.write_str("unknown"),
        }
    }
}

/// Why a call comes to no answer of its own.
#[derive(Clone, Copy)]
pub enum Fault {
    /// The line does not write the call.
    Unknown,
    /// The call refuses.
    Refused(Refusal),
    /// There is no memory for the call, and so the line gets no answer.
    Memory,
}

impl From<Refusal> for Fault {
    ghost from_gives = { λ refusal r. r ≡ refused_by refusal };

    fn from(refusal: Refusal) -> Fault {
        Fault::Refused(refusal)
    }
}

impl<T: Drop> From<AllocFailed<T>> for Fault {
    ghost from_gives = { λ _ r. r ≡ out_of_memory };

    fn from(_refused: AllocFailed<T>) -> Fault {
        Fault::Memory
    }
}

impl From<AllocError> for Fault {
    ghost from_gives = { λ _ r. r ≡ out_of_memory };

    fn from(_error: AllocError) -> Fault {
        Fault::Memory
    }
}
