//! What is printed for each command, and for a refusal.
ghost use Rattle.std.specs.Prelude.{◌≡◌, length, take};
ghost use Rattle.sheet.specs.Private.Pages.{Adds, HasRoom, bytes_of};
ghost use Rattle.sheet.specs.PrintLines.{numbers_line, named_line, narrow_print, tighten_print, window_lines, start_lines, solve_print, refusal_print};

use crate::page::Page;
use lots::{Lot, Refusal};
use rule::Verdict;
use tree::Search;

pub(crate) fn print_narrow(page: &mut Page<'_>)
    requires room { HasRoom page.old narrow_print }
    ensures same_buffer { page.new.buffer.ghost_name ≡ page.old.buffer.ghost_name }
    ensures adds { Adds page.old narrow_print page.new }
{
    page.put(b"H done\n");
}

pub(crate) fn print_refusal(page: &mut Page<'_>, refusal: Refusal, line: u32)
    requires room { HasRoom page.old (refusal_print refusal line) }
    ensures same_buffer { page.new.buffer.ghost_name ≡ page.old.buffer.ghost_name }
    ensures adds { Adds page.old (refusal_print refusal line) page.new }
{
    print_numbers(page, b"R", &[u8::from(refusal).into(), line]);
}

/// Prints the verdict and the number of applications, and then the windows of the lots afterwards,
/// unless the verdict is dead.
pub(crate) fn print_tighten(
    page: &mut Page<'_>,
    verdict: Verdict,
    applications: u32,
    names: &[&[u8]],
    lots: &[Lot],
)
    requires room { HasRoom page.old
        (tighten_print verdict applications (bytes_of names.now) lots.now) }
    ensures same_buffer { page.new.buffer.ghost_name ≡ page.old.buffer.ghost_name }
    ensures adds { Adds page.old (tighten_print verdict applications (bytes_of names.now) lots.now)
        page.new }
{
    match verdict {
        Verdict::Still => print_numbers(page, b"T still", &[applications]),
        Verdict::Moved => print_numbers(page, b"T moved", &[applications]),
        Verdict::Dead => return print_numbers(page, b"T dead", &[applications]),
    }
    print_windows(page, names, lots);
}

/// Prints what a search answers, and with a best schedule its starts, the first of those in
/// `starts`.
pub(crate) fn print_solve(page: &mut Page<'_>, answer: Search, names: &[&[u8]], starts: &[u16])
    requires room { HasRoom page.old (solve_print answer (bytes_of names.now) starts.now) }
    ensures same_buffer { page.new.buffer.ghost_name ≡ page.old.buffer.ghost_name }
    ensures adds { Adds page.old (solve_print answer (bytes_of names.now) starts.now) page.new }
{
    match answer {
        Search::Best { end, nodes } => {
            print_numbers(page, b"S best", &[end.into(), nodes]);
            print_starts(page, names, starts);
        }
        Search::None { nodes } => print_numbers(page, b"S none", &[nodes]),
        Search::Spent { nodes } => print_numbers(page, b"S spent", &[nodes]),
    }
}

fn print_windows(page: &mut Page<'_>, names: &[&[u8]], lots: &[Lot])
    requires room { HasRoom page.old (window_lines (bytes_of names.now) lots.now) }
    ensures same_buffer { page.new.buffer.ghost_name ≡ page.old.buffer.ghost_name }
    ensures adds { Adds page.old (window_lines (bytes_of names.now) lots.now) page.new }
{
    for (name, lot) in names.iter().zip(lots) {
        print_named(page, b"W", &[lot.est.into(), lot.lct.into()], name);
    }
}

fn print_starts(page: &mut Page<'_>, names: &[&[u8]], starts: &[u16])
    requires room { HasRoom page.old
        (start_lines (bytes_of names.now) (take (length names.now) starts.now)) }
    ensures same_buffer { page.new.buffer.ghost_name ≡ page.old.buffer.ghost_name }
    ensures adds { Adds page.old
        (start_lines (bytes_of names.now) (take (length names.now) starts.now)) page.new }
{
    for (name, start) in names.iter().zip(starts) {
        print_named(page, b"A", &[u32::from(*start)], name);
    }
}

// A line of a word and some numbers.
fn print_numbers(page: &mut Page<'_>, word: &[u8], numbers: &[u32])
    requires room { HasRoom page.old (numbers_line word.now numbers.now) }
    ensures same_buffer { page.new.buffer.ghost_name ≡ page.old.buffer.ghost_name }
    ensures adds { Adds page.old (numbers_line word.now numbers.now) page.new }
{
    page.put(word);
    page.put_numbers(numbers);
    page.put(b"\n");
}

// A line of a word, some numbers and a name.
fn print_named(page: &mut Page<'_>, word: &[u8], numbers: &[u32], name: &[u8])
    requires room { HasRoom page.old (named_line word.now numbers.now name.now) }
    ensures same_buffer { page.new.buffer.ghost_name ≡ page.old.buffer.ghost_name }
    ensures adds { Adds page.old (named_line word.now numbers.now name.now) page.new }
{
    page.put(word);
    page.put_numbers(numbers);
    page.put(b" ");
    page.put(name);
    page.put(b"\n");
}
