//! The lines of a sheet are carried out one by one, and what its commands answer is printed.
ghost use Rattle.std.specs.Prelude.{◌≡◌, ℕ, ◌≤◌, List, [], length, IfOk};
ghost use Rattle.sheet.specs.Private.Desks.{Orderly, RoomFor};
ghost use Rattle.sheet.specs.Private.Pages.{Adds};
ghost use Rattle.sheet.specs.Sheets.{new_desk, MayEnd, Prints, PrintOf, Printed};
ghost use Rattle.sheet.specs.Private.Steps.{Took};

use crate::desk::Desk;
use crate::page::Page;
use crate::print::print_refusal;
use crate::reader::Reader;
use lots::Refusal;
use rule::Rule;

/// The most bytes of a sheet. A longer one prints a refusal with 14 alone.
pub const MAX_SHEET: usize = 16_384;
/// The fewest bytes of a buffer for a print. A shorter one is refused with 13; each print fits one
/// of so many.
pub const MIN_PRINT: usize = 32_768;
// The line number of a refusal of the whole sheet.
const WHOLE_SHEET: u32 = 0;

/// How many bytes the print of the sheet has, which stands at the front of the buffer afterwards;
/// the bytes past it keep what they held. The rule is what tightens and searches the plan of the
/// sheet (docs/SHEET.md).
///
/// Refuses with 13 a buffer of fewer than [`MIN_PRINT`] bytes, and leaves it as it was. Every other
/// refusal is the last line of a print: its number, and that of its line (docs/REFUSALS.md).
pub fn run<R: Rule>(rule: &R, sheet: &[u8], print: &mut [u8]) -> Result<usize, Refusal>
    ensures exact { Printed (R.meaning rule.now) sheet.now print.old print.new result }
    ensures fits { IfOk result (λ n. n ≤ length print.old) }
{
    if print.len() < MIN_PRINT {
        return Err(Refusal::PrintBuffer);
    }
    let mut page = Page::over(print);
    run_sheet(rule, sheet, &mut page);
    Ok(page.len())
}

fn run_sheet<R: Rule>(rule: &R, sheet: &[u8], page: &mut Page<'_>)
    requires room { RoomFor new_desk page.old }
    ensures same_buffer { page.new.buffer.ghost_name ≡ page.old.buffer.ghost_name }
    ensures adds { (out : List ℕ) × PrintOf (R.meaning rule.now) sheet.now out
        × Adds page.old out page.new }
{
    if sheet.len() > MAX_SHEET {
        return print_refusal(page, Refusal::SheetLength, WHOLE_SHEET);
    }
    run_lines(rule, sheet, page);
}

// Carries out line after line, until the sheet ends or one is refused.
fn run_lines<R: Rule>(rule: &R, sheet: &[u8], page: &mut Page<'_>)
    requires room { RoomFor new_desk page.old }
    ensures same_buffer { page.new.buffer.ghost_name ≡ page.old.buffer.ghost_name }
    ensures adds { (out : List ℕ) × Prints (R.meaning rule.now) new_desk sheet.now out
        × Adds page.old out page.new }
{
    let mut desk = Desk::new();
    let mut reader = Reader::new(sheet);
    while !(reader.is_at_end() && desk.may_end()) {
        if let Err(refusal) = run_line(rule, &mut desk, &mut reader, page) {
            print_refusal(page, refusal, desk.line());
            return;
        }
    }
}

// Carries out the next line of a sheet that may not end before it.
fn run_line<'a, R: Rule>(
    rule: &R,
    desk: &mut Desk<'a>,
    reader: &mut Reader<'a>,
    page: &mut Page<'_>,
) -> Result<(), Refusal>
    requires goes_on { reader.old ≡ [] → MayEnd desk.old → ⊥ }
    requires orderly { Orderly desk.old }
    requires room { RoomFor desk.old page.old }
    ensures same_buffer { page.new.buffer.ghost_name ≡ page.old.buffer.ghost_name }
    ensures took { Took (R.meaning rule.now) desk.old reader.old desk.new reader.new page.old
        page.new result }
{
    let line = match reader.line() {
        Some(line) if desk.is_due(&line) => line,
        _ => return Err(Refusal::Line),
    };
    if desk.is_full() {
        return Err(Refusal::Commands);
    }
    desk.run(rule, line, page)
}
