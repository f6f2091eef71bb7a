//! Reads the words of a line: numbers and cells.
ghost use Rattle.std.specs.Prelude.{◌≡◌, ℕ, List, length, MatchResult};
ghost use Rattle.std.specs.List.{AllZip};
ghost use Rattle.lots.specs.Private.Reading.{Reads};
ghost use Rattle.console.specs.Lines.{TableForm};
ghost use Rattle.console.specs.Private.Faults.{Unread};
ghost use Rattle.console.specs.Syntax.{Number, Budget, lot_numbers, Cell};

use crate::answers::Fault;
use crate::parts::Parts;
use lots::Lot;
use std::alloc::Global;

/// The number of 32 bits that the word writes in decimal digits alone, where it fits
/// (docs/CONSOLE.md).
pub fn budget(word: &str) -> Option<u32>
    ensures answer { Reads (Budget word.now) result }
{
    // `parse` would take a plus sign.
    if word.starts_with('+') {
        return None;
    }
    word.parse().ok()
}

// The number of 16 bits, as above.
fn number(word: &str) -> Option<u16>
    ensures answer { Reads (Number word.now) result }
{
    u16::try_from(budget(word)?).ok()
}

/// The numbers that the parts write, where there are just `N` of them.
pub fn numbers<const N: usize>(mut parts: Parts<'_>) -> Option<[u16; N]>
    ensures answer { Reads (λ ns. (length ns ≡ N) × AllZip Number parts.entry ns) result }
{
    let mut numbers = [0; N];
    for slot in numbers.iter_mut() {
        *slot = number(parts.next()?)?;
    }
    match parts.next() {
        None => Some(numbers),
        Some(_) => None,
    }
}

/// The lot whose four numbers the parts write: est, lct, p and c.
pub fn lot(parts: Parts<'_>) -> Option<Lot>
    ensures answer { Reads (λ x. AllZip Number parts.entry (lot_numbers x)) result }
{
    let [est, lct, p, c] = numbers::<4>(parts)?;
    Some(Lot { est, lct, p, c })
}

// The lot of the cell `est,lct,p,c`.
fn cell(word: &str) -> Option<Lot>
    ensures answer { Reads (Cell word.now) result }
{
    lot(Parts::cut(word, ','))
}

// The lots of the cells that the words left write.
fn cells(heap: Global, words: Parts<'_>) -> Result<Vec<Lot>, Fault>
    ensures answer { MatchResult result
        (λ lots. AllZip Cell words.entry lots.items)
        (λ f. Unread f ((T : List Lot) → AllZip Cell words.entry T → ⊥)) }
{
    let mut lots = Vec::new(heap);
    for word in words {
        let lot = cell(word).ok_or(Fault::Unknown)?;
        lots.push(lot)?;
    }
    Ok(lots)
}

/// The capacity, in trays, and the lots of the table that the words left write, as `C CELL..`, or
/// why they are not read, which is no refusal.
pub fn table(heap: Global, mut words: Parts<'_>) -> Result<(u16, Vec<Lot>), Fault>
    ensures answer { MatchResult result
        (λ t. TableForm words.entry t.0 t.1.items)
        (λ f. Unread f ((C : ℕ) (T : List Lot) → TableForm words.entry C T → ⊥)) }
{
    let capacity = words.next().and_then(number).ok_or(Fault::Unknown)?;
    let lots = cells(heap, words)?;
    Ok((capacity, lots))
}
