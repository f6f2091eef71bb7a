//! Some of the lots of a table, gathered to be looked at as a list of their own.
ghost use Rattle.std.specs.Prelude.{◌≡◌, ℕ, Bool};
ghost use Rattle.lots.specs.declared.Lot.{Lot as AnyLot};
ghost use Rattle.rules.specs.Chosen.{chosen_lots};
ghost use Rattle.rules.specs.Private.Tests.{Tests};

use arrayvec::ArrayVec;
use lots::{Lot, MAX_LOTS, Table};

/// The lots of which the test of their number and themselves holds, in their order.
pub(crate) fn chosen<F: Fn(usize, &Lot) -> bool>(
    table: Table<'_>,
    test: F,
) -> ArrayVec<Lot, MAX_LOTS>
    requires callable { F.IsAlwaysCallable test }
    ensures answer { (p : ℕ → AnyLot → Bool) → Tests (F.post test) p
        → result.items ≡ chosen_lots p 0 table.entry.lots.now }
{
    let mut chosen = ArrayVec::new();
    // `from_iter` would ask for an allocator, and `extend` answer a `Result`.
    for (number, lot) in table.lots.iter().enumerate() {
        if test(number, lot) {
            chosen.push(*lot);
        }
    }
    chosen
}
