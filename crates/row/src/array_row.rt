//! A row in an array of its own.
ghost use Rattle.std.specs.Prelude.{◌≡◌, ◌≤◌, List, [], length, take};
ghost use Rattle.std.specs.Cmp.{IsTotalOrder};
ghost use Rattle.row.specs.Rows.{Ascending, Stored, Put, Seated};

use crate::row::{Keyed, Place, Row};
use std::marker::Model;

/// At most `N` elements, which lie in the value itself, in the strict order of their keys: the
/// first `len` of its cells (docs/RULES.md, "The ordered row").
// An array and a length, since an `ArrayVec` lends none of its free cells to a `Row`.
#[derive(Drop)]
pub struct ArrayRow<E: Keyed, const N: usize> {
    /// The elements, and free cells after them. Who writes here owes that the row still ascends: it
    /// is the type's invariant, and the check asks for it where the loan ends.
    pub cells: [E; N],
    len: usize,
}

// Clauses see the row.
impl<E: Keyed, const N: usize> Model for ArrayRow<E, N> {
    ghost Value = { List E };

    ghost view = { λ r. take r.len r.cells };

    ghost invariant = { λ r. (r.len ≤ N)
        × ((o : IsTotalOrder E.Key.Ord.cmp) → Ascending o E.keyed (take r.len r.cells)) };
}

// Puts an element among the first `len` of these cells, and answers how many these are then. The
// cells alone are lent to it: the row ascends again once its length is written.
fn put_among<E: Keyed + Copy>(cells: &mut [E], len: usize, element: E) -> (Place, usize)
    requires len { len ≤ length cells.old }
    ensures stored { let row = take len cells.old in let row' = take result.1 cells.new in
        Stored element row cells.old row' cells.new result.0 }
    ensures seated { let row = take len cells.old in (o : IsTotalOrder E.Key.Ord.cmp)
        → Ascending o E.keyed row → Seated o E.keyed element row result.0 }
    ensures ascends { let row = take len cells.old in let row' = take result.1 cells.new in
        (o : IsTotalOrder E.Key.Ord.cmp) → Ascending o E.keyed row → Ascending o E.keyed row' }
    ensures few { result.1 ≤ length cells.new }
{
    let mut row = Row::over(cells, len);
    let place = row.put(element);
    (place, row.len())
}

impl<E: Keyed + Copy + Default, const N: usize> ArrayRow<E, N> {
    /// A row of no elements.
    pub fn new() -> ArrayRow<E, N>
        ensures empty { result ≡ [] }
    {
        ArrayRow {
            cells: [E::default(); N],
            len: 0,
        }
    }

    /// The elements, in the strict order of their keys.
    pub fn as_slice(&self) -> &[E]
        ensures row { result.now ≡ self.now }
        ensures ascends { (o : IsTotalOrder E.Key.Ord.cmp) → Ascending o E.keyed self.now }
    {
        &self.cells[..self.len]
    }

    /// Where the element came to stand: at the place of its key, unless the key is there or the row
    /// is full. Then nothing changes.
    pub fn put(&mut self, element: E) -> Place
        ensures put { Put N element self.old self.new result }
        ensures few { length self.new ≤ N }
        ensures seated { (o : IsTotalOrder E.Key.Ord.cmp)
            → Seated o E.keyed element self.old result }
        ensures ascends { (o : IsTotalOrder E.Key.Ord.cmp)
            → Ascending o E.keyed self.old × Ascending o E.keyed self.new }
    {
        let (place, len) = put_among(&mut self.cells, self.len, element);
        self.len = len;
        place
    }
}
