//! The trail of a search: its unvisited nodes, as a stack of tables in lent cells.
ghost use Rattle.std.specs.Prelude.{◌≡◌, ◌+◌, ◌*◌, ◌<◌, ◌≤◌, ◌↔◌, IsTrue, ◌∷◌, length, take, drop, MatchOption};
ghost use Rattle.lots.specs.Limits.{max_lots};
ghost use Rattle.tree.specs.Answer.{trail_cells};

use arrayvec::ArrayVec;
use lots::{Lot, MAX_LOTS};

/// Tables of `table_len` lots each, one after another from the first cell on, and never more than
/// fit in the cells that a search asks for.
#[derive(Drop)]
pub(crate) struct Trail<'a> {
    cells: &'a mut [Lot],
    table_len: usize,
    depth: usize,
    ghost few_lots: { table_len ≤ max_lots },
    ghost few_tables: { depth ≤ table_len + 1 },
    ghost enough_cells: { trail_cells table_len ≤ length cells.now },
}

impl<'a> Trail<'a> {
    ghost use Rattle.tree.specs.Private.Stack.{unvisited};

    /// How many cells it takes for tables of so many lots.
    pub(crate) fn cells_for(table_len: usize) -> usize
        requires few_lots { table_len ≤ max_lots }
        ensures answer { result ≡ trail_cells table_len }
    {
        table_len * table_len + table_len
    }

    /// No node, over these cells.
    pub(crate) fn over(cells: &'a mut [Lot], table_len: usize) -> Trail<'a>
        requires few_lots { table_len ≤ max_lots }
        requires enough_cells { trail_cells table_len ≤ length cells.old }
        ensures empty { (result.depth ≡ 0) × (result.table_len ≡ table_len) }
    {
        Trail {
            cells,
            table_len,
            depth: 0,
        }
    }

    pub(crate) fn is_empty(&self) -> bool
        ensures answer { IsTrue result ↔ (self.now.depth ≡ 0) }
    {
        self.depth == 0
    }

    /// Saves a node.
    pub(crate) fn push(&mut self, table: &[Lot])
        requires room { self.old.depth ≤ self.old.table_len }
        requires len { length table.now ≡ self.old.table_len }
        ensures same_len { self.new.table_len ≡ self.old.table_len }
        ensures pushed { unvisited self.new ≡ table.now ∷ unvisited self.old }
    {
        let len = self.table_len;
        let at = self.depth * len;
        let part = &mut self.cells[at..at + len];
        part.copy_from_slice(table);
        self.depth += 1;
    }

    // The node with this number, from 0 for the first that was saved.
    fn table(&self, number: usize) -> ArrayVec<Lot, MAX_LOTS>
        requires inside { number < self.now.depth }
        ensures answer { let len = self.now.table_len in
            result.items ≡ take len (drop (number * len) self.now.cells.now) }
    {
        let at = number * self.table_len;
        // There is room for the lots of a table.
        ArrayVec::try_from(&self.cells[at..at + self.table_len]).unwrap()
    }

    /// Takes off the node that was saved last.
    pub(crate) fn pop(&mut self) -> Option<ArrayVec<Lot, MAX_LOTS>>
        ensures same_len { self.new.table_len ≡ self.old.table_len }
        ensures popped { MatchOption result
            ((self.old.depth ≡ 0) × (self.new.depth ≡ 0))
            (λ table. unvisited self.old ≡ table.items ∷ unvisited self.new) }
    {
        let number = self.depth.checked_sub(1)?;
        let table = self.table(number);
        self.depth = number;
        Some(table)
    }
}
