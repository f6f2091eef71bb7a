//! A row of elements in lent cells, kept in the strict order of their keys.
ghost use Rattle.std.specs.Prelude.{◌≡◌, ◌+◌, ◌<◌, ◌≤◌, min, ◌++◌, length, take, drop, MatchResult};
ghost use Rattle.std.specs.List.{insert};
ghost use Rattle.std.specs.Cmp.{IsTotalOrder};
ghost use Rattle.row.specs.Rows.{cells_of, row_of, Ascending, Stored, Seated};
ghost use Rattle.row.specs.Private.Search.{Sought};

/// Where an element came to stand that was put into a row. Places count from 0.
#[derive(Clone, Copy, PartialEq, Eq, Debug)]
pub enum Place {
    /// It was put at this place.
    Placed(usize),
    /// Its key stood at this place already.
    Present(usize),
    /// Its key is not there, and no cell is free.
    Full,
}

/// An element that a row keeps by its key.
pub trait Keyed {
    /// What a row orders its elements by.
    type Key: Ord + Drop;

    ghost keyed: { Self → Self.Key };

    /// The element's key.
    fn key(&self) -> Self::Key
        ensures answer { result ≡ keyed self.now };
}

/// The first `len` of some lent cells, or all of them where there are fewer: a row, in the strict
/// order of its keys if it was lent in that order (docs/RULES.md, "The ordered row").
#[derive(Drop)]
pub struct Row<'a, E> {
    cells: &'a mut [E],
    len: usize,
}

// Puts the element at the place i of the first `len` cells, and moves those from i on by one.
fn insert<E: Copy>(cells: &mut [E], len: usize, i: usize, element: E)
    requires place { (i ≤ len) × (len < length cells.old) }
    ensures after { cells.new ≡ insert (take len cells.old) i element ++ drop (len + 1) cells.old }
{
    cells[len] = element;
    cells[i..len + 1].rotate_right(1);
}

// Cells may be lent in any order, so that a row ascends is a premise of its clauses, and no
// invariant.
impl<'a, E: Keyed + Copy> Row<'a, E> {
    /// The row of the first `len` of these cells; of all, where there are fewer.
    pub fn over(cells: &'a mut [E], len: usize) -> Row<'a, E>
        ensures over { (result.len ≡ len)
            × (result.cells.ghost_name ≡ cells.entry.ghost_name) × (result.cells.now ≡ cells.old) }
    {
        Row { cells, len }
    }

    /// How many elements the row has.
    pub fn len(&self) -> usize
        ensures answer { result ≡ min self.now.len (length (cells_of self.now)) }
    {
        self.len.min(self.cells.len())
    }

    // The place of the key in the row: where it stands, or else where it would.
    fn seek(&self, key: E::Key) -> Result<usize, usize>
        ensures bound { let count = length (row_of self.now) in
            MatchResult result (λ i. i < count) (λ i. i ≤ count) }
        ensures sought { let row = row_of self.now in (o : IsTotalOrder E.Key.Ord.cmp)
            → Ascending o E.keyed row → Sought o E.keyed key row result }
    {
        let len = self.len();
        self.cells[..len].binary_search_by_key(&key, |element| element.key())
    }

    /// Where the element came to stand: at the place of its key, unless the key is there or no cell
    /// is free. Then nothing changes.
    pub fn put(&mut self, element: E) -> Place
        ensures lent { self.new.cells.ghost_name ≡ self.old.cells.ghost_name }
        ensures stored { Stored element (row_of self.old) (cells_of self.old)
            (row_of self.new) (cells_of self.new) result }
        ensures seated { let row = row_of self.old in (o : IsTotalOrder E.Key.Ord.cmp)
            → Ascending o E.keyed row → Seated o E.keyed element row result }
        ensures ascends { (o : IsTotalOrder E.Key.Ord.cmp)
            → Ascending o E.keyed (row_of self.old) → Ascending o E.keyed (row_of self.new) }
    {
        let len = self.len();
        match self.seek(element.key()) {
            Ok(i) => Place::Present(i),
            Err(i) => {
                if len == self.cells.len() {
                    return Place::Full;
                }
                insert(self.cells, len, i, element);
                self.len = len + 1;
                Place::Placed(i)
            }
        }
    }
}

#[cfg(test)]
mod tests {
    use super::*;

    #[derive(Clone, Copy, PartialEq, Eq, Debug)]
    pub struct Mark(u16, u8);

    impl Keyed for Mark {
        type Key = u16;

        ghost keyed = { λ m. m.0 };

        fn key(&self) -> u16 {
            self.0
        }
    }

    #[test]
    fn keys_come_to_stand_in_order(rt: HostRuntime) {
        let mut cells = [Mark(0, 0); 4];
        let mut row = Row::over(&mut cells, 0);
        assert_eq!(rt; row.put(Mark(5, 1)), Place::Placed(0));
        assert_eq!(rt; row.put(Mark(3, 2)), Place::Placed(0));
        assert_eq!(rt; row.put(Mark(9, 3)), Place::Placed(2));
        assert_eq!(rt; row.len(), 3);
        assert_eq!(rt; cells, [Mark(3, 2), Mark(5, 1), Mark(9, 3), Mark(0, 0)]);
    }

    #[test]
    fn a_key_that_is_there_changes_nothing(rt: HostRuntime) {
        let mut cells = [Mark(3, 2), Mark(5, 1), Mark(9, 3)];
        let mut row = Row::over(&mut cells, 3);
        assert_eq!(rt; row.put(Mark(3, 7)), Place::Present(0));
        assert_eq!(rt; row.put(Mark(9, 7)), Place::Present(2));
        assert_eq!(rt; row.put(Mark(4, 7)), Place::Full);
        assert_eq!(rt; row.len(), 3);
        assert_eq!(rt; cells, [Mark(3, 2), Mark(5, 1), Mark(9, 3)]);
    }

    #[test]
    fn no_cells_are_full(rt: HostRuntime) {
        let mut cells: [Mark; 0] = [];
        let mut row = Row::over(&mut cells, 5);
        assert_eq!(rt; row.len(), 0);
        assert_eq!(rt; row.put(Mark(1, 1)), Place::Full);
    }
}
