// Chains of cells: a cell for each number, and links that lead from cell to cell by number.
// Safe and ending on any cells: a link to no cell ends a chain, and so do as many steps as there are cells.
ghost use Rattle.bucket_index.specs.Chains.{Sought, cell_at};
ghost use Rattle.std.specs.Prelude.{◌≡◌, ◌↔◌, IsTrue};

use keys::CodeKey;

// The number of the next cell, or none at the end.
pub type Link = Option<u16>;

// The cell of a number: the key that has the number, if one has, and the link to the next cell of its bucket.
#[derive(Clone, Copy)]
pub struct Cell {
    pub key: Option<CodeKey>,
    pub next: Link,
}

impl Cell {
    // Whether the key has the number of this cell.
    pub fn has_key(self, key: CodeKey) -> bool
        ensures answer { IsTrue result ↔ self.key ≡ Some key }
    {
        self.key == Some(key)
    }

    // Whether this cell leads to the one of the number.
    pub fn leads_to(self, number: usize) -> bool
        ensures answer { IsTrue result ↔ self.next ≡ Some number }
    {
        self.next.map(usize::from) == Some(number)
    }
}

// A cell of a number that no key has.
pub const FREE: Cell = Cell {
    key: None,
    next: None,
};

// The cell that the link leads to, or none.
fn cell_at(cells: &[Cell], link: Link) -> Option<Cell>
    ensures answer { result ≡ cell_at cells.now link }
{
    cells.get(usize::from(link?)).copied()
}

// The number of the first cell along the chain from the link that is wanted, or none.
pub(crate) fn seek<F: Fn(Cell) -> bool>(cells: &[Cell], link: Link, wanted: F) -> Link
    requires { F.IsAlwaysCallable wanted }
    ensures answer { Sought (F.post wanted) cells.now link result }
{
    let mut at = link;
    // a loop, and no chain of iterators: that would look up each cell twice, once for the test and once for its link
    for _step in 0..cells.len() {
        let cell = cell_at(cells, at)?;
        if wanted(cell) {
            return at;
        }
        at = cell.next;
    }
    None
}
