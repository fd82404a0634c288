// How wide the rows of a join's children are.
ghost use Rattle.std.specs.Prelude.{◌≡◌, ◌+◌, nat_lt};

// The most cells of a row.
const MOST_CELLS: usize = 8;

// The widths of an outer and an inner child.
#[derive(Clone, Copy, PartialEq, Eq, Debug)]
pub struct Widths {
    pub outer: usize,
    pub inner: usize,
}

impl Widths {
    // Whether a joined row has too many cells.
    pub fn are_too_wide(self) -> bool
        ensures { result ≡ nat_lt 8 (self.outer + self.inner) }
    {
        self.outer.saturating_add(self.inner) > MOST_CELLS
    }
}
