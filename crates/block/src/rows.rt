// The rows of a block.
ghost use Rattle.std.specs.Prelude.{◌≡◌, ◌*◌, ◌<◌, ◌≤◌, min, [], ◌∷◌, ◌++◌, length};
ghost use Rattle.codec.specs.Rows.{rows_of};
ghost use Rattle.block.specs.Held.{block_rows};

use codec::{Row, bytes_from, read_row};

// A block has at most so many rows.
pub const BLOCK_ROWS: usize = 16;

// Rows that were taken from an outer child, in order. An array and a count, so that it is `Copy`: no vector of the kit is, and a
// type with a model only where its value gives its fields back, which these rows do not of a longer array.
#[derive(Clone, Copy)]
pub struct Block {
    rows: [Row; BLOCK_ROWS],
    count: usize,
}

impl Block {
    // A block without rows.
    pub fn new() -> Block
        ensures { block_rows result ≡ [] }
    {
        Block {
            rows: [Row::default(); BLOCK_ROWS],
            count: 0,
        }
    }

    // Its rows.
    pub fn rows(&self) -> &[Row]
        ensures is { result.now ≡ block_rows self.now }
        ensures few { length result.now ≤ 16 }
    {
        let rows: &[Row] = &self.rows;
        &rows[..self.count.min(rows.len())]
    }

    // One row more; a full block stays.
    pub fn add(&mut self, row: Row)
        ensures added { length (block_rows self.old) < 16 → block_rows self.new ≡ block_rows self.old ++ (row ∷ []) }
        ensures full { length (block_rows self.old) ≡ 16 → block_rows self.new ≡ block_rows self.old }
    {
        let at = self.rows().len();
        if at < BLOCK_ROWS {
            self.rows[at] = row;
            self.count = at + 1;
        }
    }

    // No rows any more.
    pub fn clear(&mut self)
        ensures { block_rows self.new ≡ [] }
    {
        self.count = 0;
    }

    // The rows at the bytes' front, so many, at most 16.
    pub fn read(&mut self, width: usize, count: usize, bytes: &[u8])
        ensures { count * (4 * min 8 width) ≤ length bytes.now → count ≤ 16 → block_rows self.new ≡ rows_of (min 8 width) count bytes.now }
    {
        self.clear();
        let mut left = bytes;
        while self.rows().len() < count.min(BLOCK_ROWS) {
            let Some(row) = read_row(left, width) else {
                return;
            };
            self.add(row);
            left = bytes_from(left, 4 * width.min(8));
        }
    }
}
