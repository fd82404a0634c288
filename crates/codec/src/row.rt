// Rows of cells.
ghost use Rattle.std.specs.Prelude.{◌≡◌, ℕ, ◌+◌, ◌*◌, ◌≤◌, min, length, take, drop};
ghost use Rattle.codec.specs.Bytes.{cell_bytes, cell_of, cells_bytes, overwrite};
ghost use Rattle.codec.specs.Rows.{cell_at, front_row, row_bytes};
ghost use Rattle.codec.specs.Layouts.{ReadBack};
ghost use Rattle.codec.specs.Written.{Wrote};

use refusal::Refusal;

// Up to eight cells, and zeros behind its width.
#[derive(Clone, Copy, PartialEq, Eq, Debug, Default)]
pub struct Row {
    pub cells: [i32; 8],
}

impl Row {
    // One cell; a missing one reads 0.
    pub fn cell(&self, at: u8) -> i32
        ensures { result ≡ cell_at self.now at }
    {
        self.cells.get(usize::from(at)).copied().unwrap_or(0)
    }
}

// The row at the bytes' front; none where they are too few. A type for widths of at most 8 would ask more of callers.
pub fn read_row(bytes: &[u8], width: usize) -> Option<Row>
    ensures { result ≡ front_row (min 8 width) bytes.now }
{
    let count = width.min(8);
    if bytes.len() < 4 * count {
        return None;
    }
    let (fours, _) = bytes.as_chunks::<4>();
    let mut cells = [0; 8];
    // By index: behind an `iter_mut` the proof knows the length and no cell.
    for (i, four) in fours[..count].iter().enumerate() {
        cells[i] = i32::from_be_bytes(*four);
    }
    Some(Row { cells })
}

fn put_cell(bytes: &mut [u8], at: usize, cell: i32)
    requires { at + 4 ≤ length bytes.old }
    ensures { bytes.new ≡ overwrite at (cell_bytes cell) bytes.old }
{
    bytes[at..at + 4].copy_from_slice(&cell.to_be_bytes());
}

fn put_cells(buffer: &mut [u8], cells: &[i32])
    requires { 4 * length cells.now ≤ length buffer.old }
    ensures { buffer.new ≡ overwrite 0 (cells_bytes cells.now) buffer.old }
{
    // By index: behind a `chunks_mut` the proof knows the length and no byte.
    for (i, cell) in cells.iter().enumerate() {
        put_cell(buffer, 4 * i, *cell);
    }
}

// Writes the row's first cells to the buffer's front, if there is room.
pub fn write_row(buffer: &mut [u8], width: usize, row: &Row) -> Result<usize, Refusal>
    ensures { Wrote (row_bytes (min 8 width) row.now) buffer.old buffer.new result }
{
    let cells = &row.cells[..width.min(8)];
    let size = 4 * cells.len();
    if buffer.len() < size {
        return Err(Refusal::Short);
    }
    put_cells(buffer, cells);
    Ok(size)
}

// Numbers, cells, rows and records read back as what was written, and bytes are written back as what was read.
pub fn layouts_read_back() -> bool
    ensures { ReadBack }
{
    true
}
