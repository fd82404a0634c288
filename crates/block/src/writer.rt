// A record as it is written.
ghost use Rattle.std.specs.Prelude.{◌≡◌, ℕ, List, min, drop};
ghost use Rattle.std.specs.Fn.{FnOnceReturnsAtMut};
ghost use Rattle.codec.specs.Rows.{row_bytes};
ghost use Rattle.codec.specs.Written.{Wrote};
ghost use Rattle.block.specs.Places.{Put, SameBuffer, rows_bytes};

use codec::{Row, write_front, write_row};
use refusal::Refusal;

// A buffer, and the place behind what stands in it.
#[derive(Drop)]
pub struct Writer<'a> {
    buffer: &'a mut [u8],
    place: usize,
}

impl<'a> Writer<'a> {
    // A writer at the buffer's front.
    pub fn new(buffer: &'a mut [u8]) -> Writer<'a>
        ensures same_buffer { result.buffer.ghost_name ≡ buffer.entry.ghost_name }
        ensures holds { result.buffer.now ≡ buffer.old }
        ensures front { result.place ≡ 0 }
    {
        Writer { buffer, place: 0 }
    }

    // The place behind what stands there.
    pub fn place(&self) -> usize
        ensures { result ≡ self.now.place }
    {
        self.place
    }

    // Goes on at any place; behind the buffer's end nothing fits.
    pub fn go_to(&mut self, place: usize)
        ensures same_buffer { SameBuffer self.old self.new }
        ensures holds { self.new.buffer.now ≡ self.old.buffer.now }
        ensures there { self.new.place ≡ place }
    {
        self.place = place;
    }

    // Has a part written behind what stands there, if it fits: what writes bytes to the front of its buffer writes them
    // there.
    pub fn put<F: FnOnce(&mut [u8]) -> Result<usize, Refusal>>(&mut self, part: F)
        requires { F.IsAlwaysCallable part }
        ensures same_buffer { SameBuffer self.old self.new }
        ensures put { (bytes : List ℕ) → ((r : _) (new : _) → FnOnceReturnsAtMut F.FnOnce part (drop self.old.place self.old.buffer.now) r new → Wrote bytes (drop self.old.place self.old.buffer.now) new r) → Put bytes self.old self.new }
    {
        let at = self.place;
        let buffer = &mut *self.buffer;
        // Not by `get_mut`: no clause of that says what is written through it.
        if at > buffer.len() {
            return;
        }
        if let Ok(count) = part(&mut buffer[at..]) {
            self.place = at.saturating_add(count);
        }
    }

    // Bytes, if they fit.
    pub fn put_bytes(&mut self, bytes: &[u8])
        ensures same_buffer { SameBuffer self.old self.new }
        ensures put { Put bytes.now self.old self.new }
    {
        self.put(|front| write_front(front, bytes));
    }

    // A row's first cells.
    pub fn put_row(&mut self, width: usize, row: &Row)
        ensures same_buffer { SameBuffer self.old self.new }
        ensures put { Put (row_bytes (min 8 width) row.now) self.old self.new }
    {
        self.put(|front| write_row(front, width, row));
    }

    // Rows end to end.
    pub fn put_rows(&mut self, width: usize, rows: &[Row])
        ensures same_buffer { SameBuffer self.old self.new }
        ensures put { Put (rows_bytes (min 8 width) rows.now) self.old self.new }
    {
        for row in rows {
            self.put_row(width, row);
        }
    }
}
