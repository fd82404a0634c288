// What every source answers; a scan never learns which one it has.
ghost use Rattle.std.specs.Prelude.{◌≡◌, length, slice_get};
ghost use Rattle.source.specs.Table.{Table};

use codec::Row;

pub trait Source {
    // the width and the rows
    ghost table: { Self → Table };

    fn width(&self) -> u8
        ensures { result ≡ (table self.now).width };

    fn count(&self) -> u16
        ensures { result ≡ length (table self.now).content };

    // Row i, counted from 0; none from the count on.
    fn row(&self, i: u16) -> Option<Row>
        ensures { result ≡ slice_get (table self.now).content i };
}
