// A table image: version byte 1, count, width, then the rows, and nothing more.
ghost use Rattle.std.specs.Prelude.{◌≡◌, Decides};
ghost use Rattle.source.specs.Images.{TableImage, image_table};

use crate::source::Source;
use codec::{Row, read_row};
use refusal::Refusal;

const VERSION: u8 = 1;

const MAX_WIDTH: usize = 8;

const MAX_COUNT: usize = 4096;

fn is_table_image(bytes: &[u8]) -> bool
    ensures { Decides result (TableImage bytes.now) }
{
    let [VERSION, hi, lo, width, cells @ ..] = bytes else {
        return false;
    };
    let count = usize::from(u16::from_be_bytes([*hi, *lo]));
    let width = usize::from(*width);
    width >= 1 && width <= MAX_WIDTH && count <= MAX_COUNT && cells.len() == count * (4 * width)
}

// A table over bytes that stay where they are, as in flash memory.
#[derive(Clone, Copy)]
pub struct Image<'a> {
    bytes: &'a [u8],
    ghost rule: { TableImage bytes.now },
}

impl<'a> Image<'a> {
    ghost use Rattle.source.specs.Makes.{MakesImage};

    // Exactly the table images are accepted, and the source's rows are those in the bytes.
    pub fn new(bytes: &'a [u8]) -> Result<Image<'a>, Refusal>
        ensures { MakesImage bytes.now result }
    {
        if is_table_image(bytes) {
            Ok(Image { bytes })
        } else {
            Err(Refusal::BadSource)
        }
    }
}

impl<'a> Source for Image<'a> {
    ghost table = { λ m. image_table m.bytes.now };

    fn width(&self) -> u8 {
        self.bytes[3]
    }

    fn count(&self) -> u16 {
        u16::from_be_bytes([self.bytes[1], self.bytes[2]])
    }

    fn row(&self, i: u16) -> Option<Row> {
        if i >= self.count() {
            return None;
        }
        let width = usize::from(self.width());
        let start = 4 + usize::from(i) * (4 * width);
        read_row(&self.bytes[start..], width)
    }
}
