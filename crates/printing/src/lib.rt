// How the worked examples print bytes and cells, and the table P that they share.
#![tactic(auto)]

use std::fmt;

// The table P: (3,-200), (4,0), (5,150).
pub const P: [u8; 28] = [
    1, 0, 3, 2, 0, 0, 0, 3, 0xFF, 0xFF, 0xFF, 0x38, 0, 0, 0, 4, 0, 0, 0, 0, 0, 0, 0, 5, 0, 0, 0,
    0x96,
];

// Bytes in hexadecimal, a space before each.
#[derive(Clone, Copy)]
pub struct HexBytes<'a>(pub &'a [u8]);

impl fmt::Display for HexBytes<'_> {
    ghost use Rattle.std.specs.Prelude.{Some};
    ghost use Rattle.std.specs.List.{flat_map};
    ghost use Rattle.printing.specs.Texts.{hex_byte};

    ghost output = { λ b. Some (flat_map hex_byte b.0.now) };

    fn fmt<W: fmt::Write>(&self, f: &mut fmt::Formatter<W>) -> fmt::Result {
        for &byte in self.0 {
            write!(f, " {byte:02x}")?;
        }
        Ok(())
    }
}

// Cells in parentheses, a comma between two.
#[derive(Clone, Copy)]
pub struct Cells<'a>(pub &'a [i32]);

impl fmt::Display for Cells<'_> {
    ghost use Rattle.std.specs.Prelude.{Some};
    ghost use Rattle.printing.specs.Texts.{cells_text};

    ghost output = { λ c. Some (cells_text c.0.now) };

    fn fmt<W: fmt::Write>(&self, f: &mut fmt::Formatter<W>) -> fmt::Result {
        let [first, rest @ ..] = self.0 else {
            return write!(f, "()");
        };
        write!(f, "({first}")?;
        for cell in rest {
            write!(f, ",{cell}")?;
        }
        write!(f, ")")
    }
}
