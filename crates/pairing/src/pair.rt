// Rows joined in pairs.
ghost use Rattle.std.specs.Prelude.{◌≡◌, drop};
ghost use Rattle.pairing.specs.Pairs.{first, row_joined};
ghost use Rattle.pairing.specs.Terms.{terms_of};

use crate::rule::JoinRule;
use codec::Row;

// A match: the joined row, and the index behind it.
#[derive(Clone, Copy, PartialEq, Eq, Debug)]
pub struct Hit {
    pub row: Row,
    pub next: usize,
}

// The outer cells within their width, then the inner cells, eight in all.
pub fn joined_row(width: usize, outer: &Row, inner: &Row) -> Row
    ensures { result ≡ row_joined width outer.now inner.now }
{
    // Cell by cell, always eight: a copy of a length that varies takes twice as long.
    let mut cells = [0; 8];
    for (i, left) in outer.cells.iter().enumerate() {
        let cell = if i < width {
            *left
        } else {
            inner.cells[i - width]
        };
        cells[i] = cell;
    }
    Row { cells }
}

// The first match of the held row, from an index on.
pub fn next_match(
    rows: &[Row],
    rule: &JoinRule,
    width: usize,
    held: &Row,
    from: usize,
) -> Option<Hit>
    ensures { result ≡ first (record { terms = terms_of rule.now; width = width }) held.now from (drop from rows.now) }
{
    // One cell for all rows of the part.
    let right = held.cell(rule.inner_cell);
    // Over the part from there on: `skip` would step over the rows ahead one by one at each call.
    let (at, outer) = rows
        .get(from..)?
        .iter()
        .enumerate()
        .find(|(_, outer)| rule.matches_cell(outer, right))?;
    Some(Hit {
        row: joined_row(width, outer, held),
        next: from + at + 1,
    })
}
