// What the crates of edges try: rows of two cells, ramps and conditions, by their numbers.
#![tactic(auto)]

ghost use Rattle.std.specs.Prelude.{◌≡◌};
ghost use Rattle.source.specs.Makes.{MakesRamp};
ghost use Rattle.inputs.specs.Inputs.{two_cells, criterion};

use codec::Row;
use filter::Criterion;
use refusal::Refusal;
use source::{Ramp, Slope};

// A row of two cells.
pub fn pair(a: i32, b: i32) -> Row
    ensures { result ≡ two_cells a b }
{
    Row {
        cells: [a, b, 0, 0, 0, 0, 0, 0],
    }
}

// The three numbers of a ramp.
pub fn slope(start: i32, step: i32, count: u16) -> Slope
    ensures { (result.start ≡ start) × (result.step ≡ step) × (result.count ≡ count) }
{
    Slope { start, step, count }
}

// A ramp, if there is one of these numbers.
pub fn ramp(start: i32, step: i32, count: u16) -> Result<Ramp, Refusal>
    ensures { MakesRamp start step count result }
{
    Ramp::new(slope(start, step, count))
}

// Rows whose cell stands so to the constant; the condition may be any byte.
pub fn where_cell(cell: u8, condition: u8, constant: i32) -> Criterion
    ensures { result ≡ criterion cell condition constant }
{
    Criterion {
        cell,
        condition,
        constant,
    }
}
