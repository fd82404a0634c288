// The rows of a source that pass a condition, with a scan and a filter run to their end.
#![tactic(auto)]

ghost use Rattle.select.specs.Selecting.{Selects, SelectsImage, SelectsRamp};

use codec::Row;
use filter::{Criterion, Filter};
use operator::Operator;
use run::{Failure, Run, run_to_end};
use scan::Scan;
use source::{Image, Ramp, Slope, Source};
use std::alloc::Global;

// The rows that pass, the width of each, and in how many steps they came.
#[derive(Drop)]
pub struct Selection {
    pub width: usize,
    pub rows: Vec<Row>,
    pub steps: usize,
}

// The passing rows of any source.
pub fn select_rows<S: Source + Drop>(
    heap: Global,
    source: S,
    wanted: Criterion,
) -> Result<Selection, Failure>
    ensures { Selects (S.Source.table source) wanted result }
{
    let mut tree = Filter::new(Scan::new(source), wanted);
    tree.check(0)?;
    let width = tree.width();
    let Run { rows, steps } = run_to_end(heap, &mut tree)?;
    Ok(Selection { width, rows, steps })
}

// The passing rows of a table image; other bytes are a bad source.
pub fn select_image(heap: Global, bytes: &[u8], wanted: Criterion) -> Result<Selection, Failure>
    ensures { SelectsImage bytes.now wanted result }
{
    select_rows(heap, Image::new(bytes)?, wanted)
}

// The passing rows of a ramp; one with a cell out of range is a bad source.
pub fn select_ramp(heap: Global, slope: Slope, wanted: Criterion) -> Result<Selection, Failure>
    ensures { SelectsRamp slope.start slope.step slope.count wanted result }
{
    select_rows(heap, Ramp::new(slope)?, wanted)
}
