// A ramp: width 2, row i is (i, start + i × step).
ghost use Rattle.std.specs.Prelude.{◌≡◌, Decides};
ghost use Rattle.source.specs.Ramps.{ramp_cell, RampFits, ramp_table};

use crate::source::Source;
use codec::Row;
use refusal::Refusal;

const MAX_COUNT: u16 = 4096;

// The three numbers of a ramp.
#[derive(Clone, Copy, PartialEq, Eq, Debug)]
pub struct Slope {
    pub start: i32,
    pub step: i32,
    pub count: u16,
}

impl Slope {
    // The second cell of row i.
    fn cell(self, i: u16) -> i64
        ensures { result ≡ ramp_cell self.start self.step i }
    {
        i64::from(self.start) + i64::from(i) * i64::from(self.step)
    }

    // Whether every cell is in range; the cells lie between the first and the last.
    fn fits(self) -> bool
        ensures { Decides result (RampFits self.start self.step self.count) }
    {
        let last = self.cell(self.count.saturating_sub(1));
        self.count <= MAX_COUNT && i32::try_from(last).is_ok()
    }
}

// A table that needs no bytes.
#[derive(Clone, Copy)]
pub struct Ramp {
    slope: Slope,
    ghost rule: { RampFits slope.start slope.step slope.count },
}

impl Ramp {
    ghost use Rattle.source.specs.Makes.{MakesRamp};

    // Refused exactly where the count is over 4,096 or some cell leaves 32 bits.
    pub fn new(slope: Slope) -> Result<Ramp, Refusal>
        ensures { MakesRamp slope.start slope.step slope.count result }
    {
        if slope.fits() {
            Ok(Ramp { slope })
        } else {
            Err(Refusal::BadSource)
        }
    }
}

impl Source for Ramp {
    ghost table = { λ m. ramp_table m.slope.start m.slope.step m.slope.count };

    fn width(&self) -> u8 {
        2
    }

    fn count(&self) -> u16 {
        self.slope.count
    }

    fn row(&self, i: u16) -> Option<Row> {
        if i >= self.slope.count {
            return None;
        }
        // In range by the rule; `try_from` would need a case for what is not.
        let second = self.slope.cell(i) as i32;
        Some(Row {
            cells: [i32::from(i), second, 0, 0, 0, 0, 0, 0],
        })
    }
}
