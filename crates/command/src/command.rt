// What the program is asked to do.
ghost use Rattle.command.specs.Words.{Reads, SpellsCriterion, SpellsSlope};
ghost use Rattle.command.specs.Commands.{ReadsCommand};

use crate::number::number_of;
use filter::Criterion;
use source::Slope;

#[derive(Clone, Copy, PartialEq, Eq, Debug)]
pub enum Command<'a> {
    // the passing rows of the table image in a file
    Filter { path: &'a str, wanted: Criterion },
    // the passing rows of a ramp
    Ramp { slope: Slope, wanted: Criterion },
}

// A criterion from three words: a cell's number, one character, a constant.
pub fn criterion_of(cell: &str, condition: &str, constant: &str) -> Option<Criterion>
    ensures { Reads (SpellsCriterion cell.now condition.now constant.now) result }
{
    let [condition] = condition.as_bytes() else {
        return None;
    };
    Some(Criterion {
        cell: number_of(cell)?,
        condition: *condition,
        constant: number_of(constant)?,
    })
}

// A slope from three words: its start, its step, its count of rows.
fn slope_of(start: &str, step: &str, count: &str) -> Option<Slope>
    ensures { Reads (SpellsSlope start.now step.now count.now) result }
{
    Some(Slope {
        start: number_of(start)?,
        step: number_of(step)?,
        count: number_of(count)?,
    })
}

// The command that the words spell, the program's own name left out.
pub fn command_of<'a>(words: &[&'a str]) -> Option<Command<'a>>
    ensures { ReadsCommand words.now result }
{
    match words {
        ["filter", path, cell, condition, constant] => {
            let wanted = criterion_of(cell, condition, constant)?;
            Some(Command::Filter { path, wanted })
        }
        ["ramp", start, step, count, cell, condition, constant] => {
            let slope = slope_of(start, step, count)?;
            let wanted = criterion_of(cell, condition, constant)?;
            Some(Command::Ramp { slope, wanted })
        }
        _ => None,
    }
}
