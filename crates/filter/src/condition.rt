// When a row passes a condition.
ghost use Rattle.std.specs.Prelude.{◌≡◌, Decides};
ghost use Rattle.refusal.specs.Numbers.{faults};
ghost use Rattle.codec.specs.Bytes.{cell_word};
ghost use Rattle.codec.specs.Rows.{cell_at};
ghost use Rattle.filter.specs.Condition.{holds, Passes, passing, known, own_flaw};

use codec::Row;
use refusal::Refusal;

// Which rows are wanted: those whose cell stands in the condition '=', '<' or '>' to the constant.
#[derive(Clone, Copy, PartialEq, Eq, Debug)]
pub struct Criterion {
    pub cell: u8,
    // a rule of the project: the byte of the plan, also where no condition has it
    pub condition: u8,
    pub constant: i32,
}

impl Criterion {
    // Whether a row is wanted.
    pub fn passes(self, row: &Row) -> bool
        ensures is { result ≡ passing self.cell self.condition (cell_word self.constant) row.now }
        ensures decides { Decides result (Passes self.condition (cell_at row.now self.cell) self.constant) }
    {
        passes(
            char::from(self.condition),
            row.cell(self.cell),
            self.constant,
        )
    }

    // What is wrong with it at a place in the plan, over rows of this width.
    pub fn check(self, width: usize, at: usize) -> Result<(), Refusal>
        ensures { faults result ≡ own_flaw width self.cell self.condition at }
    {
        if usize::from(self.cell) >= width {
            return Err(Refusal::Misfit(at));
        }
        if !is_condition(char::from(self.condition)) {
            return Err(Refusal::BadCondition(at));
        }
        Ok(())
    }
}

// The cell against the constant; an unknown condition passes nothing.
pub fn passes(condition: char, cell: i32, constant: i32) -> bool
    ensures { (result ≡ holds condition cell constant) × Decides result (Passes condition cell constant) }
{
    match condition {
        '=' => cell == constant,
        '<' => cell < constant,
        '>' => cell > constant,
        _ => false,
    }
}

// Whether there is such a condition; its characters stand here, as a rule of the project has it.
pub fn is_condition(condition: char) -> bool
    ensures { result ≡ known condition }
{
    matches!(condition, '=' | '<' | '>')
}
