use codec::Row;
use std::fmt;

// What a step answers: a row, nothing yet, or that no row is left.
#[derive(Clone, Copy, PartialEq, Eq, Debug)]
pub enum Answer {
    Row(Row),
    Busy,
    End,
}

// Which of the three it is.
impl fmt::Display for Answer {
    ghost use Rattle.std.specs.Prelude.{Some};
    ghost use Rattle.operator.specs.Words.{answer_word};

    ghost output = { λ a. Some (answer_word a) };

    fn fmt<W: fmt::Write>(&self, f: &mut fmt::Formatter<W>) -> fmt::Result {
        f.write_str(match self {
            Answer::Row(_) => "row",
            Answer::Busy => "busy",
            Answer::End => "end",
        })
    }
}
