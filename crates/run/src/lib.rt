// Runs any operator tree from its beginning to its end.
#![tactic(auto)]

ghost use Rattle.std.specs.Prelude.{◌≡◌};
ghost use Rattle.operator.specs.Of.{of};
ghost use Rattle.run.specs.Runs.{Runs};

use codec::Row;
use operator::{Answer, Operator};
use plan::MAX_OPERATORS;
use refusal::Refusal;
use std::alloc::{AllocFailed, Global};
use std::error::Error;
use std::fmt;

// All rows of a tree, and in how many steps they came, the last one, which answers end, not counted.
#[derive(Drop)]
pub struct Run {
    pub rows: Vec<Row>,
    pub steps: usize,
}

// Why there is no run.
#[derive(Clone, Copy, PartialEq, Eq, Debug)]
pub enum Failure {
    Refused(Refusal),
    NoMemory,
}

impl fmt::Display for Failure {
    ghost use Rattle.std.specs.Prelude.{Some};
    ghost use Rattle.run.specs.Texts.{failure_text};

    ghost output = { λ f. Some (failure_text f) };

    fn fmt<W: fmt::Write>(&self, f: &mut fmt::Formatter<W>) -> fmt::Result {
        match self {
            Failure::Refused(refusal) => write!(f, "refused: {refusal}"),
            Failure::NoMemory => f.write_str("out of memory"),
        }
    }
}

impl Error for Failure {}

impl From<Refusal> for Failure {
    ghost use Rattle.run.specs.declared.Failure.TheVariants.{Refused};

    ghost from_gives = { λ e f. f ≡ Refused e };

    fn from(refusal: Refusal) -> Self {
        Self::Refused(refusal)
    }
}

impl<T: Drop> From<AllocFailed<T>> for Failure {
    ghost use Rattle.run.specs.declared.Failure.TheVariants.{NoMemory};

    ghost from_gives = { λ e f. f ≡ NoMemory };

    fn from(_failed: AllocFailed<T>) -> Self {
        Self::NoMemory
    }
}

// Rewinds the tree and steps it until it answers end: the rows are the tree's whole list, and the steps are at most its
// steps to go. A tree of over 16 operators is refused as outsize, and stays.
pub fn run_to_end<O: Operator>(heap: Global, tree: &mut O) -> Result<Run, Failure>
    ensures { Runs O.Operator.machine (of O.Operator) (O.Operator.state tree.old) (O.Operator.state tree.new) result }
{
    if tree.operators() > MAX_OPERATORS {
        return Err(Failure::Refused(Refusal::Outsize));
    }
    tree.rewind();
    let mut rows = Vec::new(heap);
    let mut steps: usize = 0;
    'steps: loop {
        match tree.step() {
            Answer::Row(row) => rows.push(row)?,
            Answer::Busy => {}
            Answer::End => return Ok(Run { rows, steps }),
        }
        steps = steps.saturating_add(1);
    }
}
