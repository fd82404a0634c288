// Worked examples of the block join, as one theorem about the definitions.
#![tactic(auto)]

ghost use Rattle.worked_joins.specs.Joins.{JoinExamples};

// The examples in specs/Joins hold; the answer is always true, and the contract is what counts.
pub fn join_examples_hold() -> bool
    ensures { JoinExamples }
{
    true
}
