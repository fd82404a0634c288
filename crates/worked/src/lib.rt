// Worked examples of the formats and of the operators, as one theorem about the definitions.
#![tactic(auto)]

ghost use Rattle.worked.specs.Examples.{Examples};

// The examples in specs/Examples hold; the answer is always true, and the contract is what counts.
pub fn examples_hold() -> bool
    ensures { Examples }
{
    true
}
