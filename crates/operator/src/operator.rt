// The interface of every operator. The machine (specs/Machine) says what each call does, the laws (specs/Laws) what
// that means; code above an operator is proved from these alone.
ghost use Rattle.std.specs.Prelude.{◌≡◌, ℕ, min, List, Option};
ghost use Rattle.codec.specs.declared.row.Row.{Row};
ghost use Rattle.operator.specs.Machine.{Machine};
ghost use Rattle.operator.specs.Calls.{Steps, Saves, Loads, Sizes, Owes, MeasuresPlan, WritesPlan, Checks};
ghost use Rattle.operator.specs.Laws.{Laws, meaning};

use crate::answer::Answer;
use refusal::Refusal;

pub trait Operator {
    // the state of the tree, as the machine has it
    ghost State: { Type 0 };

    ghost state: { Self → State };

    ghost machine: { Machine State };

    // the meaning of a state: all rows, those still to come, the steps to go at the beginning and now, the rows that a
    // record stands for, and good standing
    ghost whole: { State → List Row };

    ghost rest: { State → List Row };

    ghost full: { State → ℕ };

    ghost togo: { State → ℕ };

    ghost reading: { State → List ℕ → Option (List Row) };

    ghost standing: { State → Type 0 };

    // How many operators the tree has, 17 standing for all above 16.
    fn operators(&self) -> usize
        ensures { result ≡ min 17 (machine.operators (state self.now)) };

    // How many of them keep rows of their own, counted likewise.
    fn keepers(&self) -> usize
        ensures { result ≡ min 17 (machine.keepers (state self.now)) };

    // The width of its rows.
    fn width(&self) -> usize
        ensures { result ≡ machine.width (state self.now) };

    // The length of the tree's plan.
    fn plan_size(&self) -> usize
        ensures { MeasuresPlan machine (state self.now) result };

    // Writes the plan to the buffer's front.
    fn write_plan(&self, buffer: &mut [u8]) -> Result<usize, Refusal>
        ensures { WritesPlan machine (state self.now) buffer.old buffer.new result };

    // The first fault in the tree, children before parents; the operator itself has the number `first`.
    fn check(&self, first: usize) -> Result<(), Refusal>
        ensures { Checks machine (state self.now) first result };

    // One step; a row is in its answer.
    fn step(&mut self) -> Answer
        ensures { Steps machine standing (state self.old) result (state self.new) };

    // Back to the beginning.
    fn rewind(&mut self)
        ensures { state self.new ≡ machine.begin (state self.old) };

    // Writes the record for a choice list to the buffer's front.
    fn save(&self, choices: &[u8], buffer: &mut [u8]) -> Result<usize, Refusal>
        ensures { Saves machine standing (state self.now) choices.now buffer.old buffer.new result };

    // Takes up where a record was written; refused, the operator stands at its beginning.
    fn load(&mut self, bytes: &[u8]) -> Result<(), Refusal>
        ensures { Loads machine (state self.old) bytes.now result (state self.new) };

    // The length of the record for a choice list.
    fn size(&self, choices: &[u8]) -> usize
        ensures { Sizes machine standing (state self.now) choices.now result };

    // The rows that a load of that record would fetch again.
    fn refetch(&self, choices: &[u8]) -> u32
        ensures { Owes machine standing (state self.now) choices.now result };

    // The rows that a load of any record would fetch again.
    fn refetch_of(&self, bytes: &[u8]) -> u32
        ensures { result ≡ machine.refetch (state self.now) bytes.now };

    ghost laws: { Laws machine (meaning whole rest full togo reading standing) };
}
