// A child's record and plan as parts of its parent's.
ghost use Rattle.std.specs.Prelude.{◌≡◌, ◌≤◌};
ghost use Rattle.operator.specs.Machine.{Good};
ghost use Rattle.operator.specs.Calls.{Loaded};
ghost use Rattle.block.specs.Places.{Put, SameBuffer};
ghost use Rattle.keeper.specs.Keeping.{inner_at};

use block::Writer;
use operator::Operator;
use refusal::Refusal;

// Puts the record of a child for a choice list, if it fits.
pub fn put_record<C: Operator>(child: &C, choices: &[u8], writer: &mut Writer<'_>)
    ensures same_buffer { SameBuffer writer.old writer.new }
    ensures put { Good C.Operator.machine C.Operator.standing (C.Operator.state child.now) → Put (C.Operator.machine.saved (C.Operator.state child.now) choices.now) writer.old writer.new }
{
    writer.put(|front| child.save(choices, front));
}

// Puts the plan of a child, if it fits.
pub fn put_plan<C: Operator>(child: &C, writer: &mut Writer<'_>)
    ensures same_buffer { SameBuffer writer.old writer.new }
    ensures put { C.Operator.machine.operators (C.Operator.state child.now) ≤ 16 → Put (C.Operator.machine.plan (C.Operator.state child.now)) writer.old writer.new }
{
    writer.put(|front| child.write_plan(front));
}

// Loads a child from its record where one is written, else rewinds it. Refused, it still has its beginning.
pub fn load_or_rewind<C: Operator>(
    written: bool,
    child: &mut C,
    bytes: &[u8],
) -> Result<(), Refusal>
    ensures loaded { C.Operator.machine.operators (C.Operator.state child.old) ≤ 16 → Loaded (C.Operator.machine.begin (C.Operator.state child.old)) (inner_at written (C.Operator.machine.restored (C.Operator.state child.old)) (C.Operator.machine.begin (C.Operator.state child.old)) bytes.now) result (C.Operator.state child.new) }
    ensures begins { C.Operator.machine.operators (C.Operator.state child.old) ≤ 16 → C.Operator.machine.begin (C.Operator.state child.new) ≡ C.Operator.machine.begin (C.Operator.state child.old) }
{
    if written {
        child.load(bytes)
    } else {
        child.rewind();
        Ok(())
    }
}
