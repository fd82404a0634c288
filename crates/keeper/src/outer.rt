// A block of an outer child's rows, with the contract by which they can be fetched again.
ghost use Rattle.std.specs.Prelude.{◌≡◌, ℕ, ◌<◌, ◌≤◌, [], length};
ghost use Rattle.operator.specs.Machine.{Good};
ghost use Rattle.operator.specs.Of.{of};
ghost use Rattle.codec.specs.Frames.{Found};
ghost use Rattle.block.specs.Places.{Put, SameBuffer};
ghost use Rattle.block.specs.Kept.{form_number, kept_of, kept_count, kept_record};
ghost use Rattle.block.specs.Held.{contract_of, signed};
ghost use Rattle.keeper.specs.Taking.{taken, untaken, with_row, back_record, signing, way_back, form_by, fetch, rebuilt, refetch_kept};
ghost use Rattle.keeper.specs.Outer.{taken_of, Fine, kept_for, part_bytes, Loadable, Restores};

use crate::record::put_record;
use block::{BLOCK_ROWS, Block, CONTRACT_BYTES, Choices, Contract, Form, GO_BACK, Stored, Writer};
use codec::Row;
use operator::{Answer, Operator};
use plan::MAX_OPERATORS;
use refusal::Refusal;

// The rows taken from the child since a contract was signed with it, and the contract, if it is held. Contracts see it by
// `taken_of`: the value of a model could not speak of the child's own state.
#[derive(Drop)]
pub struct OuterBlock<O> {
    pub child: O,
    block: Block,
    contract: Option<Contract>,
}

impl<O: Operator> OuterBlock<O> {
    // No rows and no contract.
    pub fn new(child: O) -> OuterBlock<O>
        ensures { taken_of O.Operator result ≡ untaken (O.Operator.state child) }
    {
        OuterBlock {
            child,
            block: Block::new(),
            contract: None,
        }
    }

    // The rows taken.
    pub fn rows(&self) -> &[Row]
        ensures is { result.now ≡ (taken_of O.Operator self.now).rows }
        ensures few { length result.now ≤ 16 }
    {
        self.block.rows()
    }

    // A contract with the child as it stands, if it is not too long.
    fn contract_now(&self) -> Option<Contract>
        ensures { Good O.Operator.machine O.Operator.standing (O.Operator.state self.now.child) → contract_of result ≡ signed (back_record O.Operator.machine (O.Operator.state self.now.child)) }
    {
        let choices = [GO_BACK; MAX_OPERATORS];
        let keepers = self.child.keepers().min(MAX_OPERATORS);
        let mut bytes = [0; CONTRACT_BYTES];
        let used = self.child.save(&choices[..keepers], &mut bytes).ok()?;
        Some(Contract::new(bytes, used))
    }

    // Signs a contract before the first row; one that is too long is not held.
    pub fn sign(&mut self)
        ensures { Good O.Operator.machine O.Operator.standing (O.Operator.state self.old.child) → taken_of O.Operator self.new ≡ signing O.Operator.machine (O.Operator.state self.old.child) }
    {
        self.contract = self.contract_now();
        self.block.clear();
    }

    // One row more; a full block stays.
    pub fn add(&mut self, row: Row)
        ensures { length (taken_of O.Operator self.old).rows < 16 → taken_of O.Operator self.new ≡ with_row (taken_of O.Operator self.old) row (O.Operator.state self.old.child) }
    {
        self.block.add(row);
    }

    // Drops the rows and the contract.
    pub fn release(&mut self)
        ensures { taken_of O.Operator self.new ≡ untaken (O.Operator.state self.old.child) }
    {
        self.block.clear();
        self.contract = None;
    }

    // Back to the beginning.
    pub fn rewind(&mut self)
        ensures { taken_of O.Operator self.new ≡ untaken (O.Operator.machine.begin (O.Operator.state self.old.child)) }
    {
        self.child.rewind();
        self.release();
    }

    // The contract by which to go back, if that is the choice and one is held.
    fn way_back(&self, back: bool) -> Option<&[u8]>
        ensures { Found result (way_back back (taken_of O.Operator self.now).contract) }
    {
        let contract = self.contract.as_ref()?;
        back.then_some(contract.bytes())
    }

    // The form in which the block is recorded: owed by a contract, or dumped with its rows.
    pub fn form(&self, back: bool) -> Form
        ensures { form_number result ≡ form_by back (taken_of O.Operator self.now).contract }
    {
        match self.way_back(back) {
            Some(_) => Form::Owed,
            None => Form::Dumped,
        }
    }

    // The length of the block's part of a record for a choice list.
    pub fn part_size(&self, choices: Choices<'_>) -> usize
        ensures { Fine O.Operator.machine (of O.Operator) (taken_of O.Operator self.now) → result ≡ length (part_bytes O.Operator.machine choices.entry.back choices.entry.outer.now (taken_of O.Operator self.now)) }
    {
        match self.way_back(choices.back) {
            Some(contract) => contract.len(),
            None => {
                let rows = self.rows().len() * (4 * self.child.width().min(8));
                self.child.size(choices.outer).saturating_add(rows)
            }
        }
    }

    // Puts the block's part of a record, if it fits.
    pub fn put_part(&self, choices: Choices<'_>, writer: &mut Writer<'_>)
        ensures same_buffer { SameBuffer writer.old writer.new }
        ensures put { Fine O.Operator.machine (of O.Operator) (taken_of O.Operator self.now) → Put (part_bytes O.Operator.machine choices.entry.back choices.entry.outer.now (taken_of O.Operator self.now)) writer.old writer.new }
    {
        match self.way_back(choices.back) {
            Some(contract) => writer.put_bytes(contract),
            None => {
                writer.put_rows(self.child.width(), self.rows());
                put_record(&self.child, choices.outer, writer);
            }
        }
    }

    // The rows that a load of that part would fetch again.
    pub fn refetch(&self, choices: Choices<'_>) -> u32
        ensures { Fine O.Operator.machine (of O.Operator) (taken_of O.Operator self.now) → result ≡ refetch_kept (O.Operator.machine.refetch (O.Operator.state self.now.child)) (kept_for O.Operator.machine choices.entry.back choices.entry.outer.now (taken_of O.Operator self.now)) }
    {
        match self.way_back(choices.back) {
            Some(contract) => {
                // A block has at most 16 rows, so the cast loses nothing; `try_from` would need a case for more.
                (self.rows().len() as u32).saturating_add(self.child.refetch_of(contract))
            }
            None => self.child.refetch(choices.outer),
        }
    }

    // The rows that a load of any block's part would fetch again, of at most 16 rows by a record of at most 65,537 bytes.
    pub fn refetch_of(&self, stored: Stored<'_>) -> u32
        ensures { (v : ℕ) → kept_count (kept_of v stored.entry) ≤ 16 → length (kept_record (kept_of v stored.entry)) ≤ 65537 → result ≡ refetch_kept (O.Operator.machine.refetch (O.Operator.state self.now.child)) (kept_of v stored.entry) }
    {
        match stored {
            Stored::Dumped { outer, .. } => self.child.refetch_of(outer),
            Stored::Owed { count, contract } => {
                // As above.
                (count.min(BLOCK_ROWS) as u32).saturating_add(self.child.refetch_of(contract))
            }
        }
    }

    // Steps the child until the block has so many rows; too few are refused as unreadable.
    fn fetch(&mut self, count: usize) -> Result<(), Refusal>
        requires { (Good O.Operator.machine O.Operator.standing (O.Operator.state self.old.child)) × (count ≤ 16) }
        ensures fetched { Restores (fetch O.Operator.machine.next (O.Operator.togo (O.Operator.state self.old.child)) count (taken [] (taken_of O.Operator self.old).contract (O.Operator.state self.old.child))) result (taken_of O.Operator self.new) }
        ensures begins { O.Operator.machine.begin (O.Operator.state self.new.child) ≡ O.Operator.machine.begin (O.Operator.state self.old.child) }
    {
        self.block.clear();
        while self.block.rows().len() < count {
            match self.child.step() {
                Answer::Row(row) => self.block.add(row),
                Answer::Busy => {}
                Answer::End => return Err(Refusal::Unreadable),
            }
        }
        Ok(())
    }

    // Restores the block and the child from the block's part of a record: dumped rows are read, owed ones are fetched
    // again by the contract, which is held from then on. Refused as unreadable, the child still has its beginning.
    pub fn load(&mut self, stored: Stored<'_>) -> Result<(), Refusal>
        ensures restored { O.Operator.machine.operators (O.Operator.state self.old.child) ≤ 16 → Loadable (O.Operator.machine.width (O.Operator.state self.old.child)) stored.entry → Restores (rebuilt O.Operator.machine O.Operator.togo (O.Operator.machine.restored (O.Operator.state self.old.child)) (kept_of (O.Operator.machine.width (O.Operator.state self.old.child)) stored.entry)) result (taken_of O.Operator self.new) }
        ensures begins { O.Operator.machine.operators (O.Operator.state self.old.child) ≤ 16 → O.Operator.machine.begin (O.Operator.state self.new.child) ≡ O.Operator.machine.begin (O.Operator.state self.old.child) }
    {
        if self.child.operators() > MAX_OPERATORS {
            return Err(Refusal::Unreadable);
        }
        let width = self.child.width();
        match stored {
            Stored::Dumped { count, rows, outer } => {
                self.child.load(outer)?;
                self.contract = None;
                self.block.read(width, count, rows);
                Ok(())
            }
            Stored::Owed { count, contract } => {
                self.child.load(contract)?;
                self.contract = Contract::of(contract);
                self.fetch(count.min(BLOCK_ROWS))
            }
        }
    }
}
