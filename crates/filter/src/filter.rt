// A filter over any child.
ghost use Rattle.std.specs.Prelude.{◌≡◌};
ghost use Rattle.codec.specs.Bytes.{cell_word};
ghost use Rattle.operator.specs.Machine.{New};
ghost use Rattle.operator.specs.Laws.{meaning};
ghost use Rattle.operator.specs.Of.{of};
ghost use Rattle.codec.specs.Picks.{Picked};
ghost use Rattle.codec.specs.Rows.{cell_at};
ghost use Rattle.filter.specs.Condition.{Passes};
ghost use Rattle.filter.specs.Filtering.{Filtering, filtering, filter_machine, filter_meaning};
ghost use Rattle.filter.specs.Filters;

use crate::condition::Criterion;
use codec::{body_of, frame_head, write_front};
use operator::{Answer, Operator};
use plan::Kind;
use refusal::Refusal;

#[derive(Drop)]
pub struct Filter<C> {
    child: C,
    wanted: Criterion,
}

impl<C: Operator> Filter<C> {
    // A filter that stands where its child stands: over a new child, at its beginning. Its whole list is the child's rows
    // that pass, in order.
    pub fn new(child: C, wanted: Criterion) -> Filter<C>
        ensures parts { (result.child ≡ child) × (result.wanted ≡ wanted) }
        ensures fresh { New C.Operator.machine C.Operator.standing (C.Operator.state child) → New (filter_machine C.Operator.machine) (filter_meaning (of C.Operator)).standing (filtering (C.Operator.state child) wanted.cell wanted.condition (cell_word wanted.constant)) }
        ensures whole { Picked (λ x. Passes wanted.condition (cell_at x wanted.cell) wanted.constant) (C.Operator.whole (C.Operator.state child)) ((filter_meaning (of C.Operator)).whole (filtering (C.Operator.state child) wanted.cell wanted.condition (cell_word wanted.constant))) }
    {
        Filter { child, wanted }
    }
}

impl<C: Operator> Operator for Filter<C> {
    ghost State = { Filtering C.Operator.State };

    ghost state = { λ f. filtering (C.Operator.state f.child) f.wanted.cell f.wanted.condition (cell_word f.wanted.constant) };

    ghost machine = { filter_machine C.Operator.machine };

    ghost whole = { (filter_meaning (of C.Operator)).whole };

    ghost rest = { (filter_meaning (of C.Operator)).rest };

    ghost full = { (filter_meaning (of C.Operator)).full };

    ghost togo = { (filter_meaning (of C.Operator)).togo };

    ghost reading = { (filter_meaning (of C.Operator)).reading };

    ghost standing = { (filter_meaning (of C.Operator)).standing };

    ghost laws = { Filters.laws C.Operator.machine (meaning C.Operator.whole C.Operator.rest C.Operator.full C.Operator.togo C.Operator.reading C.Operator.standing) C.Operator.laws };

    fn operators(&self) -> usize {
        (self.child.operators() + 1).min(17)
    }

    fn keepers(&self) -> usize {
        self.child.keepers()
    }

    fn width(&self) -> usize {
        self.child.width()
    }

    fn plan_size(&self) -> usize {
        self.child.plan_size().saturating_add(7)
    }

    fn write_plan(&self, buffer: &mut [u8]) -> Result<usize, Refusal> {
        if buffer.len() < 7 {
            return Err(Refusal::Short);
        }
        let n = self.child.write_plan(&mut buffer[7..])?;
        let Criterion {
            cell,
            condition,
            constant,
        } = self.wanted;
        let [a, b, c, d] = constant.to_be_bytes();
        let kind = u8::from(Kind::Filter);
        let head = write_front(buffer, &[kind, cell, condition, a, b, c, d])?;
        Ok(n.saturating_add(head))
    }

    fn check(&self, first: usize) -> Result<(), Refusal> {
        self.child.check(first.saturating_add(1))?;
        self.wanted.check(self.child.width(), first)
    }

    fn step(&mut self) -> Answer {
        match self.child.step() {
            Answer::Row(row) if self.wanted.passes(&row) => Answer::Row(row),
            Answer::Row(_) | Answer::Busy => Answer::Busy,
            Answer::End => Answer::End,
        }
    }

    fn rewind(&mut self) {
        self.child.rewind();
    }

    fn save(&self, choices: &[u8], buffer: &mut [u8]) -> Result<usize, Refusal> {
        if buffer.len() < 2 {
            return Err(Refusal::Short);
        }
        let n = self.child.save(choices, &mut buffer[2..])?;
        let head = write_front(buffer, &frame_head(n))?;
        Ok(n.saturating_add(head))
    }

    fn load(&mut self, bytes: &[u8]) -> Result<(), Refusal> {
        let Some(body) = body_of(bytes) else {
            self.child.rewind();
            return Err(Refusal::Unreadable);
        };
        self.child.load(body)
    }

    fn size(&self, choices: &[u8]) -> usize {
        self.child.size(choices).saturating_add(2)
    }

    fn refetch(&self, choices: &[u8]) -> u32 {
        self.child.refetch(choices)
    }

    fn refetch_of(&self, bytes: &[u8]) -> u32 {
        body_of(bytes).map_or(0, |body| self.child.refetch_of(body))
    }
}
