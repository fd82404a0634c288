// The operator.
ghost use Rattle.std.specs.Prelude.{◌≡◌, ℕ, ◌≤◌, min, length};
ghost use Rattle.operator.specs.Machine.{Good, New};
ghost use Rattle.operator.specs.Laws.{meaning};
ghost use Rattle.operator.specs.Of.{of};
ghost use Rattle.pairing.specs.Terms.{terms_of, block_size};
ghost use Rattle.pairing.specs.Joined.{Join};
ghost use Rattle.block.specs.Places.{Put, SameBuffer};
ghost use Rattle.keeper.specs.Taking.{untaken};
ghost use Rattle.keeper.specs.Keeping.{Keeping, keeping, only, parsed, refetch_tail};
ghost use Rattle.keeper.specs.Outer.{Restores};
ghost use Rattle.block_join.specs.Stages.{Stage, empty, within_scan, join_kind};
ghost use Rattle.block_join.specs.Joining.{join_machine, join_meaning};
ghost use Rattle.block_join.specs.Code.{stage_of, joining, parts_of, AllEnough, Asked};
ghost use Rattle.block_join.specs.Laws;

use crate::front::{front_size, put_front};
use crate::parts::{Parts, parts_in};
use crate::phase::Phase;
use block::{Choices, Head, Writer};
use codec::frame_head;
use keeper::{OuterBlock, load_or_rewind, put_plan, put_record};
use operator::{Answer, Operator};
use pairing::{Hit, JoinRule, Widths, next_match};
use plan::Kind;
use refusal::Refusal;

#[derive(Drop)]
pub struct BlockJoin<O, I> {
    rule: JoinRule,
    phase: Phase,
    outer: OuterBlock<O>,
    inner: I,
}

// Steps the child that the phase asks. A match: a rule of the project has one match on the phase and this answer, and a
// closure for each phase would have to hold both children.
fn ask<O: Operator, I: Operator>(phase: Phase, outer: &mut O, inner: &mut I) -> Answer
    ensures { Asked O.Operator I.Operator phase result outer.old inner.old outer.new inner.new }
{
    match phase {
        Phase::Filling => outer.step(),
        Phase::Scanning => inner.step(),
        Phase::Empty | Phase::Matching { .. } => Answer::Busy,
    }
}

impl<O: Operator, I: Operator> BlockJoin<O, I> {
    // A join in phase 0: over new children, at its beginning. Its whole list is the join of its children's, in the order
    // of blocks, inner rows and block rows.
    #[tactic(auto, using(pairing::proofs::Law::join_law, keeper::proofs::Laws::size_some))]
    pub fn new(rule: JoinRule, outer: O, inner: I) -> BlockJoin<O, I>
        ensures is { joining O.Operator I.Operator result ≡ keeping (terms_of rule) empty (untaken (O.Operator.state outer)) (I.Operator.state inner) }
        ensures fresh { New O.Operator.machine O.Operator.standing (O.Operator.state outer) → New I.Operator.machine I.Operator.standing (I.Operator.state inner) → New (join_machine O.Operator.machine O.Operator.togo I.Operator.machine) (join_meaning O.Operator.machine (of O.Operator) I.Operator.machine (of I.Operator)).standing (joining O.Operator I.Operator result) }
        ensures whole { Join (block_size (terms_of rule)) (terms_of rule) (O.Operator.machine.width (O.Operator.state outer)) (O.Operator.whole (O.Operator.state outer)) (I.Operator.whole (I.Operator.state inner)) ((join_meaning O.Operator.machine (of O.Operator) I.Operator.machine (of I.Operator)).whole (joining O.Operator I.Operator result)) }
    {
        BlockJoin {
            rule,
            phase: Phase::Empty,
            outer: OuterBlock::new(outer),
            inner,
        }
    }

    // The widths of its children.
    fn widths(&self) -> Widths
        ensures { result ≡ record { outer = O.Operator.machine.width (O.Operator.state self.now.outer.child); inner = I.Operator.machine.width (I.Operator.state self.now.inner) } }
    {
        Widths {
            outer: self.outer.child.width(),
            inner: self.inner.width(),
        }
    }

    // The length of the inner child's record, where one is written.
    fn tail_size(&self, choices: &[u8]) -> usize
        ensures { Good I.Operator.machine I.Operator.standing (I.Operator.state self.now.inner) → result ≡ length (only (within_scan (stage_of self.now.phase)) (I.Operator.machine.saved (I.Operator.state self.now.inner) choices.now)) }
    {
        if self.phase.in_scan() {
            self.inner.size(choices)
        } else {
            0
        }
    }

    // Puts the inner child's record, where one is written.
    fn put_tail(&self, choices: &[u8], writer: &mut Writer<'_>)
        ensures same_buffer { SameBuffer writer.old writer.new }
        ensures put { Good I.Operator.machine I.Operator.standing (I.Operator.state self.now.inner) → Put (only (within_scan (stage_of self.now.phase)) (I.Operator.machine.saved (I.Operator.state self.now.inner) choices.now)) writer.old writer.new }
    {
        if self.phase.in_scan() {
            put_record(&self.inner, choices, writer);
        }
    }

    // The rows that a load of the inner child's record would fetch again, where one is written.
    fn tail_refetch(&self, choices: &[u8]) -> u32
        ensures { Good I.Operator.machine I.Operator.standing (I.Operator.state self.now.inner) → result ≡ refetch_tail (within_scan (stage_of self.now.phase)) (I.Operator.machine.refetch (I.Operator.state self.now.inner)) (only (within_scan (stage_of self.now.phase)) (I.Operator.machine.saved (I.Operator.state self.now.inner) choices.now)) }
    {
        if self.phase.in_scan() {
            self.inner.refetch(choices)
        } else {
            0
        }
    }

    // The parts of a record.
    fn parts<'a>(&self, bytes: &'a [u8]) -> Option<Parts<'a>>
        ensures is { parsed join_kind.phases (block_size (terms_of self.now.rule)) (min 8 (O.Operator.machine.width (O.Operator.state self.now.outer.child))) (min 8 (I.Operator.machine.width (I.Operator.state self.now.inner))) bytes.now ≡ parts_of (min 8 (O.Operator.machine.width (O.Operator.state self.now.outer.child))) result }
        ensures enough { AllEnough (min 8 (O.Operator.machine.width (O.Operator.state self.now.outer.child))) result }
    {
        parts_in(self.rule.block_size(), self.widths(), bytes)
    }

    // Restores what a record says; refused, only the beginning is left as it was.
    fn resume(&mut self, bytes: &[u8]) -> Result<(), Refusal>
        ensures restored { (join_machine O.Operator.machine O.Operator.togo I.Operator.machine).operators (joining O.Operator I.Operator self.old) ≤ 16 → Restores ((join_machine O.Operator.machine O.Operator.togo I.Operator.machine).restored (joining O.Operator I.Operator self.old) bytes.now) result (joining O.Operator I.Operator self.new) }
        ensures begins { (join_machine O.Operator.machine O.Operator.togo I.Operator.machine).operators (joining O.Operator I.Operator self.old) ≤ 16 → (join_machine O.Operator.machine O.Operator.togo I.Operator.machine).begin (joining O.Operator I.Operator self.new) ≡ (join_machine O.Operator.machine O.Operator.togo I.Operator.machine).begin (joining O.Operator I.Operator self.old) }
    {
        let parts = self.parts(bytes).ok_or(Refusal::Unreadable)?;
        self.phase = parts.phase;
        self.outer.load(parts.stored)?;
        load_or_rewind(parts.phase.in_scan(), &mut self.inner, parts.tail)
    }
}

impl<O: Operator, I: Operator> Operator for BlockJoin<O, I> {
    ghost State = { Keeping Stage O.Operator.State I.Operator.State };

    ghost state = { joining O.Operator I.Operator };

    ghost machine = { join_machine O.Operator.machine O.Operator.togo I.Operator.machine };

    ghost whole = { (join_meaning O.Operator.machine (of O.Operator) I.Operator.machine (of I.Operator)).whole };

    ghost rest = { (join_meaning O.Operator.machine (of O.Operator) I.Operator.machine (of I.Operator)).rest };

    ghost full = { (join_meaning O.Operator.machine (of O.Operator) I.Operator.machine (of I.Operator)).full };

    ghost togo = { (join_meaning O.Operator.machine (of O.Operator) I.Operator.machine (of I.Operator)).togo };

    ghost reading = { (join_meaning O.Operator.machine (of O.Operator) I.Operator.machine (of I.Operator)).reading };

    ghost standing = { (join_meaning O.Operator.machine (of O.Operator) I.Operator.machine (of I.Operator)).standing };

    ghost laws = { Laws.laws O.Operator.machine (meaning O.Operator.whole O.Operator.rest O.Operator.full O.Operator.togo O.Operator.reading O.Operator.standing) O.Operator.laws I.Operator.machine (meaning I.Operator.whole I.Operator.rest I.Operator.full I.Operator.togo I.Operator.reading I.Operator.standing) I.Operator.laws };

    fn operators(&self) -> usize {
        (1 + self.outer.child.operators() + self.inner.operators()).min(17)
    }

    fn keepers(&self) -> usize {
        (1 + self.outer.child.keepers() + self.inner.keepers()).min(17)
    }

    fn width(&self) -> usize {
        (self.outer.child.width() + self.inner.width()).min(8)
    }

    fn plan_size(&self) -> usize {
        self.outer
            .child
            .plan_size()
            .saturating_add(self.inner.plan_size())
            .saturating_add(9)
    }

    fn write_plan(&self, buffer: &mut [u8]) -> Result<usize, Refusal> {
        let size = self.plan_size();
        if buffer.len() < size {
            return Err(Refusal::Short);
        }
        let rule = self.rule;
        let [a, b, c, d] = rule.band.to_be_bytes();
        let own = [
            u8::from(Kind::BlockJoin),
            rule.size,
            rule.outer_cell,
            rule.inner_cell,
            rule.condition,
            a,
            b,
            c,
            d,
        ];
        let mut writer = Writer::new(buffer);
        writer.put_bytes(&own);
        put_plan(&self.outer.child, &mut writer);
        put_plan(&self.inner, &mut writer);
        Ok(size)
    }

    fn check(&self, first: usize) -> Result<(), Refusal> {
        let outer = first.saturating_add(1);
        self.outer.child.check(outer)?;
        let inner = outer.saturating_add(self.outer.child.operators());
        self.inner.check(inner)?;
        self.rule.check(self.widths(), first)
    }

    fn step(&mut self) -> Answer {
        let answer = ask(self.phase, &mut self.outer.child, &mut self.inner);
        match (self.phase, answer) {
            (Phase::Empty, _) => {
                self.outer.sign();
                self.phase = Phase::Filling;
                Answer::Busy
            }
            (Phase::Filling, Answer::Row(row)) => {
                self.outer.add(row);
                if self.outer.rows().len() >= self.rule.block_size() {
                    self.phase = Phase::Scanning;
                }
                Answer::Busy
            }
            (Phase::Filling, Answer::End) => {
                if self.outer.rows().is_empty() {
                    return Answer::End;
                }
                self.phase = Phase::Scanning;
                Answer::Busy
            }
            (Phase::Scanning, Answer::Row(held)) => {
                self.phase = Phase::Matching { held, index: 0 };
                Answer::Busy
            }
            (Phase::Scanning, Answer::End) => {
                self.inner.rewind();
                self.outer.release();
                self.phase = Phase::Empty;
                Answer::Busy
            }
            (Phase::Filling | Phase::Scanning, Answer::Busy) => Answer::Busy,
            (Phase::Matching { held, index }, _) => {
                let width = self.outer.child.width();
                match next_match(self.outer.rows(), &self.rule, width, &held, index) {
                    Some(Hit { row, next }) => {
                        self.phase = Phase::Matching { held, index: next };
                        Answer::Row(row)
                    }
                    None => {
                        self.phase = Phase::Scanning;
                        Answer::Busy
                    }
                }
            }
        }
    }

    fn rewind(&mut self) {
        self.outer.rewind();
        self.inner.rewind();
        self.phase = Phase::Empty;
    }

    fn save(&self, choices: &[u8], buffer: &mut [u8]) -> Result<usize, Refusal> {
        let size = self.size(choices);
        if buffer.len() < size {
            return Err(Refusal::Short);
        }
        let choices = Choices::split(choices, self.outer.child.keepers());
        let head = Head {
            form: u8::from(self.outer.form(choices.back)),
            // At most 16, so the cast loses nothing.
            count: self.outer.rows().len() as u8,
        };
        let mut writer = Writer::new(buffer);
        writer.put_bytes(&frame_head(size.saturating_sub(2)));
        put_front(self.phase, self.inner.width(), head, &mut writer);
        self.outer.put_part(choices, &mut writer);
        self.put_tail(choices.inner, &mut writer);
        Ok(size)
    }

    fn load(&mut self, bytes: &[u8]) -> Result<(), Refusal> {
        let loaded = self.resume(bytes);
        if loaded.is_err() {
            self.rewind();
        }
        loaded
    }

    fn size(&self, choices: &[u8]) -> usize {
        let choices = Choices::split(choices, self.outer.child.keepers());
        let front = front_size(self.phase, self.inner.width());
        let part = self.outer.part_size(choices);
        let tail = self.tail_size(choices.inner);
        part.saturating_add(tail).saturating_add(2 + front)
    }

    fn refetch(&self, choices: &[u8]) -> u32 {
        let choices = Choices::split(choices, self.outer.child.keepers());
        let part = self.outer.refetch(choices);
        part.saturating_add(self.tail_refetch(choices.inner))
    }

    fn refetch_of(&self, bytes: &[u8]) -> u32 {
        let Some(parts) = self.parts(bytes) else {
            return 0;
        };
        let part = self.outer.refetch_of(parts.stored);
        if parts.phase.in_scan() {
            part.saturating_add(self.inner.refetch_of(parts.tail))
        } else {
            part
        }
    }
}
