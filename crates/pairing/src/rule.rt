// The parameters of a block join.
ghost use Rattle.std.specs.Prelude.{◌≡◌, ◌+◌, ◌||◌, Decides, nat_lt};
ghost use Rattle.refusal.specs.Numbers.{faults};
ghost use Rattle.pairing.specs.Terms.{Match, match, MatchCell, match_cell, terms_of, block_size, misfits, bad_block, bad_condition, join_flaw};

use crate::condition::{is_join_condition, joins};
use crate::widths::Widths;
use codec::Row;
use refusal::Refusal;

// The most rows of a block.
const MOST_ROWS: u8 = 16;

// The condition that takes a band.
const NEAR: u8 = b'~';

// A block join's parameters, as its plan has them. Its fields are public, so contracts see it by `terms_of` and not by a
// model.
#[derive(Clone, Copy, PartialEq, Eq, Debug)]
pub struct JoinRule {
    pub size: u8,
    pub outer_cell: u8,
    pub inner_cell: u8,
    // a rule of the project: the byte of the plan, also where no condition has it
    pub condition: u8,
    pub band: i32,
}

impl JoinRule {
    // How many rows a block has: the nearer of 1 and 16 where the size is outside.
    pub fn block_size(&self) -> usize
        ensures { result ≡ block_size (terms_of self.now) }
    {
        usize::from(self.size.clamp(1, MOST_ROWS))
    }

    // Whether an outer and an inner row match.
    pub fn matches(&self, outer: &Row, inner: &Row) -> bool
        ensures { (result ≡ match (terms_of self.now) outer.now inner.now) × Decides result (Match (terms_of self.now) outer.now inner.now) }
    {
        self.matches_cell(outer, inner.cell(self.inner_cell))
    }

    // Whether an outer row and an inner row's cell match.
    pub fn matches_cell(&self, outer: &Row, right: i32) -> bool
        ensures { (result ≡ match_cell (terms_of self.now) outer.now right) × Decides result (MatchCell (terms_of self.now) outer.now right) }
    {
        let left = outer.cell(self.outer_cell);
        joins(char::from(self.condition), self.band, left, right)
    }

    // What is wrong with the join at a place in the plan, over children of these widths.
    #[tactic(auto, unfolding(crate::specs::Terms::faulty))]
    pub fn check(&self, widths: Widths, at: usize) -> Result<(), Refusal>
        ensures { faults result ≡ join_flaw (terms_of self.now) widths.outer widths.inner at }
    {
        if self.is_misfit(widths) {
            Err(Refusal::Misfit(at))
        } else if self.is_bad_block() {
            Err(Refusal::BadBlock(at))
        } else if self.is_bad_condition() {
            Err(Refusal::BadCondition(at))
        } else {
            Ok(())
        }
    }

    // A cell number is not below its width, or a joined row has too many cells.
    fn is_misfit(&self, widths: Widths) -> bool
        ensures { result ≡ (misfits (terms_of self.now) widths.outer widths.inner || nat_lt 8 (widths.outer + widths.inner)) }
    {
        usize::from(self.outer_cell) >= widths.outer
            || usize::from(self.inner_cell) >= widths.inner
            || widths.are_too_wide()
    }

    // The size of a block is out of range.
    fn is_bad_block(&self) -> bool
        ensures { result ≡ bad_block (terms_of self.now) }
    {
        !(1..=MOST_ROWS).contains(&self.size)
    }

    // The condition is unknown, or the band is negative or not asked for.
    fn is_bad_condition(&self) -> bool
        ensures { result ≡ bad_condition (terms_of self.now) }
    {
        !is_join_condition(char::from(self.condition))
            || self.band < 0
            || (self.band != 0 && self.condition != NEAR)
    }
}
