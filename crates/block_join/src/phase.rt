// Where a block join stands.
ghost use Rattle.std.specs.Prelude.{◌≡◌};
ghost use Rattle.block_join.specs.Stages.{within_scan};
ghost use Rattle.block_join.specs.Code.{stage_of};

use codec::Row;

// Phase 0; phase 1; phase 2 without an inner row held; phase 2 with one, and the next index into the block.
#[derive(Clone, Copy, PartialEq, Eq, Debug)]
pub enum Phase {
    Empty,
    Filling,
    Scanning,
    Matching { held: Row, index: usize },
}

impl Phase {
    // Whether the inner child's record is written.
    pub fn in_scan(self) -> bool
        ensures { result ≡ within_scan (stage_of self) }
    {
        matches!(self, Phase::Scanning | Phase::Matching { .. })
    }
}
