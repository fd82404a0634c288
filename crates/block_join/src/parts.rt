// A block join's record taken apart.
ghost use Rattle.std.specs.Prelude.{◌≡◌, min};
ghost use Rattle.keeper.specs.Keeping.{parsed};
ghost use Rattle.block_join.specs.Stages.{join_kind};
ghost use Rattle.block_join.specs.Code.{parts_of, AllEnough};

use crate::front::{Front, front_in};
use crate::phase::Phase;
use block::{Stored, part_of};
use codec::body_of;
use pairing::Widths;

// The phase, the block's part, and the inner child's record or nothing.
#[derive(Clone, Copy)]
pub struct Parts<'a> {
    pub phase: Phase,
    pub stored: Stored<'a>,
    pub tail: &'a [u8],
}

// The parts of a record, for a block size and children of these widths.
#[tactic(auto, unfolding(keeper::specs::Keeping::parsed))]
pub fn parts_in<'a>(size: usize, widths: Widths, bytes: &'a [u8]) -> Option<Parts<'a>>
    ensures is { parsed join_kind.phases size (min 8 widths.outer) (min 8 widths.inner) bytes.now ≡ parts_of (min 8 widths.outer) result }
    ensures enough { AllEnough (min 8 widths.outer) result }
{
    let body = body_of(bytes)?;
    let Front {
        phase,
        head,
        behind,
    } = front_in(size, widths.inner, body)?;
    let part = part_of(phase.in_scan(), widths.outer, head, behind)?;
    Some(Parts {
        phase,
        stored: part.stored,
        tail: part.behind,
    })
}
