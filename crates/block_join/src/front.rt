// The front of a block join's record, ahead of the block's part.
ghost use Rattle.std.specs.Prelude.{◌≡◌, ℕ, min, length};
ghost use Rattle.block.specs.Places.{Put, SameBuffer};
ghost use Rattle.block_join.specs.Stages.{lead, leads, held_at};
ghost use Rattle.block_join.specs.Code.{stage_of, front_of, Indexed};

use crate::phase::Phase;
use block::{Form, Head, Writer};
use codec::{bytes_from, read_row};

// The phase and the head, and the bytes behind them.
#[derive(Clone, Copy)]
pub struct Front<'a> {
    pub phase: Phase,
    pub head: Head,
    pub behind: &'a [u8],
}

// The length of the front, for inner rows of a width.
pub fn front_size(phase: Phase, width: usize) -> usize
    ensures { (form count : ℕ) → result ≡ length (lead (min 8 width) form count (stage_of phase)) }
{
    match phase {
        Phase::Empty => 2,
        Phase::Filling => 3,
        Phase::Scanning => 5,
        Phase::Matching { .. } => 5 + 4 * width.min(8),
    }
}

// Puts the front, if it fits.
pub fn put_front(phase: Phase, width: usize, head: Head, writer: &mut Writer<'_>)
    ensures same_buffer { SameBuffer writer.old writer.new }
    ensures put { Indexed (stage_of phase) → Put (lead (min 8 width) head.form head.count (stage_of phase)) writer.old writer.new }
{
    let Head { form, count } = head;
    match phase {
        Phase::Empty => writer.put_bytes(&[0, 0]),
        Phase::Filling => writer.put_bytes(&[1, form, count]),
        Phase::Scanning => writer.put_bytes(&[2, form, count, 0, 0]),
        Phase::Matching { held, index } => {
            writer.put_bytes(&[2, form, count, 1]);
            writer.put_row(width, &held);
            // A cast asks for a bound, and only good standing bounds the index.
            writer.put_bytes(&[(index % 256) as u8]);
        }
    }
}

// Behind the head in phase 2: 0 and the index 0, or 1, an inner row and the index, at most the count.
fn held_at<'a>(width: usize, head: Head, bytes: &'a [u8]) -> Option<Front<'a>>
    ensures { held_at (min 8 width) head.form head.count bytes.now ≡ front_of result }
{
    match *bytes {
        [0, 0, ref behind @ ..] => Some(Front {
            phase: Phase::Scanning,
            head,
            behind,
        }),
        [1, ref cells @ ..] => {
            let held = read_row(cells, width)?;
            match *bytes_from(cells, 4 * width.min(8)) {
                [index, ref behind @ ..] if index <= head.count => Some(Front {
                    phase: Phase::Matching {
                        held,
                        index: usize::from(index),
                    },
                    head,
                    behind,
                }),
                _ => None,
            }
        }
        _ => None,
    }
}

// The front of a record's body, for a block size and inner rows of a width.
#[tactic(auto, unfolding(crate::specs::Stages::leads))]
pub fn front_in<'a>(size: usize, width: usize, bytes: &'a [u8]) -> Option<Front<'a>>
    ensures { leads size (min 8 width) bytes.now ≡ front_of result }
{
    match *bytes {
        [0, 0, ref behind @ ..] => Some(Front {
            phase: Phase::Empty,
            head: Head {
                form: u8::from(Form::Dumped),
                count: 0,
            },
            behind,
        }),
        [1, form, count, ref behind @ ..] if usize::from(count) < size => Some(Front {
            phase: Phase::Filling,
            head: Head { form, count },
            behind,
        }),
        [2, form, count, ref behind @ ..] if count > 0 && usize::from(count) <= size => {
            held_at(width, Head { form, count }, behind)
        }
        _ => None,
    }
}
