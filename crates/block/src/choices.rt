// A keeper's choice list.
ghost use Rattle.std.specs.Prelude.{◌≡◌};
ghost use Rattle.block.specs.Choices.{goes_back, choices_of_outer, choices_of_inner};

use codec::bytes_from;

// The choice to go back, a byte of a list that is the caller's: any other byte is to dump, so an enum would say no more.
pub const GO_BACK: u8 = 2;

// A choice list taken apart: whether the keeper is to go back, a missing choice being to dump, and the choices of the
// keepers below its outer and below its inner child.
#[derive(Clone, Copy)]
pub struct Choices<'a> {
    pub back: bool,
    pub outer: &'a [u8],
    pub inner: &'a [u8],
}

impl<'a> Choices<'a> {
    // The choices of a keeper above an outer child with so many keepers.
    pub fn split(choices: &'a [u8], keepers: usize) -> Choices<'a>
        ensures back { result.back ≡ goes_back choices.now }
        ensures outer { result.outer.now ≡ choices_of_outer keepers choices.now }
        ensures inner { result.inner.now ≡ choices_of_inner keepers choices.now }
    {
        let below = bytes_from(choices, 1);
        let (outer, inner) = below.split_at(keepers.min(below.len()));
        Choices {
            back: choices.first() == Some(&GO_BACK),
            outer,
            inner,
        }
    }
}
