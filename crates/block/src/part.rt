// The block's part of a record taken apart.
ghost use Rattle.std.specs.Prelude.{◌≡◌, ◌+◌, ◌*◌, ◌≤◌, min, Bool};
ghost use Rattle.codec.specs.Bytes.{of2};
ghost use Rattle.block.specs.Kept.{form_number, FormOf, cut, cut_of, dumped_at, owed_at, part_at, parted, tailed, parts_of, AllEnough};

use crate::contract::CONTRACT_BYTES;

// How a block is recorded.
#[derive(Clone, Copy, PartialEq, Eq, Debug)]
pub enum Form {
    Dumped,
    Owed,
}

// A number that no form has.
#[derive(Clone, Copy, PartialEq, Eq, Debug)]
pub struct UnknownForm(pub u8);

impl TryFrom<u8> for Form {
    type Error = UnknownForm;

    ghost try_from_gives = { FormOf };

    fn try_from(number: u8) -> Result<Form, UnknownForm> {
        match number {
            1 => Ok(Form::Dumped),
            2 => Ok(Form::Owed),
            _ => Err(UnknownForm(number)),
        }
    }
}

impl From<Form> for u8 {
    ghost from_gives = { λ form number. number ≡ form_number form };

    fn from(form: Form) -> u8 {
        match form {
            Form::Dumped => 1,
            Form::Owed => 2,
        }
    }
}

// The form and the count of the block, as a record has them.
#[derive(Clone, Copy, PartialEq, Eq, Debug)]
pub struct Head {
    // A byte: a `Form` would ask more of callers, who pass on what they read.
    pub form: u8,
    pub count: u8,
}

// A block as recorded: dumped, its rows and the outer child's record; or owed, so many rows to fetch again by a contract.
#[derive(Clone, Copy)]
pub enum Stored<'a> {
    Dumped {
        count: usize,
        rows: &'a [u8],
        outer: &'a [u8],
    },
    Owed {
        count: usize,
        contract: &'a [u8],
    },
}

// A block's part of a record, and the bytes behind it.
#[derive(Clone, Copy)]
pub struct Part<'a> {
    pub stored: Stored<'a>,
    pub behind: &'a [u8],
}

// The length that the first two bytes name, with those; a missing byte counts as 0.
fn named_length(bytes: &[u8]) -> usize
    ensures { result ≡ 2 + of2 bytes.now }
{
    let hi = bytes.first().copied().unwrap_or(0);
    let lo = bytes.get(1).copied().unwrap_or(0);
    2 + usize::from(u16::from_be_bytes([hi, lo]))
}

// A record off the front of bytes, its two length bytes included, and the bytes behind it.
fn cut(bytes: &[u8]) -> Option<(&[u8], &[u8])>
    ensures { cut bytes.now ≡ cut_of result }
{
    bytes.split_at_checked(named_length(bytes))
}

// The rows and the outer record.
fn dumped_part<'a>(width: usize, count: usize, bytes: &'a [u8]) -> Option<Part<'a>>
    requires { (width ≤ 8) × (count ≤ 255) }
    ensures is { dumped_at width count bytes.now ≡ parts_of width result }
    ensures enough { AllEnough width result }
{
    let rest = bytes.get(count * (4 * width)..)?;
    let (outer, behind) = cut(rest)?;
    let stored = Stored::Dumped {
        count,
        rows: bytes,
        outer,
    };
    Some(Part { stored, behind })
}

// The contract.
fn owed_part<'a>(width: usize, count: usize, bytes: &'a [u8]) -> Option<Part<'a>>
    ensures is { owed_at count bytes.now ≡ parts_of width result }
    ensures enough { AllEnough width result }
{
    let (contract, behind) = cut(bytes)?;
    if contract.len() > CONTRACT_BYTES {
        return None;
    }
    let stored = Stored::Owed { count, contract };
    Some(Part { stored, behind })
}

fn part_at<'a>(width: usize, form: Form, count: usize, bytes: &'a [u8]) -> Option<Part<'a>>
    requires { (width ≤ 8) × (count ≤ 255) }
    ensures is { part_at width (form_number form) count bytes.now ≡ parts_of width result }
    ensures enough { AllEnough width result }
{
    match form {
        Form::Dumped => dumped_part(width, count, bytes),
        Form::Owed => owed_part(width, count, bytes),
    }
}

// Whether one record stands there, or nothing.
fn is_tail(tail: bool, behind: &[u8]) -> bool
    ensures { result ≡ tailed tail behind.now }
{
    if tail {
        behind.len() == named_length(behind)
    } else {
        behind.is_empty()
    }
}

// The block's part by its head, for rows of a width of at most 8, with a record behind it or nothing.
pub fn part_of<'a>(tail: bool, width: usize, head: Head, bytes: &'a [u8]) -> Option<Part<'a>>
    ensures is { parted tail (min 8 width) head.form head.count bytes.now ≡ parts_of (min 8 width) result }
    ensures enough { AllEnough (min 8 width) result }
{
    let form = Form::try_from(head.form).ok()?;
    let part = part_at(width.min(8), form, usize::from(head.count), bytes)?;
    is_tail(tail, part.behind).then_some(part)
}
