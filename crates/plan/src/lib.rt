// The plan of an operator tree as bytes: each operator's kind and parameters, parent before children.
#![tactic(auto)]

ghost use Rattle.std.specs.Prelude.{◌≡◌, List, ℕ, Decides, MatchOption};
ghost use Rattle.plan.specs.Plans.{kind_number, KindOf, kind_at, BeginsWith, Exactly, one_tree};

// An opened tree has at most so many operators, and so many of them keep rows of their own.
pub const MAX_OPERATORS: usize = 16;

pub const MAX_KEEPERS: usize = 6;

// The kinds of operators, by the byte that stands for each in a plan.
#[derive(Clone, Copy, PartialEq, Eq, Debug)]
pub enum Kind {
    Scan,
    Filter,
    BlockJoin,
}

// A number that no kind has.
#[derive(Clone, Copy, PartialEq, Eq, Debug)]
pub struct UnknownKind(pub u8);

impl TryFrom<u8> for Kind {
    type Error = UnknownKind;

    ghost try_from_gives = { KindOf };

    fn try_from(number: u8) -> Result<Kind, UnknownKind> {
        match number {
            1 => Ok(Kind::Scan),
            2 => Ok(Kind::Filter),
            3 => Ok(Kind::BlockJoin),
            _ => Err(UnknownKind(number)),
        }
    }
}

impl From<Kind> for u8 {
    ghost from_gives = { λ kind number. number ≡ kind_number kind };

    fn from(kind: Kind) -> u8 {
        match kind {
            Kind::Scan => 1,
            Kind::Filter => 2,
            Kind::BlockJoin => 3,
        }
    }
}

// What an operator of a kind has in a plan: its parameter bytes, at most 14, its children, and 1 for a keeper.
#[derive(Clone, Copy, PartialEq, Eq, Debug)]
struct Shape {
    parameters: usize,
    children: usize,
    keepers: usize,
}

// The table of kinds, in their order.
const SHAPES: [Shape; 3] = [
    // scan
    Shape {
        parameters: 3,
        children: 0,
        keepers: 0,
    },
    // filter
    Shape {
        parameters: 6,
        children: 1,
        keepers: 0,
    },
    // block join
    Shape {
        parameters: 8,
        children: 2,
        keepers: 1,
    },
];

impl Kind {
    // Its line of the table.
    fn shape(self) -> Shape
        ensures { result ≡ kind_at (kind_number self) }
    {
        // By its place among the kinds; no number is handed out.
        SHAPES[self as usize]
    }
}

// The shape of the operator that the bytes begin with, and the bytes behind its parameters.
fn first_operator(bytes: &[u8]) -> Option<(Shape, &[u8])>
    ensures { MatchOption result ((shape : Shape) → (behind : List ℕ) → ¬ (BeginsWith bytes.now shape behind)) (λ r. BeginsWith bytes.now r.0 r.1.now) }
{
    let (number, behind) = bytes.split_first()?;
    let kind = Kind::try_from(*number).ok()?;
    let shape = kind.shape();
    let behind = behind.get(shape.parameters..)?;
    Some((shape, behind))
}

// Whether the bytes are exactly one plan tree of at most 16 operators and 6 keepers.
pub fn is_one_tree(bytes: &[u8]) -> bool
    ensures { Decides result (Exactly 1 16 6 bytes.now) × (result ≡ one_tree bytes.now) }
{
    let mut rest = bytes;
    let mut open: usize = 1;
    let mut operators_left = MAX_OPERATORS;
    let mut keepers_left = MAX_KEEPERS;
    while open > 0 {
        let Some((shape, behind)) = first_operator(rest) else {
            return false;
        };
        if operators_left == 0 || shape.keepers > keepers_left {
            return false;
        }
        open = open - 1 + shape.children;
        operators_left -= 1;
        keepers_left -= shape.keepers;
        rest = behind;
    }
    rest.is_empty()
}
