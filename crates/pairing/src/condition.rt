// When an outer and an inner cell match.
ghost use Rattle.std.specs.Prelude.{◌≡◌, Decides};
ghost use Rattle.pairing.specs.Condition.{Joins, known, within};
ghost use Rattle.pairing.specs.Condition as Condition;

// The outer against the inner cell; by an unknown condition nothing matches.
#[tactic(auto, using(crate::proofs::Conditions::also, std::proofs::lemmas::Int::ints, codec::proofs::Cells::eqb_of_z), unfolding(crate::specs::Condition::joins))]
pub fn joins(condition: char, band: i32, outer: i32, inner: i32) -> bool
    ensures { (result ≡ Condition.joins condition band outer inner) × Decides result (Joins condition band outer inner) }
{
    match condition {
        '=' => outer == inner,
        '<' => outer < inner,
        '~' => is_near(band, outer, inner),
        _ => false,
    }
}

// Whether the exact difference is at most the band either way.
#[tactic(auto, using(crate::proofs::Conditions::same_within, std::proofs::lemmas::Int::ints))]
fn is_near(band: i32, outer: i32, inner: i32) -> bool
    ensures { result ≡ within band outer inner }
{
    i64::from(outer.abs_diff(inner)) <= i64::from(band)
}

// Whether there is such a condition; its characters stand here, as a rule of the project has it.
#[tactic(auto, unfolding(crate::specs::Condition::known))]
pub fn is_join_condition(condition: char) -> bool
    ensures { result ≡ known condition }
{
    matches!(condition, '=' | '<' | '~')
}
