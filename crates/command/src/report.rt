// How a refusal is reported.
ghost use Rattle.std.specs.Prelude.{◌≡◌, IfOk, string_bytes};
ghost use Rattle.command.specs.Reports.{report};

use refusal::Refusal;
use std::alloc::{AllocError, Global};

// Its number and word, and the operator that it names.
pub fn refusal_text(heap: Global, refusal: Refusal) -> Result<String, AllocError>
    ensures { IfOk result (λ s. string_bytes s ≡ report refusal) }
{
    format!(in heap; "refused: {refusal}")
}
