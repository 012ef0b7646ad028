// The plans with an answer of one word.
ghost use Rattle.std.specs.Prelude.{◌≡◌};
ghost use Rattle.planning.specs.Ratchet.{ratchet_refusal, ratchet_number};
ghost use Rattle.packed.specs.Surface.{packed};
ghost use Rattle.packed.specs.Plans.{RatchetPlanned};

use crate::answers::{code, refused_code};
use planning::least_ratchet;
use scheme::Refusal;

// `planning::least_ratchet`: what it answers in one word.
pub fn least_ratchet_packed(counts: &[u32], chunks: u32) -> u64
    ensures { RatchetPlanned counts.now chunks result }
{
    ratchet_code(least_ratchet(counts, chunks))
}

// The answer of a plan: the ratchet, 0 where none lasts, or the refusal. No `verdict_code`: a plan may have `None` beside its number.
fn ratchet_code(answer: Result<Option<u32>, Refusal>) -> u64
    ensures { result ≡ packed (ratchet_refusal answer) (ratchet_number answer) }
{
    match answer {
        Ok(ratchet) => code(0, ratchet.unwrap_or(0) as u64),
        Err(refusal) => refused_code(refusal, 0),
    }
}
