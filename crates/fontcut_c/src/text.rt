//! The texts of refusals, by what was answered.
ghost use Rattle.std.specs.Prelude.{◌≡◌, ◌<◌, MatchResult, length};
ghost use Rattle.fontcut_c.specs.Answers.{IsInRoom};
ghost use Rattle.fontcut_c.specs.Text.{IsTextRefusal, refusal_text};

use crate::answer::Answer;
use crate::errors::error_of;
use crate::refusal::Refusal;
use std::alloc::Global;

// Writes bytes to the front of room, and returns how many.
fn put_front(bytes: &[u8], out: &mut [u8]) -> Result<u64, u64>
    ensures { MatchResult result (IsInRoom bytes.now out.old out.new)
        (λ size. (out.new ≡ out.old) × (size ≡ length bytes.now) × (length out.old < size)) }
{
    if out.len() < bytes.len() {
        return Err(bytes.len() as u64);
    }
    out[..bytes.len()].copy_from_slice(bytes);
    Ok(bytes.len() as u64)
}

/// Writes the text of a refusal to the front of room, and returns its length. There is none where an answer says no
/// error.
#[tactic(auto, unfolding(crate::specs::Text::refusal_text))]
pub(crate) fn text_to(alloc: Global, answer: Answer, out: &mut [u8]) -> Result<u64, Refusal>
    ensures { MatchResult result (IsInRoom (refusal_text answer) out.old out.new)
        (λ refusal. (out.new ≡ out.old) × IsTextRefusal answer (length out.old) refusal) }
{
    let Some(error) = error_of(answer) else {
        return Ok(0);
    };
    let text = error.to_string(alloc).map_err(|_| Refusal::NoMemory)?;
    put_front(text.as_bytes(), out).map_err(Refusal::SmallRoom)
}
