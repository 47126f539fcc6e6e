//! What a cut lacks or drops of what is wanted of a font.
ghost use Rattle.std.specs.Prelude.{◌≡◌, MatchResult, None, true};
ghost use Rattle.font_file.specs.Font.{font_fault};
ghost use Rattle.fontcut_c.specs.Lost.{IsCounted, RefusesLost};
ghost use Rattle.fontcut_c.specs.Requests.{asked_by, has_checked};

use crate::cutting::opened_for_request;
use crate::refusal::Refusal;
use crate::requests::Request;
use crate::wanted_ranges::wanted_of;
use font_coverage::{Losses, count_losses};
use font_theory::Kind;
use std::alloc::Global;

/// Writes what a cut of a kind lacks or drops of what is wanted of a font to `out`, and returns 0.
pub(crate) fn lost_to(
    alloc: Global,
    kind: Kind,
    file: &[u8],
    request: &Request<'_>,
    out: &mut Losses,
) -> Result<u64, Refusal>
    requires { has_checked (asked_by request.now).flags ≡ true → font_fault file.now ≡ None }
    ensures { MatchResult result (IsCounted file.now (asked_by request.now))
        (λ refusal. (out.new ≡ out.old) × RefusesLost file.now (asked_by request.now) refusal) }
{
    let font = opened_for_request(file, request)?;
    let codes = wanted_of(alloc, request.wanted_ranges())?;
    *out = count_losses(alloc, &font, kind, &codes)?;
    Ok(0)
}
