//! The join of a list of files, of a kind, written to the caller's room.
ghost use Rattle.std.specs.Prelude.{◌≡◌, IfErr, MatchResult, length, map};
ghost use Rattle.font_theory.specs.File.{current_writing, file};
ghost use Rattle.font_theory.specs.Kinds.{format_of};
ghost use Rattle.fontcut_c.specs.Inside.{IsFileInRoom, IsSmallFile, RefusesJoined};
ghost use Rattle.fontcut_c.specs.Joining.{IsJoinInRoom, RefusesJoin};
ghost use Rattle.fontcut_c.specs.Text.{NamesFile};

use crate::caller_room::write_sized;
use crate::refusal::Refusal;
use font_join::{open_first_file, union_of_files};
use font_theory::Kind;
use font_write::{CURRENT, Source, file_size};
use std::alloc::Global;

// Writes the file of a union to the front of room, and returns its length.
fn write_union<S: Source>(union: &S, out: &mut [u8]) -> Result<u64, Refusal>
    requires { IsSmallFile (file current_writing (S.content_of union.now)) }
    ensures exact { let z = file current_writing (S.content_of union.now) in
        MatchResult result (IsFileInRoom z out.old out.new)
        (λ refusal. (out.new ≡ out.old) × RefusesJoined z (length out.old) refusal) }
    ensures named { IfErr result NamesFile }
{
    let size = file_size(union, CURRENT);
    write_sized(union, size, out).map_err(Refusal::SmallRoom)
}

/// Writes the join of all files, of a kind, to the front of room, and returns its length.
#[tactic(auto, using(crate::proofs::StepLemmas::names_file))]
pub(crate) fn join_to(
    alloc: Global,
    kind: Kind,
    files: &[&[u8]],
    out: &mut [u8],
) -> Result<u64, Refusal>
    ensures exact { let bytes = map (λ f. f.now) files.now in
        MatchResult result (IsJoinInRoom (format_of kind) bytes out.old out.new)
        (λ refusal. (out.new ≡ out.old)
        × RefusesJoin (format_of kind) bytes (length out.old) refusal) }
    ensures named { IfErr result NamesFile }
{
    let first = open_first_file(files)?;
    let union = union_of_files(alloc, kind, &first, files)?;
    write_union(&union, out)
}
