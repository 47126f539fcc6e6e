//! The forms in which a file is that of a content: as it is written now, or as it was written before. They
//! are this project's own.
ghost use Rattle.std.specs.Prelude.{◌≡◌, ◌≤◌, length};
ghost use Rattle.sfnt_bytes.specs.declared.directory.TheConstants.{MAX_FILE};
ghost use Rattle.font_theory.specs.Content.{Content};
ghost use Rattle.font_theory.specs.Kinds.{format_of, spelled_by};
ghost use Rattle.font_subset.specs.Inside.{IsFileIn};

use font_theory::Kind;
use font_write::{CURRENT, OLD, Source, counted_size, file_size, is_whole_file};

/// Whether a font's file is a cut, and as which program wrote it.
#[derive(Clone, Copy, Debug, PartialEq, Eq)]
pub enum CutForm {
    /// The file is no cut in any form.
    Not,
    /// The file is a cut in the first profile, which was written before. A join takes it, and what is
    /// written of it is current.
    Old,
    /// The file is a cut as it is written now.
    Current,
}

/// Returns in which form a file is that of a content of a kind, if in any. The content is counted once, and
/// its files differ in size, so the file is compared with one of them at most. It asks for no memory.
pub fn form_of_file<S: Source>(kind: Kind, source: &S, bytes: &[u8]) -> CutForm
    requires { length bytes.now ≤ MAX_FILE }
    ensures { (K : Content) → S.content_of source.now ≡ spelled_by kind K →
        IsFileIn (format_of kind) K bytes.now result }
{
    let size = file_size(source, CURRENT);
    if is_whole_file(source, CURRENT, size, bytes) {
        return CutForm::Current;
    }
    match kind {
        Kind::Full => {
            let old = counted_size(source, OLD, size.counts);
            if is_whole_file(source, OLD, old, bytes) {
                return CutForm::Old;
            }
            CutForm::Not
        }
        // They were first written in the current profile.
        Kind::Lean | Kind::Layout | Kind::Variable => CutForm::Not,
    }
}
