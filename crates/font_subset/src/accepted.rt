//! What a font that was accepted gives to its cuts. OpenType 1.9, head; glyf; loca.
ghost use Rattle.std.specs.Prelude.{◌≡◌, ◌<◌, ◌≤◌, [], length, None, option_copied, unwrap_or, MatchOption};
ghost use Rattle.sfnt_bytes.specs.Directory.{kept_tag, table_of};
ghost use Rattle.sfnt_bytes.specs.declared.directory.TheConstants.{MAX_FILE};
ghost use Rattle.sfnt_bytes.specs.declared.tag.TheConstants.{HEAD};
ghost use Rattle.font_tables.specs.Fields.{glyph_count_of};
ghost use Rattle.font_tables.specs.Outlines.{outline_of};
ghost use Rattle.font_tables.specs.Tables.{head_of};
ghost use Rattle.font_file.specs.Font.{font_fault};
ghost use Rattle.font_theory.specs.Content.{plain_font};

use font_file::Font;
use font_write::made_in;
use sfnt_bytes::{Directory, HEAD, SLOTS};

/// Recalls for the prover that this font was accepted. Does nothing at run time.
pub fn recall_accepted(font: &Font<'_>)
    ensures { font_fault font.now ≡ None }
{
    let _tables = font.tables();
}

// Returns the bytes of `head`.
fn table_head<'a>(directory: &Directory<'a>) -> &'a [u8]
    ensures { result.now ≡ unwrap_or (table_of directory.now (kept_tag HEAD)) [] }
{
    directory.table(HEAD).unwrap_or(&[])
}

/// Returns `head` of an accepted font.
#[tactic(auto, using(crate::proofs::SourceLemmas::head_is, crate::proofs::SourceLemmas::head_long, crate::proofs::SourceLemmas::head_small))]
pub fn head<'a>(font: &Font<'a>) -> &'a [u8]
    ensures head { result.now ≡ head_of font.now }
    ensures long { 54 ≤ length result.now }
    ensures small { length result.now ≤ MAX_FILE }
{
    table_head(font.tables().directory())
}

/// Returns the table of a slot, where a cut copies it.
#[tactic(auto, using(crate::proofs::SourceLemmas::table_small, font_write::proofs::SlotLemmas::made_or_past))]
pub fn copied<'a>(font: &Font<'a>, slot: usize) -> Option<&'a [u8]>
    ensures table { option_copied result ≡ (plain_font font.now).copied slot }
    ensures small { MatchOption result Unit (λ b. length b.now ≤ MAX_FILE) }
{
    if made_in(slot).is_some() || SLOTS <= slot {
        return None;
    }
    font.tables().directory().table(slot)
}

/// Returns an outline of an accepted font.
#[tactic(auto, using(crate::proofs::SourceLemmas::outline_small))]
pub fn outline<'a>(font: &Font<'a>, g: u16) -> &'a [u8]
    requires { g < glyph_count_of font.now }
    ensures outline { result.now ≡ outline_of font.now g }
    ensures small { length result.now ≤ MAX_FILE }
{
    recall_accepted(font);
    font.outline(g)
}
