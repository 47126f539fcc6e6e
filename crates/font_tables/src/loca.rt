//! The offsets of glyphs. OpenType 1.9, `loca` and `glyf`.
ghost use Rattle.std.specs.Prelude.{◌≡◌, ◌+◌, ◌*◌, ◌<◌, ◌≤◌, find, length};
ghost use Rattle.std.specs.List.{range_with_len};
ghost use Rattle.font_tables.specs.Outlines.{HasOutline, falls, offset_at, offset_size, outline_in};
ghost use Rattle.font_tables.specs.Refusals.{is_bad_offset};

use sfnt_bytes::{be16, be32};

/// How `loca` holds its offsets.
#[derive(Clone, Copy, Debug, PartialEq, Eq)]
pub enum LocaForm {
    /// As `u16`, divided by 2.
    Short,
    /// As `u32`.
    Long,
}

impl LocaForm {
    /// Returns how many bytes an offset has.
    pub fn offset_size(self) -> usize
        ensures { result ≡ offset_size self }
    {
        match self {
            LocaForm::Short => 2,
            LocaForm::Long => 4,
        }
    }
}

/// Returns the offset `j`, in bytes from the start of `glyf`. The offsets of `gvar` have the same forms.
#[tactic(auto, unfolding(crate::specs::Outlines::offset_at))]
pub fn read_offset(form: LocaForm, loca: &[u8], j: usize) -> usize
    requires { offset_size form * (j + 1) ≤ length loca.now }
    ensures { result ≡ offset_at form loca.now j }
{
    match form {
        LocaForm::Short => 2 * be16(loca, 2 * j) as usize,
        LocaForm::Long => be32(loca, 4 * j) as usize,
    }
}

/// Returns the outline of a glyph: the bytes of `glyf` between its offset and the next one.
pub fn outline_within<'a>(form: LocaForm, loca: &[u8], glyf: &'a [u8], g: usize) -> &'a [u8]
    requires { HasOutline form loca.now glyf.now g }
    ensures { result.now ≡ outline_in form loca.now glyf.now g }
{
    let start = read_offset(form, loca, g);
    let end = read_offset(form, loca, g + 1);
    &glyf[start..end]
}

#[tactic(auto, unfolding(crate::specs::Refusals::is_bad_offset))]
fn has_bad_offset(form: LocaForm, loca: &[u8], glyf_length: usize, j: u32) -> bool
    ensures { result ≡ is_bad_offset form loca.now glyf_length j }
{
    let j = j as usize;
    if loca.len() < form.offset_size() * (j + 1) {
        return true;
    }
    let offset = read_offset(form, loca, j);
    glyf_length < offset || (j > 0 && offset < read_offset(form, loca, j - 1))
}

// Returns whether a short offset up to the last one is below the one before it. The loop does not end
// early and knows its form, so that the compiler can read many offsets at once.
#[tactic(auto, using(crate::proofs::OffsetLemmas::offset_is_whole, crate::proofs::OffsetLemmas::falls_none, crate::proofs::OffsetLemmas::falls_more))]
fn short_offset_falls(loca: &[u8], last: usize) -> bool
    requires { offset_size LocaForm.Short * (last + 1) ≤ length loca.now }
    ensures { result ≡ falls LocaForm.Short loca.now last }
{
    let mut found = false;
    for j in 0..last {
        found |= read_offset(LocaForm::Short, loca, j + 1) < read_offset(LocaForm::Short, loca, j);
    }
    found
}

// Returns whether a long offset up to the last one is below the one before it.
#[tactic(auto, using(crate::proofs::OffsetLemmas::offset_is_whole, crate::proofs::OffsetLemmas::falls_none, crate::proofs::OffsetLemmas::falls_more))]
fn long_offset_falls(loca: &[u8], last: usize) -> bool
    requires { offset_size LocaForm.Long * (last + 1) ≤ length loca.now }
    ensures { result ≡ falls LocaForm.Long loca.now last }
{
    let mut found = false;
    for j in 0..last {
        found |= read_offset(LocaForm::Long, loca, j + 1) < read_offset(LocaForm::Long, loca, j);
    }
    found
}

/// Returns whether one of the offsets up to the last is below the one before it. It reads each offset, whatever it has
/// found before.
pub fn has_fall(form: LocaForm, loca: &[u8], last: usize) -> bool
    requires { offset_size form * (last + 1) ≤ length loca.now }
    ensures { result ≡ falls form loca.now last }
{
    match form {
        LocaForm::Short => short_offset_falls(loca, last),
        LocaForm::Long => long_offset_falls(loca, last),
    }
}

/// Returns the least index of a bad offset. Where there is none, `loca` is read once.
#[tactic(auto, using(crate::proofs::OffsetLemmas::none_is_bad))]
pub(crate) fn first_bad_offset(
    form: LocaForm,
    loca: &[u8],
    glyf_length: usize,
    glyphs: u16,
) -> Option<u32>
    ensures { result ≡ find (is_bad_offset form loca.now glyf_length) (range_with_len 0 (glyphs + 1)) }
{
    let last = glyphs as usize;
    let is_whole = loca.len() >= form.offset_size() * (last + 1);
    if is_whole && read_offset(form, loca, last) <= glyf_length && !has_fall(form, loca, last) {
        return None;
    }
    (0..u32::from(glyphs) + 1).find(|j| has_bad_offset(form, loca, glyf_length, *j))
}
