//! What is refused of a `gvar`, and what it has. OpenType 1.9, gvar: Glyph Variations Table.
ghost use Rattle.std.specs.Prelude.{◌≡◌, drop, ◌+◌, ◌*◌, ◌<◌, ◌≤◌, ◌↔◌, nat_lt, ◌||◌, IfSome, IsSome, Some, false, length};
ghost use Rattle.std.specs.Option.{option_copied};
ghost use Rattle.font_variations.specs.Gvar.{IsAccepted, data_array_offset, data_of, end_of_offsets, front_of, has_bad_tuples, has_falling_offset, is_bad_variations, leads_past_end, offset_form, shared_tuples_length, shared_tuples_of, shared_tuples_offset};
ghost use Rattle.font_variations.specs.Inside.{HasSharedTuples, has_bad_header};

use font_tables::{LocaForm, has_fall, outline_within, read_offset};
use sfnt_bytes::{be16, be32};
use std::marker::Model;

/// How many bytes the header has, and where the offsets begin.
pub(crate) const HEADER: usize = 20;

/// How many bytes of `fvar` are there, or more: up to `axisCount`, and that.
const FVAR: usize = 10;

/// The version 1.0, as one number.
const VERSION: u32 = 0x0001_0000;

// Returns whether the header is refused. A missing `fvar` is empty.
#[tactic(auto, unfolding(crate::specs::Inside::has_bad_header, crate::specs::Gvar::gvar_version, crate::specs::Gvar::axis_count, crate::specs::Gvar::fvar_axis_count, crate::specs::Gvar::gvar_glyph_count, crate::specs::Gvar::flags))]
fn has_bad_header(gvar: &[u8], fvar: &[u8], glyphs: u16) -> bool
    ensures { result ≡ has_bad_header gvar.now (Some fvar.now) glyphs }
{
    gvar.len() < HEADER
        || be32(gvar, 0) != VERSION
        || fvar.len() < FVAR
        || be16(gvar, 4) != be16(fvar, 8)
        || be16(gvar, 12) != glyphs
        || be16(gvar, 14) > 1
}

// Returns the form of the offsets.
#[tactic(auto, unfolding(crate::specs::Gvar::flags))]
fn read_form(gvar: &[u8]) -> LocaForm
    requires { 20 ≤ length gvar.now }
    ensures { result ≡ offset_form gvar.now }
{
    if be16(gvar, 14) == 0 {
        LocaForm::Short
    } else {
        LocaForm::Long
    }
}

// Returns how many bytes the shared tuples have.
#[tactic(auto, unfolding(crate::specs::Gvar::axis_count, crate::specs::Gvar::shared_tuple_count))]
fn read_shared_length(gvar: &[u8]) -> usize
    requires { 20 ≤ length gvar.now }
    ensures { result ≡ shared_tuples_length gvar.now }
{
    2 * be16(gvar, 4) as usize * be16(gvar, 6) as usize
}

// Returns where the shared tuples begin.
#[tactic(auto, unfolding(crate::specs::Gvar::shared_tuples_offset))]
fn read_shared_offset(gvar: &[u8]) -> usize
    requires { 20 ≤ length gvar.now }
    ensures { result ≡ shared_tuples_offset gvar.now }
{
    be32(gvar, 8) as usize
}

// Returns where the data of glyphs begin.
#[tactic(auto, unfolding(crate::specs::Gvar::data_array_offset))]
fn read_data_array_offset(gvar: &[u8]) -> usize
    requires { 20 ≤ length gvar.now }
    ensures { result ≡ data_array_offset gvar.now }
{
    be32(gvar, 16) as usize
}

// Returns all bytes from a place on.
fn rest_from(gvar: &[u8], at: usize) -> &[u8]
    requires { at ≤ length gvar.now }
    ensures { result.now ≡ drop at gvar.now }
{
    &gvar[at..]
}

// Returns whether so many bytes from a place on end past so many.
fn ends_past(all: usize, at: usize, bytes: usize) -> bool
    ensures { result ≡ nat_lt all (at + bytes) }
{
    all < at || all - at < bytes
}

// Returns whether the shared tuples are refused.
#[tactic(auto, unfolding(crate::specs::Gvar::has_bad_tuples, crate::specs::Gvar::shared_tuple_count))]
fn has_bad_tuples(gvar: &[u8], end_of_offsets: usize) -> bool
    requires header { 20 ≤ length gvar.now }
    ensures { result ≡ has_bad_tuples gvar.now end_of_offsets }
{
    if be16(gvar, 6) == 0 {
        return false;
    }
    let at = read_shared_offset(gvar);
    at < end_of_offsets || ends_past(gvar.len(), at, read_shared_length(gvar))
}

// Returns the first 8 bytes.
#[tactic(auto, unfolding(crate::specs::Gvar::front_of))]
fn front_within(gvar: &[u8]) -> &[u8]
    requires { 20 ≤ length gvar.now }
    ensures front { result.now ≡ front_of gvar.now }
    ensures size { length result.now ≡ 8 }
{
    &gvar[..8]
}

// Returns the shared tuples.
#[tactic(auto, unfolding(crate::specs::Gvar::shared_tuples_of))]
fn shared_tuples_within<'a>(gvar: &'a [u8]) -> &'a [u8]
    requires header { 20 ≤ length gvar.now }
    requires whole { HasSharedTuples gvar.now }
    ensures { result.now ≡ shared_tuples_of gvar.now }
{
    let bytes = read_shared_length(gvar);
    if bytes == 0 {
        return &[];
    }
    let at = read_shared_offset(gvar);
    &gvar[at..at + bytes]
}

// Returns whether an offset falls, or the last one leads past the end of the table.
#[tactic(auto, using(crate::proofs::FallLemmas::falls_is_any))]
fn has_bad_offsets(gvar: &[u8], form: LocaForm, glyphs: u16) -> bool
    requires header { 20 ≤ length gvar.now }
    requires form { form ≡ offset_form gvar.now }
    requires whole { end_of_offsets gvar.now glyphs ≤ length gvar.now }
    ensures { result ≡ (has_falling_offset gvar.now glyphs || leads_past_end gvar.now glyphs) }
{
    let offsets = rest_from(gvar, HEADER);
    let last = glyphs as usize;
    has_fall(form, offsets, last)
        || ends_past(
            gvar.len(),
            read_data_array_offset(gvar),
            read_offset(form, offsets, last),
        )
}

// Returns whether the table is refused. A missing `fvar` is empty.
#[tactic(auto, unfolding(crate::specs::Gvar::is_bad_variations, crate::specs::Inside::has_bad_header))]
fn is_bad_table(gvar: &[u8], fvar: &[u8], glyphs: u16) -> bool
    ensures { result ≡ is_bad_variations gvar.now (Some fvar.now) glyphs }
{
    if has_bad_header(gvar, fvar, glyphs) {
        return true;
    }
    let form = read_form(gvar);
    let end = HEADER + form.offset_size() * (glyphs as usize + 1);
    gvar.len() < end || has_bad_tuples(gvar, end) || has_bad_offsets(gvar, form, glyphs)
}

/// A `gvar` that is accepted: the variation data of each glyph.
///
/// Nothing is read of the data themselves, nor of the shared tuples. The first offset may be another one than 0, and
/// data may stand over the offsets or the shared tuples.
#[derive(Drop)]
pub struct Variations<'a> {
    gvar: &'a [u8],
    // What begins with the offsets, and what begins with the data.
    offsets: &'a [u8],
    array: &'a [u8],
    shared: &'a [u8],
    form: LocaForm,
    glyphs: u16,
}

// Its value is the bytes of the table, and the number of glyphs.
impl<'a> Model for Variations<'a> {
    ghost use Rattle.std.specs.Prelude.{ℕ, List};
    ghost use Rattle.font_variations.specs.Inside.{IsOpenedGvar};

    ghost Value = { List ℕ × ℕ };

    ghost view = { λ v. (v.gvar.now, v.glyphs) };

    ghost invariant = { λ v. IsOpenedGvar v.gvar.now v.offsets.now v.array.now v.shared.now v.form v.glyphs };
}

impl<'a> Variations<'a> {
    /// Opens a `gvar`, of which `axisCount` is compared with that of `fvar`, and `glyphCount` with a number of glyphs.
    /// Returns none where the table is refused: it is cut off, of an unknown version or flags, for other axes or another
    /// number of glyphs, or its offsets do not lead in order to what lies within it. It asks for no memory, and passes
    /// once over the offsets.
    #[tactic(auto, unfolding(crate::specs::Gvar::is_bad_variations), using(crate::proofs::GvarLemmas::has_header, crate::proofs::GvarLemmas::has_array))]
    pub fn open(gvar: &'a [u8], fvar: Option<&'a [u8]>, glyphs: u16) -> Option<Variations<'a>>
        ensures exact { IsSome result ↔ is_bad_variations gvar.now (option_copied fvar.entry) glyphs ≡ false }
        ensures value { IfSome result (λ variations. variations ≡ (gvar.now, glyphs)) }
    {
        if is_bad_table(gvar, fvar.unwrap_or(&[]), glyphs) {
            return None;
        }
        Some(Variations {
            gvar,
            offsets: rest_from(gvar, HEADER),
            array: rest_from(gvar, read_data_array_offset(gvar)),
            shared: shared_tuples_within(gvar),
            form: read_form(gvar),
            glyphs,
        })
    }

    /// Returns the number of glyphs, which is `glyphCount`.
    pub fn glyph_count(&self) -> u16
        ensures count { result ≡ self.now.1 }

        // Keeps the fact that `open` proved.
        ensures sound { IsAccepted self.now.0 self.now.1 }
    {
        self.glyphs
    }

    /// Returns the first 8 bytes of the table: its version, `axisCount` and `sharedTupleCount`.
    pub fn front(&self) -> &'a [u8]
        ensures front { result.now ≡ front_of self.now.0 }
        ensures size { length result.now ≡ 8 }
        ensures sound { IsAccepted self.now.0 self.now.1 }
    {
        front_within(self.gvar)
    }

    /// Returns the shared tuples: nothing where `sharedTupleCount` is 0.
    pub fn shared_tuples(&self) -> &'a [u8]
        ensures tuples { result.now ≡ shared_tuples_of self.now.0 }
        ensures sound { IsAccepted self.now.0 self.now.1 }
    {
        self.shared
    }

    /// Returns the GlyphVariationData of a glyph, as it stands: nothing where it does not vary.
    #[tactic(auto, unfolding(crate::specs::Gvar::data_of))]
    pub fn data(&self, g: u16) -> &'a [u8]
        requires { g < self.now.1 }
        ensures data { result.now ≡ data_of self.now.0 g }
        ensures sound { IsAccepted self.now.0 self.now.1 }
    {
        outline_within(self.form, self.offsets, self.array, g as usize)
    }
}
