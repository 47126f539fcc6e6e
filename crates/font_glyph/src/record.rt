//! Glyph records. OpenType 1.9, `glyf`, Glyph Headers.
ghost use Rattle.std.specs.Prelude.{◌≡◌, ◌↔◌, IsOk, OnOk, Some};
ghost use Rattle.font_glyph.specs.Record.{HasList, IsChain, IsRecord};
ghost use Rattle.font_glyph.specs.Text.{fault_number, fault_text};

use crate::component::{HEADER, NEGATIVE, split_component};
use sfnt_bytes::numbers;
use std::error::Error;
use std::fmt;

/// A record is cut off, or one of its components is not a glyph.
#[derive(Clone, Copy, Debug, PartialEq, Eq)]
pub struct GlyphFault;

impl fmt::Display for GlyphFault {
    ghost output = { λ _. Some fault_text };

    fn fmt<W: fmt::Write>(&self, f: &mut fmt::Formatter<W>) -> fmt::Result {
        f.write_str("bad glyph")
    }
}

impl Error for GlyphFault {}

impl GlyphFault {
    /// Returns the number of the refusal, 17.
    pub fn number(&self) -> u8
        ensures { result ≡ fault_number }
    {
        numbers::BAD_GLYPH
    }
}

// Checks the components that the bytes begin with.
fn check_chain(b: &[u8], glyphs: u16) -> Result<(), GlyphFault>
    ensures { IsOk result ↔ IsChain glyphs b.now }
{
    let mut rest = b;
    while let Some((component, others)) = split_component(rest) {
        if component.glyph >= glyphs {
            return Err(GlyphFault);
        }
        if !component.has_more() {
            return Ok(());
        }
        rest = others;
    }
    Err(GlyphFault)
}

/// Checks that a record is empty, of a simple glyph, or of a composite whose components are all there,
/// and that each component is a glyph below `glyphs`. What follows the last component is not read.
///
/// # Errors
///
/// [`GlyphFault`] where that is not so.
#[tactic(auto, unfolding(crate::specs::Record::HasList, crate::specs::Record::IsRecord))]
pub fn check_record(b: &[u8], glyphs: u16) -> Result<(), GlyphFault>
    ensures exact { IsOk result ↔ IsRecord glyphs b.now }

    // What `Components::of` asks for.
    ensures list { OnOk result (HasList b.now) }
{
    if b.is_empty() {
        return Ok(());
    }
    if b.len() < HEADER {
        return Err(GlyphFault);
    }
    if b[0] < NEGATIVE {
        return Ok(());
    }
    check_chain(&b[HEADER..], glyphs)
}
