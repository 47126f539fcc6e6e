//! Glyph records by number.
ghost use Rattle.std.specs.Prelude.{◌≡◌, ◌<◌, ℕ, List};
ghost use Rattle.font_glyph.specs.Record.{IsRecord};

/// The records of the glyphs of a font, each with components that are among these glyphs.
pub trait Outlines {
    /// How many glyphs there are.
    ghost count_of: { Self → ℕ };

    /// The record of each glyph.
    ghost record_at: { Self → ℕ → List ℕ };

    /// Returns how many glyphs there are.
    fn count(&self) -> u16
        ensures { result ≡ count_of self.now };

    /// Returns the record of a glyph: it has a list of components, all of them glyphs below the count.
    fn record_of(&self, g: u16) -> &[u8]
        requires { g < count_of self.now }
        ensures record { result.now ≡ record_at self.now g }
        ensures law { IsRecord (count_of self.now) result.now };
}
