//! Which of two tables what is written says of a glyph. This project's own.

/// Which of two tables what is written says of a glyph.
#[derive(Clone, Copy, Debug, PartialEq, Eq)]
pub enum Side {
    /// What the first says.
    First,
    /// What the second says.
    Second,
    /// Nothing.
    Neither,
}

/// A choice between two tables, by glyph.
pub trait Sides {
    ghost use Rattle.std.specs.Prelude.{◌≡◌, ℕ};
    ghost use Rattle.colour_writers.specs.declared.sides.Side.{Side as AnySide};

    /// The side of each glyph.
    ghost side: { Self → ℕ → AnySide };

    /// Returns the side of a glyph.
    fn side(&self, g: u16) -> Side
        ensures { result ≡ side self.now g };
}
