//! Rows of a list in order of their glyphs, and the search for one. OpenType 1.9, COLR, BaseGlyph records;
//! BaseGlyphPaintRecord; Clip.
ghost use Rattle.std.specs.Prelude.{◌≡◌, ◌<◌, ◌^◌, MatchOption, false};
ghost use Rattle.codes.specs.Order.{Ascends};
ghost use Rattle.colour_readers.specs.RowsOf.{IsReached, IsRowOf, LiesPast, place_of, row_first, row_last};

use crate::fields::u16_at;
use codes::{ANYWHERE, Ends, first_reaching};

/// Rows of so many bytes, each with a first and a last glyph.
#[derive(Clone, Copy)]
pub(crate) struct Rows<'t> {
    pub(crate) bytes: &'t [u8],
    /// The offset of the list.
    pub(crate) list: u32,
    /// How many bytes of the list stand before the first row.
    pub(crate) before: u8,
    /// How many bytes a row has.
    pub(crate) size: u8,
    /// How many bytes after the first glyph of a row its last glyph stands.
    pub(crate) last: u8,
    /// How many rows there are.
    pub(crate) count: u32,
}

impl<'t> Rows<'t> {
    // Returns the place of a row.
    fn place(&self, i: usize) -> usize
        requires { i < self.now.count }
        ensures value { result ≡ place_of self.now i }
        ensures small { result < 2 ^ 48 }
    {
        self.list as usize + usize::from(self.before) + usize::from(self.size) * i
    }

    /// Returns the first glyph of a row.
    fn first_at(&self, i: usize) -> u32
        requires { i < self.now.count }
        ensures { result ≡ row_first self.now i }
    {
        u32::from(u16_at(self.bytes, self.place(i)))
    }
}

impl<'t> Ends for Rows<'t> {
    ghost use Rattle.colour_readers.specs.RowsOf.{row_last};

    ghost count_of = { λ r. r.count };

    ghost end_of = { row_last };

    fn count(&self) -> usize {
        self.count as usize
    }

    fn end_at(&self, i: usize) -> u32 {
        u32::from(u16_at(self.bytes, self.place(i) + usize::from(self.last)))
    }
}

/// Returns whether a glyph is one of a row.
pub(crate) fn has_row(rows: &Rows<'_>, g: u16) -> bool
    requires { Ascends (row_last rows.now) rows.now.count }
    ensures { IsReached rows.now g result }
{
    let i = first_reaching(rows, ANYWHERE, u32::from(g));
    i < rows.count() && rows.first_at(i) <= u32::from(g)
}

/// Returns the row that a glyph is one of.
pub(crate) fn row_of(rows: &Rows<'_>, g: u16) -> Option<u32>
    requires { Ascends (row_last rows.now) rows.now.count }
    ensures { MatchOption result (IsReached rows.now g false) (λ i. IsRowOf rows.now g i) }
{
    let i = first_reaching(rows, ANYWHERE, u32::from(g));
    if rows.count as usize <= i || u32::from(g) < rows.first_at(i) {
        return None;
    }
    Some(i as u32)
}

/// Returns whether no glyph from one on and below another is one of a row.
pub(crate) fn has_no_row(rows: &Rows<'_>, from: u16, to: u16) -> bool
    requires { Ascends (row_last rows.now) rows.now.count }
    ensures { LiesPast rows.now from to result }
{
    let i = first_reaching(rows, ANYWHERE, u32::from(from));
    rows.count() <= i || u32::from(to) <= rows.first_at(i)
}
