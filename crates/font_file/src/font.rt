//! A font that is accepted. OpenType 1.9, Organization of an OpenType Font.
ghost use Rattle.std.specs.Prelude.{◌≡◌, ◌*◌, ◌<◌, ◌≤◌, None, Some, MatchResult, find, length};
ghost use Rattle.std.specs.List.{range_with_len};
ghost use Rattle.font_tables.specs.Fields.{glyph_count_of};
ghost use Rattle.font_tables.specs.Metrics.{metric_of};
ghost use Rattle.font_tables.specs.Outlines.{outline_of};
ghost use Rattle.font_glyph.specs.Record.{ComponentList, IsRecord};
ghost use Rattle.font_file.specs.Font.{cmap_of, font_fault, is_bad_glyph, is_record, map_of};

use crate::font_error::FontError;
use font_glyph::{Components, Outlines, check_record};
use font_map::Mapping;
use font_tables::Tables;
use sfnt_bytes::{CMAP, Directory};
use std::marker::Model;

// Returns whether a record has a list of components, all of them glyphs below the count.
fn has_record(outline: &[u8], glyphs: u16) -> bool
    ensures { result ≡ is_record glyphs outline.now }
{
    check_record(outline, glyphs).is_ok()
}

#[tactic(auto, unfolding(crate::specs::Font::is_bad_glyph))]
fn has_bad_glyph(tables: &Tables<'_>, g: u16) -> bool
    requires { g < glyph_count_of tables.now }
    ensures { result ≡ is_bad_glyph tables.now g }
{
    !has_record(tables.outline(g), tables.glyph_count())
}

// Returns the first glyph whose record is refused.
#[tactic(auto, using(crate::proofs::FontLemmas::find_step))]
fn first_bad_glyph(tables: &Tables<'_>) -> Option<u16>
    ensures { result ≡ find (is_bad_glyph tables.now) (range_with_len 0 (glyph_count_of tables.now)) }
{
    let count = tables.glyph_count();
    for g in 0..count {
        if has_bad_glyph(tables, g) {
            return Some(g);
        }
    }
    None
}

// Returns the bytes of `cmap`.
#[tactic(auto, unfolding(crate::specs::Font::cmap_of))]
fn cmap<'a>(directory: &Directory<'a>) -> &'a [u8]
    ensures { result.now ≡ cmap_of directory.now }
{
    directory.table(CMAP).unwrap_or(&[])
}

/// A font file in which nothing is refused: each glyph has a metric and a record, each record has its
/// components, and each code its glyph or none.
pub struct Font<'a> {
    tables: Tables<'a>,
    mapping: Mapping<'a>,
}

impl<'a> Model for Font<'a> {
    ghost use Rattle.std.specs.Prelude.{ℕ, List};
    ghost use Rattle.font_file.specs.Opened.{IsOpenedFont};

    ghost Value = { List ℕ };

    ghost view = { λ f. f.tables };

    ghost invariant = { λ f. IsOpenedFont f.tables f.mapping };
}

impl<'a> Drop for Font<'a> {
    fn drop(self) {
        let Font {
            tables: _tables,
            mapping: _mapping,
        } = self;
    }
}

impl<'a> Font<'a> {
    /// Opens the font of a file, which may be any bytes. It asks for no memory.
    ///
    /// # Errors
    ///
    /// The first [`FontError`] that applies: of the directory, of the tables that every font must have,
    /// of the mapping, and then of the glyph records.
    ///
    /// # Example
    ///
    /// From the test `lookups_of_base6` of `table_tests`:
    ///
    /// ```
    /// let font = Font::open(&BASE6)?;
    /// assert_eq!(rt; font.tables().units_per_em(), 1000);
    /// assert_eq!(rt; font.mapping().chosen(), (3, 1, 4));
    /// assert_eq!(rt; font.metric(3), (500, 0));
    /// assert_eq!(rt; font.outline(3), &BASE6[228..250]);
    /// ```
    #[tactic(auto, using(crate::proofs::FontLemmas::font_fault_is))]
    pub fn open(file: &'a [u8]) -> Result<Font<'a>, FontError>
        ensures { MatchResult result
            (λ font. (font ≡ file.now) × (font_fault file.now ≡ None))
            (λ error. font_fault file.now ≡ Some error) }
    {
        let tables = Tables::open(Directory::read(file)?)?;
        let mapping = Mapping::choose(cmap(tables.directory()), tables.glyph_count())?;
        if let Some(glyph) = first_bad_glyph(&tables) {
            return Err(FontError::BadGlyph(glyph));
        }
        Ok(Font { tables, mapping })
    }

    /// Opens the font of a file that [`Font::open`] has accepted before, or of another one of the same bytes. It asks
    /// for no memory, and tests neither the offsets of `loca` nor the records of glyphs, so that it takes the same time
    /// for a font of any size.
    ///
    /// The value is the one that `open` gives.
    #[tactic(auto, using(crate::proofs::FontLemmas::is_accepted))]
    pub fn open_checked(file: &'a [u8]) -> Font<'a>
        requires { font_fault file.now ≡ None }
        ensures { result ≡ file.now }
    {
        let Ok(directory) = Directory::read(file) else {
            unreachable!()
        };
        let tables = Tables::open_checked(directory);
        let Ok(mapping) = Mapping::choose(cmap(tables.directory()), tables.glyph_count()) else {
            unreachable!()
        };
        Font { tables, mapping }
    }

    /// Returns the tables of the font.
    pub fn tables(&self) -> &Tables<'a>
        ensures tables { result.now ≡ self.now }

        // Keeps the fact that `Font::open` proved.
        ensures sound { font_fault self.now ≡ None }
    {
        &self.tables
    }

    /// Returns the mapping of its `cmap` to its glyphs.
    pub fn mapping(&self) -> &Mapping<'a>
        ensures { result.now ≡ (cmap_of self.now, glyph_count_of self.now) }
    {
        &self.mapping
    }

    /// Returns the glyph of a code, 0 where it is not mapped.
    #[tactic(auto, using(crate::proofs::FontLemmas::has_glyph))]
    pub fn glyph(&self, code: u32) -> u16
        ensures glyph { result ≡ map_of self.now code }
        ensures small { result < glyph_count_of self.now }
    {
        self.mapping.glyph(code)
    }

    /// Returns the advance width and the left side bearing of a glyph, in font units.
    pub fn metric(&self, g: u16) -> (u16, i16)
        requires { g < glyph_count_of self.now }
        ensures { result ≡ metric_of self.now g }
    {
        self.tables.metric(g)
    }

    /// Returns the outline of a glyph, its bytes of `glyf`: none where it is empty.
    pub fn outline(&self, g: u16) -> &'a [u8]
        requires { g < glyph_count_of self.now }
        ensures outline { result.now ≡ outline_of self.now g }

        // Keeps what `Font::open` proved of the record.
        ensures record { IsRecord (glyph_count_of self.now) result.now }
    {
        self.tables.outline(g)
    }

    /// Returns the components of a glyph, in order: none of an empty or a simple one.
    pub fn components(&self, g: u16) -> Components<'a>
        requires { g < glyph_count_of self.now }
        ensures list { ComponentList (outline_of self.now g) result }
        ensures count { 6 * length result ≤ length (outline_of self.now g) }
    {
        Components::of(self.tables.outline(g))
    }
}

impl<'a> Outlines for Font<'a> {
    ghost use Rattle.font_tables.specs.Fields.{glyph_count_of};
    ghost use Rattle.font_tables.specs.Outlines.{outline_of};

    ghost count_of = { glyph_count_of };

    ghost record_at = { outline_of };

    fn count(&self) -> u16 {
        self.tables.glyph_count()
    }

    fn record_of(&self, g: u16) -> &[u8] {
        self.outline(g)
    }
}
