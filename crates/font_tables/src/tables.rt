//! The tables that every font must have. OpenType 1.9, Organization of an OpenType Font, Required
//! Tables, and the chapters of these tables.
ghost use Rattle.std.specs.Prelude.{◌≡◌, ℕ, ◌<◌, ◌≤◌, None, Some, MatchResult, find, length, map, slice_index};
ghost use Rattle.sfnt_bytes.specs.Directory.{kept_tag};
ghost use Rattle.sfnt_bytes.specs.Refusals.{directory_fault};
ghost use Rattle.sfnt_bytes.specs.declared.tag.TheConstants.{SLOTS};
ghost use Rattle.font_tables.specs.Fields.{glyph_count_of, loca_form_of, metric_count_of, units_per_em_of};
ghost use Rattle.font_tables.specs.Metrics.{metric_of};
ghost use Rattle.font_tables.specs.Outlines.{outline_of};
ghost use Rattle.font_tables.specs.Refusals.{is_missing, table_fault};
ghost use Rattle.font_tables.specs.Tables.{required_tags, table_or_empty};

use crate::head::{has_bad_head, read_loca_form, read_units_per_em};
use crate::hhea::{has_bad_hhea, read_number_of_h_metrics};
use crate::hmtx::{has_bad_hmtx, read_metric};
use crate::loca::{LocaForm, first_bad_offset, outline_within};
use crate::maxp::{has_bad_maxp, read_num_glyphs};
use sfnt_bytes::{CMAP, Directory, GLYF, HEAD, HHEA, HMTX, KEPT, LOCA, MAXP, Tag};
use std::marker::Model;

/// Why the tables of a font cannot be used: the first that applies, in this order.
#[derive(Clone, Copy, Debug, PartialEq, Eq)]
pub enum TableError {
    /// There is no table of this tag: the least of `cmap`, `glyf`, `head`, `hhea`, `hmtx`, `loca`
    /// and `maxp` that is missing.
    MissingTable(Tag),
    /// `head` has fewer than 54 bytes, another `magicNumber`, or an `indexToLocFormat` that is not
    /// 0 or 1.
    BadHead,
    /// `maxp` has fewer than 32 bytes, a version that is not 1.0, or no glyph.
    BadMaxp,
    /// `hhea` has fewer than 36 bytes, or its `numberOfHMetrics` is 0 or above the number of
    /// glyphs.
    BadHhea,
    /// `hmtx` has no room for a metric of each glyph.
    BadHmtx,
    /// The offset of this index, the least such one, does not lie within `loca`, is above the length of
    /// `glyf`, or is below the offset before it.
    BadLoca(u32),
}

#[tactic(auto, unfolding(crate::specs::Refusals::is_missing))]
fn is_without(directory: &Directory<'_>, slot: usize) -> bool
    requires { slot < SLOTS }
    ensures { result ≡ is_missing directory.now (kept_tag slot) }
{
    directory.table(slot).is_none()
}

// Returns the tag of the first of the slots that has no table.
#[tactic(auto, unfolding(sfnt_bytes::specs::Directory::kept_tag))]
fn first_missing(directory: &Directory<'_>, slots: &[usize]) -> Option<Tag>
    requires { (k : ℕ) → k < length slots.now → slice_index slots.now k < SLOTS }
    ensures { result ≡ find (is_missing directory.now) (map kept_tag slots.now) }
{
    for slot in slots {
        if is_without(directory, *slot) {
            return Some(KEPT[*slot]);
        }
    }
    None
}

// Returns the tag of the first required table that is missing.
fn missing_table(directory: &Directory<'_>) -> Option<Tag>
    ensures { result ≡ find (is_missing directory.now) required_tags }
{
    first_missing(directory, &[CMAP, GLYF, HEAD, HHEA, HMTX, LOCA, MAXP])
}

// Returns the table of a slot, empty where it is missing.
#[tactic(auto, unfolding(crate::specs::Tables::table_or_empty))]
fn table<'a>(directory: &Directory<'a>, slot: usize) -> &'a [u8]
    requires { slot < SLOTS }
    ensures { result.now ≡ table_or_empty directory.now (kept_tag slot) }
{
    directory.table(slot).unwrap_or(&[])
}

/// A font that has all the tables that it must have, with a metric and an outline for each glyph.
///
/// Tables may be longer than they need to be. Nothing is read of the outlines themselves.
pub struct Tables<'a> {
    directory: Directory<'a>,
    hmtx: &'a [u8],
    loca: &'a [u8],
    glyf: &'a [u8],
    glyph_count: u16,
    units_per_em: u16,
    metric_count: u16,
    form: LocaForm,
}

impl<'a> Model for Tables<'a> {
    ghost use Rattle.std.specs.Prelude.{ℕ, List};
    ghost use Rattle.font_tables.specs.OpenedTables.{IsOpened};

    ghost Value = { List ℕ };

    ghost view = { λ t. t.directory };

    ghost invariant = { λ t. IsOpened t.directory t.hmtx.now t.loca.now t.glyf.now t.glyph_count
        t.units_per_em t.metric_count t.form };
}

impl<'a> Drop for Tables<'a> {
    fn drop(self) {
        let Tables {
            directory: _directory,
            hmtx: _,
            loca: _,
            glyf: _,
            glyph_count: _,
            units_per_em: _,
            metric_count: _,
            form: _,
        } = self;
    }
}

impl<'a> Tables<'a> {
    /// Reads the tables of a directory. It takes the directory, which [`Directory::read`] gives again.
    ///
    /// # Errors
    ///
    /// The first [`TableError`] that applies, in the order of its variants.
    #[tactic(auto, using(crate::proofs::SlotLemmas::are_slots), unfolding(crate::specs::Refusals::table_fault, crate::specs::Fields::glyph_count_of, crate::specs::Fields::units_per_em_of, crate::specs::Fields::metric_count_of, crate::specs::Fields::loca_form_of))]
    pub fn open(directory: Directory<'a>) -> Result<Tables<'a>, TableError>
        ensures { MatchResult result
            (λ tables. (tables ≡ directory.entry) × (table_fault directory.entry ≡ None))
            (λ error. table_fault directory.entry ≡ Some error) }
    {
        if let Some(tag) = missing_table(&directory) {
            return Err(TableError::MissingTable(tag));
        }
        let head = table(&directory, HEAD);
        if has_bad_head(head) {
            return Err(TableError::BadHead);
        }
        let maxp = table(&directory, MAXP);
        if has_bad_maxp(maxp) {
            return Err(TableError::BadMaxp);
        }
        let glyph_count = read_num_glyphs(maxp);
        let hhea = table(&directory, HHEA);
        if has_bad_hhea(hhea, glyph_count) {
            return Err(TableError::BadHhea);
        }
        let metric_count = read_number_of_h_metrics(hhea);
        let hmtx = table(&directory, HMTX);
        if has_bad_hmtx(hmtx, metric_count, glyph_count) {
            return Err(TableError::BadHmtx);
        }
        let form = read_loca_form(head);
        let loca = table(&directory, LOCA);
        let glyf = table(&directory, GLYF);
        if let Some(index) = first_bad_offset(form, loca, glyf.len(), glyph_count) {
            return Err(TableError::BadLoca(index));
        }
        // Recalls for the prover that the directory is readable.
        let _file = directory.file();
        Ok(Tables {
            directory,
            hmtx,
            loca,
            glyf,
            glyph_count,
            units_per_em: read_units_per_em(head),
            metric_count,
            form,
        })
    }

    /// Reads the tables of a directory that [`Tables::open`] has accepted before, or another one of the same bytes. It
    /// tests nothing: no offset of `loca` is looked at.
    #[tactic(auto, using(crate::proofs::SlotLemmas::are_slots, crate::proofs::LengthLemmas::head_has, crate::proofs::LengthLemmas::maxp_has, crate::proofs::LengthLemmas::hhea_has), unfolding(crate::specs::Fields::glyph_count_of, crate::specs::Fields::units_per_em_of, crate::specs::Fields::metric_count_of, crate::specs::Fields::loca_form_of))]
    pub fn open_checked(checked: Directory<'a>) -> Tables<'a>
        requires { table_fault checked ≡ None }
        ensures { result ≡ checked.entry }
    {
        let (head, maxp, hhea) = (
            table(&checked, HEAD),
            table(&checked, MAXP),
            table(&checked, HHEA),
        );
        let (hmtx, loca, glyf) = (
            table(&checked, HMTX),
            table(&checked, LOCA),
            table(&checked, GLYF),
        );
        // Recalls for the prover that the directory is readable.
        let _file = checked.file();
        Tables {
            directory: checked,
            hmtx,
            loca,
            glyf,
            glyph_count: read_num_glyphs(maxp),
            units_per_em: read_units_per_em(head),
            metric_count: read_number_of_h_metrics(hhea),
            form: read_loca_form(head),
        }
    }

    /// Returns the directory that the tables were read from.
    pub fn directory(&self) -> &Directory<'a>
        ensures directory { result.now ≡ self.now }

        // Keeps the facts that `Directory::read` and `Tables::open` proved.
        ensures readable { directory_fault self.now ≡ None }
        ensures sound { table_fault self.now ≡ None }
    {
        &self.directory
    }

    /// Returns `numGlyphs` of `maxp`: 1 at least.
    #[tactic(auto, using(crate::proofs::TableLemmas::is_measured))]
    pub fn glyph_count(&self) -> u16
        ensures count { result ≡ glyph_count_of self.now }
        ensures some { 0 < result }
    {
        self.glyph_count
    }

    /// Returns `unitsPerEm` of `head`: how many font units an em has. Nothing of it is checked.
    pub fn units_per_em(&self) -> u16
        ensures { result ≡ units_per_em_of self.now }
    {
        self.units_per_em
    }

    /// Returns `numberOfHMetrics` of `hhea`: 1 at least, and no more than there are glyphs.
    #[tactic(auto, using(crate::proofs::TableLemmas::is_measured))]
    pub fn metric_count(&self) -> u16
        ensures count { result ≡ metric_count_of self.now }
        ensures some { 0 < result }
        ensures few { result ≤ glyph_count_of self.now }
    {
        self.metric_count
    }

    /// Returns `indexToLocFormat` of `head`.
    pub fn loca_format(&self) -> LocaForm
        ensures { result ≡ loca_form_of self.now }
    {
        self.form
    }

    /// Returns the advance width and the left side bearing of a glyph, in font units. A glyph after the
    /// pairs of `hmtx` has the advance width of the last pair.
    #[tactic(auto, unfolding(crate::specs::Metrics::metric_of))]
    pub fn metric(&self, g: u16) -> (u16, i16)
        requires { g < glyph_count_of self.now }
        ensures { result ≡ metric_of self.now g }
    {
        read_metric(self.hmtx, self.metric_count as usize, g as usize)
    }

    /// Returns the outline of a glyph, its bytes of `glyf`: none where it is empty.
    #[tactic(auto, unfolding(crate::specs::Outlines::outline_of))]
    pub fn outline(&self, g: u16) -> &'a [u8]
        requires { g < glyph_count_of self.now }
        ensures { result.now ≡ outline_of self.now g }
    {
        outline_within(self.form, self.loca, self.glyf, g as usize)
    }
}
