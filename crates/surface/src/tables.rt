//! The items of `font_tables`.
use font_tables::{LocaForm, TableError, Tables};
use sfnt_bytes::Directory;

/// Reads the tables of a font.
///
/// # Errors
/// The refusal of the tables.
pub fn metrics(directory: Directory<'_>, g: u16) -> Result<u16, TableError> {
    let tables: Tables<'_> = Tables::open(directory)?;
    let of: &Directory<'_> = tables.directory();
    let is_empty: bool = of.file().is_empty();
    let count: u16 = tables.glyph_count();
    let units: u16 = tables.units_per_em();
    let pairs: u16 = tables.metric_count();
    let is_long: bool = matches!(tables.loca_format(), LocaForm::Long);
    if g < count {
        let (advance, _bearing): (u16, i16) = tables.metric(g);
        let outline: &[u8] = tables.outline(g);
        return Ok(if outline.is_empty() { advance } else { units });
    }
    Ok(if is_empty || is_long { pairs } else { count })
}
