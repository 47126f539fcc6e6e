//! The items of `font_cut`.
ghost use Rattle.std.specs.Prelude.{◌≡◌, true};
ghost use Rattle.streams.specs.Outlet.{fresh_of};

use font_cut::{
    CODES, Component, Components, CutError, CutForm, CutIntoError, CutOf, Font, FontError,
    JoinAllError, JoinError, Joined, LAST_CODE, Mapping, NoMemory, Outlet, SLOTS, Source, Tables,
    Wanted, Which, WriteFault, cut, cut_form, cut_into, is_cut, join, join_all,
};
use std::alloc::Global;
use std::io::Write;
use streams::Flushes;

/// Opens a font, and looks a glyph up.
///
/// # Errors
/// The refusal of the font.
pub fn font(file: &[u8], code: u32) -> Result<u16, FontError> {
    let font: Font<'_> = Font::open(file)?;
    let tables: &Tables<'_> = font.tables();
    let mapping: &Mapping<'_> = font.mapping();
    let count: u32 = mapping.mapped_count();
    let (last, codes): (u32, u32) = (LAST_CODE, CODES);
    let g: u16 = font.glyph(code.min(last));
    if g < tables.glyph_count() {
        let (advance, _bearing): (u16, i16) = font.metric(g);
        let outline: &[u8] = font.outline(g);
        let mut components: Components<'_> = font.components(g);
        let first: Option<Component> = components.next();
        return Ok(if outline.is_empty() || first.is_none() {
            advance
        } else {
            g
        });
    }
    Ok(if count == 0 || count == codes { 0 } else { g })
}

/// Makes cuts, in memory and to an outlet.
///
/// # Errors
/// That of the cut in memory.
pub fn made_cuts<W: Write>(
    alloc: Global,
    font: &Font<'_>,
    wanted: &Wanted,
    out: &mut Outlet<W>,
) -> Result<Vec<u8>, CutError>
    requires { fresh_of out.old ≡ true }
{
    let sent: Result<u64, CutIntoError> = cut_into(alloc, font, wanted, out);
    let file: Result<Vec<u8>, CutError> = cut(alloc, font, wanted);
    let _is_sent: bool = sent.is_ok();
    file
}

/// Looks at a source.
pub fn looked_at<S: Source>(source: &S, slot: usize, g: u16) -> bool {
    let count: u16 = source.glyph_count();
    let table: Option<&[u8]> = if slot < SLOTS {
        source.copied(slot)
    } else {
        None
    };
    let glyph: u16 = source.glyph(0x41);
    let keeps: bool = g < count && source.keeps(g);
    let outline: &[u8] = if g < count { source.outline_of(g) } else { &[] };
    keeps && table.is_some() && glyph == g && outline.is_empty()
}

/// Makes the sources of a cut and of a join.
///
/// # Errors
/// That of the join.
pub fn sources<'a>(
    alloc: Global,
    x: &'a Font<'a>,
    y: &'a Font<'a>,
    wanted: &'a Wanted,
) -> Result<bool, JoinError> {
    let of_cut: Result<CutOf<'_, '_>, NoMemory> = CutOf::new(alloc, x, wanted);
    let joined: Joined<'_> = Joined::new(alloc, x, y)?;
    let keeps: bool = match &of_cut {
        Ok(source) => looked_at(source, 0, 0),
        Err(_) => false,
    };
    Ok(keeps && looked_at(&joined, 0, 0))
}

/// Tests a font for cut form.
///
/// # Errors
/// `NoMemory` if out of memory.
pub fn cut_forms(alloc: Global, font: &Font<'_>) -> Result<bool, NoMemory> {
    let is: bool = is_cut(alloc, font)?;
    let form: CutForm = cut_form(alloc, font)?;
    let is_old = match form {
        CutForm::Current | CutForm::Not => false,
        CutForm::Old => true,
    };
    Ok(is && is_old)
}

/// Returns which file a join refuses as a font or as a cut, if it is one of the two.
pub fn refused_file(error: &JoinError) -> Option<bool> {
    let which: Which = match error {
        JoinError::Font(which, _error) => *which,
        JoinError::NotACut(which) => *which,
        _ => return None,
    };
    Some(match which {
        Which::First => true,
        Which::Second => false,
    })
}

/// Joins cuts.
///
/// # Errors
/// That of the join of two.
pub fn joins(alloc: Global, x: &[u8], y: &[u8], files: &[Vec<u8>]) -> Result<Vec<u8>, JoinError> {
    let all: Result<Vec<u8>, JoinAllError> = join_all(alloc, files);
    let _is_joined: bool = all.is_ok();
    let two: Result<Vec<u8>, JoinError> = join(alloc, x, y);
    two
}

/// Writes to an outlet.
///
/// # Errors
/// That of the write.
pub fn outlet<W: Flushes + Drop>(writer: W, b: &[u8]) -> Result<W, WriteFault> {
    let mut outlet: Outlet<W> = Outlet::new(writer);
    let put: Result<(), WriteFault> = outlet.put(b);
    put?;
    let finished: Result<(), WriteFault> = outlet.finish();
    finished?;
    let _written: u64 = outlet.written();
    let _state: (bool, bool, bool) = (outlet.is_broken(), outlet.is_flushed(), outlet.is_fresh());
    Ok(outlet.into_inner())
}
