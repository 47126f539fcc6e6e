//! What is said of an error after its first line: which file it is and what it is, the system's reason, what to do.
use crate::messages::command_error::{CommandError, Writes};
use crate::messages::refused_file::Seen;
use crate::paths::inputs::input_name;
use command_line::Verbosity;
use commands::RunError;
use font_coverage::{FileForm, is_of_layout};
use font_join::{JoinAllError, JoinError};
use font_texts::{Shown, shown_character};
use font_theory::Kind;
use sfnt_bytes::Tag;
use std::alloc::{AllocError, Global};
use std::io;

// The number of the system's error that a process has as many files open as it may, EMFILE.
const TOO_MANY_FILES: i32 = 24;

// What to do if too many files are open.
const IN_SEVERAL_CALLS: &str = "\
fontcut: this is the limit of open files, which ulimit -n shows; cuts can be joined in several calls, and
fontcut: these joins in one more
";

// How ranges are written.
const RANGES: &str =
    "fontcut: a range is written U+41, U+41-5A or all; in lists 41-5A and U+4?? too\n";

// How numbers of glyphs are written.
const NUMBERS: &str =
    "fontcut: glyph numbers are written 5, 7-9 or 0x1F; codes --glyphs prints those of characters\n";

// How sets of characters are named.
const SETS: &str = "\
fontcut: write fontcut subset FONT OUT all
fontcut: or fontcut subset FONT OUT U+20-7E
fontcut: or fontcut subset FONT OUT --text 'Hello'
";

// What names slices have.
const NAMES: &str = "\
fontcut: the name of a slice has letters and digits of ASCII, and -, _ and . after the first, 200 at most
";

// How a TrueType file is written to such a name.
const FORCE: &str = "fontcut: --force writes the TrueType file under this name\n";

// That a full cut cannot be made of a lean one.
const MADE_FULL: &str = "fontcut: a lean cut cannot be made full again: cut the font anew\n";

// How layout cuts are joined.
const LAYOUT_JOIN: &str = "fontcut: layout cuts are joined by join --layout\n";

// How lean cuts are joined.
const LEAN_JOIN: &str = "fontcut: lean cuts are joined by join --lean\n";

// How a lean cut is made in place of a layout or a variable one.
const MADE_LEAN: &str =
    "fontcut: lean cuts alone are joined by join --lean: cut the font anew by subset --lean\n";

// How a layout cut is made in place of another one.
const MADE_LAYOUT: &str =
    "fontcut: other cuts have no layout tables: cut the font anew by subset --layout\n";

// The same where the other one is a variable cut.
const VARIABLE_JOIN: &str = "fontcut: variable cuts are joined by join --variable\n";

// How a variable cut is made in place of another one.
const MADE_VARIABLE: &str =
    "fontcut: other cuts have no variations: cut the font anew by subset --variable\n";

// What is said of cuts that differ in the table of names or in a table of layout.
const TWO_WAYS: &str =
    "fontcut: these are cuts of two fonts, or of one that was prepared, or cut with --drop, in two ways\n";

// The table of names of a font.
const NAMES_TABLE: Tag = Tag(*b"name");

// What is said of a file that is no cut.
const NO_CUT: &str = "no cut as fontcut writes it\n";

// How the characters of a text are kept.
const TEXT: &str = "fontcut: the characters of a text are kept by --text TEXT\n";

// What separates the system's reason from its number.
const NUMBER: &str = " (os error";

/// How much is said of an error after its first line, and what is known of it.
#[derive(Clone, Copy)]
pub(crate) struct Details {
    /// How much is said.
    pub(crate) verbosity: Verbosity,
    /// The system's reason, where it is known.
    pub(crate) reason: Option<i32>,
    /// What is known of files that are refused.
    pub(crate) seen: Seen,
}

/// The details of an error that has none.
pub(crate) const NO_DETAILS: Details = Details {
    verbosity: Verbosity::Quiet,
    reason: None,
    seen: Seen::Nothing,
};

// Returns the system's text for an error without its number.
fn without_number(text: &str) -> &str {
    match text.split_once(NUMBER) {
        Some((reason, _)) => reason,
        None => text,
    }
}

// Adds why the file of this name is not read or written, where that is known.
fn add_reason(
    alloc: Global,
    text: &mut String,
    name: &str,
    reason: Option<i32>,
) -> Result<(), AllocError> {
    let Some(number) = reason else {
        return Ok(());
    };
    let error = io::Error::from_raw_os_error(number);
    let said = format!(in alloc; "{error}")?;
    let (name, reason) = (Shown(name), without_number(said.as_str()));
    write!(text, "fontcut: {name}: {reason}\n")?;
    Ok(())
}

/// Returns what a cut of a kind is called.
pub(crate) fn cut_name(kind: Kind) -> &'static str {
    match kind {
        Kind::Full => "a full cut",
        Kind::Lean => "a lean cut",
        Kind::Layout => "a layout cut",
        Kind::Variable => "a variable cut",
    }
}

// Returns what a cut of a kind is called where it is told from others.
fn kind_name(kind: Kind) -> &'static str {
    match kind {
        Kind::Full => "full",
        Kind::Lean => "lean",
        Kind::Layout => "layout",
        Kind::Variable => "variable",
    }
}

// Returns how a layout or a variable cut is made in place of one of another kind.
fn made_in_place(joined: Kind, seen: Kind) -> &'static str {
    match (joined, seen) {
        (Kind::Variable, _) => MADE_VARIABLE,
        (_, Kind::Variable) => VARIABLE_JOIN,
        _ => MADE_LAYOUT,
    }
}

// Adds how the full cut at a path is made lean.
fn add_made_lean(text: &mut String, path: &str) -> Result<(), AllocError> {
    let path = Shown(path);
    write!(
        text,
        "fontcut: fontcut subset --lean {path} OUT all makes a full cut lean\n"
    )?;
    Ok(())
}

// Adds of which kinds the first and the refused file are as cuts.
fn add_cuts(
    text: &mut String,
    first: (&str, Kind),
    refused: (&str, Kind),
) -> Result<(), AllocError> {
    for (path, kind) in [first, refused] {
        let (name, cut) = (Shown(input_name(path)), cut_name(kind));
        write!(text, "fontcut: {name}: {cut}\n")?;
    }
    Ok(())
}

// Adds of which kinds the first and the refused file of a join of full cuts are, and what to do, where one is lean at
// least.
fn add_kinds(
    text: &mut String,
    first: (&str, Kind),
    refused: (&str, Kind),
) -> Result<(), AllocError> {
    add_cuts(text, first, refused)?;
    if first.1 == refused.1 {
        return text.push_str(LEAN_JOIN);
    }
    let full = if refused.1 == Kind::Full {
        refused.0
    } else {
        first.0
    };
    add_made_lean(text, full)?;
    text.push_str(MADE_FULL)
}

// Adds of which two kinds the refused and another file of a join are, and what to do.
fn add_two_kinds(
    text: &mut String,
    refused: (&str, Kind),
    other: (&str, Kind),
) -> Result<(), AllocError> {
    let advice = match (refused.1, other.1) {
        (Kind::Variable, _) | (_, Kind::Variable) => MADE_VARIABLE,
        (Kind::Layout, _) | (_, Kind::Layout) => MADE_LAYOUT,
        _ => return add_kinds(text, refused, other),
    };
    add_cuts(text, refused, other)?;
    text.push_str(advice)
}

// Adds that two files are cuts of different fonts, or perhaps of different kinds where these are not known.
fn add_no_cut(
    text: &mut String,
    path: &str,
    first: &str,
    is_known: bool,
) -> Result<(), AllocError> {
    let (name, first_name) = (Shown(input_name(path)), Shown(input_name(first)));
    write!(
        text,
        "fontcut: {name} is no cut of the font of {first_name}"
    )?;
    text.push_str(if is_known {
        "\n"
    } else {
        ", or one of them is a lean cut\n"
    })
}

// Returns whether the first and the refused file of a join are known to be cuts of two kinds.
fn are_of_two_kinds(seen: Seen) -> bool {
    match seen {
        Seen::Cuts {
            first: Some(first),
            refused: Some(refused),
        } => first != refused,
        _ => false,
    }
}

// Returns whether the fonts of two files differ in a table in which one font may differ that was prepared, or cut, in two
// ways.
fn may_be_of_one_font(error: &RunError) -> bool {
    match error {
        RunError::Join(
            JoinAllError::At {
                step: _,
                error: JoinError::DifferentTable(tag),
            },
        ) => is_of_layout(*tag) || *tag == NAMES_TABLE,
        _ => false,
    }
}

// Adds why the fonts of two files are likely to differ, where that can be told.
fn add_prepared(text: &mut String, error: &RunError) -> Result<(), AllocError> {
    if may_be_of_one_font(error) {
        text.push_str(TWO_WAYS)?;
    }
    Ok(())
}

// Adds why two files are not joined as cuts of a kind.
fn add_not_joined(
    text: &mut String,
    joined: Kind,
    path: &str,
    first: &str,
    seen: Seen,
) -> Result<(), AllocError> {
    let Seen::Cuts {
        first: Some(first_kind),
        refused: Some(kind),
    } = seen
    else {
        return add_no_cut(text, path, first, false);
    };
    let has_lean = first_kind == Kind::Lean || kind == Kind::Lean;
    let has_full = first_kind == Kind::Full || kind == Kind::Full;
    match joined {
        Kind::Full if has_lean => add_kinds(text, (first, first_kind), (path, kind)),
        Kind::Lean if has_lean && has_full => add_kinds(text, (first, first_kind), (path, kind)),
        Kind::Layout | Kind::Variable if first_kind != kind => {
            add_cuts(text, (first, first_kind), (path, kind))?;
            text.push_str(made_in_place(joined, kind))
        }
        _ => add_no_cut(text, path, first, true),
    }
}

// Adds what a file is that is no cut. Its line has been begun.
fn add_no_form(
    text: &mut String,
    form: Option<FileForm>,
    otherwise: &str,
) -> Result<(), AllocError> {
    match form {
        Some(FileForm::Changed(Some(tag))) => {
            write!(text, "a cut that was changed, in its table {tag}\n")?;
            Ok(())
        }
        Some(FileForm::Changed(None)) => {
            text.push_str("a cut that was changed, outside of its tables\n")
        }
        Some(FileForm::Font) => text.push_str("a font, and no cut of one\n"),
        _ => text.push_str(otherwise),
    }
}

// Adds what the cut at a path is that is joined as a full one, beside a file of perhaps another kind.
fn add_no_full(
    text: &mut String,
    refused: (&str, Kind),
    other: (&str, Option<Kind>),
) -> Result<(), AllocError> {
    let (path, kind) = refused;
    match other.1 {
        Some(other_kind) if other_kind != kind => {
            add_two_kinds(text, refused, (other.0, other_kind))
        }
        _ => {
            let (path, cut, name) = (Shown(input_name(path)), cut_name(kind), kind_name(kind));
            write!(
                text,
                "fontcut: {path}: {cut}; {name} cuts are joined by join --{name}\n"
            )?;
            Ok(())
        }
    }
}

// Adds the path of the file that is refused, and what it is where that is known.
fn add_refused(text: &mut String, path: &str, seen: Seen) -> Result<(), AllocError> {
    let path = Shown(input_name(path));
    match seen {
        Seen::What(what) => write!(text, "fontcut: {path}: {what}\n")?,
        _ => write!(text, "fontcut: {path} is refused\n")?,
    }
    Ok(())
}

// Adds how the layout or variable cut that is joined as a lean one, beside a file of this kind, is joined or made lean.
fn add_no_lean(text: &mut String, kind: Kind, other: Option<Kind>) -> Result<(), AllocError> {
    if other != Some(kind) {
        return text.push_str(MADE_LEAN);
    }
    text.push_str(match kind {
        Kind::Variable => VARIABLE_JOIN,
        _ => LAYOUT_JOIN,
    })
}

// Adds how a cut of a kind is made of the cut of another one at a path, or in its place, beside a file of a kind.
fn add_made(
    text: &mut String,
    joined: Kind,
    refused: (&str, Kind),
    other: Option<Kind>,
) -> Result<(), AllocError> {
    let (path, kind) = refused;
    match (joined, kind) {
        (Kind::Lean, Kind::Full) => {
            add_made_lean(text, path)?;
            text.push_str(MADE_FULL)
        }
        (Kind::Lean, _) => add_no_lean(text, kind, other),
        _ => text.push_str(made_in_place(joined, kind)),
    }
}

// Adds of which kind the cut at a path is that is joined as one of another, and what to do.
fn add_other_kind(
    text: &mut String,
    joined: Kind,
    refused: (&str, Kind),
    other: (&str, Option<Kind>),
) -> Result<(), AllocError> {
    if joined == Kind::Full {
        return add_no_full(text, refused, other);
    }
    let (path, kind) = refused;
    let (name, cut, wanted) = (Shown(input_name(path)), cut_name(kind), kind_name(joined));
    write!(text, "fontcut: {name}: {cut}, and no {wanted} one\n")?;
    add_made(text, joined, refused, other.1)
}

// Adds what a file is that is no cut of a kind, and how one is made. Another file of the join is at `other`.
fn add_not_of_kind(
    text: &mut String,
    joined: Kind,
    path: &str,
    other: &str,
    seen: Seen,
) -> Result<(), AllocError> {
    let (form, other_kind) = match seen {
        Seen::Form { form, other } => (form, other),
        _ => (None, None),
    };
    if let Some(FileForm::Cut(kind)) = form {
        if kind != joined {
            return add_other_kind(text, joined, (path, kind), (other, other_kind));
        }
    }
    let name = Shown(input_name(path));
    write!(text, "fontcut: {name}: ")?;
    let otherwise = match joined {
        Kind::Full => NO_CUT,
        Kind::Lean => "no lean cut\n",
        Kind::Layout => "no layout cut\n",
        Kind::Variable => "no variable cut\n",
    };
    add_no_form(text, form, otherwise)
}

// Adds how both the file that would be replaced and the only file of a join are joined.
fn add_both(text: &mut String, file: &str, out: &str) -> Result<(), AllocError> {
    let (file, out) = (Shown(file), Shown(out));
    write!(
        text,
        "fontcut: write join -o OUT {out} {file} to join both, or remove {out} first\n"
    )?;
    Ok(())
}

// Adds what to write in place of a line that would replace a font, and that the font can be replaced all the same.
fn add_over_font(text: &mut String, writes: Writes, font: &str) -> Result<(), AllocError> {
    let font = Shown(font);
    match writes {
        Writes::Cut => write!(text, "fontcut: subset {font} OUT cuts the font")?,
        Writes::Slices => write!(text, "fontcut: slice {font} FOLDER cuts the font")?,
        Writes::Join => text.push_str("fontcut: name another OUT")?,
    }
    write!(text, "; --force replaces {font}\n")?;
    Ok(())
}

// Adds how FONT is kept from its cut or its slices, and that it can be replaced all the same.
fn add_over_itself(text: &mut String, writes: Writes, font: &str) -> Result<(), AllocError> {
    let font = Shown(font);
    let advice = match writes {
        Writes::Slices => "name another FOLDER, or the slice otherwise",
        Writes::Cut | Writes::Join => "name another OUT",
    };
    write!(text, "fontcut: {advice}; --force replaces {font}\n")?;
    Ok(())
}

// Adds why a file of slices is not read, and that there is no preset of its name.
fn add_unlisted(
    alloc: Global,
    text: &mut String,
    path: &str,
    reason: Option<i32>,
) -> Result<(), AllocError> {
    add_reason(alloc, text, path, reason)?;
    let name = Shown(path);
    write!(
        text,
        "fontcut: no preset of this name is installed: fontcut-web slices {name} prints it if there is one\n"
    )?;
    Ok(())
}

// Returns whether a word that names no range begins as one that does.
fn names_code(word: &str) -> bool {
    word.starts_with("U+") || word.starts_with("u+")
}

// Adds which file an error is about, and what is known of it.
fn add_known(
    alloc: Global,
    text: &mut String,
    error: &CommandError<'_>,
    details: Details,
) -> Result<(), AllocError> {
    let seen = details.seen;
    match error {
        CommandError::Unread(_) | CommandError::Unwritten(_) | CommandError::UnwrittenIn { .. } => {
            add_reason(alloc, text, error.file_name(), details.reason)
        }
        CommandError::Unlisted(path) => add_unlisted(alloc, text, path, details.reason),
        CommandError::RefusedFile { path, .. } => add_refused(text, path, seen),
        CommandError::NotJoined {
            kind,
            path,
            first,
            error,
        } => {
            add_not_joined(text, *kind, path, first, seen)?;
            if are_of_two_kinds(seen) {
                return Ok(());
            }
            add_prepared(text, error)
        }
        CommandError::NotOfKind {
            kind,
            path,
            other,
            ..
        } => add_not_of_kind(text, *kind, path, other, seen),
        CommandError::Replaces { file, out } => add_both(text, file, out),
        CommandError::OverFont { writes, font, .. } => add_over_font(text, *writes, font.as_str()),
        CommandError::OverItself { writes, font } => add_over_itself(text, *writes, font),
        CommandError::BadWord(word) if !names_code(word) => text.push_str(TEXT),
        CommandError::NoSet => text.push_str(SETS),
        CommandError::PackedOut(_) | CommandError::PackedFolder => text.push_str(FORCE),
        _ => Ok(()),
    }
}

// Adds the character that two files map differently.
fn add_character(text: &mut String, error: &RunError) -> Result<(), AllocError> {
    let RunError::Join(
        JoinAllError::At {
            step: _,
            error: JoinError::DifferentMapping(code),
        },
    ) = error
    else {
        return Ok(());
    };
    if let Some(character) = shown_character(*code) {
        write!(text, "fontcut: U+{code:04X} is {character}\n")?;
    }
    Ok(())
}

// Adds what to do, and the characters of codes.
fn add_hints(
    text: &mut String,
    error: &CommandError<'_>,
    reason: Option<i32>,
) -> Result<(), AllocError> {
    match error {
        CommandError::Unread(_) if reason == Some(TOO_MANY_FILES) => text.push_str(
            IN_SEVERAL_CALLS,
        ),
        CommandError::BadWord(_)
        | CommandError::BadListed { .. }
        | CommandError::BadLine { word: Some(_), .. } => { text.push_str(RANGES) }
        CommandError::BadNumber { word: Some(_), .. }
        | CommandError::Refused(RunError::NoGlyph(_)) => { text.push_str(NUMBERS) }
        CommandError::BadName { .. } => text.push_str(NAMES),
        CommandError::NotJoined { error, .. } => add_character(text, error),
        _ => Ok(()),
    }
}

/// Adds what is said of an error after its first line.
///
/// # Errors
/// `AllocError` if out of memory.
pub(crate) fn add_details(
    alloc: Global,
    text: &mut String,
    error: &CommandError<'_>,
    details: Details,
) -> Result<(), AllocError> {
    if details.verbosity == Verbosity::Quiet {
        return Ok(());
    }
    add_known(alloc, text, error, details)?;
    if details.verbosity == Verbosity::Plain {
        return Ok(());
    }
    add_hints(text, error, details.reason)
}
