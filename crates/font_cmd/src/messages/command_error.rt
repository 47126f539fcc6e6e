//! Why a command fails.
use crate::asked::slice_list::LONGEST_LINE;
use crate::paths::inputs::input_name;
use command_line::STANDARD;
use commands::RunError;
use font_join::{JoinAllError, JoinError, Which};
use font_texts::{Shown, ShownWord};
use font_theory::Kind;
use sfnt_bytes::MAX_FILE;
use std::alloc::AllocError;
use std::fmt;

/// What a line writes.
#[derive(Clone, Copy)]
pub(crate) enum Writes {
    Cut,
    Slices,
    Join,
}

/// Why a command fails.
#[derive(Drop)]
pub(crate) enum CommandError<'a> {
    /// Standard input is named more than once.
    InputTwice,
    /// This word names no range of codes.
    BadWord(&'a str),
    /// A list has this word, which names no range of codes.
    BadListed {
        word: Option<String>,
    },
    /// A list of glyph numbers has this word, which is none, or is not UTF-8: the one in a line, or one in a line of the
    /// file at a path.
    BadNumber {
        place: Option<(&'a str, u64)>,
        word: Option<String>,
    },
    /// Glyphs are wanted by their numbers, and cuts of no kind that has them.
    NumbersOfFull,
    /// OUT is this word, which names a range of codes.
    OutIsWord(&'a str),
    /// OUT has the ending of a packed font, and this path before it.
    PackedOut(&'a str),
    /// FOLDER has the ending of a packed font.
    PackedFolder,
    /// No set of characters is named.
    NoSet,
    /// The regular file at `out` would be replaced by the only file of a join, which has another path.
    Replaces {
        file: &'a str,
        out: &'a str,
    },
    /// The font at `font` would be replaced, where the file at `cut` is a cut of it.
    OverFont {
        writes: Writes,
        cut: &'a str,
        font: String,
    },
    /// FONT, at this path, would be replaced by its cut, or by one of its slices.
    OverItself {
        writes: Writes,
        font: &'a str,
    },
    /// A line of the file at this path is not UTF-8, or has this word, which names no range.
    BadLine {
        path: &'a str,
        line: u64,
        word: Option<String>,
    },
    /// A line of the file of slices at this path has this name, which no slice can have.
    BadName {
        path: &'a str,
        line: u64,
        name: String,
    },
    /// A line of the file of slices at this path has this name, which an earlier one has.
    NameTwice {
        path: &'a str,
        line: u64,
        name: String,
    },
    /// This line of the file of slices at this path is longer than a line may be.
    LongLine {
        path: &'a str,
        line: u64,
    },
    /// The file of slices at this path is longer than a file may be.
    LongFile(&'a str),
    /// The file at this path cannot be read.
    Unread(&'a str),
    /// There is no file of slices at this path, and no preset of this name is installed.
    Unlisted(&'a str),
    /// The file at this path, or standard output, cannot be written.
    Unwritten(&'a str),
    /// The file at this path in a folder cannot be written.
    UnwrittenIn {
        path: String,
    },
    /// Out of memory, or the file to be written is too large.
    Refused(RunError),
    /// The file at this path is refused.
    RefusedFile {
        path: &'a str,
        error: RunError,
    },
    /// The cut at this path does not join, as a cut of a kind, with those before it, the first of which is at
    /// `first`.
    NotJoined {
        kind: Kind,
        path: &'a str,
        first: &'a str,
        error: RunError,
    },
    /// The file at this path is refused, for it is no cut of a kind. Another file of the join is at `other`, or it alone
    /// is joined.
    NotOfKind {
        kind: Kind,
        path: &'a str,
        other: &'a str,
        error: RunError,
    },
}

impl<'a> CommandError<'a> {
    /// Returns why a run is not done that reads the file at `font` and writes OUT at `out`.
    pub(crate) fn of_run(font: &'a str, out: &'a str, error: RunError) -> CommandError<'a> {
        match error {
            RunError::Read(_) => CommandError::Unread(font),
            RunError::Write(_) => CommandError::Unwritten(out),
            RunError::Font(_) => CommandError::RefusedFile { path: font, error },
            error => CommandError::Refused(error),
        }
    }

    /// Returns the exit status of the program: 1 if a file is refused or out of memory, 2 for a usage error, 3 if a file
    /// cannot be read or written.
    pub(crate) fn status(&self) -> u8 {
        match self {
            CommandError::Refused(_)
            | CommandError::RefusedFile { .. }
            | CommandError::NotJoined { .. }
            | CommandError::NotOfKind { .. } => 1,
            CommandError::InputTwice
            | CommandError::BadWord(_)
            | CommandError::BadListed { .. }
            | CommandError::BadNumber { .. }
            | CommandError::NumbersOfFull
            | CommandError::OutIsWord(_)
            | CommandError::PackedOut(_)
            | CommandError::PackedFolder
            | CommandError::NoSet
            | CommandError::Replaces { .. }
            | CommandError::OverFont { .. }
            | CommandError::OverItself { .. }
            | CommandError::BadLine { .. }
            | CommandError::BadName { .. }
            | CommandError::NameTwice { .. }
            | CommandError::LongLine { .. }
            | CommandError::LongFile(_) => 2,
            CommandError::Unread(_)
            | CommandError::Unlisted(_)
            | CommandError::Unwritten(_)
            | CommandError::UnwrittenIn { .. } => 3,
        }
    }

    /// Returns what messages call the file that cannot be read or written.
    pub(crate) fn file_name(&self) -> &str {
        match self {
            CommandError::Unread(path) | CommandError::Unlisted(path) => input_name(path),
            CommandError::Unwritten(path) => output_name(path),
            CommandError::UnwrittenIn { path } => path.as_str(),
            _ => "",
        }
    }
}

// Why files are not joined, and the paths of two of them.
#[derive(Clone, Copy)]
struct Step<'e, 'a> {
    error: &'e JoinError,
    // The path of the file of the refused step.
    path: &'a str,
    // That of the first file, or of the second where the first is refused, if there is one.
    other: &'a str,
}

// Returns why files at some paths are not joined, where a step is refused.
fn refused_step<'e, 'a>(error: &'e RunError, paths: &[&'a str]) -> Option<Step<'e, 'a>> {
    let RunError::Join(JoinAllError::At { step, error }) = error else {
        return None;
    };
    let path = paths.get(*step).copied()?;
    let other = if *step == 0 {
        paths.get(1)
    } else {
        paths.first()
    };
    Some(Step {
        error,
        path,
        other: other.copied().unwrap_or(path),
    })
}

// Returns whether a refusal of a join says that the files are cuts of different fonts.
fn is_difference(error: &JoinError) -> bool {
    matches!(
        error,
        JoinError::DifferentTable(_)
            | JoinError::DifferentMapping(_)
            | JoinError::DifferentGlyph(_)
            | JoinError::TableTooLong(_)
    )
}

/// Returns why the files at some paths are not joined as cuts of a kind.
pub(crate) fn refused_join<'a>(kind: Kind, paths: &[&'a str], error: RunError) -> CommandError<'a> {
    let (is_cut, differs, path, other) = match refused_step(&error, paths) {
        Some(step) => (
            !matches!(step.error, JoinError::NotACut(_)),
            is_difference(step.error),
            step.path,
            step.other,
        ),
        None => return CommandError::Refused(error),
    };
    if differs {
        let first = paths.first().copied().unwrap_or(path);
        return CommandError::NotJoined {
            kind,
            path,
            first,
            error,
        };
    }
    if !is_cut {
        return CommandError::NotOfKind {
            kind,
            path,
            other,
            error,
        };
    }
    CommandError::RefusedFile { path, error }
}

/// The error that says out of memory.
pub(crate) fn no_memory() -> CommandError<'static> {
    CommandError::Refused(RunError::Memory)
}

impl<'a> From<AllocError> for CommandError<'a> {
    fn from(_error: AllocError) -> CommandError<'a> {
        no_memory()
    }
}

// Returns what messages call the output at a path.
fn output_name(path: &str) -> &str {
    if path == STANDARD {
        "standard output"
    } else {
        path
    }
}

// Returns the place of one of two files, counted from one.
fn place_of(which: Which) -> u8 {
    match which {
        Which::First => 1,
        Which::Second => 2,
    }
}

// Writes that a line of a file is wrong, which has this word or is not UTF-8.
fn write_bad_line<W: fmt::Write>(
    f: &mut fmt::Formatter<W>,
    path: &str,
    line: u64,
    word: &Option<String>,
) -> fmt::Result {
    let name = Shown(input_name(path));
    match word {
        Some(word) => {
            let word = ShownWord(word.as_str());
            write!(f, "{name}: line {line}: bad word {word}")
        }
        None => write!(f, "{name}: line {line}: not UTF-8"),
    }
}

// Writes that numbers of glyphs are wrong.
fn write_bad_number<W: fmt::Write>(
    f: &mut fmt::Formatter<W>,
    error: &CommandError<'_>,
) -> fmt::Result {
    match error {
        CommandError::BadNumber { place, word } => {
            if let Some((path, line)) = place {
                let name = Shown(input_name(path));
                write!(f, "{name}: line {line}: ")?;
            }
            match word {
                Some(word) => {
                    let word = ShownWord(word.as_str());
                    write!(f, "bad glyph number {word}")
                }
                None => f.write_str("not UTF-8"),
            }
        }
        CommandError::NumbersOfFull => {
            f.write_str("glyph numbers are for cuts by --lean, --layout or --variable")
        }
        _ => Ok(()),
    }
}

// Writes that a list has this word, or bytes that are no word.
fn write_bad_listed<W: fmt::Write>(
    f: &mut fmt::Formatter<W>,
    word: &Option<String>,
) -> fmt::Result {
    match word {
        Some(word) => {
            let word = ShownWord(word.as_str());
            write!(f, "bad word {word}")
        }
        None => f.write_str("not UTF-8"),
    }
}

// Writes the refusal of a file, which is named by its place where there are several.
fn write_refusal<W: fmt::Write>(f: &mut fmt::Formatter<W>, error: &RunError) -> fmt::Result {
    match error {
        RunError::OneOf(which, error) => {
            let (file, number) = (place_of(*which), error.number());
            write!(f, "file {file}: refused {number} {error}")
        }
        RunError::Join(JoinAllError::At { step, error }) => {
            // Files are counted from one.
            let (file, number) = (step.saturating_add(1), error.number());
            write!(f, "file {file}: refused {number} {error}")
        }
        error => {
            let number = error.number();
            write!(f, "refused {number} {error}")
        }
    }
}

// Writes that a line of a file of slices is wrong.
fn write_bad_slice<W: fmt::Write>(
    f: &mut fmt::Formatter<W>,
    error: &CommandError<'_>,
) -> fmt::Result {
    match error {
        CommandError::BadName { path, line, name } => {
            let (path, name) = (Shown(input_name(path)), ShownWord(name.as_str()));
            write!(f, "{path}: line {line}: bad name {name}")
        }
        CommandError::NameTwice { path, line, name } => {
            let (path, name) = (Shown(input_name(path)), ShownWord(name.as_str()));
            write!(f, "{path}: line {line}: slice {name} stands twice")
        }
        CommandError::LongLine { path, line } => {
            let path = Shown(input_name(path));
            write!(f, "{path}: line {line}: longer than {LONGEST_LINE} bytes")
        }
        CommandError::LongFile(path) => {
            let path = Shown(input_name(path));
            write!(f, "{path}: longer than {MAX_FILE} bytes")
        }
        _ => Ok(()),
    }
}

// Writes that the output that a line names is not what its files can be written to.
fn write_bad_out<W: fmt::Write>(
    f: &mut fmt::Formatter<W>,
    error: &CommandError<'_>,
) -> fmt::Result {
    match error {
        CommandError::OutIsWord(out) => {
            let out = Shown(out);
            write!(f, "OUT is a range word: {out} (write ./{out} for the file)")
        }
        CommandError::PackedOut(path) => {
            let path = Shown(path);
            write!(
                f,
                "OUT is a TrueType file; woff2_compress makes {path}.woff2 of {path}.ttf"
            )
        }
        CommandError::PackedFolder => {
            f.write_str("FOLDER holds TrueType files; woff2_compress makes cut.woff2 of cut.ttf")
        }
        CommandError::Replaces { file, out } => {
            let (file, out) = (Shown(input_name(file)), Shown(out));
            write!(
                f,
                "join has one file, {file}, and would overwrite {out} with it"
            )
        }
        CommandError::OverFont { cut, font, .. } => {
            let (cut, font) = (Shown(input_name(cut)), Shown(font.as_str()));
            write!(
                f,
                "{font} is the font, and {cut} a cut of it: nothing was written"
            )
        }
        CommandError::OverItself { writes, font } => {
            let font = Shown(font);
            let cut = match writes {
                Writes::Slices => "a slice",
                Writes::Cut | Writes::Join => "its cut",
            };
            write!(
                f,
                "{font} is the font, and {cut} would replace it: nothing was written"
            )
        }
        _ => Ok(()),
    }
}

impl fmt::Display for CommandError<'_> {
    fn fmt<W: fmt::Write>(&self, f: &mut fmt::Formatter<W>) -> fmt::Result {
        match self {
            CommandError::InputTwice => f.write_str("standard input is named more than once"),
            CommandError::NoSet => f.write_str("no set of characters is named"),
            CommandError::BadWord(word) => {
                let word = ShownWord(word);
                write!(f, "bad word {word}")
            }
            CommandError::BadListed { word } => write_bad_listed(f, word),
            CommandError::BadLine { path, line, word } => write_bad_line(f, path, *line, word),
            CommandError::BadNumber { .. } | CommandError::NumbersOfFull => {
                write_bad_number(f, self)
            }
            CommandError::OutIsWord(_)
            | CommandError::PackedOut(_)
            | CommandError::PackedFolder
            | CommandError::Replaces { .. }
            | CommandError::OverFont { .. }
            | CommandError::OverItself { .. } => write_bad_out(f, self),
            CommandError::BadName { .. }
            | CommandError::NameTwice { .. }
            | CommandError::LongLine { .. }
            | CommandError::LongFile(_) => write_bad_slice(f, self),
            CommandError::Unread(_) | CommandError::Unlisted(_) => {
                let name = Shown(self.file_name());
                write!(f, "cannot read {name}")
            }
            CommandError::Unwritten(_) | CommandError::UnwrittenIn { .. } => {
                let name = Shown(self.file_name());
                write!(f, "cannot write {name}")
            }
            CommandError::Refused(error)
            | CommandError::RefusedFile { error, .. }
            | CommandError::NotJoined { error, .. }
            | CommandError::NotOfKind { error, .. } => write_refusal(f, error),
        }
    }
}
