//! The command line of `fontcut`, read by `clap`: this crate alone names `clap`, and gives plain things.
#![tactic(auto)]

mod peers;
mod subcommands;
mod texts;

use crate::peers::served;
use crate::subcommands::{Spelling, flag, join_command, subcommand, with_subcommands};
use clap::error::ErrorKind;
use clap::{Arg, ArgMatches, Command, Error};
use std::alloc::{AllocError, Global};

/// The version of the program: the number in the file `VERSION`, which `tests/release` compares with it.
pub const VERSION: &str = "0.11.0";

/// The word that stands for standard input where a file is read, and for standard output as OUT.
pub const STANDARD: &str = "-";

// What `clap` says before an option that it does not know.
const UNEXPECTED: &str = "unexpected argument '";

// The option that asks for the first lines of messages alone.
const QUIET: &str = "--quiet";

// What `clap` says before the option that it suggests for an unknown one.
const SUGGESTION: &str = "  tip: a similar argument exists: '--";

// The tip of `clap` to pass an unknown option as an argument, which would be another usage error.
const TO_PASS: &str = "\n  tip: to pass '";

// The value of an option for all features of layout.
const ALL_FEATURES: &str = "*";

// How many letters a suggestion has in common with the unknown option at their beginnings.
const ALIKE: usize = 3;

/// A command line.
#[derive(Drop)]
pub struct Line<'a> {
    /// What it asks for.
    pub task: Task<'a>,
    /// How much is said where something fails.
    pub verbosity: Verbosity,
}

/// How much is said where something fails.
#[derive(Clone, Copy, Debug, PartialEq, Eq)]
pub enum Verbosity {
    /// The first line of a message alone, as `--quiet` asks.
    Quiet,
    /// The first line, and the file or the system's reason.
    Plain,
    /// What to do as well, as `--verbose` asks.
    Verbose,
}

/// What of a font `codes` prints.
#[derive(Clone, Copy, Debug, PartialEq, Eq)]
pub enum Listing {
    /// Its codes, as ranges.
    Codes,
    /// Each code, with its glyph and advance width.
    Glyphs,
    /// Its variation sequences.
    Sequences,
}

/// What a command line asks for.
#[derive(Drop)]
pub enum Task<'a> {
    /// Print the findings of the file at the path `font`, and whether it is accepted.
    Check { font: &'a str },
    /// Print the numbers and tables of the font at the path `font`.
    Show { font: &'a str },
    /// Print what the font at the path `font` maps.
    Codes { font: &'a str, listing: Listing },
    /// Print whether the file at the path `cut` is a cut of the font at the path `font`.
    Belongs(Belongs<'a>),
    /// Write the cut of a font to a file.
    Subset(Subset<'a>),
    /// Write the cuts of a font for several sets of characters to the files of a folder.
    Slice(Slices<'a>),
    /// Write the join of cuts to a file.
    Join(Join<'a>),
    /// Print what is found in the font that the program carries.
    Demo,
}

/// The kind of cuts that a line asks for.
#[derive(Clone, Copy, Debug, PartialEq, Eq)]
pub enum CutKind {
    /// Full cuts.
    Full,
    /// Lean cuts, by `--lean`.
    Lean,
    /// Layout cuts, by `--layout`.
    Layout,
    /// Variable cuts, by `--variable`.
    Variable,
}

/// What `belongs` asks for.
#[derive(Drop)]
pub struct Belongs<'a> {
    /// The path of the file that may be a cut.
    pub cut: &'a str,
    /// The path of the font.
    pub font: &'a str,
    /// The kind of cut that is asked for, where one is.
    pub kind: Option<CutKind>,
    /// The names of the tables of layout that the cut does without.
    pub dropped: Vec<&'a str>,
}

/// What `subset` asks for.
#[derive(Drop)]
pub struct Subset<'a> {
    /// The path of the font.
    pub font: &'a str,
    /// The path that the cut is written to.
    pub out: &'a str,
    /// Texts whose characters are kept.
    pub texts: Vec<&'a str>,
    /// The paths of files whose characters are kept.
    pub text_files: Vec<&'a str>,
    /// The paths of files of words that name ranges of codes that are kept.
    pub code_files: Vec<&'a str>,
    /// The words that name ranges of codes that are kept.
    pub words: Vec<&'a str>,
    /// Lists of ranges of codes that are kept.
    pub lists: Vec<&'a str>,
    /// Lists of ranges of codes that are kept, and with them the parts of their characters.
    pub completed: Vec<&'a str>,
    /// Lists of ranges of codes that are taken away.
    pub excluded: Vec<&'a str>,
    /// The paths of files of ranges of codes that are taken away.
    pub excluded_files: Vec<&'a str>,
    /// Lists of numbers of glyphs that are kept.
    pub glyph_lists: Vec<&'a str>,
    /// The paths of files of numbers of glyphs that are kept.
    pub glyph_files: Vec<&'a str>,
    /// Whether it is said which codes were wanted and are not mapped, and what was dropped.
    pub reports: bool,
    /// Whether nothing is written where a wanted code is not mapped.
    pub is_strict: bool,
    /// Whether a text stands for its own characters alone in a layout or a variable cut, too.
    pub keeps_text_alone: bool,
    /// The kind of cut that is written.
    pub kind: CutKind,
    /// Whether a layout or a variable cut keeps what `GSUB` puts for the glyphs that are kept, too.
    pub is_closed: bool,
    /// The names of the tables of layout that the cut does without.
    pub dropped: Vec<&'a str>,
    /// Whether OUT may have the ending of a packed font, or be the font of which FONT is a cut.
    pub is_forced: bool,
    /// How much is said: with a verbose line characters beside the codes of a report, and all scripts that the font shapes
    /// and the cut does not.
    pub verbosity: Verbosity,
}

/// What `slice` asks for.
#[derive(Drop)]
pub struct Slices<'a> {
    /// The path of the font.
    pub font: &'a str,
    /// The path of the folder that the cuts are written to.
    pub folder: &'a str,
    /// The path of the file that names the slices and lists their codes.
    pub slices: &'a str,
    /// The name of the family in the rules of a style sheet, where these are printed.
    pub family: Option<&'a str>,
    /// Whether nothing is written where the font maps no code of a slice.
    pub is_strict: bool,
    /// The kind of cuts that are written.
    pub kind: CutKind,
    /// The names of the tables of layout that the cuts do without.
    pub dropped: Vec<&'a str>,
    /// Whether the folder may have the ending of a packed font, and a slice may replace FONT or the font of which FONT is
    /// a cut.
    pub is_forced: bool,
    /// Whether the first lines of messages are said alone.
    pub is_quiet: bool,
}

/// What `join` asks for.
#[derive(Drop)]
pub struct Join<'a> {
    /// The path that the join is written to.
    pub out: &'a str,
    /// The paths of the cuts, one at least.
    pub files: Vec<&'a str>,
    /// Whether the path that is written to is the first word, and not the value of an option.
    pub has_out_first: bool,
    /// The kind of cuts that the files are, and that is written.
    pub kind: CutKind,
    /// Whether OUT may have the ending of a packed font, or be the font of which the files are cuts.
    pub is_forced: bool,
}

/// What the words of a command line come to.
#[derive(Drop)]
pub enum Parsed<'a> {
    /// They ask for this.
    Line(Line<'a>),
    /// They ask for help or the version, which is this text.
    Help(String),
    /// They are a usage error, as this text says.
    Wrong(String),
    /// They name standard input more than once.
    InputTwice,
}

// Returns the error of a line of `join` that names no output, and one file at most.
fn no_output(alloc: Global) -> Result<Error, AllocError> {
    let mut command = join_command(alloc)?.bin_name("fontcut join")?;
    command.error(ErrorKind::MissingRequiredArgument, texts::NO_OUTPUT)
}

// Returns an option without a value that stands before the name of a subcommand or after it.
fn global_flag<'a>(alloc: Global, long: &'a str, help: &'a str) -> Arg<'a> {
    flag(Arg::new(alloc, long).help(help), long).global(true)
}

// Returns the program's command, which has no subcommand yet.
fn bare_command<'a>(alloc: Global) -> Result<Command<'a>, AllocError> {
    Command::new(alloc, "fontcut")
        .bin_name("fontcut")?
        .version(VERSION)
        .about(texts::PROGRAM)
        .after_help(texts::AFTER_PROGRAM)
        .no_binary_name(true)
        .subcommand_required(true)
        .arg(global_flag(alloc, "verbose", texts::VERBOSE))?
        .arg(global_flag(alloc, "quiet", texts::QUIET))
}

// Returns a text of `clap` without its suggestion of another option, where that does not begin as the unknown one
// does: `--text-file` is none for `--output-file`.
fn without_suggestion(alloc: Global, text: String) -> Result<String, AllocError> {
    let Some((before, tip)) = text.split_once(SUGGESTION) else {
        return Ok(text);
    };
    let (suggested, after) = tip.split_once("'\n\n").unwrap_or((tip, ""));
    let unknown = before.split_once("'--").map_or("", |(_, word)| word);
    if unknown.as_bytes().get(..ALIKE) == suggested.as_bytes().get(..ALIKE) {
        return Ok(text);
    }
    let mut kept = String::from_str(alloc, before)?;
    kept.push_str(after)?;
    Ok(kept)
}

// Returns the option that a text of `clap` calls unexpected, or no text.
fn unexpected(text: &str) -> &str {
    let (_, rest) = text.split_once(UNEXPECTED).unwrap_or(("", ""));
    rest.split_once("'").map_or("", |(option, _)| option)
}

// Returns a text of `clap` without the tip to pass an unknown option as a word.
fn without_tip(alloc: Global, text: String) -> Result<String, AllocError> {
    let Some((before, tip)) = text.split_once(TO_PASS) else {
        return Ok(text);
    };
    let (_, after) = tip.split_once("\n\n").unwrap_or((tip, ""));
    let mut kept = String::from_str(alloc, before.trim_end())?;
    kept.push_str("\n\n")?;
    kept.push_str(after)?;
    Ok(kept)
}

// Returns what is said of an option of another subsetter: what serves in its place.
fn said_of_peer(alloc: Global, option: &str, answer: &str) -> Result<String, AllocError> {
    format!(in alloc; "fontcut: {option}: {answer}\n")
}

// Returns what is said of a usage error, of which this is the text of `clap`.
fn said_of_fault(alloc: Global, text: String) -> Result<String, AllocError> {
    let option = unexpected(text.as_str());
    if let Some(answer) = served(option) {
        return said_of_peer(alloc, option, answer);
    }
    let text = without_tip(alloc, text)?;
    without_suggestion(alloc, text)
}

// Returns what an error of `clap` comes to, by which it also answers a call for help or the version.
fn explained<'a>(alloc: Global, fault: &Error) -> Result<Parsed<'a>, AllocError> {
    if fault.kind() == ErrorKind::OutOfMemory {
        return Err(AllocError);
    }
    let text = fault.to_string(alloc).map_err(|_| AllocError)?;
    if fault.use_stderr() {
        return Ok(Parsed::Wrong(said_of_fault(alloc, text)?));
    }
    Ok(Parsed::Help(text))
}

// Returns the values of an argument, in the order of the line.
fn values_of<'a>(
    alloc: Global,
    matches: &ArgMatches<'a>,
    id: &str,
) -> Result<Vec<&'a str>, AllocError> {
    Vec::from_slice(alloc, matches.get_strs(id).unwrap_or(&[]))
}

// Returns the kind of cuts that a line asks for.
fn cut_kind(matches: &ArgMatches<'_>) -> CutKind {
    if matches.get_flag("variable") {
        CutKind::Variable
    } else if matches.get_flag("layout") {
        CutKind::Layout
    } else if matches.get_flag("lean") {
        CutKind::Lean
    } else {
        CutKind::Full
    }
}

// Returns the paths of files of words, which have two names.
fn code_files<'a>(alloc: Global, matches: &ArgMatches<'a>) -> Result<Vec<&'a str>, AllocError> {
    let mut paths = values_of(alloc, matches, "codes-file")?;
    for path in matches.get_strs("unicodes-file").unwrap_or(&[]) {
        paths.push(*path)?;
    }
    Ok(paths)
}

fn subset_task<'a>(
    alloc: Global,
    matches: &ArgMatches<'a>,
    verbosity: Verbosity,
) -> Result<Option<Task<'a>>, AllocError> {
    let (Some(font), Some(out)) = (matches.get_str("FONT"), matches.get_str("OUT")) else {
        return Ok(None);
    };
    Ok(Some(Task::Subset(Subset {
        font,
        out,
        texts: values_of(alloc, matches, "text")?,
        text_files: values_of(alloc, matches, "text-file")?,
        code_files: code_files(alloc, matches)?,
        words: values_of(alloc, matches, "WORDS")?,
        lists: values_of(alloc, matches, "unicodes")?,
        completed: values_of(alloc, matches, "complete")?,
        excluded: values_of(alloc, matches, "exclude")?,
        excluded_files: values_of(alloc, matches, "exclude-file")?,
        glyph_lists: values_of(alloc, matches, "gids")?,
        glyph_files: values_of(alloc, matches, "gids-file")?,
        reports: matches.get_flag("report"),
        is_strict: matches.get_flag("strict"),
        keeps_text_alone: matches.get_flag("exactly"),
        kind: cut_kind(matches),
        is_closed: !matches.get_flag("no-layout-closure"),
        dropped: values_of(alloc, matches, "drop")?,
        is_forced: matches.get_flag("force"),
        verbosity,
    })))
}

// Returns what a line of `codes` prints.
fn listing_of(matches: &ArgMatches<'_>) -> Listing {
    if matches.get_flag("glyphs") {
        Listing::Glyphs
    } else if matches.get_flag("sequences") {
        Listing::Sequences
    } else {
        Listing::Codes
    }
}

fn codes_task<'a>(matches: &ArgMatches<'a>) -> Option<Task<'a>> {
    Some(Task::Codes {
        font: matches.get_str("FONT")?,
        listing: listing_of(matches),
    })
}

// Returns the kind of cuts that a line of `belongs` asks for, where it names one.
fn asked_kind(matches: &ArgMatches<'_>) -> Option<CutKind> {
    let kind = cut_kind(matches);
    if kind == CutKind::Full && !matches.get_flag("full") {
        return None;
    }
    Some(kind)
}

fn belongs_task<'a>(
    alloc: Global,
    matches: &ArgMatches<'a>,
) -> Result<Option<Task<'a>>, AllocError> {
    let (Some(cut), Some(font)) = (matches.get_str("CUT"), matches.get_str("FONT")) else {
        return Ok(None);
    };
    Ok(Some(Task::Belongs(Belongs {
        cut,
        font,
        kind: asked_kind(matches),
        dropped: values_of(alloc, matches, "drop")?,
    })))
}

fn slice_task<'a>(
    alloc: Global,
    matches: &ArgMatches<'a>,
    verbosity: Verbosity,
) -> Result<Option<Task<'a>>, AllocError> {
    let (Some(font), Some(folder), Some(slices)) = (
        matches.get_str("FONT"),
        matches.get_str("FOLDER"),
        matches.get_str("slices"),
    ) else {
        return Ok(None);
    };
    Ok(Some(Task::Slice(Slices {
        font,
        folder,
        slices,
        family: matches.get_str("css"),
        is_strict: matches.get_flag("strict"),
        kind: cut_kind(matches),
        dropped: values_of(alloc, matches, "drop")?,
        is_forced: matches.get_flag("force"),
        is_quiet: verbosity == Verbosity::Quiet,
    })))
}

// Returns the output of a line of `join` and its files, where it has both: an option names the output, or else the
// first word does.
fn out_and_files<'a, 'm>(
    named: Option<&'a str>,
    words: &'m [&'a str],
) -> Option<(&'a str, &'m [&'a str])> {
    let (out, files) = match named {
        Some(out) => (out, words),
        None => {
            let (first, rest) = words.split_first()?;
            (*first, rest)
        }
    };
    if files.is_empty() {
        return None;
    }
    Some((out, files))
}

fn join_task<'a>(alloc: Global, matches: &ArgMatches<'a>) -> Result<Option<Task<'a>>, AllocError> {
    let named = matches.get_str("output");
    let words = matches.get_strs("FILES").unwrap_or(&[]);
    let Some((out, files)) = out_and_files(named, words) else {
        return Ok(None);
    };
    Ok(Some(Task::Join(Join {
        out,
        files: Vec::from_slice(alloc, files)?,
        has_out_first: named.is_none(),
        kind: cut_kind(matches),
        is_forced: matches.get_flag("force"),
    })))
}

fn task_of<'a>(
    alloc: Global,
    name: &str,
    matches: &ArgMatches<'a>,
    verbosity: Verbosity,
) -> Result<Option<Task<'a>>, AllocError> {
    Ok(match name {
        "check" => matches.get_str("FONT").map(|font| Task::Check { font }),
        "show" => matches.get_str("FONT").map(|font| Task::Show { font }),
        "codes" => codes_task(matches),
        "belongs" => belongs_task(alloc, matches)?,
        "subset" => subset_task(alloc, matches, verbosity)?,
        "slice" => slice_task(alloc, matches, verbosity)?,
        "join" => join_task(alloc, matches)?,
        "demo" => Some(Task::Demo),
        _ => None,
    })
}

// Returns whether a flag of every command stands in a line, before the command's name or after it.
fn has_flag(matches: &ArgMatches<'_>, inner: &ArgMatches<'_>, id: &str) -> bool {
    matches.get_flag(id) || inner.get_flag(id)
}

// Returns how much is said where something fails. `--quiet` has the last word.
fn verbosity_of(matches: &ArgMatches<'_>, inner: &ArgMatches<'_>) -> Verbosity {
    if has_flag(matches, inner, "quiet") {
        Verbosity::Quiet
    } else if has_flag(matches, inner, "verbose") {
        Verbosity::Verbose
    } else {
        Verbosity::Plain
    }
}

// Returns what a line asks for, by what `clap` found in it.
fn line_of<'a>(alloc: Global, matches: &ArgMatches<'a>) -> Result<Option<Line<'a>>, AllocError> {
    let Some((name, inner)) = matches.subcommand() else {
        return Ok(None);
    };
    let verbosity = verbosity_of(matches, inner);
    match task_of(alloc, name, inner, verbosity)? {
        Some(task) => Ok(Some(Line { task, verbosity })),
        None => Ok(None),
    }
}

// Returns what is found in a line by the one subcommand that its first word names. There is nothing where
// it names none, or where the line is a usage error or asks for help.
fn matched_alone<'a>(
    alloc: Global,
    words: &'a [String],
    spelling: Spelling,
) -> Result<Option<ArgMatches<'a>>, Error> {
    let name = words.first().map_or("", |word| word.as_str());
    if spelling != Spelling::Own && name != "subset" {
        return Ok(None);
    }
    let Some(alone) = subcommand(alloc, name, spelling)? else {
        return Ok(None);
    };
    match bare_command(alloc)?
        .subcommand(alone)?
        .try_get_matches_from(words)
    {
        Ok(matches) => Ok(Some(matches)),
        Err(fault) if fault.kind() == ErrorKind::OutOfMemory => Err(fault),
        Err(_) => Ok(None),
    }
}

// Returns whether a word looks as if it named the output of `subset`.
fn is_out_option(word: &str) -> bool {
    let (name, _) = word.split_once('=').unwrap_or((word, ""));
    name == "-o" || name == "--output-file" || name == "--output"
}

// Returns whether a word of a line names the output of `subset`.
fn names_out(words: &[String]) -> bool {
    words.iter().any(|word| is_out_option(word.as_str()))
}

// Returns how a line is spelled that is a usage error, asks for help, or has an option before its command.
fn spelling_of(words: &[String]) -> Spelling {
    if names_out(words) {
        Spelling::PeersWithOut
    } else {
        Spelling::Peers
    }
}

// Making all subcommands takes longer than reading most lines, so it is left to help and usage errors. Options of other
// subsetters are tried after the program's own.
fn matches_of<'a>(alloc: Global, words: &'a [String]) -> Result<ArgMatches<'a>, Error> {
    for spelling in [Spelling::Own, Spelling::Peers, Spelling::PeersWithOut] {
        if let Some(matches) = matched_alone(alloc, words, spelling)? {
            return Ok(matches);
        }
    }
    with_subcommands(alloc, bare_command(alloc)?, spelling_of(words))?.try_get_matches_from(words)
}

// Returns the option of another subsetter that a line has and cuts of its kind do not serve.
fn unserved(matches: &ArgMatches<'_>) -> Option<&'static str> {
    let (_, inner) = matches.subcommand()?;
    let kind = cut_kind(inner);
    if kind != CutKind::Full && inner.get_count("glyph-names") != 0 {
        return Some("--glyph-names");
    }
    if !inner.contains_id("layout-features") {
        return None;
    }
    let keeps_layout = matches!(kind, CutKind::Layout | CutKind::Variable);
    let features = inner.get_strs("layout-features").unwrap_or(&[]);
    let is_of_all = !features.is_empty() && features.iter().all(|one| *one == ALL_FEATURES);
    if keeps_layout && is_of_all {
        return None;
    }
    Some("--layout-features")
}

// Returns what a line asks for, however often it names standard input.
fn parse_line<'a>(alloc: Global, words: &'a [String]) -> Result<Parsed<'a>, AllocError> {
    let matches = match matches_of(alloc, words) {
        Ok(matches) => matches,
        Err(fault) => return explained(alloc, &fault),
    };
    if let Some(option) = unserved(&matches) {
        let answer = served(option).unwrap_or("");
        return Ok(Parsed::Wrong(said_of_peer(alloc, option, answer)?));
    }
    match line_of(alloc, &matches)? {
        Some(line) => Ok(Parsed::Line(line)),
        // Each word that is required is there, so this is a line of `join` with one word.
        None => explained(alloc, &no_output(alloc)?),
    }
}

// Returns how many of some paths stand for standard input.
fn standard_count(paths: &[&str]) -> usize {
    paths.iter().filter(|path| **path == STANDARD).count()
}

// Returns whether a task reads standard input more than once.
fn reads_input_twice(task: &Task<'_>) -> bool {
    let count = match task {
        Task::Subset(line) => standard_count(&[line.font])
            .saturating_add(standard_count(&line.text_files))
            .saturating_add(standard_count(&line.code_files))
            .saturating_add(standard_count(&line.excluded_files))
            .saturating_add(standard_count(&line.glyph_files)),
        Task::Join(line) => standard_count(&line.files),
        Task::Belongs(line) => standard_count(&[line.cut, line.font]),
        Task::Slice(line) => standard_count(&[line.font, line.slices]),
        _ => 0,
    };
    1 < count
}

/// Returns whether a line asks for the first lines of messages alone, be it a usage error or not.
pub fn is_quiet(words: &[String]) -> bool {
    words.iter().any(|word| word.as_str() == QUIET)
}

/// Reads the arguments of a line, the program's own name not among them. Help and usage errors have the text of `clap`,
/// or what serves in the place of an option of another subsetter.
///
/// # Errors
/// `AllocError` if out of memory.
pub fn parse<'a>(alloc: Global, words: &'a [String]) -> Result<Parsed<'a>, AllocError> {
    let parsed = parse_line(alloc, words)?;
    let is_twice = match &parsed {
        Parsed::Line(line) => reads_input_twice(&line.task),
        _ => false,
    };
    if is_twice {
        return Ok(Parsed::InputTwice);
    }
    Ok(parsed)
}
