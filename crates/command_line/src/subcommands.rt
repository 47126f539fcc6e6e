//! The subcommands and their arguments, which are rows of tables: each is made for `clap` in one place.
use crate::texts;
use clap::{Arg, ArgAction, Command};
use std::alloc::{AllocError, Global};

// The tables of layout, which a layout cut can do without.
const LAYOUT_TABLES: &[&str] = &["BASE", "GDEF", "GPOS", "GSUB", "kern"];

// The options that keep the tables of layout, of which a line has one at most.
const KEEPS_LAYOUT: &str = "keeps-layout";

// The options for cuts that are not full.
const OTHER_KINDS: &[&str] = &["lean", "layout", "variable"];

// How an argument is given.
#[derive(Clone, Copy)]
enum Form {
    // A word that has to be there.
    Word,
    // Any number of words.
    Words,
    // One word or more.
    SomeWords,
    // An option without a value.
    Flag,
    // An option without a value that stands in the place of others.
    InPlaceOf(&'static [&'static str]),
    // An option without a value for cuts that keep the tables of layout, which are no lean ones.
    KeepsLayout,
    // An option with a value of this name.
    Value(&'static str),
    // An option with a value of this name that has to be there.
    Required(&'static str),
    // An option with a value of this name that may be repeated.
    Values(&'static str),
    // An option with a text of this name, which may begin with a hyphen, that may be repeated.
    Texts(&'static str),
    // An option with a list of tables of layout of this name that may be repeated.
    Tables(&'static str),
    // An option with a value of this name that has a short form too.
    Short(&'static str, char),
    // An option without a value, of which help says nothing.
    Taken,
    // An option that may have a value, of which help says nothing.
    TakenChoice,
    // An option with a value that may be repeated, of which help says nothing.
    TakenValues,
    // The output of `subset` as an option.
    NamedOut,
}

/// How a line of `subset` is spelled.
#[derive(Clone, Copy, Debug, PartialEq, Eq)]
pub(crate) enum Spelling {
    /// By the arguments that the help lists alone.
    Own,
    /// With options of other subsetters.
    Peers,
    /// With such options, and with an option for OUT, which is no word then.
    PeersWithOut,
}

// An argument: what it is called, how it is given, and what the help says of it.
type Argument = (&'static str, Form, &'static str);

/// A subcommand: its name, and what the help says of it before its arguments and after them.
type Subcommand = (&'static str, &'static str, &'static str);

// The subcommand whose first word may be its output.
const JOIN: Subcommand = ("join", texts::JOIN, texts::AFTER_JOIN);

// All of them, in the order in which help lists them.
const SUBCOMMANDS: [Subcommand; 8] = [
    ("check", texts::CHECK, texts::AFTER_CHECK),
    ("show", texts::SHOW, texts::AFTER_SHOW),
    ("codes", texts::CODES, texts::AFTER_CODES),
    ("belongs", texts::BELONGS, texts::AFTER_BELONGS),
    ("subset", texts::SUBSET, texts::AFTER_SUBSET),
    ("slice", texts::SLICE, texts::AFTER_SLICE),
    JOIN,
    ("demo", texts::DEMO, texts::AFTER_DEMO),
];

// The arguments of `check` and `show`.
const OF_A_FONT: &[Argument] = &[("FONT", Form::Word, texts::FONT)];

const OF_CODES: &[Argument] = &[
    ("FONT", Form::Word, texts::FONT),
    ("glyphs", Form::Flag, texts::GLYPHS),
    ("sequences", Form::InPlaceOf(&["glyphs"]), texts::SEQUENCES),
];

const OF_BELONGS: &[Argument] = &[
    ("CUT", Form::Word, texts::CUT),
    ("FONT", Form::Word, texts::FONT),
    ("full", Form::InPlaceOf(OTHER_KINDS), texts::FULL_CUT),
    ("lean", Form::Flag, texts::LEAN_CUT),
    ("layout", Form::KeepsLayout, texts::LAYOUT_CUT),
    ("variable", Form::KeepsLayout, texts::VARIABLE_CUT),
    ("drop", Form::Tables("TABLES"), texts::DROP),
];

const OF_SUBSET: &[Argument] = &[
    ("FONT", Form::Word, texts::FONT),
    ("OUT", Form::Word, texts::OUT),
    ("text", Form::Texts("TEXT"), texts::TEXT),
    ("text-file", Form::Values("FILE"), texts::TEXT_FILE),
    ("exactly", Form::Flag, texts::EXACTLY),
    ("codes-file", Form::Values("FILE"), texts::CODES_FILE),
    ("unicodes", Form::Values("LIST"), texts::UNICODES),
    ("complete", Form::Values("LIST"), texts::COMPLETE),
    ("exclude", Form::Values("LIST"), texts::EXCLUDE),
    ("exclude-file", Form::Values("FILE"), texts::EXCLUDE_FILE),
    ("gids", Form::Values("LIST"), texts::GIDS),
    ("gids-file", Form::Values("FILE"), texts::GIDS_FILE),
    ("report", Form::Flag, texts::REPORT),
    ("strict", Form::Flag, texts::STRICT),
    ("lean", Form::Flag, texts::LEAN),
    ("layout", Form::KeepsLayout, texts::LAYOUT),
    ("variable", Form::KeepsLayout, texts::VARIABLE),
    ("no-layout-closure", Form::Flag, texts::NO_LAYOUT_CLOSURE),
    ("drop", Form::Tables("TABLES"), texts::DROP),
    ("force", Form::Flag, texts::FORCE_SUBSET),
    ("WORDS", Form::Words, texts::WORDS),
];

// Options of other subsetters that `subset` takes: those that ask for what every cut has, or for what a cut of some
// kinds has, and another name of one above.
const OF_PEERS: &[Argument] = &[
    ("retain-gids", Form::Taken, ""),
    ("hinting", Form::Taken, ""),
    ("notdef-glyph", Form::Taken, ""),
    ("notdef-outline", Form::Taken, ""),
    ("no-legacy-cmap", Form::Taken, ""),
    ("ignore-missing-glyphs", Form::Taken, ""),
    ("ignore-missing-unicodes", Form::Taken, ""),
    ("no-desubroutinize", Form::Taken, ""),
    ("no-obfuscate-names", Form::Taken, ""),
    ("no-prune-codepage-ranges", Form::Taken, ""),
    ("no-prune-unicode-ranges", Form::Taken, ""),
    ("no-recalc-average-width", Form::Taken, ""),
    ("no-recalc-bounds", Form::Taken, ""),
    ("no-recalc-max-context", Form::Taken, ""),
    ("no-recalc-timestamp", Form::Taken, ""),
    ("no-symbol-cmap", Form::Taken, ""),
    ("glyph-names", Form::Taken, ""),
    ("layout-features", Form::TakenChoice, ""),
    ("unicodes-file", Form::TakenValues, ""),
];

const OF_SLICE: &[Argument] = &[
    ("FONT", Form::Word, texts::FONT),
    ("FOLDER", Form::Word, texts::FOLDER),
    ("slices", Form::Required("FILE"), texts::SLICES),
    ("css", Form::Value("FAMILY"), texts::CSS),
    ("strict", Form::Flag, texts::STRICT_SLICES),
    ("lean", Form::Flag, texts::LEAN_SLICES),
    ("layout", Form::KeepsLayout, texts::LAYOUT_SLICES),
    ("variable", Form::KeepsLayout, texts::VARIABLE_SLICES),
    ("drop", Form::Tables("TABLES"), texts::DROP),
    ("force", Form::Flag, texts::FORCE_SLICE),
];

const OF_JOIN: &[Argument] = &[
    ("output", Form::Short("OUT", 'o'), texts::OUT),
    ("lean", Form::Flag, texts::LEAN_JOIN),
    ("layout", Form::KeepsLayout, texts::LAYOUT_JOIN),
    ("variable", Form::KeepsLayout, texts::VARIABLE_JOIN),
    ("force", Form::Flag, texts::FORCE_JOIN),
    ("FILES", Form::SomeWords, texts::FILES),
];

// The arguments of the subcommand of a name.
fn arguments_of(name: &str) -> &'static [Argument] {
    match name {
        "check" | "show" => OF_A_FONT,
        "codes" => OF_CODES,
        "belongs" => OF_BELONGS,
        "subset" => OF_SUBSET,
        "slice" => OF_SLICE,
        "join" => OF_JOIN,
        _ => &[],
    }
}

// Returns an argument as words, of which there are so many at least.
fn words<'a>(arg: Arg<'a>, least: usize) -> Arg<'a> {
    arg.num_args(least..).action(ArgAction::Append)
}

/// Returns an argument as an option without a value.
pub(crate) fn flag<'a>(arg: Arg<'a>, long: &'a str) -> Arg<'a> {
    arg.long(long).action(ArgAction::SetTrue)
}

// Returns an argument as an option with a value.
fn option<'a>(arg: Arg<'a>, long: &'a str, value: &'a str) -> Arg<'a> {
    arg.long(long).value_name(value)
}

// Returns an argument as an option that may be repeated.
fn repeated<'a>(arg: Arg<'a>, long: &'a str, value: &'a str) -> Arg<'a> {
    option(arg, long, value).action(ArgAction::Append)
}

// Returns an option for cuts that keep the tables of layout. A group has one option of a line at most, so a line for
// layout cuts has none for variable ones.
fn keeping_layout<'a>(arg: Arg<'a>) -> Result<Arg<'a>, AllocError> {
    arg.group(KEEPS_LAYOUT)?.conflicts_with("lean")
}

// Returns the option for tables of layout that are left out of layout and variable cuts. What an option requires is not
// asked for where it conflicts with another one of the line, so the option itself conflicts with lean cuts.
fn of_tables<'a>(arg: Arg<'a>) -> Result<Arg<'a>, AllocError> {
    arg.value_delimiter(',')
        .value_parser(LAYOUT_TABLES)
        .requires_arg(KEEPS_LAYOUT)?
        .conflicts_with("lean")
}

// Returns an argument as an option of which help says nothing.
fn hidden<'a>(arg: Arg<'a>, long: &'a str, action: ArgAction) -> Arg<'a> {
    arg.long(long).action(action).hide(true)
}

// Returns an argument as the option for OUT that other subsetters have.
fn named_out<'a>(arg: Arg<'a>) -> Result<Arg<'a>, AllocError> {
    option(arg, "output-file", "OUT")
        .short('o')
        .required(true)
        .alias("output")
}

// Returns an argument as an option that may have a value.
fn choice<'a>(arg: Arg<'a>, long: &'a str) -> Arg<'a> {
    hidden(arg, long, ArgAction::Append).num_args(0..=1)
}

// Returns an argument in the form in which it is given.
fn in_form<'a>(arg: Arg<'a>, id: &'a str, form: Form) -> Result<Arg<'a>, AllocError> {
    match form {
        Form::Word => Ok(arg.required(true)),
        Form::Words => Ok(words(arg, 0)),
        Form::SomeWords => Ok(words(arg, 1).required(true)),
        Form::Flag => Ok(flag(arg, id)),
        Form::InPlaceOf(others) => flag(arg, id).conflicts_with_all(others),
        Form::KeepsLayout => keeping_layout(flag(arg, id)),
        Form::Value(value) => Ok(option(arg, id, value)),
        Form::Required(value) => Ok(option(arg, id, value).required(true)),
        Form::Values(value) => Ok(repeated(arg, id, value)),
        Form::Texts(value) => Ok(repeated(arg, id, value).allow_hyphen_values(true)),
        Form::Tables(value) => of_tables(repeated(arg, id, value)),
        Form::Short(value, short) => Ok(option(arg, id, value).short(short)),
        Form::Taken => Ok(hidden(arg, id, ArgAction::Count)),
        Form::TakenChoice => Ok(choice(arg, id)),
        Form::TakenValues => Ok(hidden(arg, id, ArgAction::Append)),
        Form::NamedOut => named_out(arg),
    }
}

// Returns the form of an argument of a line that is spelled in some way.
fn form_in(spelling: Spelling, id: &str, form: Form) -> Form {
    if spelling == Spelling::PeersWithOut && id == "OUT" {
        Form::NamedOut
    } else {
        form
    }
}

fn with_arguments<'a>(
    alloc: Global,
    command: Command<'a>,
    arguments: &[Argument],
    spelling: Spelling,
) -> Result<Command<'a>, AllocError> {
    let mut whole = command;
    for &(id, form, help) in arguments {
        let form = form_in(spelling, id, form);
        let arg = in_form(Arg::new(alloc, id).help(help), id, form)?;
        whole = whole.arg(arg)?;
    }
    Ok(whole)
}

// Returns a subcommand with its arguments.
fn with_help<'a>(
    alloc: Global,
    row: Subcommand,
    spelling: Spelling,
) -> Result<Command<'a>, AllocError> {
    let (name, about, after) = row;
    let command = Command::new(alloc, name).about(about).after_help(after);
    with_arguments(alloc, command, arguments_of(name), spelling)
}

/// Returns the subcommand `join`.
pub(crate) fn join_command<'a>(alloc: Global) -> Result<Command<'a>, AllocError> {
    Ok(with_help(alloc, JOIN, Spelling::Own)?.override_usage(texts::JOIN_USAGE))
}

// Returns the subcommand of a row for lines that are spelled in some way.
fn subcommand_of<'a>(
    alloc: Global,
    row: Subcommand,
    spelling: Spelling,
) -> Result<Command<'a>, AllocError> {
    if row.0 == "join" {
        return join_command(alloc);
    }
    if row.0 != "subset" || spelling == Spelling::Own {
        return with_help(alloc, row, Spelling::Own);
    }
    let command = with_help(alloc, row, spelling)?;
    with_arguments(alloc, command, OF_PEERS, spelling)
}

fn row_of(rows: &[Subcommand], name: &str) -> Option<Subcommand> {
    for row in rows {
        if row.0 == name {
            return Some(*row);
        }
    }
    None
}

/// Returns the subcommand of a name, if there is one.
pub(crate) fn subcommand<'a>(
    alloc: Global,
    name: &str,
    spelling: Spelling,
) -> Result<Option<Command<'a>>, AllocError> {
    match row_of(&SUBCOMMANDS, name) {
        Some(row) => Ok(Some(subcommand_of(alloc, row, spelling)?)),
        None => Ok(None),
    }
}

/// Returns a command with all subcommands, in the order in which help lists them.
pub(crate) fn with_subcommands<'a>(
    alloc: Global,
    command: Command<'a>,
    spelling: Spelling,
) -> Result<Command<'a>, AllocError> {
    let mut whole = command;
    for row in SUBCOMMANDS {
        let one = subcommand_of(alloc, row, spelling)?;
        whole = whole.subcommand(one)?;
    }
    Ok(whole)
}
