//! The texts of the help.

pub(crate) const PROGRAM: &str =
    "Subsets OpenType fonts with TrueType outlines, keeps glyph ids, and joins such subsets (cuts)";

pub(crate) const AFTER_PROGRAM: &str = "\
CUT or FONT, OUT and one of FILES may be -, for standard input or output; ./- is a file of that name.
OUT is replaced atomically.

Exit status: 0 done; 1 a font is refused, check finds something, belongs says no, --strict finds
something missing, or out of memory; 2 usage error; 3 a file cannot be read or written";

pub(crate) const VERBOSE: &str =
    "Says more: what to do if something fails, characters next to codes, and all scripts that a cut loses";

pub(crate) const QUIET: &str =
    "If something fails, prints only the first line of the message; says nothing of what a cut loses";

pub(crate) const CHECK: &str = "Checks FONT: prints each finding, then whether it is accepted";

pub(crate) const AFTER_CHECK: &str = "\
Examples:
  fontcut check font.ttf
  fontcut check - <font.ttf

Exit status: 0 accepted without a finding; 1 a finding, or refused; 2 usage error;
3 a file cannot be read or written";

pub(crate) const SHOW: &str =
    "Shows the counts of FONT, which of its tables a cut keeps or drops, and whether it is a cut";

pub(crate) const AFTER_SHOW: &str = "\
With --verbose it also shows the layout tables, the axes and named instances of a variable font, and
whether FONT is a lean, a layout or a variable cut.

Examples:
  fontcut show font.ttf
  fontcut show font.ttf | grep dropped
  fontcut show font.ttf --verbose

Exit status: 0 shown; 1 the font is refused; 2 usage error; 3 a file cannot be read or written";

pub(crate) const CODES: &str =
    "Prints the codes that FONT maps, ascending, one range a line, as subset --codes-file reads them";

pub(crate) const GLYPHS: &str =
    "Prints a line for each code: the code, its glyph number, and the advance width of the glyph";

pub(crate) const SEQUENCES: &str =
    "Prints the variation sequences of FONT instead, ascending, as lists take them: U+845B+E0100";

pub(crate) const AFTER_CODES: &str = "\
A range is as long as possible: U+41 for one code, U+41-5A for those from U+41 to U+5A. With --glyphs the
lines are like U+41 36 1401, in font units; of these subset --codes-file reads the codes.

Examples:
  fontcut codes font.ttf
  fontcut codes font.ttf --glyphs
  fontcut codes small.ttf | fontcut subset large.ttf cut.ttf --codes-file -

Exit status: 0 printed; 1 the font is refused; 2 usage error; 3 a file cannot be read or written";

pub(crate) const BELONGS: &str =
    "Tells whether CUT is a cut of FONT for some characters: prints yes or no";

pub(crate) const AFTER_BELONGS: &str = "\
If no kind is asked for, a cut of any kind belongs, and a line on standard error says of which kind it is.
CUT may be a join of cuts, or a cut of an earlier version of this program. It does not belong to another
font, or to a version of the font in which something that it keeps differs.

Examples:
  fontcut belongs cut.ttf font.ttf
  fontcut belongs cut.ttf font.ttf >/dev/null || fontcut subset font.ttf cut.ttf U+20-7E

Exit status: 0 yes; 1 no, or a file is refused; 2 usage error; 3 a file cannot be read or written";

pub(crate) const SUBSET: &str =
    "Writes the cut of FONT for the wanted characters to OUT, which is replaced";

pub(crate) const TEXT: &str =
    "Keeps the characters of TEXT, with --layout or --variable also those that it needs; may be repeated";

pub(crate) const TEXT_FILE: &str =
    "The same for a UTF-8 file, without its control characters; may be repeated";

pub(crate) const EXACTLY: &str =
    "With --layout or --variable, texts keep their own characters alone; else this changes nothing";

pub(crate) const CODES_FILE: &str =
    "Keeps the codes of a file of lists in the form of --unicodes; # starts a comment";

pub(crate) const REPORT: &str =
    "Reports on standard error which wanted codes FONT lacks, what the cut drops, and which scripts need that";

pub(crate) const STRICT: &str =
    "Writes nothing, reports, and exits with 1 if FONT lacks a wanted code or none is wanted";

pub(crate) const LEAN: &str =
    "Writes the lean cut: no metrics of glyphs that are not kept, and no glyph names";

pub(crate) const LAYOUT: &str =
    "Writes the layout cut: a lean one with GSUB, GPOS, GDEF, BASE, kern and the substitutes of GSUB";

pub(crate) const VARIABLE: &str =
    "Writes the variable cut: a layout one with the variations (fvar, gvar ..), so it stays variable";

pub(crate) const DROP: &str =
    "Cuts FONT without these layout tables; only GSUB adds glyphs; may be repeated";

pub(crate) const FORCE_SUBSET: &str =
    "Writes even to a name that ends in .woff2 or .woff, and over the font of which FONT is a cut";

pub(crate) const FORCE_SLICE: &str =
    "Writes even to a name that ends in .woff2 or .woff, and over FONT or the font of which it is a cut";

pub(crate) const FORCE_JOIN: &str =
    "Writes even to a name that ends in .woff2 or .woff, and over the font of which FILES are cuts";

pub(crate) const FULL_CUT: &str = "Asks for a full cut, as subset writes it without these options";

pub(crate) const LEAN_CUT: &str = "Asks for a lean cut, as subset --lean writes it";

pub(crate) const LAYOUT_CUT: &str = "Asks for a layout cut, as subset --layout writes it";

pub(crate) const VARIABLE_CUT: &str = "Asks for a variable cut, as subset --variable writes it";

pub(crate) const FONT: &str =
    "The path of a font file with TrueType outlines, or - for standard input";

pub(crate) const OUT: &str = "The path to write to, or - for standard output";

pub(crate) const CUT: &str = "The path of a file that may be a cut, or - for standard input";

pub(crate) const UNICODES: &str =
    "Keeps the codes of LIST: 41-5A,61,U+3B1,U+4?? or a unicode-range of CSS; may be repeated";

pub(crate) const COMPLETE: &str =
    "Keeps the codes of LIST, and the canonical parts of their characters; may be repeated";

pub(crate) const EXCLUDE: &str = "Leaves out the codes of LIST; may be repeated";

pub(crate) const EXCLUDE_FILE: &str = "Leaves out the codes of a file of lists; may be repeated";

pub(crate) const GIDS: &str =
    "With --lean, --layout or --variable, keeps the glyphs of LIST: 5,7-9,0x1F; may be repeated";

pub(crate) const GIDS_FILE: &str =
    "The same for a file of such lists; # starts a comment; may be repeated";

pub(crate) const NO_LAYOUT_CLOSURE: &str =
    "With --layout or --variable, keeps only what is named, and no substitutes of GSUB";

pub(crate) const WORDS: &str =
    "What to keep: all, U+41, U+41-5A, U+845B+E0100; everything is all codes and all glyphs";

pub(crate) const AFTER_SUBSET: &str = "\
A cut keeps the glyph numbers. It drops colours, bitmaps and signatures; fontcut show lists the tables.
Full and lean cuts also drop the layout tables (GSUB, GPOS, GDEF, BASE, kern), which scripts such as
Arabic and Devanagari need: --layout keeps them. A variable cut is a layout cut that also keeps the
variations (fvar, avar, gvar, HVAR, MVAR, STAT, VVAR, cvar), so the font stays variable; other cuts have
its default instance only. The lean cut of a cut is that of its font: --lean with the word all makes a
cut lean.

If a text is already shaped, --gids with the glyph numbers that came and --no-layout-closure give an exact
cut, which is smaller. It shapes the text that it was made for; other text may vanish in it, without a
fallback font.

Examples:
  fontcut subset font.ttf cut.ttf all
  fontcut subset font.ttf cut.ttf --text 'Hello, world'
  fontcut subset font.ttf lean.ttf U+20-7E --lean
  fontcut subset font.ttf arabic.ttf U+20-7E U+600-6FF --layout
  fontcut subset font.ttf kerned.ttf U+20-7E --layout --drop GSUB
  fontcut subset font.ttf variable.ttf U+20-7E --variable
  fontcut subset font.ttf exact.ttf --text office --gids 82,3312,70 --layout --no-layout-closure
  fontcut subset font.ttf cut.ttf U+20-7E --text-file page.txt --report
  fontcut subset font.ttf cut.ttf --unicodes 'U+4??, U+20AC' --exclude 450-45F

Exit status: 0 done; 1 the font is refused, or --strict and a code is not mapped; 2 usage error;
3 a file cannot be read or written";

pub(crate) const SLICE: &str =
    "Writes the cut of FONT for each slice of a file to FOLDER/NAME.ttf, and replaces what is there";

pub(crate) const FOLDER: &str = "The path of a folder, which is made if it does not exist";

pub(crate) const SLICES: &str =
    "The file of slices, in each line a name and a list in the form of --unicodes, or a preset by its name";

pub(crate) const CSS: &str = "Prints CSS rules for the slices, as parts of the family FAMILY";

pub(crate) const STRICT_SLICES: &str =
    "Writes nothing, and exits with 1, if FONT maps no code of a slice";

pub(crate) const LEAN_SLICES: &str = "Writes lean cuts, as subset --lean does";

pub(crate) const LAYOUT_SLICES: &str = "Writes layout cuts, as subset --layout does";

pub(crate) const VARIABLE_SLICES: &str = "Writes variable cuts, as subset --variable does";

pub(crate) const AFTER_SLICE: &str = "\
A line of the file of slices: latin U+20-7E,U+A0-FF; # starts a comment. Presets, such as web, arabic or
japanese, are the files of share/fontcut/slices beside the folder of the program. In lean, layout and
variable cuts the words gid5 and gid7-9 keep glyphs by their numbers. The font is tested once for all
slices. A rule lists the codes of its slice that the font maps; a slice without any has no rule, and is
named on standard error if it has no glyph numbers either.

Examples:
  fontcut slice font.ttf slices --slices slices.txt --lean
  fontcut slice font.ttf slices --slices slices.txt --lean --css 'My Font' >slices/font.css
  fontcut slice font.ttf slices --slices japanese --layout

Exit status: 0 done; 1 the font is refused, or --strict and it maps no code of a slice;
2 usage error, also in the file of slices; 3 a file cannot be read or written";

pub(crate) const JOIN: &str =
    "Joins FILES, cuts of one font, into OUT: the cut for all their characters. OUT is replaced";

pub(crate) const JOIN_USAGE: &str = "fontcut join [OPTIONS] -o <OUT> <FILES>...";

pub(crate) const NO_OUTPUT: &str =
    "no file to join into: name it by -o <OUT>, and the cuts after it";

pub(crate) const FILES: &str = "Cuts of one font, in any order; without -o, the first word is OUT";

pub(crate) const LEAN_JOIN: &str =
    "Joins lean cuts, as subset --lean writes them, into the lean cut";

pub(crate) const LAYOUT_JOIN: &str =
    "Joins layout cuts, as subset --layout writes them, into the layout cut";

pub(crate) const VARIABLE_JOIN: &str =
    "Joins variable cuts, as subset --variable writes them, into the variable cut";

pub(crate) const AFTER_JOIN: &str = "\
A join keeps what its cuts kept, and drops nothing. It is the cut of the font for all their characters.
With --lean only lean cuts join; subset --lean with the word all makes a cut lean.
With --layout only layout cuts join, and with --variable only variable cuts.

Examples:
  fontcut join -o all.ttf latin.ttf greek.ttf
  fontcut join -o all.ttf all.ttf more.ttf
  fontcut join --lean -o all.ttf latin.ttf greek.ttf

Exit status: 0 done; 1 a file is refused, or they are not cuts of one font; 2 usage error;
3 a file cannot be read or written";

pub(crate) const DEMO: &str =
    "Shows what is found in a font of six glyphs, and the sizes of some of its cuts";

pub(crate) const AFTER_DEMO: &str = "\
Examples:
  fontcut demo
  fontcut

Exit status: 0 done; 2 usage error; 3 standard output cannot be written";
