//! Options of other subsetters that have no counterpart here, and what serves in their place: pyftsubset (fontTools) and
//! hb-subset (HarfBuzz). The manual has the same table but for
//! `--glyph-names`, which full cuts take, and a test compares them.

// Fonts are written in one form.
const TRUE_TYPE: &str = "OUT is a TrueType file; woff2_compress makes a WOFF2 file of it";

const GLYPHS: &str =
    "nothing: subset chooses glyphs by characters, and by their numbers with --gids";

const RECOMMENDED: &str = "nothing: a cut keeps glyph 0 and those that are asked for";

const EVERYTHING: &str = "all keeps each character, and everything each glyph";

const TABLES: &str = "nothing: which tables a cut keeps is fixed; fontcut show lists them";

const ORDER: &str = "nothing: the order of the tables is fixed";

const DROP: &str = "--layout --drop TABLES leaves out layout tables; the others are fixed";

const LAYOUT: &str = "--layout keeps the layout tables whole, and the glyphs that GSUB puts";

const FEATURES: &str = "--layout keeps all features; fontcut-web prepare makes fonts with fewer";

const SCRIPTS: &str = "--layout keeps all scripts; fontcut-web prepare makes fonts with fewer";

const KERN: &str = "--layout keeps the table kern, and --drop kern leaves it out";

const MIRRORED: &str = "--text with --layout keeps the mirrored characters, too";

const INSTANCE: &str =
    "a cut has the default, with --variable all; fontcut-web prepare makes others";

const NO_HINTING: &str = "fontcut-web prepare --no-hinting makes a font without; a cut keeps it";

const OUTLINES: &str = "nothing: a cut keeps outlines and variation data as they are";

const VALUES: &str = "nothing: a cut keeps such values of its font";

const CFF: &str = "nothing: fonts with CFF outlines are refused";

const CMAP: &str = "nothing: the cmap of a cut has one subtable, of format 12";

const GLYPH_NAMES: &str = "nothing: full cuts alone keep the names of glyphs";

const NO_GLYPH_NAMES: &str = "--lean leaves out the names of glyphs";

const NAMES: &str = "a cut keeps the table name; fontcut-web prepare makes fonts with few names";

const COLLECTION: &str = "nothing: collections are refused; fontTools takes a font out of one";

const ONE_CUT: &str = "nothing: subset makes one cut; fontcut slice makes several";

const TABLES_AS_TEXT: &str = "nothing: ttx of fontTools prints tables";

// Each option, and what serves in its place.
const PEERS: [(&str, &str); 50] = [
    ("--flavor", TRUE_TYPE),
    ("--with-zopfli", TRUE_TYPE),
    ("--glyphs", GLYPHS),
    ("--glyphs-file", GLYPHS),
    ("--recommended-glyphs", RECOMMENDED),
    ("--keep-everything", EVERYTHING),
    ("--drop-tables", DROP),
    ("--drop-tables+", DROP),
    ("--drop-tables-", DROP),
    ("--no-subset-tables", TABLES),
    ("--passthrough-tables", TABLES),
    ("--hinting-tables", TABLES),
    ("--canonical-order", ORDER),
    ("--no-canonical-order", ORDER),
    ("--layout-features", FEATURES),
    ("--layout-features+", FEATURES),
    ("--layout-features-", FEATURES),
    ("--layout-scripts", SCRIPTS),
    ("--layout-scripts+", SCRIPTS),
    ("--layout-scripts-", SCRIPTS),
    ("--layout-closure", LAYOUT),
    ("--harfbuzz-repacker", LAYOUT),
    ("--legacy-kern", KERN),
    ("--bidi-closure", MIRRORED),
    ("--variations", INSTANCE),
    ("--instance", INSTANCE),
    ("--no-hinting", NO_HINTING),
    ("--set-overlaps-flag", OUTLINES),
    ("--optimize", OUTLINES),
    ("--recalc-bounds", VALUES),
    ("--recalc-timestamp", VALUES),
    ("--recalc-average-width", VALUES),
    ("--recalc-max-context", VALUES),
    ("--prune-unicode-ranges", VALUES),
    ("--prune-codepage-ranges", VALUES),
    ("--desubroutinize", CFF),
    ("--legacy-cmap", CMAP),
    ("--symbol-cmap", CMAP),
    ("--glyph-names", GLYPH_NAMES),
    ("--no-glyph-names", NO_GLYPH_NAMES),
    ("--name-IDs", NAMES),
    ("--name-languages", NAMES),
    ("--name-legacy", NAMES),
    ("--obfuscate-names", NAMES),
    ("--font-number", COLLECTION),
    ("--face-index", COLLECTION),
    ("--batch", ONE_CUT),
    ("--xml", TABLES_AS_TEXT),
    ("--font-file", "FONT is the word after subset"),
    (
        "--no-bidi-closure",
        "--exactly keeps the characters of texts alone",
    ),
];

// Returns what stands beside an option in some rows.
fn found<'a>(rows: &[(&str, &'a str)], option: &str) -> Option<&'a str> {
    for (name, answer) in rows {
        if *name == option {
            return Some(*answer);
        }
    }
    None
}

/// Returns what serves here in the place of an option of other subsetters, or that nothing does.
pub(crate) fn served(option: &str) -> Option<&'static str> {
    found(&PEERS, option)
}
