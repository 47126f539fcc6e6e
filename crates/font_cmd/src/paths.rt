//! Files that the program reads and writes, and the fonts that it does not replace.
pub(crate) mod inputs;
pub(crate) mod kept_font;
pub(crate) mod locked_file;
pub(crate) mod output;
pub(crate) mod regular_files;
