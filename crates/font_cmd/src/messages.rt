//! What the program says of what fails: the error, its first line, and the lines after it.
pub(crate) mod command_error;
pub(crate) mod details;
pub(crate) mod refused_file;
