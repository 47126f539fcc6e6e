//! The rules of a style sheet for slices of a font. CSS Fonts Module Level 4, "Font Resources".
use std::alloc::AllocError;

// Adds a string, in which quotes, backslashes and control characters are escaped.
fn add_string(text: &mut String, string: &str) -> Result<(), AllocError> {
    text.push('"')?;
    for letter in string.chars() {
        if letter.is_control() {
            let code = letter as u32;
            write!(text, "\\{code:x} ")?;
        } else {
            if matches!(letter, '"' | '\\') {
                text.push('\\')?;
            }
            text.push(letter)?;
        }
    }
    text.push('"')
}

// Adds the ranges of a `unicode-range`.
fn add_ranges(text: &mut String, ranges: &[(u32, u32)]) -> Result<(), AllocError> {
    let mut between = "";
    for &(first, last) in ranges {
        if first == last {
            write!(text, "{between}U+{first:X}")?;
        } else {
            write!(text, "{between}U+{first:X}-{last:X}")?;
        }
        between = ", ";
    }
    Ok(())
}

/// Adds the rule of a slice of this name for the codes of these ranges.
///
/// # Errors
/// `AllocError` if out of memory.
pub fn add_rule(
    text: &mut String,
    family: &str,
    name: &str,
    ranges: &[(u32, u32)],
) -> Result<(), AllocError> {
    text.push_str("@font-face {\n  font-family: ")?;
    add_string(text, family)?;
    write!(
        text,
        ";\n  src: url(\"{name}.ttf\") format(\"truetype\");\n"
    )?;
    text.push_str("  unicode-range: ")?;
    add_ranges(text, ranges)?;
    text.push_str(";\n}\n")
}
