//! Code points. The Unicode Standard, Chapter 3, Characters and Encoding.

/// The last code point.
pub const LAST_CODE: u32 = 0x10FFFF;

/// How many code points there are.
pub const CODES: u32 = 0x110000;
