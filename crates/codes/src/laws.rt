//! What the constants are: the contract of a function with an empty body. The Unicode Standard, Chapter 3, Characters and
//! Encoding.
ghost use Rattle.std.specs.Prelude.{◌≡◌};
ghost use Rattle.codes.specs.declared.code_points.TheConstants.{CODES, LAST_CODE};

/// There are this many code points, and the last one is U+10FFFF.
pub fn code_points_are()
    ensures { (CODES ≡ 1114112) × (LAST_CODE ≡ 0x10FFFF) }
{}
