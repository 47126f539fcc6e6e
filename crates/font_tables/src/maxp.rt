//! The maximum profile. OpenType 1.9, `maxp`.
ghost use Rattle.std.specs.Prelude.{◌≡◌, ◌≤◌, length};
ghost use Rattle.font_tables.specs.Fields.{maxp_version, num_glyphs};
ghost use Rattle.font_tables.specs.Refusals.{is_bad_maxp};

use sfnt_bytes::{be16, be32};

/// How many bytes the table has in version 1.0, or more.
const LENGTH: usize = 32;

/// Version 1.0 as a 16.16 number: that of fonts with TrueType outlines.
const VERSION_1: u32 = 0x0001_0000;

#[tactic(auto, unfolding(crate::specs::Fields::maxp_version))]
fn read_version(maxp: &[u8]) -> u32
    requires { 32 ≤ length maxp.now }
    ensures { result ≡ maxp_version maxp.now }
{
    be32(maxp, 0)
}

#[tactic(auto, unfolding(crate::specs::Fields::num_glyphs))]
pub(crate) fn read_num_glyphs(maxp: &[u8]) -> u16
    requires { 32 ≤ length maxp.now }
    ensures { result ≡ num_glyphs maxp.now }
{
    be16(maxp, 4)
}

/// Returns whether the table is refused.
pub(crate) fn has_bad_maxp(maxp: &[u8]) -> bool
    ensures { result ≡ is_bad_maxp maxp.now }
{
    maxp.len() < LENGTH || read_version(maxp) != VERSION_1 || read_num_glyphs(maxp) == 0
}
