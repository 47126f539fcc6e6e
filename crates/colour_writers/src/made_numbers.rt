//! Numbers that are written. OpenType 1.9, Data Types: all are big-endian.
ghost use Rattle.std.specs.Prelude.{◌≡◌, ◌<◌, ◌^◌, ◌++◌, OnErr, OnOk};
ghost use Rattle.sfnt_bytes.specs.Memory.{IsRefused};
ghost use Rattle.colour_tables.specs.MadeLayers.{bytes_of_u16, bytes_of_u24, bytes_of_u32};

use sfnt_bytes::{Memory, NoMemory};

/// Puts a `u16` after what is made.
pub(crate) fn push_u16<A: Memory>(made: &mut Vec<u8, A>, x: u16) -> Result<(), NoMemory>
    ensures made { OnOk result (made.new.items ≡ made.old.items ++ bytes_of_u16 x) }
    ensures memory { OnErr result (IsRefused A.refuses) }
{
    A::append(made, &x.to_be_bytes())
}

/// Puts a `u24` after what is made.
pub(crate) fn push_u24<A: Memory>(made: &mut Vec<u8, A>, x: u32) -> Result<(), NoMemory>
    requires { x < 2 ^ 24 }
    ensures made { OnOk result (made.new.items ≡ made.old.items ++ bytes_of_u24 x) }
    ensures memory { OnErr result (IsRefused A.refuses) }
{
    let bytes = [(x / 65536) as u8, (x / 256 % 256) as u8, (x % 256) as u8];
    A::append(made, &bytes)
}

/// Puts a `u32` after what is made.
pub(crate) fn push_u32<A: Memory>(made: &mut Vec<u8, A>, x: u32) -> Result<(), NoMemory>
    ensures made { OnOk result (made.new.items ≡ made.old.items ++ bytes_of_u32 x) }
    ensures memory { OnErr result (IsRefused A.refuses) }
{
    A::append(made, &x.to_be_bytes())
}
