//! Numbers and padding as bytes. OpenType 1.9, Data Types; Organization of an OpenType Font.
ghost use Rattle.std.specs.Prelude.{◌≡◌, ◌+◌, ◌<◌, ◌≤◌, ◌++◌, length, take, replicate};
ghost use Rattle.sfnt_bytes.specs.Findings.{padding_of};
ghost use Rattle.sfnt_bytes.specs.declared.tag.TheConstants.{ALL_SLOTS};
ghost use Rattle.font_theory.specs.Bytes.{bytes16, bytes32, padded};
ghost use Rattle.font_theory.specs.File.{header_bytes};
ghost use Rattle.font_write.specs.Trace.{HasRoom, Sends};
ghost use Rattle.font_write.specs.declared.bytes.TheConstants.{BLOCK};

use crate::sink::{Sink, Stopped};
use sfnt_bytes::search_fields;

/// Returns how many zeros fill a length to a multiple of 4.
pub(crate) fn padding(length: usize) -> usize
    ensures { result ≡ padding_of length }
{
    (4 - length % 4) % 4
}

/// Returns the bytes of a `u16`.
pub(crate) fn half(x: u16) -> [u8; 2]
    ensures { result ≡ bytes16 x }
{
    x.to_be_bytes()
}

/// Returns the bytes of a `u32`.
#[tactic(auto, using(crate::proofs::NumberLemmas::bytes32_is))]
pub(crate) fn word(x: u32) -> [u8; 4]
    ensures { result ≡ bytes32 x }
{
    x.to_be_bytes()
}

/// Returns the bytes of three `u32`.
pub(crate) fn three_words(x: u32, y: u32, z: u32) -> [u8; 12]
    ensures { result ≡ bytes32 x ++ (bytes32 y ++ bytes32 z) }
{
    let [a, b, c, d] = word(x);
    let [e, f, g, h] = word(y);
    let [i, j, k, l] = word(z);
    [a, b, c, d, e, f, g, h, i, j, k, l]
}

/// Numbers that are sent one after the other are gathered in a block of this number of bytes first: a sink
/// that is asked for each of them alone takes several times as long.
pub(crate) const BLOCK: usize = 1024;

/// Puts the bytes of a `u32` into a block.
pub(crate) fn put_word(block: &mut [u8; BLOCK], at: usize, x: u32)
    requires { at + 4 ≤ BLOCK }
    ensures { take (at + 4) block.new ≡ take at block.old ++ bytes32 x }
{
    let [a, b, c, d] = word(x);
    block[at] = a;
    block[at + 1] = b;
    block[at + 2] = c;
    block[at + 3] = d;
}

// Returns sfntVersion 1.0 and four numbers, as bytes.
fn header_of(count: u16, range: u16, selector: u16, shift: u16) -> [u8; 12]
    ensures { result ≡ bytes32 65536 ++ (bytes16 count ++
        (bytes16 range ++ (bytes16 selector ++ bytes16 shift))) }
{
    let [a, b] = half(count);
    let [c, d] = half(range);
    let [e, f] = half(selector);
    let [g, h] = half(shift);
    [0, 1, 0, 0, a, b, c, d, e, f, g, h]
}

/// Returns the header of a file of this number of tables.
pub(crate) fn header(count: u16) -> [u8; 12]
    requires some { 0 < count }
    requires few { count ≤ ALL_SLOTS }
    ensures { result ≡ header_bytes count }
{
    let (range, selector, shift) = search_fields(count).unwrap_or((0, 0, 0));
    header_of(count, range, selector, shift)
}

/// Sends the bytes of a `u32`.
pub(crate) fn send_word<K: Sink>(x: u32, sink: &mut K) -> Result<(), Stopped>
    requires { HasRoom (K.trace sink.old) 4 }
    ensures { Sends (K.trace sink.old) (K.trace sink.new) (bytes32 x) result }
{
    sink.take(&word(x))
}

/// Sends the zeros that fill a length.
pub(crate) fn send_padding<K: Sink>(length: usize, sink: &mut K) -> Result<(), Stopped>
    requires { HasRoom (K.trace sink.old) (padding_of length) }
    ensures { Sends (K.trace sink.old) (K.trace sink.new) (replicate (padding_of length) 0) result }
{
    sink.take(&[0; 4][..padding(length)])
}

/// Sends bytes, and the zeros that fill them.
pub(crate) fn send_padded<K: Sink>(bytes: &[u8], sink: &mut K) -> Result<(), Stopped>
    requires { HasRoom (K.trace sink.old) (length (padded bytes.now)) }
    ensures { Sends (K.trace sink.old) (K.trace sink.new) (padded bytes.now) result }
{
    sink.take(bytes)?;
    send_padding(bytes.len(), sink)
}
