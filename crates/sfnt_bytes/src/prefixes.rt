//! Sums of tables that lie over each other. OpenType 1.9, Organization of an OpenType Font,
//! Calculating Checksums.
ghost use Rattle.std.specs.Prelude.{◌≡◌, ◌%◌, ◌<◌, ◌≤◌, drop, length, slice_range, take};
ghost use Rattle.sfnt_bytes.specs.Directory.{HasRecords};
ghost use Rattle.sfnt_bytes.specs.Prefixes.{ArePrefixes, IsPrefixSum};
ghost use Rattle.sfnt_bytes.specs.Sums.{checksum_of};

use crate::records::records_in;
use crate::sums::word_sum;
use std::marker::Model;

/// How many bytes lie between two places up to which the sum is kept.
const STRIDE: usize = 262_144;

/// How many sums are kept: for all bytes of the largest file that is read.
const COUNT: usize = 512;

// Returns the sums up to each multiple of the stride.
fn prefixes_of(bytes: &[u8]) -> [u32; COUNT]
    ensures { ArePrefixes bytes.now result }
{
    let mut sums = [0u32; COUNT];
    let mut sum = 0u32;
    let mut rest = bytes;
    for k in 0..COUNT {
        sums[k] = sum;
        let (piece, behind) = rest.split_at(rest.len().min(STRIDE));
        sum = sum.wrapping_add(word_sum(piece));
        rest = behind;
    }
    sums
}

// Returns the sum up to a place.
fn sum_to(bytes: &[u8], sums: &[u32], to: usize) -> u32
    requires sums { ArePrefixes bytes.now sums.now }
    requires within { to ≤ length bytes.now }
    ensures { result ≡ checksum_of (take to bytes.now) }
{
    let k = (to / STRIDE).min(COUNT - 1);
    sums[k].wrapping_add(word_sum(&bytes[k * STRIDE..to]))
}

// Returns the sum of the bytes between two places.
fn sum_between(bytes: &[u8], sums: &[u32], from: usize, to: usize) -> u32
    requires sums { ArePrefixes bytes.now sums.now }
    requires whole { from % 4 ≡ 0 }
    requires order { from ≤ to }
    requires within { to ≤ length bytes.now }
    ensures { result ≡ checksum_of (slice_range bytes.now from to) }
{
    if to - from <= STRIDE {
        return word_sum(&bytes[from..to]);
    }
    sum_to(bytes, sums, to).wrapping_sub(sum_to(bytes, sums, from))
}

// Bytes, and where it pays the sums up to many of their places.
#[derive(Drop)]
struct Prefixes<'a> {
    bytes: &'a [u8],
    kept: bool,
    sums: [u32; COUNT],
}

impl<'a> Model for Prefixes<'a> {
    ghost use Rattle.std.specs.Prelude.{ℕ, List, IsTrue};
    ghost use Rattle.sfnt_bytes.specs.Prefixes.{ArePrefixes};

    ghost Value = { List ℕ };

    ghost view = { λ p. p.bytes.now };

    ghost invariant = { λ p. IsTrue p.kept → ArePrefixes p.bytes.now p.sums };
}

impl<'a> Prefixes<'a> {
    // Returns the bytes of a file from one place on. It pays where the tables that begin at this place
    // of a word lie over each other so much that they have many times the bytes of the file.
    fn of(file: &'a [u8], place: usize) -> Prefixes<'a>
        requires records { HasRecords file.now }
        requires place { place < 4 }
        ensures { result ≡ drop place file.now }
    {
        let bytes = &file[place..];
        let mut total = 0u64;
        for entry in records_in(file) {
            if entry.offset as usize % 4 == place && entry.is_within(file) {
                total = total.saturating_add(u64::from(entry.length));
            }
        }
        if total / 4 <= file.len() as u64 {
            return Prefixes {
                bytes,
                kept: false,
                sums: [0; COUNT],
            };
        }
        Prefixes {
            bytes,
            kept: true,
            sums: prefixes_of(bytes),
        }
    }

    fn sum(&self, from: usize, to: usize) -> u32
        requires whole { from % 4 ≡ 0 }
        requires order { from ≤ to }
        requires within { to ≤ length self.now }
        ensures { result ≡ checksum_of (slice_range self.now from to) }
    {
        if self.kept {
            sum_between(self.bytes, &self.sums, from, to)
        } else {
            word_sum(&self.bytes[from..to])
        }
    }
}

// The sum of the bytes of a file before a place.
#[derive(Clone, Copy)]
struct Front {
    end: usize,
    sum: u32,
}

impl Front {
    // Returns the sum up to the end of a table whose sum is known, or to the last multiple of 4 before
    // it.
    //
    // What lies between is summed here, so the table is passed over unless it has at least as many
    // bytes: other tables may lie there.
    fn over(self, file: &[u8], from: usize, to: usize, sum: u32) -> Front
        requires front { IsPrefixSum file.now self.end self.sum }
        requires order { from ≤ to }
        requires within { to ≤ length file.now }
        requires sum { sum ≡ checksum_of (slice_range file.now from to) }
        ensures { IsPrefixSum file.now result.end result.sum }
    {
        if from % 4 != 0 || from < self.end || from - self.end > to - from {
            return self;
        }
        let end = to - to % 4;
        let gap = word_sum(&file[self.end..from]);
        let last = word_sum(&file[end..to]);
        Front {
            end,
            sum: self
                .sum
                .wrapping_add(gap)
                .wrapping_add(sum)
                .wrapping_sub(last),
        }
    }
}

/// The sums of the tables of a file, and of the file.
///
/// Where tables lie over each other, sums up to many places are kept, apart for each place of a word
/// where a table may begin: the sum of any table is then the difference of two of them and of what
/// lies between these and the table's ends. The sum of the file grows by those of the tables that were
/// asked for, as far as these lie in order.
#[derive(Drop)]
pub(crate) struct TableSums<'a> {
    at_0: Prefixes<'a>,
    at_1: Prefixes<'a>,
    at_2: Prefixes<'a>,
    at_3: Prefixes<'a>,
    front: Front,
}

impl<'a> Model for TableSums<'a> {
    ghost use Rattle.std.specs.Prelude.{◌≡◌, ℕ, ◌≤◌, List, drop, length};
    ghost use Rattle.sfnt_bytes.specs.Prefixes.{ArePlaces, IsPrefixSum};

    ghost Value = { List ℕ };

    ghost view = { λ t. t.at_0 };

    ghost invariant = { λ t. ArePlaces t.at_0 t.at_1 t.at_2 t.at_3
        × IsPrefixSum t.at_0 t.front.end t.front.sum };
}

impl<'a> TableSums<'a> {
    /// Returns the sums of a file that has all the records that it says.
    pub(crate) fn of(file: &'a [u8]) -> TableSums<'a>
        requires { HasRecords file.now }
        ensures { result ≡ file.now }
    {
        TableSums {
            at_0: Prefixes::of(file, 0),
            at_1: Prefixes::of(file, 1),
            at_2: Prefixes::of(file, 2),
            at_3: Prefixes::of(file, 3),
            front: Front { end: 0, sum: 0 },
        }
    }

    /// Returns the file.
    pub(crate) fn file(&self) -> &'a [u8]
        ensures { result.now ≡ self.now }
    {
        self.at_0.bytes
    }

    /// Returns the checksum of the bytes from one place up to another one.
    pub(crate) fn sum(&mut self, from: usize, to: usize) -> u32
        requires order { from ≤ to }
        requires within { to ≤ length self.old }
        ensures sum { result ≡ checksum_of (slice_range self.old from to) }
        ensures file { self.new ≡ self.old }
    {
        let sum = self.sum_between(from, to);
        self.front = self.front.over(self.file(), from, to, sum);
        sum
    }

    /// Returns the checksum of the file.
    pub(crate) fn file_sum(&self) -> u32
        ensures { result ≡ checksum_of self.now }
    {
        let rest = &self.file()[self.front.end..];
        self.front.sum.wrapping_add(word_sum(rest))
    }

    fn sum_between(&self, from: usize, to: usize) -> u32
        requires order { from ≤ to }
        requires within { to ≤ length self.now }
        ensures { result ≡ checksum_of (slice_range self.now from to) }
    {
        let place = from % 4;
        if place == 0 {
            self.at_0.sum(from, to)
        } else if place == 1 {
            self.at_1.sum(from - 1, to - 1)
        } else if place == 2 {
            self.at_2.sum(from - 2, to - 2)
        } else {
            self.at_3.sum(from - 3, to - 3)
        }
    }
}
