//! The variation sequences of a font. OpenType 1.9, cmap, Format 14: Unicode variation sequences.
ghost use Rattle.std.specs.Prelude.{◌≡◌, ◌≤◌, length};
ghost use Rattle.variation_sequences.specs.Encoding.{subtable_of};
ghost use Rattle.variation_sequences.specs.Inside.{IsSelectorRecord};
ghost use Rattle.variation_sequences.specs.declared.strict.TheConstants.{MAX_ENTRIES};
ghost use Rattle.variation_sequences.specs.Sequences.{entries_of, variant_of, variant_under};

use crate::encoding::listed_subtable;
use crate::entries::Entries;
use crate::lists::{Mappings, Ranges, Selectors, mappings_of, ranges_of};
use crate::spans::find_member;
use crate::strict::is_strict;
use crate::variant::Variant;
use std::marker::Model;

/// The variation sequences of a font, as its subtable has them.
#[derive(Drop)]
pub struct Sequences<'a> {
    bytes: &'a [u8],
}

// Their value is the bytes of the subtable.
impl<'a> Model for Sequences<'a> {
    ghost use Rattle.std.specs.Prelude.{◌≡◌, ℕ, List, true};
    ghost use Rattle.variation_sequences.specs.Strict.{is_strict};

    ghost Value = { List ℕ };

    ghost view = { λ q. q.bytes.now };

    ghost invariant = { λ q. is_strict q.bytes.now ≡ true };
}

impl<'a> Sequences<'a> {
    /// Opens the variation sequences of a `cmap`, if it has only one subtable of them, and all in it is in order and in
    /// place. It asks for no memory, and reads each record, range and mapping once or twice.
    #[tactic(auto, unfolding(crate::specs::Encoding::subtable_of, crate::specs::Encoding::if_strict))]
    pub fn open(cmap: &'a [u8]) -> Option<Sequences<'a>>
        ensures { result ≡ subtable_of cmap.now }
    {
        let s = listed_subtable(cmap)?;
        if !is_strict(s) {
            return None;
        }
        Some(Sequences { bytes: s })
    }

    /// Returns what is said of a selector after a code, if anything.
    #[tactic(auto, using(crate::proofs::StrictLemmas::strict_record, crate::proofs::StrictLemmas::strict_selectors), unfolding(crate::specs::Sequences::variant_of))]
    pub fn find(&self, selector: u32, code: u32) -> Option<Variant>
        ensures { result ≡ variant_of self.now selector code }
    {
        let s = self.bytes;
        let k = find_member(&Selectors::of(s), selector)?;
        find_under(s, k, code)
    }

    /// Returns all that is said, in order of selectors and codes. There are 1,048,576 entries at most.
    #[tactic(auto, using(crate::proofs::CountLemmas::few_entries))]
    pub fn entries(&self) -> Entries<'a>
        ensures value { result ≡ entries_of self.now }
        ensures count { length result ≤ MAX_ENTRIES }
    {
        Entries::of(self.bytes)
    }
}

// Returns what a record says of a code.
#[tactic(auto, unfolding(crate::specs::Sequences::variant_in))]
fn find_under(s: &[u8], k: usize, code: u32) -> Option<Variant>
    requires { IsSelectorRecord s.now k }
    ensures { result ≡ variant_under s.now k code }
{
    if find_member(&Ranges::of(ranges_of(s, k)), code).is_some() {
        return Some(Variant::Unchanged);
    }
    let mappings = Mappings::of(mappings_of(s, k));
    let j = find_member(&mappings, code)?;
    Some(Variant::Glyph(mappings.glyph_at(j)))
}
