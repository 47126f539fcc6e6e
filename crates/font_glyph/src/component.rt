//! The components of a composite glyph. OpenType 1.9, `glyf`, Composite Glyph Description.
ghost use Rattle.std.specs.Prelude.{◌≡◌, ◌*◌, ◌≤◌, drop, length, IfNone, IfSome};
ghost use Rattle.std.specs.Iterator.{YieldsFirst, item_count};
ghost use Rattle.font_glyph.specs.Component.{StartsWith, component_size, has_more};
ghost use Rattle.font_glyph.specs.Record.{ComponentList, HasList};
ghost use Rattle.font_glyph.specs.declared.component.Component.{Component};

use sfnt_bytes::be16;
use std::marker::Model;

/// How many bytes of a record stand before its components: `numberOfContours` and the bounds.
pub(crate) const HEADER: usize = 10;

/// From this first byte on, `numberOfContours` is below 0: the glyph is a composite.
pub(crate) const NEGATIVE: u8 = 0x80;

const ARG_1_AND_2_ARE_WORDS: u16 = 0x0001;

const WE_HAVE_A_SCALE: u16 = 0x0008;

const MORE_COMPONENTS: u16 = 0x0020;

const WE_HAVE_AN_X_AND_Y_SCALE: u16 = 0x0040;

const WE_HAVE_A_TWO_BY_TWO: u16 = 0x0080;

/// A component of a composite glyph. Where it is placed is not read.
#[derive(Clone, Copy, Debug, PartialEq, Eq)]
pub struct Component {
    /// The component's flags, as they stand.
    pub flags: u16,
    /// The glyph that is the component.
    pub glyph: u16,
}

impl Component {
    /// Returns whether another component follows.
    pub(crate) fn has_more(self) -> bool
        ensures { result ≡ has_more self.flags }
    {
        self.flags & MORE_COMPONENTS != 0
    }
}

// Returns how many bytes a component has: flags, glyph, arguments and scales. Of several flags for
// scales the first counts.
#[tactic(auto, unfolding(crate::specs::Component::component_size))]
fn size_of_component(flags: u16) -> usize
    ensures { result ≡ component_size flags }
{
    let arguments = if flags & ARG_1_AND_2_ARE_WORDS != 0 {
        4
    } else {
        2
    };
    let scales = if flags & WE_HAVE_A_SCALE != 0 {
        2
    } else if flags & WE_HAVE_AN_X_AND_Y_SCALE != 0 {
        4
    } else if flags & WE_HAVE_A_TWO_BY_TWO != 0 {
        8
    } else {
        0
    };
    4 + arguments + scales
}

/// Returns the component that the bytes begin with, where all of it is there, and what follows it.
pub(crate) fn split_component(b: &[u8]) -> Option<(Component, &[u8])>
    ensures none { IfNone result ((component : Component) → StartsWith b.now component → ⊥) }
    ensures first { IfSome result (λ split. StartsWith b.now split.0) }
    ensures rest { IfSome result (λ split. split.1.now ≡ drop (component_size split.0.flags) b.now) }
{
    if b.len() < 4 {
        return None;
    }
    let flags = be16(b, 0);
    let glyph = be16(b, 2);
    let size = size_of_component(flags);
    if b.len() < size {
        return None;
    }
    Some((Component { flags, glyph }, &b[size..]))
}

/// The components of a record, in order: none of an empty or a simple one.
#[derive(Drop)]
pub struct Components<'a> {
    rest: &'a [u8],
    live: bool,
}

impl<'a> Model for Components<'a> {
    ghost use Rattle.std.specs.Prelude.{◌≡◌, List, [], true, if◌then◌else◌};
    ghost use Rattle.font_glyph.specs.Record.{HasChain, chain_in};
    ghost use Rattle.font_glyph.specs.declared.component.Component.{Component};

    ghost Value = { List Component };

    ghost view = { λ c. if c.live then chain_in c.rest.now else [] };

    ghost invariant = { λ c. c.live ≡ true → HasChain c.rest.now };
}

impl<'a> Components<'a> {
    /// Returns the components of a record that [`check_record`](crate::check_record) accepts, in order.
    /// OpenType 1.9, glyf, Composite Glyph Description.
    #[tactic(auto, unfolding(crate::specs::Record::HasList))]
    pub fn of(b: &'a [u8]) -> Components<'a>
        requires { HasList b.now }
        ensures list { ComponentList b.now result }
        ensures count { 6 * length result ≤ length b.now }
    {
        if b.is_empty() || b[0] < NEGATIVE {
            return Components {
                rest: b,
                live: false,
            };
        }
        Components {
            rest: &b[HEADER..],
            live: true,
        }
    }
}

impl<'a> Iterator for Components<'a> {
    type Item = Component;

    ghost next_gives = { YieldsFirst (λ s. s) };

    ghost remaining = { item_count (λ s. s) };

    fn next(&mut self) -> Option<Component> {
        if !self.live {
            return None;
        }
        let (component, rest) = split_component(self.rest)?;
        self.live = component.has_more();
        self.rest = rest;
        Some(component)
    }
}
