//! Colour tables that are open. OpenType 1.9, COLR.
ghost use Rattle.std.specs.Prelude.{◌≡◌, ◌<◌, ◌≤◌, ◌++◌, ℕ, OnErr, OnOk, find, nat_eq, IfSome, IsFalse, IsTrue, MatchOption, true, false, is_some};
ghost use Rattle.sfnt_bytes.specs.Memory.{IsRefused};
ghost use Rattle.sfnt_bytes.specs.Number.{u32_at};
ghost use Rattle.colour_tables.specs.NamedGlyphs.{colour_names, layer_names};
ghost use Rattle.std.specs.Option.{option_and_then, option_map};
ghost use Rattle.colour_tables.specs.ListedGlyphs.{said_of};
ghost use Rattle.colour_tables.specs.LayerLists.{base_count, bases_of, has_layer_lists, layers_at, layers_of};
ghost use Rattle.colour_tables.specs.PaintLists.{box_at, clip_place, clips_of, colour_at, count_at, has_paint_lists, paint_at, roots_of, tree_in};
ghost use Rattle.colour_tables.specs.LayerLists.{is_layer_table};
ghost use Rattle.colour_tables.specs.PaintLists.{has_colour, is_paint_table};
ghost use Rattle.colour_readers.specs.RowsOf.{AreRowsAt};
ghost use Rattle.colour_readers.specs.Subtrees.{tree_of};

use crate::fields::{u16_at, u32_at};
use crate::glyph_layers::GlyphLayers;
use crate::glyph_names::{add_layers, add_tree};
use crate::layer_lists::{base_at, count_bases, has_same_layers, is_layer_table};
use crate::paint_lists::{clip_at, is_paint_table, root_at};
use crate::paint_trees::is_same_tree;
use crate::rows::{Rows, has_no_row, has_row, row_of};
use crate::shapes::count_at;
use crate::subtrees::tree_in;
use crate::table_tree::TableTree;
use colour_tables::{Base, Kind};
use sfnt_bytes::{Memory, NoMemory};
use std::marker::Model;

// Returns the BaseGlyph records.
#[tactic(auto, unfolding(colour_tables::specs::LayerLists::base_count))]
fn base_rows(t: &[u8]) -> Rows<'_>
    ensures { AreRowsAt t.now (u32_at t.now 4) 0 6 0 (base_count t.now) result }
{
    Rows {
        bytes: t,
        list: u32_at(t, 4),
        before: 0,
        size: 6,
        last: 0,
        count: u32::from(u16_at(t, 2)),
    }
}

// Returns the BaseGlyphPaintRecords.
fn root_rows(t: &[u8]) -> Rows<'_>
    ensures { AreRowsAt t.now (u32_at t.now 14) 4 6 0 (count_at t.now (u32_at t.now 14) 0) result }
{
    let list = u32_at(t, 14);
    Rows {
        bytes: t,
        list,
        before: 4,
        size: 6,
        last: 0,
        count: count_at(t, list, 0),
    }
}

// Returns the Clips.
fn clip_rows(t: &[u8]) -> Rows<'_>
    ensures { AreRowsAt t.now (u32_at t.now 22) 5 7 2 (count_at t.now (u32_at t.now 22) 1) result }
{
    let list = u32_at(t, 22);
    Rows {
        bytes: t,
        list,
        before: 5,
        size: 7,
        last: 2,
        count: count_at(t, list, 1),
    }
}

// Returns whether a table says of a glyph which layers it has.
fn has_layers(t: &[u8], g: u16) -> bool
    requires { (n : ℕ) × (has_layer_lists n t.now ≡ true) }
    ensures { result ≡ is_some (layers_at t.now g) }
{
    let rows = base_rows(t);
    has_row(&rows, g)
}

// Returns whether a table surely says of no glyph, from one on and below another, which layers it has.
fn has_no_layers(t: &[u8], from: u16, to: u16) -> bool
    requires { (n : ℕ) × (has_layer_lists n t.now ≡ true) }
    ensures { IsTrue result → (g : ℕ) → from ≤ g → g < to → is_some (layers_at t.now g) ≡ false }
{
    let rows = base_rows(t);
    has_no_row(&rows, from, to)
}

// Returns whether a table says of a glyph which paint it has.
fn has_paint(t: &[u8], g: u16) -> bool
    requires { (n : ℕ) × (has_paint_lists n t.now ≡ true) }
    ensures { (n : ℕ) → has_paint_lists n t.now ≡ true → result ≡ is_some (paint_at n t.now g) }
{
    let rows = root_rows(t);
    has_row(&rows, g)
}

// Returns whether a table surely says of no glyph, from one on and below another, which paint it has.
fn has_no_paint(t: &[u8], from: u16, to: u16) -> bool
    requires { (n : ℕ) × (has_paint_lists n t.now ≡ true) }
    ensures { IsTrue result → (n g : ℕ) → has_paint_lists n t.now ≡ true → from ≤ g → g < to →
        is_some (paint_at n t.now g) ≡ false }
{
    let rows = root_rows(t);
    has_no_row(&rows, from, to)
}

// Returns whether a table says of a glyph which clip box it has.
fn has_box(t: &[u8], g: u16) -> bool
    requires { (n : ℕ) × (has_paint_lists n t.now ≡ true) }
    ensures { (n : ℕ) → has_paint_lists n t.now ≡ true → result ≡ is_some (box_at n t.now g) }
{
    let rows = clip_rows(t);
    has_row(&rows, g)
}

// Returns whether a table surely says of no glyph, from one on and below another, which clip box it has.
fn has_no_box(t: &[u8], from: u16, to: u16) -> bool
    requires { (n : ℕ) × (has_paint_lists n t.now ≡ true) }
    ensures { IsTrue result → (n g : ℕ) → has_paint_lists n t.now ≡ true → from ≤ g → g < to →
        is_some (box_at n t.now g) ≡ false }
{
    let rows = clip_rows(t);
    has_no_row(&rows, from, to)
}

// Returns the place of the paint of a glyph.
fn paint_place(t: &[u8], g: u16) -> Option<usize>
    requires { (n : ℕ) × (has_paint_lists n t.now ≡ true) }
    ensures { result ≡ said_of g (roots_of t.now) }
{
    let rows = root_rows(t);
    match row_of(&rows, g) {
        Some(i) => Some(root_at(t, i).place),
        None => None,
    }
}

// Returns the place of the clip box of a glyph.
fn box_place(t: &[u8], g: u16) -> Option<usize>
    requires { (n : ℕ) × (has_paint_lists n t.now ≡ true) }
    ensures { result ≡ clip_place g (clips_of t.now) }
{
    let rows = clip_rows(t);
    match row_of(&rows, g) {
        Some(i) => Some(clip_at(t, i).place),
        None => None,
    }
}

// Returns whether trees at places, if there are any, are the same.
fn is_same_at(
    t: &[u8],
    u: &[u8],
    n: u16,
    at: Option<usize>,
    other: Option<usize>,
    kind: Kind,
) -> bool
    requires first { IfSome at (λ x. is_some (tree_in n t.now kind x) ≡ true) }
    requires second { IfSome other (λ x. is_some (tree_in n u.now kind x) ≡ true) }
    ensures same { IsTrue result → option_and_then (tree_in n t.now kind) at
        ≡ option_and_then (tree_in n u.now kind) other }
    ensures other { IsFalse result → option_and_then (tree_in n t.now kind) at
        ≡ option_and_then (tree_in n u.now kind) other → ⊥ }
{
    match (at, other) {
        (Some(at), Some(other)) => is_same_tree(t, u, n, at, other, kind),
        (None, None) => true,
        _ => false,
    }
}

// Returns whether two tables say the same of the paint of a glyph.
fn is_same_paint(t: &[u8], u: &[u8], n: u16, g: u16) -> bool
    requires first { has_paint_lists n t.now ≡ true }
    requires second { has_paint_lists n u.now ≡ true }
    ensures same { IsTrue result → paint_at n t.now g ≡ paint_at n u.now g }
    ensures other { IsFalse result → paint_at n t.now g ≡ paint_at n u.now g → ⊥ }
{
    let at = paint_place(t, g);
    let other = paint_place(u, g);
    is_same_at(t, u, n, at, other, Kind::Paint)
}

// Returns whether two tables say the same of the clip box of a glyph.
fn is_same_box(t: &[u8], u: &[u8], n: u16, g: u16) -> bool
    requires first { has_paint_lists n t.now ≡ true }
    requires second { has_paint_lists n u.now ≡ true }
    ensures same { IsTrue result → box_at n t.now g ≡ box_at n u.now g }
    ensures other { IsFalse result → box_at n t.now g ≡ box_at n u.now g → ⊥ }
{
    let at = box_place(t, g);
    let other = box_place(u, g);
    is_same_at(t, u, n, at, other, Kind::ClipBox)
}

// Returns the record of a base glyph.
fn base_of(t: &[u8], g: u16) -> Option<Base>
    requires { (n : ℕ) × (has_layer_lists n t.now ≡ true) }
    ensures { result ≡ find (λ b. nat_eq b.glyph g) (bases_of t.now) }
{
    let rows = base_rows(t);
    let _count = count_bases(t);
    match row_of(&rows, g) {
        Some(i) => Some(base_at(t, i as u16)),
        None => None,
    }
}

// Returns whether base glyphs, if there are any, have the same layers.
fn is_same_of(t: &[u8], u: &[u8], base: Option<Base>, other: Option<Base>) -> bool
    ensures same { IsTrue result → option_map (layers_of t.now) base ≡ option_map (layers_of u.now) other }
    ensures other { IsFalse result → option_map (layers_of t.now) base ≡ option_map (layers_of u.now) other → ⊥ }
{
    match (base, other) {
        (Some(base), Some(other)) => has_same_layers(t, base, u, other),
        (None, None) => true,
        _ => false,
    }
}

// Returns whether two tables say the same of the layers of a glyph.
fn is_same_layers(t: &[u8], u: &[u8], g: u16) -> bool
    requires first { (n : ℕ) × (has_layer_lists n t.now ≡ true) }
    requires second { (n : ℕ) × (has_layer_lists n u.now ≡ true) }
    ensures same { IsTrue result → layers_at t.now g ≡ layers_at u.now g }
    ensures other { IsFalse result → layers_at t.now g ≡ layers_at u.now g → ⊥ }
{
    let base = base_of(t, g);
    let other = base_of(u, g);
    is_same_of(t, u, base, other)
}

// Returns the layers of a glyph.
fn layers_of(t: &[u8], g: u16) -> Option<GlyphLayers<'_>>
    requires { (n : ℕ) × (has_layer_lists n t.now ≡ true) }
    ensures { result ≡ layers_at t.now g }
{
    match base_of(t, g) {
        Some(base) => Some(GlyphLayers::of(t, base)),
        None => None,
    }
}

// Returns the tree of a kind at a place, if there is one.
fn tree_of(t: &[u8], n: u16, at: Option<usize>, kind: Kind) -> Option<TableTree<'_>>
    requires { IfSome at (λ x. is_some (tree_in n t.now kind x) ≡ true) }
    ensures { option_map tree_of result ≡ option_and_then (tree_in n t.now kind) at }
{
    match at {
        Some(at) => Some(tree_in(t, n, at, kind)),
        None => None,
    }
}

// Returns the paint of a glyph.
fn paint_of(t: &[u8], n: u16, g: u16) -> Option<TableTree<'_>>
    requires { has_paint_lists n t.now ≡ true }
    ensures { option_map tree_of result ≡ paint_at n t.now g }
{
    let at = paint_place(t, g);
    tree_of(t, n, at, Kind::Paint)
}

// Returns the clip box of a glyph.
fn box_of(t: &[u8], n: u16, g: u16) -> Option<TableTree<'_>>
    requires { has_paint_lists n t.now ≡ true }
    ensures { option_map tree_of result ≡ box_at n t.now g }
{
    let at = box_place(t, g);
    tree_of(t, n, at, Kind::ClipBox)
}

/// A colour table of version 0 that is divided.
#[derive(Drop)]
pub struct LayerTable<'t> {
    bytes: &'t [u8],
    count: u16,
}

// Its value is its bytes, and the number of glyphs.
impl<'t> Model for LayerTable<'t> {
    ghost use Rattle.std.specs.Prelude.{◌≡◌, ℕ, List, true};
    ghost use Rattle.colour_tables.specs.LayerLists.{is_layer_table};

    ghost Value = { List ℕ × ℕ };

    ghost view = { λ t. (t.bytes.now, t.count) };

    ghost invariant = { λ t. is_layer_table t.count t.bytes.now ≡ true };
}

impl<'t> LayerTable<'t> {
    /// Opens a table among so many glyphs, if it is of version 0, and divided.
    pub fn open(bytes: &'t [u8], count: u16) -> Option<LayerTable<'t>>
        ensures { MatchOption result (is_layer_table count bytes.now ≡ false)
            (λ t. (t ≡ (bytes.now, count)) × (is_layer_table count bytes.now ≡ true)) }
    {
        if !is_layer_table(bytes, count) {
            return None;
        }
        Some(LayerTable { bytes, count })
    }

    /// Returns whether anything is said of a glyph.
    #[tactic(auto, unfolding(colour_tables::specs::LayerLists::is_layer_table))]
    pub fn has(&self, g: u16) -> bool
        ensures { result ≡ is_some (layers_at self.now.0 g) }
    {
        has_layers(self.bytes, g)
    }

    /// Returns whether surely nothing is said of glyphs from one on and below another.
    #[tactic(auto, unfolding(colour_tables::specs::LayerLists::is_layer_table))]
    pub fn has_none(&self, from: u16, to: u16) -> bool
        ensures { IsTrue result → (g : ℕ) → from ≤ g → g < to → is_some (layers_at self.now.0 g) ≡ false }
    {
        has_no_layers(self.bytes, from, to)
    }

    /// Returns whether another table says the same of a glyph.
    #[tactic(auto, unfolding(colour_tables::specs::LayerLists::is_layer_table))]
    pub fn is_same(&self, other: &LayerTable<'_>, g: u16) -> bool
        ensures same { IsTrue result → layers_at self.now.0 g ≡ layers_at other.now.0 g }
        ensures other { IsFalse result → layers_at self.now.0 g ≡ layers_at other.now.0 g → ⊥ }
    {
        is_same_layers(self.bytes, other.bytes, g)
    }
    /// Returns its bytes.
    pub fn bytes(&self) -> &'t [u8]
        ensures { result.now ≡ self.now.0 }
    {
        self.bytes
    }

    /// Returns the number of glyphs.
    pub fn count(&self) -> u16
        ensures { result ≡ self.now.1 }
    {
        self.count
    }

    /// Returns the layers of a glyph.
    #[tactic(auto, unfolding(colour_tables::specs::LayerLists::is_layer_table))]
    pub fn layers(&self, g: u16) -> Option<GlyphLayers<'t>>
        ensures { result ≡ layers_at self.now.0 g }
    {
        layers_of(self.bytes, g)
    }

    /// Puts the glyphs that the layers of a glyph name after others.
    ///
    /// # Errors
    ///
    /// `NoMemory` if out of memory.
    pub fn add_names<A: Memory>(&self, g: u16, names: &mut Vec<u16, A>) -> Result<(), NoMemory>
        ensures names { OnOk result
            (names.new.items ≡ names.old.items ++ layer_names (layers_at self.now.0 g)) }
        ensures memory { OnErr result (IsRefused A.refuses) }
    {
        match self.layers(g) {
            Some(layers) => add_layers(&layers, names),
            None => Ok(()),
        }
    }
}

/// A colour table of version 1 that is divided.
#[derive(Drop)]
pub struct PaintTable<'t> {
    bytes: &'t [u8],
    count: u16,
}

// Its value is its bytes, and the number of glyphs.
impl<'t> Model for PaintTable<'t> {
    ghost use Rattle.std.specs.Prelude.{◌≡◌, ℕ, List, true};
    ghost use Rattle.colour_tables.specs.PaintLists.{is_paint_table};

    ghost Value = { List ℕ × ℕ };

    ghost view = { λ t. (t.bytes.now, t.count) };

    ghost invariant = { λ t. is_paint_table t.count t.bytes.now ≡ true };
}

impl<'t> PaintTable<'t> {
    /// Opens a table among so many glyphs, if it is of version 1, and divided.
    pub fn open(bytes: &'t [u8], count: u16) -> Option<PaintTable<'t>>
        ensures { MatchOption result (is_paint_table count bytes.now ≡ false)
            (λ t. (t ≡ (bytes.now, count)) × (is_paint_table count bytes.now ≡ true)) }
    {
        if !is_paint_table(bytes, count) {
            return None;
        }
        Some(PaintTable { bytes, count })
    }

    /// Returns whether anything is said of a glyph.
    #[tactic(auto, unfolding(colour_tables::specs::PaintLists::is_paint_table))]
    pub fn has(&self, g: u16) -> bool
        ensures { result ≡ has_colour (colour_at self.now.1 self.now.0 g) }
    {
        let layers = has_layers(self.bytes, g);
        let paint = has_paint(self.bytes, g);
        let clip = has_box(self.bytes, g);
        layers || paint || clip
    }

    /// Returns whether surely nothing is said of glyphs from one on and below another.
    #[tactic(auto, unfolding(colour_tables::specs::PaintLists::is_paint_table))]
    pub fn has_none(&self, from: u16, to: u16) -> bool
        ensures { IsTrue result → (g : ℕ) → from ≤ g → g < to →
            has_colour (colour_at self.now.1 self.now.0 g) ≡ false }
    {
        let layers = has_no_layers(self.bytes, from, to);
        let paint = has_no_paint(self.bytes, from, to);
        let clip = has_no_box(self.bytes, from, to);
        layers && paint && clip
    }

    /// Returns whether another table says the same of a glyph.
    #[tactic(auto, unfolding(colour_tables::specs::PaintLists::is_paint_table))]
    pub fn is_same(&self, other: &PaintTable<'_>, g: u16) -> bool
        requires { self.now.1 ≡ other.now.1 }
        ensures same { IsTrue result →
            colour_at self.now.1 self.now.0 g ≡ colour_at other.now.1 other.now.0 g }
        ensures other { IsFalse result →
            colour_at self.now.1 self.now.0 g ≡ colour_at other.now.1 other.now.0 g → ⊥ }
    {
        let layers = is_same_layers(self.bytes, other.bytes, g);
        let paint = is_same_paint(self.bytes, other.bytes, self.count, g);
        let clip = is_same_box(self.bytes, other.bytes, self.count, g);
        layers && paint && clip
    }
    /// Returns its bytes.
    pub fn bytes(&self) -> &'t [u8]
        ensures { result.now ≡ self.now.0 }
    {
        self.bytes
    }

    /// Returns the number of glyphs.
    pub fn count(&self) -> u16
        ensures { result ≡ self.now.1 }
    {
        self.count
    }

    /// Returns the layers of a glyph.
    #[tactic(auto, unfolding(colour_tables::specs::PaintLists::is_paint_table))]
    pub fn layers(&self, g: u16) -> Option<GlyphLayers<'t>>
        ensures { result ≡ layers_at self.now.0 g }
    {
        layers_of(self.bytes, g)
    }

    /// Returns the paint of a glyph.
    #[tactic(auto, unfolding(colour_tables::specs::PaintLists::is_paint_table))]
    pub fn paint(&self, g: u16) -> Option<TableTree<'t>>
        ensures { option_map tree_of result ≡ paint_at self.now.1 self.now.0 g }
    {
        paint_of(self.bytes, self.count, g)
    }

    /// Returns the clip box of a glyph.
    #[tactic(auto, unfolding(colour_tables::specs::PaintLists::is_paint_table))]
    pub fn clip_box(&self, g: u16) -> Option<TableTree<'t>>
        ensures { option_map tree_of result ≡ box_at self.now.1 self.now.0 g }
    {
        box_of(self.bytes, self.count, g)
    }

    /// Puts the glyphs that the colours of a glyph name after others.
    ///
    /// # Errors
    ///
    /// `NoMemory` if out of memory.
    pub fn add_names<A: Memory>(&self, g: u16, names: &mut Vec<u16, A>) -> Result<(), NoMemory>
        ensures names { OnOk result
            (names.new.items ≡ names.old.items ++ colour_names (colour_at self.now.1 self.now.0 g)) }
        ensures memory { OnErr result (IsRefused A.refuses) }
    {
        if let Some(layers) = self.layers(g) {
            add_layers(&layers, names)?;
        }
        match self.paint(g) {
            Some(paint) => add_tree(&paint, Kind::Paint, names),
            None => Ok(()),
        }
    }
}
