//! The glyphs that colours name. OpenType 1.9, COLR, Layer records; PaintGlyph; PaintColrGlyph.
ghost use Rattle.std.specs.Prelude.{◌≡◌, ◌∷◌, ◌+◌, ◌<◌, ◌++◌, ℕ, List, OnErr, OnOk, Some, drop, length, map};
ghost use Rattle.sfnt_bytes.specs.Memory.{IsRefused};
ghost use Rattle.colour_tables.specs.NamedGlyphs.{layer_names, named_by};
ghost use Rattle.colour_tables.specs.Paints.{kinds_below};
ghost use Rattle.colour_readers.specs.Subtrees.{tree_names, tree_of};

use crate::fields::u16_at;
use crate::glyph_layers::GlyphLayers;
use crate::table_tree::TableTree;
use colour_tables::{Kind, Shape};
use sfnt_bytes::{Memory, NoMemory};

/// The formats of paints that name a glyph: PaintGlyph, PaintColrGlyph.
const GLYPH: u8 = 10;

const COLOUR_GLYPH: u8 = 11;

/// Puts the glyphs of layers after others.
pub(crate) fn add_layers<A: Memory>(
    layers: &GlyphLayers<'_>,
    names: &mut Vec<u16, A>,
) -> Result<(), NoMemory>
    ensures names { OnOk result (names.new.items ≡ names.old.items ++ layer_names (Some layers.now)) }
    ensures memory { OnErr result (IsRefused A.refuses) }
{
    for j in 0..layers.count() {
        A::push(names, layers.at(j).glyph)?;
    }
    Ok(())
}

// Puts the glyph that a paint names after others.
fn add_named<A: Memory>(
    kind: Kind,
    first: u8,
    rest: &[u8],
    names: &mut Vec<u16, A>,
) -> Result<(), NoMemory>
    ensures names { OnOk result (names.new.items ≡ names.old.items ++ named_by kind first rest.now) }
    ensures memory { OnErr result (IsRefused A.refuses) }
{
    match kind {
        Kind::Paint => {
            if first == GLYPH || first == COLOUR_GLYPH {
                return A::push(names, u16_at(rest, 0));
            }
            Ok(())
        }
        _ => Ok(()),
    }
}

// Returns the kind of what an offset of a shape leads to.
fn kind_below(shape: Shape, i: u8) -> Kind
    ensures { (rest : List ℕ) → i < length (kinds_below shape rest) →
        drop i (kinds_below shape rest) ≡ result ∷ drop (i + 1) (kinds_below shape rest) }
{
    match shape {
        Shape::Plain(_) => Kind::Paint,
        Shape::One(_, kind) => kind,
        Shape::Two(_, first, second) => { if i == 0 { first } else { second } }
        Shape::Layers => Kind::Paint,
    }
}

/// Puts the glyphs that a tree of a kind names after others.
pub(crate) fn add_tree<A: Memory>(
    tree: &TableTree<'_>,
    kind: Kind,
    names: &mut Vec<u16, A>,
) -> Result<(), NoMemory>
    ensures names { OnOk result (names.new.items ≡ names.old.items ++ tree_names kind (tree_of tree.now)) }
    ensures memory { OnErr result (IsRefused A.refuses) }
{
    let shape = tree.shape();
    add_named(kind, tree.first(), tree.rest(), names)?;
    for i in 0..tree.count_below() {
        add_tree(&tree.below(i), kind_below(shape, i), names)?;
    }
    Ok(())
}
