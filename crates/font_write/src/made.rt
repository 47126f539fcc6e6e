//! Which tables a cut makes anew, this project's own.
ghost use Rattle.font_write.specs.Made.{IsMadeIn};

use sfnt_bytes::{CMAP, GLYF, HEAD, LOCA};

/// A table that a cut makes anew.
#[derive(Clone, Copy, Debug, PartialEq, Eq)]
pub enum Made {
    /// `cmap`
    Cmap,
    /// `glyf`
    Glyf,
    /// `head`
    Head,
    /// `loca`
    Loca,
}

/// Returns the table that a cut makes anew in a slot, or `None` where it makes none there.
pub fn made_in(slot: usize) -> Option<Made>
    ensures { IsMadeIn slot result }
{
    if slot == CMAP {
        return Some(Made::Cmap);
    }
    if slot == GLYF {
        return Some(Made::Glyf);
    }
    if slot == HEAD {
        return Some(Made::Head);
    }
    if slot == LOCA {
        return Some(Made::Loca);
    }
    None
}
