//! Where the lists of a table of version 1 are written. OpenType 1.9, COLR, Header.

/// The places of the lists after those of layers, of what they lead to, and of what varies.
#[derive(Clone, Copy)]
pub(crate) struct Places {
    pub(crate) bases: u32,
    pub(crate) layers: u32,
    pub(crate) paints: u32,
    pub(crate) clips: u32,
    pub(crate) boxes: u32,
    pub(crate) map: u32,
}
