//! What varies in a colour table, as bytes. OpenType 1.9, OpenType Font Variations Common Table Formats.

/// What varies in a colour table. Each is empty where there is none.
#[derive(Clone, Copy, Debug, PartialEq, Eq)]
pub struct Varies<'v> {
    /// The bytes of a DeltaSetIndexMap.
    pub index_map: &'v [u8],
    /// The bytes of an ItemVariationStore.
    pub store: &'v [u8],
}
