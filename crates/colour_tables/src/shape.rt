//! The parts of a colour table of version 1 that offsets lead to. OpenType 1.9, COLR, Paint tables; ColorLine;
//! Affine2x3; ClipBox.

/// What an offset leads to.
#[derive(Clone, Copy, Debug, PartialEq, Eq)]
pub enum Kind {
    /// A Paint table of any format.
    Paint,
    /// A ColorLine or VarColorLine, with stops of so many bytes.
    ColorLine(u32),
    /// An Affine2x3 or VarAffine2x3: its first byte, and so many more.
    Affine(u32),
    /// A ClipBox of any format.
    ClipBox,
}

/// The fields of what an offset leads to: its first byte, other bytes, and offsets.
#[derive(Clone, Copy, Debug, PartialEq, Eq)]
pub enum Shape {
    /// So many other bytes, and no offset. A ColorLine may have more than a `u32` can count, by its stops.
    Plain(u64),
    /// An Offset24 after the first byte, and then so many bytes.
    One(u32, Kind),
    /// An Offset24 after the first byte, then so many bytes, and then another Offset24.
    Two(u32, Kind, Kind),
    /// The number of layers, and the index of the first of them in the LayerList.
    Layers,
}
