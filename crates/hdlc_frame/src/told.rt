//! What a decoder finds in a segment, with no loan: payloads are told by where they lie.

use crate::found::Bad;

/// The slice that a payload lies in.
#[derive(Clone, Copy, Debug, PartialEq, Eq)]
pub enum Place {
    Piece,
    Buffer,
}

/// A frame whose payload lies in the piece or in the buffer, `len` bytes from `at` on.
#[derive(Clone, Copy, Debug, PartialEq, Eq)]
pub struct PlacedFrame {
    pub address: u32,
    /// `UI_CONTROL` in an unnumbered information frame; any octet may stand here.
    pub control: u8,
    pub place: Place,
    pub at: usize,
    pub len: usize,
}

/// What a segment carries.
#[derive(Clone, Copy, Debug, PartialEq, Eq)]
pub enum Segment {
    Frame(PlacedFrame),
    Bad(Bad),
}

/// What became of a piece of the stream.
#[derive(Clone, Copy, Debug, PartialEq, Eq)]
pub struct Told {
    /// How many bytes of the piece were taken. Push the others next.
    pub taken: usize,
    /// What the segment carries that ended at the last byte taken; `None` where no segment ended.
    pub segment: Option<Segment>,
}
