//! What a decoder finds in a segment.

/// A frame. Its payload is lent: from the piece where the segment lies whole in it with no escape, else from the
/// decoder's buffer.
#[derive(Clone, Copy, Debug, PartialEq, Eq)]
pub struct Frame<'a> {
    pub address: u32,
    /// `UI_CONTROL` in an unnumbered information frame; any octet may stand here.
    pub control: u8,
    pub payload: &'a [u8],
}

/// Why a segment carries no frame: the first of these that applies.
#[derive(Clone, Copy, Debug, PartialEq, Eq)]
pub enum Bad {
    /// An escape stands in front of another one, or of the segment's end.
    Escape,
    /// The content has more octets than the decoder's limit.
    Long,
    /// The content has fewer octets than `SHORTEST_CONTENT`.
    Short,
    /// The last four octets of the content aren't the check sequence of the others.
    Check,
    /// No address and control octet stand in front, or the address has more than five octets or is 2^32 or more.
    Address,
}

/// What a segment carries.
#[derive(Clone, Copy, Debug, PartialEq, Eq)]
pub enum Got<'a> {
    Frame(Frame<'a>),
    Bad(Bad),
}

/// What became of a piece of the stream.
#[derive(Clone, Copy, Debug, PartialEq, Eq)]
pub struct Pushed<'a> {
    /// How many bytes of the piece were taken. Push the others next.
    pub taken: usize,
    /// What the segment carries that ended at the last byte taken; `None` where no segment ended.
    pub got: Option<Got<'a>>,
}
