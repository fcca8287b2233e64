//! The numbers of the frames that carry packets.

/// The address of frames with packets, in both directions.
pub const ADDRESS: u32 = 82;

/// The most bytes of a frame's content: address, control octet, payload and check sequence.
pub const LARGEST_CONTENT: usize = 8_192;

/// A bound, not the least, on the bytes of a frame's content besides the payload of its packet. A packet with a payload
/// of 8,000 bytes always fits.
pub const MOST_BESIDES_PAYLOAD: usize = 138;
