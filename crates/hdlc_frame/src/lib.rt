//! Frames after pw_hdlc: unnumbered information frames between flags, with octet stuffing and a 32-bit check sequence
//! (RFC 1662). `Decoder` finds the frames and faults of a stream in any pieces, and `encode_ui` writes a frame.
//! `Machine` and `encode_ui_into` do the same in their caller's memory.
//! Nothing here waits, reads or writes a device, or keeps the time.
#![tactic(auto)]

mod closed;
mod crc;
mod decoder;
mod encode;
mod found;
mod header;
mod judge;
mod lanes;
pub mod laws;
mod machine;
mod octets;
mod phase;
mod pieces;
mod text;
mod told;
mod unescape;

pub use crc::crc32;
pub use decoder::Decoder;
pub use encode::{encode_ui, encode_ui_into};
pub use found::{Bad, Frame, Got, Pushed};
pub use judge::SHORTEST_CONTENT;
pub use machine::Machine;
pub use octets::{ESCAPE, ESCAPE_BIT, FLAG, UI_CONTROL};
pub use phase::Phase;
pub use pieces::{Decoded, decode_pieces};
pub use told::{Place, PlacedFrame, Segment, Told};
