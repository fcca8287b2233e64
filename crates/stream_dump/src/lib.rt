//! What is in a recorded stream of either direction, in lines of text: each segment with its offset, as the frame and the packet in
//! it or as its fault, and the bytes in no segment. Enter at [`dump`], which reads a source and writes to a sink.
//! It keeps a piece of the stream and the content of one frame, so its memory doesn't grow with the stream.
#![tactic(auto)]

mod chunk_words;
mod counting;
mod dumper;
mod dumping;
mod ids;
mod known;
pub mod laws;
mod named;
mod names;
mod packet_words;
mod printing;
mod segment_words;
mod words;

pub use dumping::{INPUT_LIMIT, dump};
pub use ids::{READ, TRANSFER, WRITE};
pub use named::{MAX_NAMED, MAX_NAMES, MethodNames, SLASH};
pub use names::MethodName;
