//! The chunks of a resumable transfer, read in place and written in their one spelling.
//! It knows a chunk's fields and no rule of when a chunk is sent: that is the sender's and the receiver's business.
//! Enter at `ChunkRef::read` and `ChunkRef::write`.
#![tactic(auto)]

mod chunk;
mod chunk_type;
mod laws;

pub use chunk::ChunkRef;
pub use chunk_type::ChunkType;
pub use laws::written_chunk_is_read;
pub use transfer_base::{Ask, Piece, Tuning};
