//! The codec for C: check sequence, frames and packets, all in memory of the caller's. `include/kirofantse.h` declares it.
//!
//! Nothing here allocates, fails or keeps anything between two calls, and no call has a condition but that its pointers
//! are good. Each export states the clauses of the function below it.
#![tactic(auto)]

mod decoder;
mod frame;
pub mod laws;
mod packet;
#[cfg(test)]
mod tests;

pub use decoder::{KfDecoder, KfPushed, kf_decoder_push, kf_decoder_start};
pub use frame::{KF_NO_ROOM, kf_crc32, kf_encode_ui};
pub use packet::{KfPacket, kf_packet_read, kf_packet_write, kf_write_frame};
