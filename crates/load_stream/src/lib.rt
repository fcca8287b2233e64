//! Streams that are made from a number: N calls of the service `demo.Demo`, each with the bytes that a generator gives
//! for it. A run over such a stream is large, and the same whenever N and the seed are the same.
//! Enter at [`LoadSource`]; `specs/Load.antt` says what the stream is.
#![tactic(auto)]

mod calls;
pub mod laws;
mod source;

pub use calls::LONGEST_CALL;
pub use source::LoadSource;
