//! What is said in the one call of a live client.

use rpc_handlers::Out;

/// What is said in a call: a message or an act on the store, or that no message comes after it.
#[derive(Debug, Drop)]
pub enum Utterance {
    Says(Out),
    Completes,
}
