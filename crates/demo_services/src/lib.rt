//! The service `demo.Demo`, with a method of each kind: Echo, Count, Sum and Chat; the log service `demo.Log` with its
//! method Text; and the transfer service `pw.transfer.Transfer` with its methods Read and Write.
//!
//! Give `DemoMaker` and the registry of `demo_registry` to a server. A call of any of them is a `DemoCall`; what its
//! methods answer is stated in `specs/`, a definition for each.
#![tactic(auto)]

mod answers;
mod call;
mod chat;
mod count;
mod echo;
pub mod ids;
pub mod laws;
mod log;
mod maker;
mod registry;
mod sum;
mod transfer;

pub use call::DemoCall;
pub use chat::Chat;
pub use count::{Count, MAX_COUNT};
pub use echo::Echo;
pub use log::Log;
pub use maker::DemoMaker;
pub use registry::demo_registry;
pub use sum::Sum;
pub use transfer::Transfer;
