//! The names and numbers that every RPC packet speaks of: status codes, the ids of services and methods, and
//! the registry of the methods that an endpoint knows.
//! Enter at `Registry::add` to make methods known, and at `Status::of` to read a status code.
#![tactic(auto)]

mod method;
mod name_hash;
mod registry;
mod status;

pub use method::{Kind, MethodRef, Role};
pub use name_hash::hash_name;
pub use registry::{AddRefused, Registry};
pub use status::Status;
