//! A bridge between two links: frames go from each to the other by their address, in both directions at once.
//! Enter at [`bridge`]; [`bridge_text`] tells what it did.
mod bridged;
mod bridging;
mod printing;

pub use bridged::Bridged;
pub use bridging::bridge;
pub use printing::bridge_text;
