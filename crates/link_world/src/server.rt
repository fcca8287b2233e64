//! What the two ends of a world do with what comes to them, until nothing is left to do, and where what goes out of them
//! goes: on a link that loses, repeats, holds back and damages frames.
//! Enter at [`ServerEnd`].
mod channels;
mod progress;
mod server_end;
mod serving;
mod stopped;
mod stores;
mod wires;
mod world_store;

pub use channels::{LAST_CHANNEL, world_channels};
pub use progress::committed;
pub use server_end::ServerEnd;
pub use serving::take_out;
pub use stopped::Stopped;
pub use stores::{lengths, shelf_of, stock_bytes, store_of};
pub use wires::Wires;
pub use world_store::WorldStore;
