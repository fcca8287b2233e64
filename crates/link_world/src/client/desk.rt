//! What the client works with.

use crate::client::quiet::Quiet;
use crate::server::WorldStore;
use rpc_client::Client;
use rpc_handlers::Event;
use rpc_journal::Item;

/// What the client works with, and what it keeps of its work.
#[derive(Drop)]
pub(crate) struct Desk {
    /// Its calls.
    pub(crate) client: Client<Quiet>,
    /// The store that gets what goes out for it.
    pub(crate) store: WorldStore,
    /// The items that have gone out, in order.
    pub(crate) items: Vec<Item>,
    /// The events that runs of its calls took, each with its call.
    pub(crate) events: Vec<(u32, Event)>,
}
