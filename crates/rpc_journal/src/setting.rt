//! What is fixed with a history.

use rpc_channel::Channels;
use rpc_handlers::Memo;
use rpc_ids::{Registry, Role};

/// What is fixed with a history: which end of the link it is of, the channels that are in from the first on, the
/// methods that are known, and what the maker makes first states of.
#[derive(Debug, Drop)]
pub struct Setting {
    pub role: Role,
    pub channels: Channels,
    pub registry: Registry,
    pub seed: Memo,
}
