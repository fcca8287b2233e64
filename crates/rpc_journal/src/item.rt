//! What goes out: packets to the peer and actions on the store.

use rpc_handlers::Out;
use rpc_packet::Packet;

/// One thing that goes out, with the number of its call. A reply to a packet of no call has none.
#[derive(Debug, Drop)]
pub struct Item {
    pub call: Option<u32>,
    pub act: Act,
}

/// What one item is.
#[derive(Debug, Drop)]
pub enum Act {
    /// Send a packet.
    Send(Packet),
    /// Act on the store.
    Keep(Out),
    /// Leave all works of the call where they are, to be resumed.
    LeaveCall,
}
