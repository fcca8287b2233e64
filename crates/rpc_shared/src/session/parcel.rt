//! What goes through the ring from the pump to the writer.

use rpc_journal::Item;

/// An item to be made, or the end of all items.
#[derive(Debug, Drop)]
pub enum Parcel {
    Put(Item),
    End,
}
