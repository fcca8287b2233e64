//! What a session on threads and a live client share: parcels for the writer, a log of the items, how the link is hung up at a halt,
//! and why each ended.
pub mod hanging_up;
pub mod item_log;
pub mod parcel;
pub mod reason;
