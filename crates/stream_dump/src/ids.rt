//! The ids of the transfer service and of its methods, as packets carry them: the hashes of their names.

/// The service `pw.transfer.Transfer`.
pub const TRANSFER: u32 = 0x5bd6_c87b;

/// The method Read.
pub const READ: u32 = 0x5b78_66da;

/// The method Write.
pub const WRITE: u32 = 0xd463_0586;
