//! The ids of the services and of their methods, as packets carry them: the hashes of their names.
ghost use Rattle.std.specs.Prelude.{◌≡◌, codes};
ghost use Rattle.rpc_ids.specs.Names.{name_id};

/// The service `demo.Demo`.
pub const DEMO: u32 = 0x70f4_5cfb;

/// The method Echo.
pub const ECHO: u32 = 0x8b47_0ee9;

/// The method Count.
pub const COUNT: u32 = 0xb636_13b6;

/// The method Sum.
pub const SUM: u32 = 0x0957_0bb8;

/// The method Chat.
pub const CHAT: u32 = 0x9ba9_81bc;

/// The service `demo.Log`.
pub const LOG: u32 = 0xa9c4_1521;

/// The method Text.
pub const TEXT: u32 = 0xc85d_1891;

/// The service `pw.transfer.Transfer`.
pub const TRANSFER: u32 = 0x5bd6_c87b;

/// The method Read.
pub const READ: u32 = 0x5b78_66da;

/// The method Write.
pub const WRITE: u32 = 0xd463_0586;

/// Each id is that of its name. The function does nothing: what counts is its contract.
#[tactic(auto, unfolding(rpc_ids::specs::Names::name_id))]
pub fn ids_are_of_names()
    ensures demo { DEMO ≡ name_id (codes "demo.Demo") }
    ensures echo { ECHO ≡ name_id (codes "Echo") }
    ensures count { COUNT ≡ name_id (codes "Count") }
    ensures sum { SUM ≡ name_id (codes "Sum") }
    ensures chat { CHAT ≡ name_id (codes "Chat") }
    ensures log { LOG ≡ name_id (codes "demo.Log") }
    ensures text { TEXT ≡ name_id (codes "Text") }
    ensures transfer { TRANSFER ≡ name_id (codes "pw.transfer.Transfer") }
    ensures read { READ ≡ name_id (codes "Read") }
    ensures write { WRITE ≡ name_id (codes "Write") }
{}
