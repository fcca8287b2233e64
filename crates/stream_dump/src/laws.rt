//! Laws of the definitions, for callers' proofs. Nothing runs here.
ghost use Rattle.std.specs.Prelude.{◌≡◌, codes};
ghost use Rattle.rpc_ids.specs.Names.{name_id};

use crate::ids::{READ, TRANSFER, WRITE};

/// Each id is that of its name.
#[tactic(auto, unfolding(rpc_ids::specs::Names::name_id))]
pub fn ids_are_of_names()
    ensures transfer { TRANSFER ≡ name_id (codes "pw.transfer.Transfer") }
    ensures read { READ ≡ name_id (codes "Read") }
    ensures write { WRITE ≡ name_id (codes "Write") }
{}
