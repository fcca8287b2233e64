//! A thread halts the table.
ghost use Rattle.std.specs.Prelude.{◌≡◌, ◌⊎◌, ◌≤◌, Bool, true, [], ◌∷◌, ◌++◌, length};
ghost use Rattle.link_io.specs.declared.why.Why.TheVariants.{JournalLimit};
ghost use Rattle.rpc_journal.specs.declared.entry.EntryKind.{EntryKind};
ghost use Rattle.rpc_journal.specs.declared.entry.EntryKind.TheVariants.{Halt};
ghost use Rattle.rpc_journal.specs.declared.entry.TheConstants.{MAX_ENTRIES};
ghost use Rattle.rpc_journal.specs.History.{entry_by};
ghost use Rattle.rpc_shared.specs.Steps.{IsOwn, Steps};
ghost use Rattle.rpc_journal.specs.Changes.{HaltDid};
ghost use Rattle.rpc_shared.specs.session.Crew.{Adds};
ghost use Rattle.rpc_shared.specs.session.Sessions.{is_halted, is_halting};
ghost use Rattle.live_client.specs.Silent.{silent_rule};

use crate::silent::Silent;
use link_io::Why;
use rpc_shared::{Pass, Shared};
use std::sync::Wait;

/// The table of a live client.
pub(crate) type Table = Shared<Silent>;

/// A pass of it.
pub(crate) type Seat = Pass<Silent>;

/// The table is halted: its threads end.
#[derive(Clone, Copy, Debug)]
pub(crate) struct Halted;

/// Halts the table, where it isn't halted already.
pub(crate) fn halt<R: Wait>(rt: &R, table: &Table, pass: &mut Seat, why: Why)
    requires own { IsOwn table.now pass.old }
    requires why { is_halting why ≡ true }
    requires full { why ≡ JournalLimit → MAX_ENTRIES ≤ length pass.old.view.known.seen }
    ensures adds { (test : EntryKind → Bool) → test (Halt why) ≡ true → Adds silent_rule table.now test pass.old pass.new }
    ensures mine { (pass.new.view.known.mine ≡ pass.old.view.known.mine) ⊎ (pass.new.view.known.mine ≡ pass.old.view.known.mine ++ entry_by pass.old.view.known.number (Halt why) ∷ []) }
    ensures did { Steps silent_rule table.now pass.old pass.new (λ set seat. HaltDid set seat why) }
    ensures halted { is_halted table.now.base pass.new.view.known.seen ≡ true }
{
    table.halt(rt, pass, why);
}
