//! A thread halts the table.
ghost use Rattle.std.specs.Prelude.{◌≡◌, ◌⊎◌, ◌≤◌, Bool, true, [], ◌∷◌, ◌++◌, length};
ghost use Rattle.link_io.specs.declared.why.Why.TheVariants.{JournalLimit};
ghost use Rattle.rpc_journal.specs.declared.entry.EntryKind.{EntryKind};
ghost use Rattle.rpc_journal.specs.declared.entry.EntryKind.TheVariants.{Halt};
ghost use Rattle.rpc_journal.specs.declared.entry.TheConstants.{MAX_ENTRIES};
ghost use Rattle.rpc_journal.specs.History.{entry_by};
ghost use Rattle.rpc_shared.specs.Steps.{IsOwn};
ghost use Rattle.rpc_shared.specs.session.Crew.{Adds};
ghost use Rattle.rpc_shared.specs.session.Sessions.{is_halted, is_halting};

use crate::table::Table;
use link_io::Why;
use rpc_handlers::Handler;
use rpc_shared::Pass;
use std::sync::Wait;

/// The table is halted: its threads end.
#[derive(Clone, Copy, Debug)]
pub(crate) struct Halted;

/// Halts the table, where it isn't halted already.
pub(crate) fn halt<H: Handler, R: Wait>(rt: &R, shared: &Table<H>, pass: &mut Pass<H>, why: Why)
    requires own { IsOwn shared.now pass.old }
    requires why { is_halting why ≡ true }
    requires full { why ≡ JournalLimit → MAX_ENTRIES ≤ length pass.old.view.known.seen }
    ensures adds { (test : EntryKind → Bool) → test (Halt why) ≡ true → Adds H.rule shared.now test pass.old pass.new }
    ensures mine { (pass.new.view.known.mine ≡ pass.old.view.known.mine) ⊎ (pass.new.view.known.mine ≡ pass.old.view.known.mine ++ entry_by pass.old.view.known.number (Halt why) ∷ []) }
    ensures halted { is_halted shared.now.base pass.new.view.known.seen ≡ true }
{
    shared.halt(rt, pass, why);
}
