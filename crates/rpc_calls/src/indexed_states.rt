//! The calls of a table, with what spares it from going over all of them.
ghost use Rattle.std.specs.Prelude.{◌≡◌, ◌<◌, ◌^◌, [], Some};
ghost use Rattle.rpc_journal.specs.table.Agrees.{Agrees};
ghost use Rattle.rpc_calls.specs.Owed.{owed_by};

mod changing;
mod choosing;
mod handlers;
mod noticing;
mod opening;
mod questions;

use crate::call_records::CallRecords;
use crate::index::Index;
use crate::kept_calls::KeptCalls;
use crate::owed::Owed;
pub use changing::Begun;
use link_io::Why;
use std::alloc::Global;
use std::marker::Model;

/// The calls of a table, with what spares it from going over all of them: how many can still be cancelled, how many run
/// and for how many an event waits, the list of those that can run next, and the numbers of those that are kept.
/// Contracts see the state and the handler of each call. No call is kept that is done with.
#[derive(Drop)]
pub struct IndexedStates<H> {
    calls: CallRecords<H>,
    index: Index,
    kept: KeptCalls,
}

impl<H> Model for IndexedStates<H> {
    ghost use Rattle.rpc_calls.specs.Roll.{Roll};

    ghost Value = { Roll H };

    ghost use Rattle.rpc_calls.specs.InUse.{AreIndexed};

    ghost view = { λ t. t.calls };

    ghost invariant = { λ t. AreIndexed t.calls t.index t.kept };
}

impl<H> IndexedStates<H> {
    /// Without a call.
    pub fn new(alloc: Global) -> IndexedStates<H>
        ensures calls { result.states.calls.items ≡ [] }
        ensures handlers { result.handlers ≡ [] }
        ensures agrees { Agrees [] result.states }
    {
        IndexedStates {
            calls: CallRecords::new(alloc),
            index: Index::new(alloc),
            kept: KeptCalls::new(alloc),
        }
    }

    /// How many calls still owe items and entries.
    pub fn owed(&self) -> Owed
        ensures counts { result ≡ owed_by self.now.states.calls.items }
        ensures few_open { result.uncancelled < 2 ^ 32 }
        ensures few_busy { result.running < 2 ^ 32 }
    {
        self.index.owed
    }

    /// So many items wait to be flushed.
    pub fn set_unflushed(&mut self, items: u64)
        ensures states { self.new.states ≡ record self.old.states { unflushed = items } }
        ensures handlers { self.new.handlers ≡ self.old.handlers }
    {
        self.calls.set_unflushed(items);
    }

    /// The table is halted.
    pub fn halt(&mut self, why: Why)
        ensures states { self.new.states ≡ record self.old.states { halted = Some why } }
        ensures handlers { self.new.handlers ≡ self.old.handlers }
    {
        self.calls.halt(why);
    }
}
