//! The table of the calls of one end.
ghost use Rattle.std.specs.Prelude.{◌≡◌, ℕ, ◌≤◌, true, List, [], ◌++◌, length, IfOk};
ghost use mathlib.Core.List.{IsPrefix};
ghost use Rattle.rpc_journal.specs.declared.entry.Entry.{Entry};
ghost use Rattle.rpc_journal.specs.Calls.{ends_of, has_end};
ghost use Rattle.rpc_journal.specs.History.{history};
ghost use Rattle.rpc_journal.specs.Items.{items_sent};
ghost use Rattle.rpc_journal.specs.Lawful.{IsLegal};
ghost use Rattle.rpc_journal.specs.Laws.{SaysNoMoreOf};
ghost use Rattle.rpc_calls.specs.Seeds.{IsSeedFor};

mod arriving;
mod cancels;
mod closing;
mod finishing;
mod flushing;
mod halting;
mod invoking;
mod opening;
mod questions;
mod replacing;
mod saying;
mod starting;
mod ticking;

use crate::indexed_states::IndexedStates;
use rpc_channel::Channels;
use rpc_handlers::{Handler, Memo};
use rpc_ids::{Registry, Role};
use rpc_journal::{Item, Journal, Setting};
use std::alloc::{AllocError, Global};
use std::collections::VecDeque;
use std::marker::Model;

/// The calls of one end, each with its handler, the items that wait to go out, and the journal of all that was done.
/// Contracts see what is fixed with it, and the entries of its journal.
pub struct Calls<H: Handler> {
    setting: Setting,
    journal: Journal,
    calls: IndexedStates<H>,
    items: VecDeque<Item>,
    alloc: Global,
}

impl<H: Handler> Drop for Calls<H> {
    fn drop(self) {
        let Self {
            setting: _,
            journal: _,
            calls: _,
            items: _,
            alloc: _,
        } = self;
    }
}

impl<H: Handler> Model for Calls<H> {
    ghost use Rattle.rpc_journal.specs.CallTable.{Table};
    ghost use Rattle.std.specs.VecDeque.{deque_capacity};

    ghost Value = { Table };

    ghost use Rattle.rpc_calls.specs.TableHolds.{IsTable};

    ghost view = { λ t. record { setting = t.setting; entries = t.journal.entries } };

    ghost invariant = { λ t. IsTable H.now H.can_act H.rule t.setting t.journal t.calls.states t.calls.handlers t.items.items (deque_capacity t.items) };
}

impl<H: Handler> Calls<H> {
    /// A table without a call. It takes the room for the end of input and for a halt. The seed is that of the maker of a
    /// server; a client has none.
    pub fn new(
        alloc: Global,
        role: Role,
        channels: Channels,
        registry: Registry,
        seed: Memo,
    ) -> Result<Calls<H>, AllocError>
        requires { IsSeedFor role seed }
        ensures setting { IfOk result (λ t. t.setting ≡ record { role = role; channels = channels; registry = registry; seed = seed }) }
        ensures entries { IfOk result (λ t. t.entries ≡ []) }
    {
        let mut journal = Journal::new(alloc);
        journal.reserve(2)?;
        let setting = Setting {
            role,
            channels,
            registry,
            seed,
        };
        Ok(Calls {
            setting,
            journal,
            calls: IndexedStates::new(alloc),
            items: VecDeque::new(alloc),
            alloc,
        })
    }

    /// The journal of all that was done. It is legal, and so is each beginning of it; each call has at most one end, and
    /// no packet of it stands after that.
    pub fn journal(&self) -> &Journal
        ensures entries { result.now.entries ≡ self.now.entries }
        ensures legal { IsLegal H.rule self.now.setting self.now.entries }
        ensures beginnings { (h : List Entry) → IsPrefix h self.now.entries → IsLegal H.rule self.now.setting h }
        ensures once { (c : ℕ) → length (ends_of (history self.now.setting self.now.entries) c) ≤ 1 }
        ensures silent { (h more : List Entry) (c : ℕ) → h ++ more ≡ self.now.entries → has_end (history self.now.setting h) c ≡ true → SaysNoMoreOf c (items_sent (history self.now.setting h)) (items_sent (history self.now.setting self.now.entries)) }
    {
        &self.journal
    }

    /// The journal alone. The same holds of it.
    pub fn into_journal(self) -> Journal
        ensures entries { result.entries ≡ self.entries }
        ensures legal { IsLegal H.rule self.setting self.entries }
        ensures beginnings { (h : List Entry) → IsPrefix h self.entries → IsLegal H.rule self.setting h }
        ensures once { (c : ℕ) → length (ends_of (history self.setting self.entries) c) ≤ 1 }
        ensures silent { (h more : List Entry) (c : ℕ) → h ++ more ≡ self.entries → has_end (history self.setting h) c ≡ true → SaysNoMoreOf c (items_sent (history self.setting h)) (items_sent (history self.setting self.entries)) }
    {
        let Self {
            setting: _,
            journal,
            calls: _,
            items: _,
            alloc: _,
        } = self;
        journal
    }
}
