//! The entries of a history, in order.
ghost use Rattle.std.specs.Prelude.{◌≡◌, ◌≢◌, ◌+◌, ◌-◌, ◌^◌, ◌<◌, ◌≤◌, [], ◌∷◌, ◌++◌, length, OnOk, OnErr, slice_get, option_copied};

use crate::entry::Entry;
use std::alloc::{AllocError, Global};
use std::marker::Model;

/// How many entries a journal can ever have.
const MAX_LEN: u64 = (1 << 62) - 1;

/// The entries of a history, in order, with room for some more. It is seen as the list of its entries and the number
/// of further ones that need no memory.
#[derive(Debug, Drop)]
pub struct Journal {
    entries: Vec<Entry>,
    spare: u64,
}

impl Model for Journal {
    ghost use Rattle.std.specs.Prelude.{◌+◌, ◌^◌, ◌<◌, ◌≤◌, vec_len, vec_capacity};
    ghost use Rattle.rpc_journal.specs.Recorded.{Recorded};

    ghost Value = { Recorded };

    ghost view = { λ j. record { entries = j.entries.items; spare = j.spare } };

    ghost invariant = { λ j. (vec_len j.entries + j.spare ≤ vec_capacity j.entries) × (vec_len j.entries + j.spare < 2 ^ 62) };
}

impl Journal {
    /// No entry, and no room.
    pub fn new(alloc: Global) -> Journal
        ensures { result ≡ record { entries = []; spare = 0 } }
    {
        Journal {
            entries: Vec::new(alloc),
            spare: 0,
        }
    }

    /// How many entries there are.
    pub fn len(&self) -> u64
        ensures len { result ≡ length self.now.entries }
        ensures bound { result < 2 ^ 62 }
    {
        self.entries.len() as u64
    }

    /// The entry at this place, from 0.
    pub fn get(&self, i: u64) -> Option<&Entry>
        ensures { option_copied result ≡ slice_get self.now.entries i }
    {
        self.entries.get(i as usize)
    }

    /// Makes room for at least `n` further entries.
    pub fn reserve(&mut self, n: u64) -> Result<(), AllocError>
        ensures room { OnOk result (n ≤ self.new.spare) }
        ensures kept { self.old.spare ≤ self.new.spare }
        ensures entries { self.new.entries ≡ self.old.entries }
        ensures err { OnErr result (self.new ≡ self.old) }
    {
        if n <= self.spare {
            return Ok(());
        }
        if n > MAX_LEN - self.len() {
            return Err(AllocError);
        }
        self.entries.reserve(n as usize)?;
        self.spare = n;
        Ok(())
    }

    /// Adds an entry at the end. It takes no memory.
    pub fn push(&mut self, entry: Entry)
        requires { self.old.spare ≢ 0 }
        ensures entries { self.new.entries ≡ self.old.entries ++ entry ∷ [] }
        ensures spare { self.new.spare + 1 ≡ self.old.spare }
    {
        self.entries.push_reserved(entry);
        self.spare -= 1;
    }
}
