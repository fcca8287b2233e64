//! The newest call of each name.
ghost use Rattle.std.specs.Prelude.{◌≡◌, None, OnOk, OnErr};
ghost use Rattle.rpc_packet.specs.declared.call_name.CallName.{CallName};
ghost use Rattle.rpc_journal.specs.table.Newest.{IsNamed, IsSameNewest, newest_of};

use rpc_packet::CallName;
use std::alloc::{AllocError, Global};
use std::collections::BTreeMap;
use std::marker::Model;

/// The number of the newest call of each name. Contracts see the names with their numbers.
#[derive(Debug, Drop)]
pub struct NewestCalls {
    numbers: BTreeMap<CallName, usize>,
}

impl Model for NewestCalls {
    ghost use Rattle.rpc_journal.specs.table.Newest.{Numbers};

    ghost Value = { Numbers };

    ghost view = { λ m. m.numbers.entries };
}

impl NewestCalls {
    /// No call was opened.
    pub fn new(alloc: Global) -> NewestCalls
        ensures { (name : CallName) → newest_of result name ≡ None }
    {
        NewestCalls {
            numbers: BTreeMap::new(alloc),
        }
    }

    /// The newest call of this name.
    pub fn get(&self, name: CallName) -> Option<usize>
        ensures { result ≡ newest_of self.now name }
    {
        self.numbers.get(&name).copied()
    }

    /// This call is the newest of its name from now on.
    pub fn set(&mut self, name: CallName, call: usize) -> Result<(), AllocError>
        ensures ok { OnOk result (IsNamed name call self.old self.new) }
        ensures err { OnErr result (IsSameNewest self.old self.new) }
    {
        put(&mut self.numbers, name, call)
    }
}

fn put(
    numbers: &mut BTreeMap<CallName, usize>,
    name: CallName,
    call: usize,
) -> Result<(), AllocError>
    ensures ok { OnOk result (IsNamed name call numbers.old.entries numbers.new.entries) }
    ensures err { OnErr result (IsSameNewest numbers.old.entries numbers.new.entries) }
{
    numbers.insert(name, call)?;
    Ok(())
}
