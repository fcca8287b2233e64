//! The live calls by their names.
ghost use Rattle.std.specs.Prelude.{◌≡◌, Some, None, OnOk, OnErr};
ghost use Rattle.rpc_packet.specs.declared.call_name.CallName.{CallName};
ghost use Rattle.rpc_calls.specs.Names.{AreSameNames, IsSetTo, call_under};

use rpc_packet::CallName;
use std::alloc::{AllocError, Global};
use std::collections::HashMap;
use std::marker::Model;

/// The number of each live call, by the call's name. Contracts see the names with the numbers.
#[derive(Drop)]
pub struct LiveNames {
    calls: HashMap<CallName, u32>,
}

impl Model for LiveNames {
    ghost use Rattle.rpc_calls.specs.Names.{Names};

    ghost Value = { Names };

    ghost view = { λ m. m.calls.entries };
}

impl LiveNames {
    /// No call is live.
    pub fn new(alloc: Global) -> LiveNames
        ensures { (name : CallName) → call_under result name ≡ None }
    {
        LiveNames {
            calls: HashMap::new(alloc),
        }
    }

    /// The live call of this name.
    pub fn get(&self, name: CallName) -> Option<u32>
        ensures { result ≡ call_under self.now name }
    {
        self.calls.get(&name).copied()
    }

    /// This call is the live one of the name from now on.
    pub fn set(&mut self, name: CallName, call: u32) -> Result<(), AllocError>
        ensures ok { OnOk result (IsSetTo name (Some call) self.old self.new) }
        ensures err { OnErr result (AreSameNames self.old self.new) }
    {
        put(&mut self.calls, name, call)
    }

    /// No call of this name is live any more. It takes no memory.
    pub fn forget(&mut self, name: CallName)
        ensures { IsSetTo name None self.old self.new }
    {
        take(&mut self.calls, name);
    }
}

fn put(calls: &mut HashMap<CallName, u32>, name: CallName, call: u32) -> Result<(), AllocError>
    ensures ok { OnOk result (IsSetTo name (Some call) calls.old.entries calls.new.entries) }
    ensures err { OnErr result (AreSameNames calls.old.entries calls.new.entries) }
{
    calls.insert(name, call)?;
    Ok(())
}

fn take(calls: &mut HashMap<CallName, u32>, name: CallName)
    ensures { IsSetTo name None calls.old.entries calls.new.entries }
{
    let _ = calls.remove(&name);
}
