//! The calls that are kept in records, by rising number.
ghost use Rattle.std.specs.Prelude.{◌≡◌, ◌==◌, ◌||◌, ◌<◌, ◌≤◌, ℕ, Bool, true, false, OnOk, OnErr, IfSome, IfNone, if◌then◌else◌};

use std::alloc::{AllocError, Global};
use std::collections::BTreeSet;

/// The numbers of the calls that are kept in records.
#[derive(Drop)]
pub struct KeptCalls {
    pub calls: BTreeSet<u32>,
}

impl KeptCalls {
    ghost use Rattle.rpc_calls.specs.Kept.{is_kept};

    /// None.
    pub fn new(alloc: Global) -> KeptCalls
        ensures { (c : ℕ) → is_kept result c ≡ false }
    {
        KeptCalls {
            calls: BTreeSet::new(alloc),
        }
    }

    /// This call is kept, too.
    pub fn insert(&mut self, call: u32) -> Result<(), AllocError>
        ensures ok { OnOk result ((c : ℕ) → is_kept self.new c ≡ (if call == c then true else is_kept self.old c)) }
        ensures err { OnErr result ((c : ℕ) → is_kept self.new c ≡ is_kept self.old c) }
    {
        self.calls.insert(call)?;
        Ok(())
    }

    /// This call isn't kept any more. It takes no memory.
    pub fn remove(&mut self, call: u32)
        ensures { (c : ℕ) → is_kept self.new c ≡ (if call == c then false else is_kept self.old c) }
    {
        self.calls.remove(&call);
    }

    /// The first of these calls from this number on.
    pub fn next(&self, from: u32) -> Option<u32>
        ensures there { IfSome result (λ c. is_kept self.now c ≡ true) }
        ensures from { IfSome result (λ c. from ≤ c) }
        ensures first { IfSome result (λ c. (k : ℕ) → from ≤ k → k < c → is_kept self.now k ≡ false) }
        ensures none { IfNone result ((k : ℕ) → from ≤ k → is_kept self.now k ≡ false) }
    {
        self.calls.range(from..).next().copied()
    }
}
