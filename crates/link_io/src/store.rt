//! Where uploads end.
ghost use Rattle.std.specs.Prelude.{◌≡◌, ℕ, Option, IfOk};
ghost use Rattle.link_io.specs.Causes.{HasStoreCause};
ghost use Rattle.link_io.specs.Stored.{Stored, Makes, Lists, Rises, begun, appended, committed, abandoned, all_abandoned};

use crate::Shelf;
use bytes::Bytes;
use std::alloc::{AllocError, AllocFailed};
use std::io;

/// The name of an upload under way: the number of the call that it came by, and its session there.
#[derive(Clone, Copy, Debug, PartialEq, Eq, PartialOrd, Ord)]
pub struct StoreKey {
    pub call: u32,
    pub session: u32,
}

/// Why a store refused a call. It is as it was then.
#[derive(Clone, Copy, Debug, PartialEq, Eq)]
pub enum StoreRefused {
    /// The device failed, and the count of its faults rose.
    Failed,
    /// There was no memory.
    Memory,
}

impl From<AllocError> for StoreRefused {
    ghost use Rattle.link_io.specs.declared.store.StoreRefused.TheVariants.{Memory};

    ghost from_gives = { λ _ e. e ≡ Memory };

    fn from(_: AllocError) -> StoreRefused {
        StoreRefused::Memory
    }
}

impl<T: Drop> From<AllocFailed<T>> for StoreRefused {
    ghost use Rattle.link_io.specs.declared.store.StoreRefused.TheVariants.{Memory};

    ghost from_gives = { λ _ e. e ≡ Memory };

    fn from(_: AllocFailed<T>) -> StoreRefused {
        StoreRefused::Memory
    }
}

impl From<io::Error> for StoreRefused {
    fn from(error: io::Error) -> StoreRefused {
        match error.kind() {
            io::ErrorKind::OutOfMemory => StoreRefused::Memory,
            _ => StoreRefused::Failed,
        }
    }
}

/// Where uploads end: it keeps whole resources, what is left of uploads that were cut short, and the uploads under
/// way.
pub trait Store {
    // What it holds, or None where the store doesn't tell.
    ghost holds: { Self → Option Stored };

    // How many calls failed, up to the last number of 64 bits. It never falls.
    ghost faults: { Self → ℕ };

    /// Begins an upload of a resource, with the first `offset` bytes of what is left of it, or all of them where these
    /// are fewer. An upload that had the key already is dropped.
    fn begin(&mut self, key: StoreKey, resource: u32, offset: u64) -> Result<(), StoreRefused>
        ensures change { Makes (begun key resource offset) (holds self.old) (holds self.new) result }
        ensures cause { HasStoreCause (faults self.old) (faults self.new) result };

    /// Adds bytes to an upload. Without such an upload nothing changes.
    fn append(&mut self, key: StoreKey, bytes: &Bytes) -> Result<(), StoreRefused>
        ensures change { Makes (appended key bytes.now) (holds self.old) (holds self.new) result }
        ensures cause { HasStoreCause (faults self.old) (faults self.new) result };

    /// Ends an upload well: its bytes are the resource from now on, and nothing is left over of it. Without such an
    /// upload nothing changes.
    fn commit(&mut self, key: StoreKey) -> Result<(), StoreRefused>
        ensures change { Makes (committed key) (holds self.old) (holds self.new) result }
        ensures cause { HasStoreCause (faults self.old) (faults self.new) result };

    /// Cuts an upload short: its bytes are what is left of the resource, if any were appended to it. Without such an
    /// upload nothing changes.
    fn leave(&mut self, key: StoreKey) -> Result<(), StoreRefused>
        ensures change { Makes (abandoned key) (holds self.old) (holds self.new) result }
        ensures cause { HasStoreCause (faults self.old) (faults self.new) result };

    /// Cuts all uploads of a call short, by rising session.
    fn leave_call(&mut self, call: u32) -> Result<(), StoreRefused>
        ensures change { Makes (all_abandoned call) (holds self.old) (holds self.new) result }
        ensures cause { HasStoreCause (faults self.old) (faults self.new) result };

    /// The whole resources, and how long what is left of others is, both by rising id.
    fn list(&mut self) -> Result<Shelf, StoreRefused>
        ensures lists { Lists (holds self.old) result }
        ensures rises { IfOk result Rises }
        ensures kept { holds self.new ≡ holds self.old }
        ensures cause { HasStoreCause (faults self.old) (faults self.new) result };
}
