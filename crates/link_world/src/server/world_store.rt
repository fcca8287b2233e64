//! A store of a world.
ghost use Rattle.std.specs.Prelude.{◌≡◌, [], Some, IfOk};
ghost use Rattle.std.specs.Option.{option_copied};
ghost use Rattle.link_io.specs.Causes.{HasStoreCause};
ghost use Rattle.link_io.specs.Resources.{IsOnce, found, with_resources};
ghost use Rattle.link_io.specs.Stored.{Makes, Lists, Rises, begun, appended, committed, abandoned, all_abandoned};

use bytes::Bytes;
use link_io::{Fulls, MemStore, Shelf, Store, StoreKey, StoreRefused};
use std::alloc::{AllocError, Global};
use std::marker::Model;

/// A store in memory of which no call fails. Contracts see what it holds.
pub struct WorldStore {
    inner: MemStore,
}

impl Model for WorldStore {
    ghost use Rattle.std.specs.Prelude.{◌≡◌, []};
    ghost use Rattle.link_io.specs.Stored.{Stored};

    ghost Value = { Stored };

    ghost view = { λ s. s.inner.stored };

    ghost invariant = { λ s. s.inner.fails ≡ [] };
}

impl Drop for WorldStore {
    fn drop(self) {
        let Self { inner: _ } = self;
    }
}

impl WorldStore {
    /// A store with these resources and these leftovers.
    pub fn new(alloc: Global, full: Fulls, left: Fulls) -> Result<WorldStore, AllocError>
        requires full { IsOnce full }
        requires left { IsOnce left }
        ensures { IfOk result (λ store. store ≡ record { full = with_resources full []; left = with_resources left []; work = [] }) }
    {
        Ok(WorldStore {
            inner: MemStore::new(alloc, full, left, Vec::new(alloc))?,
        })
    }

    /// The bytes of a whole resource, if it is there.
    pub fn full(&self, resource: u32) -> Option<&Bytes>
        ensures { option_copied result ≡ found resource self.now.full }
    {
        self.inner.full(resource)
    }

    /// What is left of a resource, if anything is.
    pub fn left(&self, resource: u32) -> Option<&Bytes>
        ensures { option_copied result ≡ found resource self.now.left }
    {
        self.inner.left(resource)
    }

    /// The store in memory.
    pub fn into_inner(self) -> MemStore
        ensures { result.stored ≡ self }
    {
        let Self { inner } = self;
        inner
    }
}

impl Store for WorldStore {
    ghost holds = { λ s. Some s };

    ghost faults = { λ _. 0 };

    fn begin(&mut self, key: StoreKey, resource: u32, offset: u64) -> Result<(), StoreRefused>
        ensures change { Makes (begun key resource offset) (Some self.old) (Some self.new) result }
        ensures cause { HasStoreCause 0 0 result }
    {
        self.inner.begin(key, resource, offset)
    }

    fn append(&mut self, key: StoreKey, bytes: &Bytes) -> Result<(), StoreRefused>
        ensures change { Makes (appended key bytes.now) (Some self.old) (Some self.new) result }
        ensures cause { HasStoreCause 0 0 result }
    {
        self.inner.append(key, bytes)
    }

    fn commit(&mut self, key: StoreKey) -> Result<(), StoreRefused>
        ensures change { Makes (committed key) (Some self.old) (Some self.new) result }
        ensures cause { HasStoreCause 0 0 result }
    {
        self.inner.commit(key)
    }

    fn leave(&mut self, key: StoreKey) -> Result<(), StoreRefused>
        ensures change { Makes (abandoned key) (Some self.old) (Some self.new) result }
        ensures cause { HasStoreCause 0 0 result }
    {
        self.inner.leave(key)
    }

    fn leave_call(&mut self, call: u32) -> Result<(), StoreRefused>
        ensures change { Makes (all_abandoned call) (Some self.old) (Some self.new) result }
        ensures cause { HasStoreCause 0 0 result }
    {
        self.inner.leave_call(call)
    }

    fn list(&mut self) -> Result<Shelf, StoreRefused>
        ensures lists { Lists (Some self.old) result }
        ensures rises { IfOk result Rises }
        ensures kept { Some self.new ≡ Some self.old }
        ensures cause { HasStoreCause 0 0 result }
    {
        self.inner.list()
    }
}
