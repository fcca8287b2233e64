ghost use Rattle.std.specs.Prelude.{◌≡◌, Some, IsErr, IfOk, IfErr, Contains};
ghost use Rattle.std.specs.Option.{option_copied};
ghost use Rattle.link_io.specs.declared.store.StoreRefused.TheVariants.{Failed};
ghost use Rattle.link_io.specs.Causes.{HasStoreCause, CountsFailure, counted};
ghost use Rattle.link_io.specs.Resources.{IsOnce, found};
ghost use Rattle.link_io.specs.Stored.{Makes, Lists, Rises, begun, appended, committed, abandoned, all_abandoned};
ghost use Rattle.link_io.specs.StoreDevice.{StoreDevice, FailsBy, fresh_store};

mod content;
mod work;

use crate::{Fulls, Shelf, Store, StoreKey, StoreRefused};
use bytes::Bytes;
use content::Content;
use std::alloc::{AllocError, Global};
use std::marker::Model;

/// A store that keeps everything in memory, and whose chosen calls fail.
pub struct MemStore {
    content: Content,
    fails: Vec<u64>,
    calls: u64,
    faults: u64,
}

impl Drop for MemStore {
    fn drop(self) {
        let Self {
            content: _,
            fails: _,
            calls: _,
            faults: _,
        } = self;
    }
}

impl Model for MemStore {
    ghost use Rattle.link_io.specs.StoreDevice.{StoreDevice};

    ghost Value = { StoreDevice };

    ghost view = { λ s. record {
      stored = s.content;
      fails = s.fails.items;
      calls = s.calls;
      faults = s.faults;
    } };
}

impl MemStore {
    /// A store with these resources, and these leftovers of uploads that were cut short. `fails` has the numbers of
    /// its calls that fail, counted from 1 over all of them.
    pub fn new(
        alloc: Global,
        full: Fulls,
        left: Fulls,
        fails: Vec<u64>,
    ) -> Result<MemStore, AllocError>
        requires full { IsOnce full }
        requires left { IsOnce left }
        ensures { IfOk result (λ store. store ≡ fresh_store full left fails.items) }
    {
        Ok(MemStore {
            content: Content::new(alloc, &full, &left)?,
            fails,
            calls: 0,
            faults: 0,
        })
    }

    /// The bytes of a whole resource, if it is there.
    pub fn full(&self, resource: u32) -> Option<&Bytes>
        ensures { option_copied result ≡ found resource self.now.stored.full }
    {
        self.content.full(resource)
    }

    /// What uploads that were cut short have left of a resource, if there is any.
    pub fn left(&self, resource: u32) -> Option<&Bytes>
        ensures { option_copied result ≡ found resource self.now.stored.left }
    {
        self.content.left(resource)
    }

    // Counts a call, and fails where it is one of those that fail.
    fn begin_call(&mut self) -> Result<(), StoreRefused>
        ensures stored { self.new.stored ≡ self.old.stored }
        ensures cause { HasStoreCause self.old.faults self.new.faults result }
        ensures failed { IfErr result (λ e. e ≡ Failed) }
        ensures counts { CountsFailure self.old.faults self.new.faults result }
        ensures fails { FailsBy self.old.fails (counted self.old.calls) result }
        ensures calls { self.new.calls ≡ counted self.old.calls }
        ensures same { self.new.fails ≡ self.old.fails }
    {
        self.calls = self.calls.saturating_add(1);
        if self.fails.contains(&self.calls) {
            self.faults = self.faults.saturating_add(1);
            return Err(StoreRefused::Failed);
        }
        Ok(())
    }
}

impl Store for MemStore {
    ghost holds = { λ s. Some s.stored };

    ghost faults = { λ s. s.faults };

    fn begin(&mut self, key: StoreKey, resource: u32, offset: u64) -> Result<(), StoreRefused>
        ensures change { Makes (begun key resource offset) (Some self.old.stored) (Some self.new.stored) result }
        ensures cause { HasStoreCause self.old.faults self.new.faults result }
        ensures counts { CountsFailure self.old.faults self.new.faults result }
        ensures fails { FailsBy self.old.fails (counted self.old.calls) result }
        ensures calls { self.new.calls ≡ counted self.old.calls }
        ensures same { self.new.fails ≡ self.old.fails }
    {
        self.begin_call()?;
        self.content.begin(key, resource, offset)?;
        Ok(())
    }

    fn append(&mut self, key: StoreKey, bytes: &Bytes) -> Result<(), StoreRefused>
        ensures change { Makes (appended key bytes.now) (Some self.old.stored) (Some self.new.stored) result }
        ensures cause { HasStoreCause self.old.faults self.new.faults result }
        ensures counts { CountsFailure self.old.faults self.new.faults result }
        ensures fails { FailsBy self.old.fails (counted self.old.calls) result }
        ensures calls { self.new.calls ≡ counted self.old.calls }
        ensures same { self.new.fails ≡ self.old.fails }
    {
        self.begin_call()?;
        self.content.append(key, bytes)?;
        Ok(())
    }

    fn commit(&mut self, key: StoreKey) -> Result<(), StoreRefused>
        ensures change { Makes (committed key) (Some self.old.stored) (Some self.new.stored) result }
        ensures cause { HasStoreCause self.old.faults self.new.faults result }
        ensures counts { CountsFailure self.old.faults self.new.faults result }
        ensures fails { FailsBy self.old.fails (counted self.old.calls) result }
        ensures calls { self.new.calls ≡ counted self.old.calls }
        ensures same { self.new.fails ≡ self.old.fails }
    {
        self.begin_call()?;
        self.content.commit(key)?;
        Ok(())
    }

    fn leave(&mut self, key: StoreKey) -> Result<(), StoreRefused>
        ensures change { Makes (abandoned key) (Some self.old.stored) (Some self.new.stored) result }
        ensures cause { HasStoreCause self.old.faults self.new.faults result }
        ensures counts { CountsFailure self.old.faults self.new.faults result }
        ensures fails { FailsBy self.old.fails (counted self.old.calls) result }
        ensures calls { self.new.calls ≡ counted self.old.calls }
        ensures same { self.new.fails ≡ self.old.fails }
    {
        self.begin_call()?;
        self.content.leave(key)?;
        Ok(())
    }

    fn leave_call(&mut self, call: u32) -> Result<(), StoreRefused>
        ensures change { Makes (all_abandoned call) (Some self.old.stored) (Some self.new.stored) result }
        ensures cause { HasStoreCause self.old.faults self.new.faults result }
        ensures counts { CountsFailure self.old.faults self.new.faults result }
        ensures fails { FailsBy self.old.fails (counted self.old.calls) result }
        ensures calls { self.new.calls ≡ counted self.old.calls }
        ensures same { self.new.fails ≡ self.old.fails }
    {
        self.begin_call()?;
        self.content.leave_call(call)?;
        Ok(())
    }

    fn list(&mut self) -> Result<Shelf, StoreRefused>
        ensures lists { Lists (Some self.old.stored) result }
        ensures rises { IfOk result Rises }
        ensures kept { Some self.new.stored ≡ Some self.old.stored }
        ensures cause { HasStoreCause self.old.faults self.new.faults result }
        ensures counts { CountsFailure self.old.faults self.new.faults result }
        ensures fails { FailsBy self.old.fails (counted self.old.calls) result }
        ensures calls { self.new.calls ≡ counted self.old.calls }
        ensures same { self.new.fails ≡ self.old.fails }
    {
        self.begin_call()?;
        Ok(self.content.list()?)
    }
}
