//! A store for commands that have none.
ghost use Rattle.std.specs.Prelude.{None};

use crate::demo::no_shelf;
use bytes::Bytes;
use link_io::{Shelf, Store, StoreKey, StoreRefused};
use std::alloc::Global;

/// Keeps nothing, and never fails.
#[derive(Drop)]
pub(crate) struct NoStore {
    pub(crate) alloc: Global,
}

impl Store for NoStore {
    ghost holds = { λ _. None };

    ghost faults = { λ _. 0 };

    fn begin(&mut self, _key: StoreKey, _resource: u32, _offset: u64) -> Result<(), StoreRefused> {
        Ok(())
    }

    fn append(&mut self, _key: StoreKey, _bytes: &Bytes) -> Result<(), StoreRefused> {
        Ok(())
    }

    fn commit(&mut self, _key: StoreKey) -> Result<(), StoreRefused> {
        Ok(())
    }

    fn leave(&mut self, _key: StoreKey) -> Result<(), StoreRefused> {
        Ok(())
    }

    fn leave_call(&mut self, _call: u32) -> Result<(), StoreRefused> {
        Ok(())
    }

    fn list(&mut self) -> Result<Shelf, StoreRefused> {
        Ok(no_shelf(self.alloc))
    }
}
