//! What stands in a store's folder.
ghost use Rattle.std.specs.Prelude.{IfOk};
ghost use Rattle.link_io.specs.Resources.{RiseById};

use super::names::Name;
use super::place::Place;
use crate::{Fulls, Lefts, StoreKey, StoreRefused};
use std::alloc::{AllocError, Global};
use std::collections::BTreeMap;
use std::fs::{File, Files};

/// The files of a store that were found in its folder.
#[derive(Drop)]
pub(crate) struct Found {
    /// The whole resources, with their lengths.
    full: BTreeMap<u32, u64>,
    /// What is left of resources, with its lengths.
    left: BTreeMap<u32, u64>,
    /// The uploads, with their resources.
    works: Vec<(StoreKey, u32)>,
}

impl Found {
    pub(crate) fn new(alloc: Global) -> Found {
        Found {
            full: BTreeMap::new(alloc),
            left: BTreeMap::new(alloc),
            works: Vec::new(alloc),
        }
    }

    /// Adds a plain file, by what its name says.
    pub(crate) fn add(&mut self, name: Name, length: u64) -> Result<(), AllocError> {
        match name {
            Name::Full(resource) => {
                self.full.insert(resource, length)?;
            }
            Name::Left(resource) => {
                self.left.insert(resource, length)?;
            }
            Name::Work(key, resource) => self.works.push((key, resource))?,
        }
        Ok(())
    }

    /// The uploads, with their resources.
    pub(crate) fn works(&self) -> &[(StoreKey, u32)] {
        self.works.as_slice()
    }

    /// The whole resources, read from their files.
    pub(crate) fn fulls<F: Files<File = File>>(
        &self,
        place: &Place<'_, F>,
    ) -> Result<Fulls, StoreRefused>
        ensures { IfOk result RiseById }
    {
        let mut rows = Fulls::new(place.alloc());
        'resources: for (resource, length) in &self.full {
            rows.push((*resource, place.read_full(*resource, *length)?))?;
        }
        Ok(rows)
    }

    /// How long what is left of resources is.
    pub(crate) fn lefts(&self, alloc: Global) -> Result<Lefts, AllocError>
        ensures { IfOk result RiseById }
    {
        let mut rows = Lefts::new(alloc);
        'resources: for (resource, length) in &self.left {
            rows.push((*resource, *length))?;
        }
        Ok(rows)
    }

    /// How long what is left of resources is, by resource.
    pub(crate) fn into_left(self) -> BTreeMap<u32, u64> {
        self.left
    }
}
