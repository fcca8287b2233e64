ghost use Rattle.std.specs.Prelude.{◌≡◌, ℕ, [], take, OnOk, OnErr, IfOk};
ghost use Rattle.std.specs.Option.{option_copied};
ghost use Rattle.link_io.specs.Resources.{found, with_resources, lengths_of, RiseById};
ghost use Rattle.link_io.specs.Stored.{Stored, begun, appended, committed, abandoned, all_abandoned, left_by, shelf_of, Rises};

use super::work::Work;
use crate::{Fulls, Lefts, Shelf, StoreKey};
use bytes::Bytes;
use std::alloc::{AllocError, Global};
use std::collections::BTreeMap;
use std::marker::Model;

/// What a store in memory holds.
#[derive(Drop)]
pub(crate) struct Content {
    alloc: Global,
    full: BTreeMap<u32, Bytes>,
    left: BTreeMap<u32, Bytes>,
    work: BTreeMap<StoreKey, Work>,
}

impl Model for Content {
    ghost use Rattle.link_io.specs.Stored.{Stored};

    ghost Value = { Stored };

    ghost view = { λ s. record {
      full = s.full.entries;
      left = s.left.entries;
      work = s.work.entries;
    } };
}

impl Content {
    /// These resources and leftovers, and no upload.
    pub(crate) fn new(alloc: Global, full: &Fulls, left: &Fulls) -> Result<Content, AllocError>
        ensures { IfOk result (λ content. content
            ≡ record { full = with_resources full.now []; left = with_resources left.now []; work = [] }) }
    {
        Ok(Content {
            alloc,
            full: by_id(alloc, full)?,
            left: by_id(alloc, left)?,
            work: BTreeMap::new(alloc),
        })
    }

    pub(crate) fn full(&self, resource: u32) -> Option<&Bytes>
        ensures { option_copied result ≡ found resource self.now.full }
    {
        self.full.get(&resource)
    }

    pub(crate) fn left(&self, resource: u32) -> Option<&Bytes>
        ensures { option_copied result ≡ found resource self.now.left }
    {
        self.left.get(&resource)
    }

    pub(crate) fn begin(
        &mut self,
        key: StoreKey,
        resource: u32,
        offset: u64,
    ) -> Result<(), AllocError>
        ensures ok { OnOk result (self.new ≡ begun key resource offset self.old) }
        ensures err { OnErr result (self.new ≡ self.old) }
    {
        let bytes = match self.left.get(&resource) {
            Some(bytes) => Vec::from_slice(self.alloc, front(bytes.as_slice(), offset))?,
            None => Vec::new(self.alloc),
        };
        self.work.insert(
            key,
            Work {
                resource,
                offset,
                bytes,
                appended: 0,
            },
        )?;
        Ok(())
    }

    pub(crate) fn append(&mut self, key: StoreKey, bytes: &Bytes) -> Result<(), AllocError>
        ensures ok { OnOk result (self.new ≡ appended key bytes.now self.old) }
        ensures err { OnErr result (self.new ≡ self.old) }
    {
        let Some(work) = self.work.get_mut(&key) else {
            return Ok(());
        };
        work.append(bytes)?;
        Ok(())
    }

    pub(crate) fn commit(&mut self, key: StoreKey) -> Result<(), AllocError>
        ensures ok { OnOk result (self.new ≡ committed key self.old) }
        ensures err { OnErr result (self.new ≡ self.old) }
    {
        let Some(work) = self.work.get(&key) else {
            return Ok(());
        };
        let resource = work.resource;
        let bytes = work.copied(self.alloc)?;
        self.full.insert(resource, bytes)?;
        self.left.remove(&resource);
        self.work.remove(&key);
        Ok(())
    }

    pub(crate) fn leave(&mut self, key: StoreKey) -> Result<(), AllocError>
        ensures ok { OnOk result (self.new ≡ abandoned key self.old) }
        ensures err { OnErr result (self.new ≡ self.old) }
    {
        let Some(work) = self.work.get(&key) else {
            return Ok(());
        };
        leave_in(self.alloc, &mut self.left, work)?;
        self.work.remove(&key);
        Ok(())
    }

    pub(crate) fn leave_call(&mut self, call: u32) -> Result<(), AllocError>
        ensures ok { OnOk result (self.new ≡ all_abandoned call self.old) }
        ensures err { OnErr result (self.new ≡ self.old) }
    {
        let mut left = self.left.clone()?;
        'works: for (key, work) in &self.work {
            if key.call == call {
                leave_in(self.alloc, &mut left, work)?;
            }
        }
        self.left = left;
        self.work.retain(|key, _work| key.call != call);
        Ok(())
    }

    pub(crate) fn list(&self) -> Result<Shelf, AllocError>
        ensures shelf { IfOk result (λ shelf. shelf ≡ shelf_of self.now) }
        ensures rises { IfOk result Rises }
    {
        Ok(Shelf {
            full: listed(self.alloc, &self.full)?,
            left: lengths(self.alloc, &self.left)?,
        })
    }
}

// The resources by id, the later of two with one id.
fn by_id(alloc: Global, rows: &Fulls) -> Result<BTreeMap<u32, Bytes>, AllocError>
    ensures { IfOk result (λ map. map.entries ≡ with_resources rows.now []) }
{
    let mut map = BTreeMap::new(alloc);
    'rows: for (id, bytes) in rows.as_slice() {
        map.insert(*id, bytes.clone()?)?;
    }
    Ok(map)
}

// The first so many bytes, or all where there are fewer.
fn front(bytes: &[u8], count: u64) -> &[u8]
    ensures { result.now ≡ take count bytes.now }
{
    if count < bytes.len() as u64 {
        &bytes[..count as usize]
    } else {
        bytes
    }
}

// A work ends: it is what is left of its resource, where bytes were appended to it.
fn leave_in(alloc: Global, left: &mut BTreeMap<u32, Bytes>, work: &Work) -> Result<(), AllocError>
    ensures ok { OnOk result (left.new.entries ≡ left_by work.now left.old.entries) }
    ensures err { OnErr result (left.new.entries ≡ left.old.entries) }
{
    if work.appended > 0 {
        let bytes = work.copied(alloc)?;
        left.insert(work.resource, bytes)?;
    }
    Ok(())
}

fn listed(alloc: Global, map: &BTreeMap<u32, Bytes>) -> Result<Fulls, AllocError>
    ensures rows { IfOk result (λ rows. rows ≡ map.now.entries) }
    ensures rises { IfOk result RiseById }
{
    let mut rows = Fulls::new(alloc);
    'resources: for (resource, bytes) in map {
        rows.push((*resource, bytes.clone()?))?;
    }
    Ok(rows)
}

fn lengths(alloc: Global, map: &BTreeMap<u32, Bytes>) -> Result<Lefts, AllocError>
    ensures rows { IfOk result (λ rows. rows ≡ lengths_of map.now.entries) }
    ensures rises { IfOk result RiseById }
{
    let mut rows = Lefts::new(alloc);
    'resources: for (resource, bytes) in map {
        rows.push((*resource, bytes.len() as u64))?;
    }
    Ok(rows)
}
