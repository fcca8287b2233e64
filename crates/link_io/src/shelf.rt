//! What a store lists: resources by their ids.
ghost use Rattle.std.specs.Prelude.{◌≡◌, ℕ, List, [], ◌∷◌, ◌++◌, OnOk, OnErr};
ghost use Rattle.std.specs.Option.{option_copied};
ghost use Rattle.link_io.specs.Resources.{first_of};

use bytes::Bytes;
use std::alloc::{AllocError, Global};
use std::marker::Model;

/// Resources with their bytes, in order.
#[derive(Clone, Debug, Drop)]
pub struct Fulls {
    rows: Vec<(u32, Bytes)>,
}

impl Model for Fulls {
    ghost Value = { List (ℕ × List ℕ) };

    ghost view = { λ l. l.rows.items };
}

impl Fulls {
    /// No resource.
    pub fn new(alloc: Global) -> Fulls
        ensures { result ≡ [] }
    {
        Fulls {
            rows: Vec::new(alloc),
        }
    }

    /// Adds a resource at the end.
    pub fn push(&mut self, item: (u32, Bytes)) -> Result<(), AllocError>
        ensures ok { OnOk result (self.new ≡ self.old ++ item ∷ []) }
        ensures err { OnErr result (self.new ≡ self.old) }
    {
        self.rows.push(item)?;
        Ok(())
    }

    /// The resources in order.
    pub fn as_slice(&self) -> &[(u32, Bytes)]
        ensures { result.now ≡ self.now }
    {
        self.rows.as_slice()
    }

    /// The bytes of a resource, if it is there.
    pub fn get(&self, resource: u32) -> Option<&Bytes>
        ensures { option_copied result ≡ first_of resource self.now }
    {
        for (id, bytes) in &self.rows {
            if *id == resource {
                return Some(bytes);
            }
        }
        None
    }
}

/// Resources with the lengths of what is left of them, in order.
#[derive(Clone, Debug, Drop)]
pub struct Lefts {
    rows: Vec<(u32, u64)>,
}

impl Model for Lefts {
    ghost Value = { List (ℕ × ℕ) };

    ghost view = { λ l. l.rows.items };
}

impl Lefts {
    /// No resource.
    pub fn new(alloc: Global) -> Lefts
        ensures { result ≡ [] }
    {
        Lefts {
            rows: Vec::new(alloc),
        }
    }

    /// Adds a resource at the end.
    pub fn push(&mut self, item: (u32, u64)) -> Result<(), AllocError>
        ensures ok { OnOk result (self.new ≡ self.old ++ item ∷ []) }
        ensures err { OnErr result (self.new ≡ self.old) }
    {
        self.rows.push(item)?;
        Ok(())
    }

    /// The resources in order.
    pub fn as_slice(&self) -> &[(u32, u64)]
        ensures { result.now ≡ self.now }
    {
        self.rows.as_slice()
    }

    /// How long what is left of a resource is, if it is there.
    pub fn get(&self, resource: u32) -> Option<u64>
        ensures { result ≡ first_of resource self.now }
    {
        for (id, length) in &self.rows {
            if *id == resource {
                return Some(*length);
            }
        }
        None
    }
}

/// What a store lists, both by rising id.
#[derive(Clone, Debug, Drop)]
pub struct Shelf {
    /// The whole resources.
    pub full: Fulls,
    /// How long what is left of uploads is that were cut short.
    pub left: Lefts,
}
