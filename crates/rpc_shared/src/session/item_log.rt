//! The items that were made.
ghost use Rattle.std.specs.Prelude.{◌≡◌, ℕ, ◌+◌, [], ◌∷◌, OnOk};
ghost use Rattle.rpc_shared.specs.session.Log.{HasPlaces, Logs};

use rpc_journal::Item;
use std::alloc::{AllocError, Global};

/// A log of items, which keeps each, or none.
#[derive(Drop)]
pub struct ItemLog {
    pub keeps: bool,
    pub items: Vec<Item>,
}

impl ItemLog {
    /// An empty log.
    pub fn new(alloc: Global, keeps: bool) -> ItemLog
        ensures keeps { result.keeps ≡ keeps }
        ensures empty { result.items.items ≡ [] }
    {
        ItemLog {
            keeps,
            items: Vec::new(alloc),
        }
    }

    /// Takes places for so many more items, where they are needed.
    pub fn reserve(&mut self, count: usize) -> Result<(), AllocError>
        ensures kept { Logs self.old self.new [] }
        ensures places { OnOk result (HasPlaces self.new count) }
        ensures still { (n : ℕ) → HasPlaces self.old n → HasPlaces self.new n }
    {
        if self.keeps {
            self.items.reserve(count)?;
        }
        Ok(())
    }

    /// Adds an item, or lets it go.
    pub fn add(&mut self, item: Item)
        requires { HasPlaces self.old 1 }
        ensures logs { Logs self.old self.new (item ∷ []) }
        ensures places { (n : ℕ) → HasPlaces self.old (n + 1) → HasPlaces self.new n }
    {
        if self.keeps {
            self.items.push_reserved(item);
        }
    }
}
