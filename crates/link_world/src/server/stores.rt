//! The stores of a world.
ghost use Rattle.std.specs.Prelude.{◌≡◌, IfOk, OnOk, Some};
ghost use Rattle.link_io.specs.Resources.{IsOnce, lengths_of};
ghost use Rattle.link_io.specs.Stored.{shelf_of};
ghost use Rattle.link_laws.specs.world.Setup.{made_bytes, made_resources, stocked};

use crate::server::world_store::WorldStore;
use bytes::Bytes;
use link_io::{Fulls, Shelf, Store, StoreRefused};
use link_script::{Resources, Stock, next_number};
use std::alloc::{AllocError, Global};

/// The bytes of a resource: the highest byte of each number that the generator gives, from the seed on.
pub fn stock_bytes(alloc: Global, stock: Stock) -> Result<Bytes, AllocError>
    ensures { IfOk result (λ bytes. bytes ≡ made_bytes stock.len stock.seed) }
{
    let mut bytes = Vec::new(alloc);
    let mut x = stock.seed;
    for _made in 0..stock.len {
        x = next_number(x);
        bytes.push((x >> 56) as u8)?;
    }
    Ok(Bytes::from_vec(bytes)?)
}

// These resources.
fn resources(alloc: Global, stocks: &[Stock]) -> Result<Fulls, AllocError>
    ensures { IfOk result (λ fulls. fulls ≡ made_resources stocks.now) }
{
    let mut fulls = Fulls::new(alloc);
    for stock in stocks {
        fulls.push((stock.id, stock_bytes(alloc, *stock)?))?;
    }
    Ok(fulls)
}

/// A store with these resources and these leftovers.
pub fn store_of(alloc: Global, full: &[Stock], left: &[Stock]) -> Result<WorldStore, AllocError>
    requires full { IsOnce (made_resources full.now) }
    requires left { IsOnce (made_resources left.now) }
    ensures { IfOk result (λ store. store ≡ stocked full.now left.now) }
{
    let full = resources(alloc, full)?;
    let left = resources(alloc, left)?;
    WorldStore::new(alloc, full, left)
}

/// What the store lists.
pub fn shelf_of(store: &mut WorldStore) -> Result<Shelf, AllocError>
    ensures shelf { IfOk result (λ shelf. shelf ≡ shelf_of store.old) }
    ensures same { store.new ≡ store.old }
{
    match store.list() {
        Ok(shelf) => Ok(shelf),
        Err(StoreRefused::Memory) => Err(AllocError),
        Err(StoreRefused::Failed) => unreachable!(),
    }
}

/// The whole resources with their lengths, by rising id.
pub fn lengths(alloc: Global, store: &mut WorldStore) -> Result<Resources, AllocError>
    ensures lengths { IfOk result (λ lengths. lengths ≡ lengths_of store.old.full) }
    ensures same { store.new ≡ store.old }
{
    let shelf = shelf_of(store)?;
    let mut lengths = Resources::new(alloc);
    for (id, bytes) in shelf.full.as_slice() {
        lengths.push((*id, bytes.len() as u64))?;
    }
    Ok(lengths)
}
