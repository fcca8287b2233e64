//! The demo service over a link, by a session on threads.
ghost use Rattle.std.specs.Prelude.{◌≡◌, ◌≤◌, false, [], IfOk, OnErr};
ghost use Rattle.link_io.specs.Causes.{Rose};
ghost use Rattle.link_io.specs.declared.why.Why.TheVariants.{Source as Read, Sink as Link, Store as Depot};
ghost use Rattle.pw_run.specs.Devices.{LinkDevices};
ghost use Rattle.pw_run.specs.LinkServed.{ServesLink, ServesShelf};
ghost use Rattle.pw_run.specs.LiveCommand.{IsCrewSize};
ghost use Rattle.pw_run.specs.Replay.{no_counts, no_table};

use crate::demo;
use demo_services::{DemoCall, demo_registry};
use link_io::{Clock, Shelf, Sink, Source, Store, StoreRefused, Why};
use rpc_calls::Calls;
use rpc_crew::{Gate, Served, session_with_items};
use rpc_handlers::Maker;
use rpc_ids::Role;
use rpc_server::Counts;
use std::alloc::{AllocError, Global};
use std::sync::Wait;
use std::thread::Threads;

/// Lists the store, and serves a link over its shelf by so many workers. Where the store can't be listed nothing is read, and what
/// is handed back is an empty history that ended for the store.
///
/// # Errors
///
/// `AllocError` where there was no memory to begin; nothing was read, sent or stored then. Later want of memory is `Why::Memory`.
pub(crate) fn serve_link<
    R: Threads + Wait + Sync,
    I: Source + Send,
    O: Sink + Send,
    S: Store + Send,
    C: Clock + Send,
    G: Gate + Sync,
>(
    rt: &R,
    alloc: Global,
    workers: u32,
    link_in: &mut I,
    link_out: &mut O,
    store: &mut S,
    clock: &mut C,
    gate: &G,
) -> Result<Served<DemoCall>, AllocError>
    requires workers { IsCrewSize workers }
    requires open { O.finished link_out.old ≡ false }
    ensures serves { IfOk result (λ s. ServesLink workers
        (record { left = I.left link_in.old; sent = O.written link_out.old; held = S.holds store.old; moment = C.last clock.old })
        (record { left = I.left link_in.new; sent = O.written link_out.new; held = S.holds store.new; moment = C.last clock.new })
        s.why s.counts s.calls s.items.items) }
    ensures source { IfOk result (λ s. s.why ≡ Read → Rose (I.faults link_in.old) (I.faults link_in.new)) }
    ensures sink { IfOk result (λ s. s.why ≡ Link → Rose (O.faults link_out.old) (O.faults link_out.new)) }
    ensures store { IfOk result (λ s. s.why ≡ Depot → Rose (S.faults store.old) (S.faults store.new)) }
    ensures later { (I.faults link_in.old ≤ I.faults link_in.new) × (S.faults store.old ≤ S.faults store.new) }
    ensures untouched { OnErr result ((link_in.new ≡ link_in.old) × (link_out.new ≡ link_out.old) × (S.holds store.new ≡ S.holds store.old) × (clock.new ≡ clock.old)) }
{
    match store.list() {
        Ok(shelf) => serve_shelf(
            rt, alloc, shelf, workers, link_in, link_out, store, clock, gate,
        ),
        Err(StoreRefused::Failed) => unlisted(alloc),
        Err(StoreRefused::Memory) => Err(AllocError),
    }
}

// Serves a link over this shelf.
fn serve_shelf<
    R: Threads + Wait + Sync,
    I: Source + Send,
    O: Sink + Send,
    S: Store + Send,
    C: Clock + Send,
    G: Gate + Sync,
>(
    rt: &R,
    alloc: Global,
    shelf: Shelf,
    workers: u32,
    link_in: &mut I,
    link_out: &mut O,
    store: &mut S,
    clock: &mut C,
    gate: &G,
) -> Result<Served<DemoCall>, AllocError>
    requires workers { IsCrewSize workers }
    requires open { O.finished link_out.old ≡ false }
    ensures serves { IfOk result (λ s. ServesShelf workers shelf
        (record { left = I.left link_in.old; sent = O.written link_out.old; held = S.holds store.old; moment = C.last clock.old })
        (record { left = I.left link_in.new; sent = O.written link_out.new; held = S.holds store.new; moment = C.last clock.new })
        s.why s.counts s.calls s.items.items) }
    ensures source { IfOk result (λ s. s.why ≡ Read → Rose (I.faults link_in.old) (I.faults link_in.new)) }
    ensures sink { IfOk result (λ s. s.why ≡ Link → Rose (O.faults link_out.old) (O.faults link_out.new)) }
    ensures store { IfOk result (λ s. s.why ≡ Depot → Rose (S.faults store.old) (S.faults store.new)) }
    ensures later { (I.faults link_in.old ≤ I.faults link_in.new) × (S.faults store.old ≤ S.faults store.new) }
    ensures untouched { OnErr result ((link_in.new ≡ link_in.old) × (link_out.new ≡ link_out.old) × (store.new ≡ store.old) × (clock.new ≡ clock.old)) }
{
    let channels = demo::channels(alloc)?;
    let registry = demo_registry(alloc)?;
    let maker = demo::maker(alloc, shelf)?;
    session_with_items(
        rt, alloc, link_in, link_out, store, channels, registry, &maker, workers, clock, gate,
    )
}

// What is handed back where the store can't be listed.
fn unlisted(alloc: Global) -> Result<Served<DemoCall>, AllocError>
    ensures why { IfOk result (λ s. s.why ≡ Depot) }
    ensures counts { IfOk result (λ s. s.counts ≡ no_counts) }
    ensures table { IfOk result (λ s. s.calls ≡ no_table) }
    ensures items { IfOk result (λ s. s.items.items ≡ []) }
{
    let maker = demo::maker(alloc, demo::no_shelf(alloc))?;
    let calls = Calls::new(
        alloc,
        Role::Server,
        demo::channels(alloc)?,
        demo_registry(alloc)?,
        maker.seed()?,
    )?;
    Ok(Served {
        calls,
        why: Why::Store,
        counts: Counts {
            valid: 0,
            bad: 0,
            other: 0,
            dropped: 0,
        },
        read: 0,
        done: 0,
        began: 0,
        items: Vec::new(alloc),
    })
}
