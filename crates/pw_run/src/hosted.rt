//! A link as `host` serves it: by a session with a clock of its own, behind which what is under way is left.
ghost use Rattle.std.specs.Prelude.{◌≡◌, ◌+◌, ◌≤◌, ◌⊎◌, false, true, IfOk, OnErr};
ghost use Rattle.link_io.specs.Causes.{Rose};
ghost use Rattle.link_io.specs.declared.why.Why.TheVariants.{Source as Read, Sink as Link, Store as Depot};
ghost use Rattle.pw_run.specs.Hosted.{HostsLink, LeavesUnderWay, ServesAnew, ends_run};
ghost use Rattle.pw_run.specs.LiveCommand.{IsCrewSize};

use crate::link_served::serve_link;
use crate::session_clock::SessionClock;
use crate::under_way::leave_under_way;
use demo_services::DemoCall;
use link_io::{Clock, Sink, Source, Store, StoreRefused, Why};
use rpc_crew::{Gate, Served};
use rpc_journal::Item;
use std::alloc::{AllocError, Global};
use std::sync::Wait;
use std::thread::Threads;

/// Serves a link by so many workers, and leaves what it has under way. The reason that is told is the session's, but where the store
/// failed there, or memory was wanting.
///
/// # Errors
///
/// `AllocError` where there was no memory to begin; nothing was read, sent or stored then.
pub(crate) fn host_link<
    R: Threads + Wait + Sync,
    I: Source + Send,
    O: Sink + Send,
    S: Store + Send,
    C: Clock + Send,
    G: Gate + Sync,
>(
    rt: &R,
    alloc: Global,
    workers: u32,
    link_in: &mut I,
    link_out: &mut O,
    store: &mut S,
    clock: &mut C,
    gate: &G,
) -> Result<Served<DemoCall>, AllocError>
    requires workers { IsCrewSize workers }
    requires open { O.finished link_out.old ≡ false }
    ensures hosts { IfOk result (λ s. HostsLink workers
        (record { left = I.left link_in.old; sent = O.written link_out.old; held = S.holds store.old; moment = C.last clock.old })
        (record { left = I.left link_in.new; sent = O.written link_out.new; held = S.holds store.new; moment = C.last clock.new })
        s.why s.counts s.calls s.items.items) }
    ensures source { IfOk result (λ s. s.why ≡ Read → Rose (I.faults link_in.old) (I.faults link_in.new)) }
    ensures sink { IfOk result (λ s. s.why ≡ Link → Rose (O.faults link_out.old) (O.faults link_out.new)) }
    ensures store { IfOk result (λ s. s.why ≡ Depot → Rose (S.faults store.old) (S.faults store.new)) }
    ensures later { (I.faults link_in.old ≤ I.faults link_in.new) × (S.faults store.old ≤ S.faults store.new) }
    ensures untouched { OnErr result ((link_in.new ≡ link_in.old) × (link_out.new ≡ link_out.old) × (S.holds store.new ≡ S.holds store.old)) }
    ensures moment { OnErr result (C.last clock.old ≤ C.last clock.new) }
{
    let served = serve_anew(rt, alloc, workers, link_in, link_out, store, clock, gate)?;
    let ended = leave_behind(alloc, served.why, &served.items, store);
    Ok(Served {
        why: ended,
        ..served
    })
}

// Serves a link by a session that begins at 0 of a clock of its own.
fn serve_anew<
    R: Threads + Wait + Sync,
    I: Source + Send,
    O: Sink + Send,
    S: Store + Send,
    C: Clock + Send,
    G: Gate + Sync,
>(
    rt: &R,
    alloc: Global,
    workers: u32,
    link_in: &mut I,
    link_out: &mut O,
    store: &mut S,
    clock: &mut C,
    gate: &G,
) -> Result<Served<DemoCall>, AllocError>
    requires workers { IsCrewSize workers }
    requires open { O.finished link_out.old ≡ false }
    ensures serves { IfOk result (λ s. ServesAnew workers
        (record { left = I.left link_in.old; sent = O.written link_out.old; held = S.holds store.old; moment = C.last clock.old })
        (record { left = I.left link_in.new; sent = O.written link_out.new; held = S.holds store.new; moment = C.last clock.new })
        s.why s.counts s.calls s.items.items) }
    ensures source { IfOk result (λ s. s.why ≡ Read → Rose (I.faults link_in.old) (I.faults link_in.new)) }
    ensures sink { IfOk result (λ s. s.why ≡ Link → Rose (O.faults link_out.old) (O.faults link_out.new)) }
    ensures store { IfOk result (λ s. s.why ≡ Depot → Rose (S.faults store.old) (S.faults store.new)) }
    ensures later { (I.faults link_in.old ≤ I.faults link_in.new) × (S.faults store.old ≤ S.faults store.new) }
    ensures untouched { OnErr result ((link_in.new ≡ link_in.old) × (link_out.new ≡ link_out.old) × (S.holds store.new ≡ S.holds store.old)) }
    ensures moment { OnErr result (C.last clock.old ≤ C.last clock.new) }
{
    let began = clock.now();
    let mut own = SessionClock::new(clock, began);
    let served = serve_link(rt, alloc, workers, link_in, link_out, store, &mut own, gate);
    let passed = own.passed();
    drop(own);
    wait_past(rt, clock, began, passed);
    served
}

// Asks the clock until so much has passed since a moment, as it has where the clock of a session tells so.
fn wait_past<R: Wait, C: Clock>(rt: &R, clock: &mut C, began: u64, passed: u64)
    ensures { began + passed ≤ C.last clock.new }
{
    for _ in rt.forever() {
        let now = clock.now();
        if began <= now && passed <= now - began {
            return;
        }
    }
    unreachable!()
}

// Leaves what is under way behind a session that made these items, unless its reason ends the run. The reason that the connection
// ended for.
fn leave_behind<S: Store>(alloc: Global, why: Why, items: &[Item], store: &mut S) -> Why
    ensures left { LeavesUnderWay items.now (S.holds store.old) (S.holds store.new) why result }
    ensures same { ends_run result ≡ false → result ≡ why }
    ensures store { result ≡ Depot → (why ≡ Depot) ⊎ Rose (S.faults store.old) (S.faults store.new) }
    ensures later { S.faults store.old ≤ S.faults store.new }
{
    if matches!(why, Why::Store | Why::Memory) {
        return why;
    }
    match leave_under_way(alloc, items, store) {
        Ok(()) => why,
        Err(StoreRefused::Failed) => Why::Store,
        Err(StoreRefused::Memory) => Why::Memory,
    }
}
