//! The one call of a live client, from a table without an entry to what was done.
ghost use Rattle.std.specs.Prelude.{◌≡◌, ℕ, ◌≤◌, Bool, List, Option, None, [], ◌∷◌, true, false, IfOk, OnErr, OnOk};
ghost use Rattle.rpc_handlers.specs.Limits.{is_long};
ghost use Rattle.rpc_journal.specs.Lawful.{has_zero};
ghost use Rattle.rpc_shared.specs.session.Leaving.{HangsUp};
ghost use Rattle.rpc_shared.specs.session.Sessions.{is_halted};
ghost use Rattle.live_client.specs.Ask.{live_name, live_setting, opens};
ghost use Rattle.live_client.specs.Ran.{HasRun};
ghost use Rattle.live_client.specs.asks.Telling.{unknown};
ghost use Rattle.live_client.specs.Told.{HasTold};
ghost use Rattle.live_client.specs.Waking.{CanRing};

use crate::asks::Errand;
use crate::opening::open_call;
use crate::silent::Silent;
use crate::table::{Seats, apart, new_table, together};
use crate::threads::run_both;
use crate::wakes::Wakes;
use bytes::Bytes;
use link_io::{Clock, Sink, Source, Store, Why};
use rpc_frames::Listener;
use rpc_handlers::Nobody;
use rpc_ids::{MethodRef, Registry, Role};
use rpc_journal::Journal;
use rpc_packet::CallName;
use rpc_shared::session::reason::why_of;
use std::alloc::{AllocError, Global};
use std::sync::Wait;
use std::thread::Threads;
use task_core::bells::Bell;

/// What the table of a live client did.
#[derive(Drop)]
pub(crate) struct Run {
    pub journal: Journal,
    pub why: Why,
    pub read: u64,
}

/// Opens the call of this method, and runs it for an errand until the input has ended and all is settled, or the table is halted.
pub(crate) fn run_live<
    R: Threads + Wait + Sync,
    W: Errand,
    I: Source + Send,
    O: Sink,
    S: Store,
    C: Clock,
>(
    rt: &R,
    alloc: Global,
    link_in: &mut I,
    link_out: &mut O,
    store: &mut S,
    clock: &mut C,
    errand: &mut W,
    wakes: &Wakes,
    bell: &mut Bell,
    registry: Registry,
    method: MethodRef,
    payload: Bytes,
) -> Result<Run, AllocError>
    requires open { O.finished link_out.old ≡ false }
    requires methods { registry ≡ method ∷ [] }
    requires named { has_zero (live_name method) ≡ false }
    requires short { is_long payload ≡ false }
    requires bell { CanRing wakes.now.bells bell.old }
    requires ready { W.ready errand.old }
    requires fits { W.fits errand.old wakes.now.bells }
    requires past { W.moment errand.old ≤ C.last clock.old }
    requires whole { W.short errand.old ≡ false }
    requires uncut { W.cuts errand.old ≡ false }
    requires fresh { (start upto : ℕ) → W.did errand.old unknown start upto None [] [] None }
    ensures ran { IfOk result (λ run. HasRun method W.watches (opens method payload) (I.left link_in.old) (I.left link_in.new) (O.written link_out.old) (O.written link_out.new) (S.holds store.old) (S.holds store.new) (I.faults link_in.old) (I.faults link_in.new) (O.faults link_out.old) (O.faults link_out.new) (S.faults store.old) (S.faults store.new) run.why run.read run.journal.entries) }
    ensures told { IfOk result (λ run. HasTold method (λ all. W.did errand.new all (C.last clock.old) (C.last clock.new)) run.journal.entries) }
    ensures uncut { OnOk result (W.cuts errand.new ≡ false) }
    ensures ready { OnOk result (W.ready errand.new) }
    ensures origin { OnOk result (W.origin errand.new ≡ W.origin errand.old) }
    ensures whole { IfOk result (λ run. is_halted (live_setting method) run.journal.entries ≡ false → W.short errand.new ≡ false) }
    ensures finished { IfOk result (λ run. is_halted (live_setting method) run.journal.entries ≡ false → O.finished link_out.new ≡ true) }
    ensures hangs_up { OnOk result (HangsUp (O.finished link_out.new) (O.faults link_out.old) (O.faults link_out.new)) }
    ensures later { (I.faults link_in.old ≤ I.faults link_in.new) × (O.faults link_out.old ≤ O.faults link_out.new) × (S.faults store.old ≤ S.faults store.new) }
    ensures clock { C.last clock.old ≤ C.last clock.new }
    ensures untouched { OnErr result ((link_in.new ≡ link_in.old) × (link_out.new ≡ link_out.old) × (store.new ≡ store.old) × (clock.new ≡ clock.old)) }
{
    let maker = Nobody::new(alloc);
    let mut listener = Listener::new(alloc, Role::Client)?;
    let (table, passes) = new_table(alloc, &maker, registry)?;
    let Seats {
        mut reader,
        mut driver,
        room,
    } = apart(passes);
    let name = CallName {
        channel: 1,
        service: method.service,
        method: method.method,
        call: 1,
    };
    let Some(call) = open_call(rt, &table, &mut driver, name, payload, Silent::new(alloc)) else {
        return Err(AllocError);
    };
    let (reading, _) = run_both(
        rt,
        alloc,
        &table,
        &mut reader,
        &mut driver,
        call,
        errand,
        wakes,
        bell,
        &mut listener,
        link_in,
        link_out,
        store,
        clock,
        &maker,
    );
    let calls = table.close(together(Seats {
        reader,
        driver,
        room,
    }));
    Ok(Run {
        why: why_of(calls.halted(), reading.ending),
        read: reading.read,
        journal: calls.into_journal(),
    })
}
