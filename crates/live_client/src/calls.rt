//! A call whose messages are kept: the stream of Count, or that of any method.
ghost use Rattle.std.specs.Prelude.{◌≡◌, ◌<◌, ◌≤◌, [], ◌∷◌, true, false, is_some, IfOk, OnErr, OnOk};
ghost use Rattle.rpc_handlers.specs.Limits.{is_long};
ghost use Rattle.rpc_journal.specs.Lawful.{has_zero};
ghost use Rattle.rpc_shared.specs.session.Leaving.{HangsUp};
ghost use Rattle.rpc_shared.specs.session.Sessions.{is_halted};
ghost use Rattle.live_client.specs.declared.ask.LiveAsk.TheVariants.{Call, Watch};
ghost use Rattle.live_client.specs.Ask.{CanOpen, call_method, count_method, live_name, live_setting, opens};
ghost use Rattle.live_client.specs.Live.{AskRan, CallRan};
ghost use Rattle.live_client.specs.Ran.{HasRun};
ghost use Rattle.live_client.specs.Told.{MaySay};

use crate::ask::{Live, Opening};
use crate::asks::{CallErrand, Utterance};
use crate::methods::{COUNTING, alone, named, with_count};
use crate::running::run_live;
use crate::wakes::Wakes;
use bytes::Bytes;
use link_io::{Clock, Sink, Source, Store};
use rpc_ids::{MethodRef, Registry};
use std::alloc::{AllocError, Global};
use std::collections::VecDeque;
use std::sync::Wait;
use std::thread::Threads;

/// Opens the call of a method that the registry has alone, and keeps its messages.
fn keep<R: Threads + Wait + Sync, I: Source + Send, O: Sink, S: Store, C: Clock>(
    rt: &R,
    alloc: Global,
    link_in: &mut I,
    link_out: &mut O,
    store: &mut S,
    clock: &mut C,
    registry: Registry,
    method: MethodRef,
    payload: Bytes,
    says: VecDeque<Utterance>,
    limit: u32,
    within: Option<u32>,
) -> Result<Live, AllocError>
    requires limit { 0 < limit }
    requires methods { registry ≡ method ∷ [] }
    requires named { has_zero (live_name method) ≡ false }
    requires short { is_long payload ≡ false }
    requires may { MaySay method says.items }
    requires open { O.finished link_out.old ≡ false }
    ensures ran { IfOk result (λ l. HasRun method true (opens method payload) (I.left link_in.old) (I.left link_in.new) (O.written link_out.old) (O.written link_out.new) (S.holds store.old) (S.holds store.new) (I.faults link_in.old) (I.faults link_in.new) (O.faults link_out.old) (O.faults link_out.new) (S.faults store.old) (S.faults store.new) l.why l.read l.journal.entries) }
    ensures asked { IfOk result (λ l. CallRan method says.items limit within (C.last clock.old) (C.last clock.new) l) }
    ensures rest { IfOk result (λ l. (l.from ≡ 0) × (l.length ≡ 0)) }
    ensures ended { IfOk result (λ l. is_halted (live_setting method) l.journal.entries ≡ false → is_some l.ended ≡ true) }
    ensures finished { IfOk result (λ l. is_halted (live_setting method) l.journal.entries ≡ false → O.finished link_out.new ≡ true) }
    ensures hangs_up { OnOk result (HangsUp (O.finished link_out.new) (O.faults link_out.old) (O.faults link_out.new)) }
    ensures later { (I.faults link_in.old ≤ I.faults link_in.new) × (O.faults link_out.old ≤ O.faults link_out.new) × (S.faults store.old ≤ S.faults store.new) }
    ensures clock { C.last clock.old ≤ C.last clock.new }
    ensures untouched { OnErr result ((link_in.new ≡ link_in.old) × (link_out.new ≡ link_out.old) × (store.new ≡ store.old) × (clock.new ≡ clock.old)) }
{
    let (wakes, _, mut bell) = Wakes::with(alloc)?;
    let mut errand = CallErrand::new(alloc, says, limit, within);
    let run = run_live(
        rt,
        alloc,
        link_in,
        link_out,
        store,
        clock,
        &mut errand,
        &wakes,
        &mut bell,
        registry,
        method,
        payload,
    )?;
    Ok(Live {
        ended: errand.ended,
        from: 0,
        length: 0,
        messages: errand.messages,
        why: run.why,
        read: run.read,
        journal: run.journal,
    })
}

/// Calls a method, by its opening.
pub(crate) fn call<R: Threads + Wait + Sync, I: Source + Send, O: Sink, S: Store, C: Clock>(
    rt: &R,
    alloc: Global,
    link_in: &mut I,
    link_out: &mut O,
    store: &mut S,
    clock: &mut C,
    opening: Opening,
    limit: u32,
    within: Option<u32>,
) -> Result<Live, AllocError>
    requires can { CanOpen opening }
    requires limit { 0 < limit }
    requires open { O.finished link_out.old ≡ false }
    ensures ran { IfOk result (λ l. HasRun (call_method opening.service opening.method opening.kind) true (opens (call_method opening.service opening.method opening.kind) opening.payload) (I.left link_in.old) (I.left link_in.new) (O.written link_out.old) (O.written link_out.new) (S.holds store.old) (S.holds store.new) (I.faults link_in.old) (I.faults link_in.new) (O.faults link_out.old) (O.faults link_out.new) (S.faults store.old) (S.faults store.new) l.why l.read l.journal.entries) }
    ensures asked { IfOk result (λ l. AskRan (Call opening limit within) (C.last clock.old) (C.last clock.new) l) }
    ensures ended { IfOk result (λ l. is_halted (live_setting (call_method opening.service opening.method opening.kind)) l.journal.entries ≡ false → is_some l.ended ≡ true) }
    ensures finished { IfOk result (λ l. is_halted (live_setting (call_method opening.service opening.method opening.kind)) l.journal.entries ≡ false → O.finished link_out.new ≡ true) }
    ensures hangs_up { OnOk result (HangsUp (O.finished link_out.new) (O.faults link_out.old) (O.faults link_out.new)) }
    ensures later { (I.faults link_in.old ≤ I.faults link_in.new) × (O.faults link_out.old ≤ O.faults link_out.new) × (S.faults store.old ≤ S.faults store.new) }
    ensures clock { C.last clock.old ≤ C.last clock.new }
    ensures untouched { OnErr result ((link_in.new ≡ link_in.old) × (link_out.new ≡ link_out.old) × (store.new ≡ store.old) × (clock.new ≡ clock.old)) }
{
    let method = named(&opening);
    let registry = alone(alloc, method)?;
    let says = opening.messages.utterances(alloc, opening.kind)?;
    keep(
        rt,
        alloc,
        link_in,
        link_out,
        store,
        clock,
        registry,
        method,
        opening.payload,
        says,
        limit,
        within,
    )
}

/// Watches the stream of Count.
pub(crate) fn watch<R: Threads + Wait + Sync, I: Source + Send, O: Sink, S: Store, C: Clock>(
    rt: &R,
    alloc: Global,
    link_in: &mut I,
    link_out: &mut O,
    store: &mut S,
    clock: &mut C,
    n: u8,
    limit: u32,
) -> Result<Live, AllocError>
    requires limit { 0 < limit }
    requires open { O.finished link_out.old ≡ false }
    ensures ran { IfOk result (λ l. HasRun count_method true (opens count_method (n ∷ [])) (I.left link_in.old) (I.left link_in.new) (O.written link_out.old) (O.written link_out.new) (S.holds store.old) (S.holds store.new) (I.faults link_in.old) (I.faults link_in.new) (O.faults link_out.old) (O.faults link_out.new) (S.faults store.old) (S.faults store.new) l.why l.read l.journal.entries) }
    ensures asked { IfOk result (λ l. AskRan (Watch n limit) (C.last clock.old) (C.last clock.new) l) }
    ensures ended { IfOk result (λ l. is_halted (live_setting count_method) l.journal.entries ≡ false → is_some l.ended ≡ true) }
    ensures finished { IfOk result (λ l. is_halted (live_setting count_method) l.journal.entries ≡ false → O.finished link_out.new ≡ true) }
    ensures hangs_up { OnOk result (HangsUp (O.finished link_out.new) (O.faults link_out.old) (O.faults link_out.new)) }
    ensures later { (I.faults link_in.old ≤ I.faults link_in.new) × (O.faults link_out.old ≤ O.faults link_out.new) × (S.faults store.old ≤ S.faults store.new) }
    ensures clock { C.last clock.old ≤ C.last clock.new }
    ensures untouched { OnErr result ((link_in.new ≡ link_in.old) × (link_out.new ≡ link_out.old) × (store.new ≡ store.old) × (clock.new ≡ clock.old)) }
{
    let registry = with_count(alloc)?;
    let payload = Bytes::copy_from_slice(alloc, &[n])?;
    keep(
        rt,
        alloc,
        link_in,
        link_out,
        store,
        clock,
        registry,
        COUNTING,
        payload,
        VecDeque::new(alloc),
        limit,
        None,
    )
}
