//! A transfer: a resource is fetched, or sent.
ghost use Rattle.std.specs.Prelude.{◌≡◌, ◌≤◌, [], ◌∷◌, true, false, length, is_some, IfOk, OnErr, OnOk};
ghost use Rattle.rpc_journal.specs.Lawful.{has_zero};
ghost use Rattle.rpc_shared.specs.session.Leaving.{HangsUp};
ghost use Rattle.rpc_shared.specs.session.Sessions.{is_halted};
ghost use Rattle.live_client.specs.asks.Telling.{IsAlone, Tells};
ghost use Rattle.live_client.specs.declared.ask.LiveAsk.TheVariants.{Get, Put};
ghost use Rattle.live_client.specs.Ask.{live_name, live_setting, opens, read_method, write_method};
ghost use Rattle.live_client.specs.Live.{AskRan};
ghost use Rattle.live_client.specs.Ran.{HasRun};
ghost use Rattle.live_client.specs.Told.{HasTold};

use crate::ask::Live;
use crate::asks::{Errand, TaskErrand};
use crate::length::{committed, put_length};
use crate::methods::{READING, WRITING, with_read, with_write};
use crate::running::{Run, run_live};
use crate::wakes::Wakes;
use bytes::Bytes;
use link_io::{Clock, Sink, Source, Store};
use rpc_ids::{MethodRef, Registry};
use std::alloc::{AllocError, Global};
use std::sync::Wait;
use std::thread::Threads;
use task_core::Task;
use transfer_base::{MAX_RESOURCE, Tuning};
use transfer_client::{ReadTask, WriteTask};

// A transfer has one session.
const SESSION: u32 = 1;

// What a fetch asks for: windows of four chunks.
const TUNING: Tuning = Tuning {
    window: 4,
    chunk: 256,
};

// A transfer that ran: what its table did, and its task.
#[derive(Drop)]
struct Moved<T: Task + Drop> {
    run: Run,
    errand: TaskErrand<T>,
}

// Runs a task that transfers, in the call of this method.
fn transfer<
    R: Threads + Wait + Sync,
    T: Task + Drop,
    I: Source + Send,
    O: Sink,
    S: Store,
    C: Clock,
>(
    rt: &R,
    alloc: Global,
    link_in: &mut I,
    link_out: &mut O,
    store: &mut S,
    clock: &mut C,
    task: T,
    registry: Registry,
    method: MethodRef,
) -> Result<Moved<T>, AllocError>
    requires open { O.finished link_out.old ≡ false }
    requires methods { registry ≡ method ∷ [] }
    requires named { has_zero (live_name method) ≡ false }
    ensures ran { IfOk result (λ m. HasRun method false (opens method []) (I.left link_in.old) (I.left link_in.new) (O.written link_out.old) (O.written link_out.new) (S.holds store.old) (S.holds store.new) (I.faults link_in.old) (I.faults link_in.new) (O.faults link_out.old) (O.faults link_out.new) (S.faults store.old) (S.faults store.new) m.run.why m.run.read m.run.journal.entries) }
    ensures told { IfOk result (λ m. HasTold method (λ all. Tells T.polls task m.errand.tasks m.errand.ear m.errand.short.value all (C.last clock.old) (C.last clock.new)) m.run.journal.entries) }
    ensures ready { IfOk result (λ m. IsAlone m.errand.tasks) }
    ensures whole { IfOk result (λ m. is_halted (live_setting method) m.run.journal.entries ≡ false → m.errand.short.value ≡ false) }
    ensures finished { IfOk result (λ m. is_halted (live_setting method) m.run.journal.entries ≡ false → O.finished link_out.new ≡ true) }
    ensures hangs_up { OnOk result (HangsUp (O.finished link_out.new) (O.faults link_out.old) (O.faults link_out.new)) }
    ensures first { IfOk result (λ m. m.errand.first.value ≡ task) }
    ensures later { (I.faults link_in.old ≤ I.faults link_in.new) × (O.faults link_out.old ≤ O.faults link_out.new) × (S.faults store.old ≤ S.faults store.new) }
    ensures clock { C.last clock.old ≤ C.last clock.new }
    ensures untouched { OnErr result ((link_in.new ≡ link_in.old) × (link_out.new ≡ link_out.old) × (store.new ≡ store.old) × (clock.new ≡ clock.old)) }
{
    let (wakes, ear, mut bell) = Wakes::with(alloc)?;
    let mut errand = TaskErrand::new(alloc, task, ear)?;
    let run = run_live(
        rt,
        alloc,
        link_in,
        link_out,
        store,
        clock,
        &mut errand,
        &wakes,
        &mut bell,
        registry,
        method,
        Bytes::new(),
    )?;
    Ok(Moved { run, errand })
}

/// Fetches a resource.
pub(crate) fn get<R: Threads + Wait + Sync, I: Source + Send, O: Sink, S: Store, C: Clock>(
    rt: &R,
    alloc: Global,
    link_in: &mut I,
    link_out: &mut O,
    store: &mut S,
    clock: &mut C,
    resource: u32,
    offset: u64,
) -> Result<Live, AllocError>
    requires offset { offset ≤ MAX_RESOURCE }
    requires open { O.finished link_out.old ≡ false }
    ensures ran { IfOk result (λ l. HasRun read_method false (opens read_method []) (I.left link_in.old) (I.left link_in.new) (O.written link_out.old) (O.written link_out.new) (S.holds store.old) (S.holds store.new) (I.faults link_in.old) (I.faults link_in.new) (O.faults link_out.old) (O.faults link_out.new) (S.faults store.old) (S.faults store.new) l.why l.read l.journal.entries) }
    ensures asked { IfOk result (λ l. AskRan (Get resource offset) (C.last clock.old) (C.last clock.new) l) }
    ensures ended { IfOk result (λ l. is_halted (live_setting read_method) l.journal.entries ≡ false → is_some l.ended ≡ true) }
    ensures finished { IfOk result (λ l. is_halted (live_setting read_method) l.journal.entries ≡ false → O.finished link_out.new ≡ true) }
    ensures hangs_up { OnOk result (HangsUp (O.finished link_out.new) (O.faults link_out.old) (O.faults link_out.new)) }
    ensures later { (I.faults link_in.old ≤ I.faults link_in.new) × (O.faults link_out.old ≤ O.faults link_out.new) × (S.faults store.old ≤ S.faults store.new) }
    ensures clock { C.last clock.old ≤ C.last clock.new }
    ensures untouched { OnErr result ((link_in.new ≡ link_in.old) × (link_out.new ≡ link_out.old) × (store.new ≡ store.old) × (clock.new ≡ clock.old)) }
{
    let registry = with_read(alloc)?;
    let task = ReadTask::new(alloc, SESSION, resource, offset, TUNING);
    let Moved { run, errand } = transfer(
        rt, alloc, link_in, link_out, store, clock, task, registry, READING,
    )?;
    Ok(Live {
        ended: errand.end(),
        from: errand.task().offset(),
        length: committed(&run.journal),
        messages: Vec::new(alloc),
        why: run.why,
        read: run.read,
        journal: run.journal,
    })
}

/// Sends a resource.
pub(crate) fn put<R: Threads + Wait + Sync, I: Source + Send, O: Sink, S: Store, C: Clock>(
    rt: &R,
    alloc: Global,
    link_in: &mut I,
    link_out: &mut O,
    store: &mut S,
    clock: &mut C,
    resource: u32,
    offset: u64,
    bytes: Bytes,
) -> Result<Live, AllocError>
    requires offset { offset ≤ length bytes }
    requires size { length bytes ≤ MAX_RESOURCE }
    requires open { O.finished link_out.old ≡ false }
    ensures ran { IfOk result (λ l. HasRun write_method false (opens write_method []) (I.left link_in.old) (I.left link_in.new) (O.written link_out.old) (O.written link_out.new) (S.holds store.old) (S.holds store.new) (I.faults link_in.old) (I.faults link_in.new) (O.faults link_out.old) (O.faults link_out.new) (S.faults store.old) (S.faults store.new) l.why l.read l.journal.entries) }
    ensures asked { IfOk result (λ l. AskRan (Put resource offset bytes) (C.last clock.old) (C.last clock.new) l) }
    ensures ended { IfOk result (λ l. is_halted (live_setting write_method) l.journal.entries ≡ false → is_some l.ended ≡ true) }
    ensures finished { IfOk result (λ l. is_halted (live_setting write_method) l.journal.entries ≡ false → O.finished link_out.new ≡ true) }
    ensures hangs_up { OnOk result (HangsUp (O.finished link_out.new) (O.faults link_out.old) (O.faults link_out.new)) }
    ensures later { (I.faults link_in.old ≤ I.faults link_in.new) × (O.faults link_out.old ≤ O.faults link_out.new) × (S.faults store.old ≤ S.faults store.new) }
    ensures clock { C.last clock.old ≤ C.last clock.new }
    ensures untouched { OnErr result ((link_in.new ≡ link_in.old) × (link_out.new ≡ link_out.old) × (store.new ≡ store.old) × (clock.new ≡ clock.old)) }
{
    let registry = with_write(alloc)?;
    let whole = bytes.len() as u64;
    let task = WriteTask::new(alloc, SESSION, resource, bytes, offset);
    let Moved { run, errand } = transfer(
        rt, alloc, link_in, link_out, store, clock, task, registry, WRITING,
    )?;
    let ended = errand.end();
    Ok(Live {
        ended,
        from: errand.task().offset(),
        length: put_length(whole, ended),
        messages: Vec::new(alloc),
        why: run.why,
        read: run.read,
        journal: run.journal,
    })
}
