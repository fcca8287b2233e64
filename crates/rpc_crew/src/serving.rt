//! A session, from a table without an entry to what was done.
ghost use Rattle.std.specs.Prelude.{◌≡◌, ◌⊎◌, ◌+◌, ◌<◌, ◌≤◌, false, ◌∷◌, ◌++◌, [], List, IfOk, OnErr, vec_len, vec_capacity};
ghost use Rattle.std.specs.Io.KnownBytes.{IsAtEnd};
ghost use Rattle.link_io.specs.Causes.{Rose};
ghost use Rattle.link_io.specs.declared.why.Why.TheVariants.{Settled, Source as Read, Sink as Link, Store as Depot, InputLimit};
ghost use Rattle.rpc_journal.specs.declared.item.Item.{Item};
ghost use Rattle.rpc_journal.specs.Items.{moments};
ghost use Rattle.rpc_schedule.specs.declared.stream.TheConstants.{INPUT_LIMIT};
ghost use Rattle.rpc_shared.specs.session.Leaving.{LeavesLink};
ghost use Rattle.rpc_shared.specs.session.Log.{Logs};
ghost use Rattle.rpc_shared.specs.session.Sessions.{Begins, Explains, IsSessionHistory, LeavesNoneDue, TicksBetween, is_halted, session_setting};
ghost use Rattle.rpc_crew.specs.WholeFrames.{SendsWholeFrames};

use crate::table::Table;
use crate::threads::run_threads;
use crate::working::Workers;
use crate::{Gate, Served, Session};
use link_io::{Clock, Sink, Source, Store, Why};
use rpc_calls::Calls;
use rpc_channel::Channels;
use rpc_frames::{Counts, Listener};
use rpc_handlers::{Handler, Maker};
use rpc_ids::{Registry, Role};
use rpc_shared::Pass;
use rpc_shared::session::item_log::ItemLog;
use rpc_shared::session::parcel::Parcel;
use rpc_shared::session::reason::why_of;
use rtrb::RingBuffer;
use std::alloc::{AllocError, Global};
use std::sync::Wait;
use std::thread::Threads;

/// How many parcels the ring has room for.
pub(crate) const PLACES: usize = 256;

/// Serves one link until its input has ended and all that it asked for is done, or the table is halted. A reader, a
/// pump, a writer and 1 to 16 workers share one table of calls, each in a thread of its own; where one can't be made
/// the table is halted for want of memory, with nothing read. The time is asked of the clock alone, here for the first
/// time, and the gate stands at each run of a handler. A fault of the source and the limit of 67,108,864 bytes end the
/// input, and the session still settles; a fault of the sink or the store, a full journal and want of memory halt it. A
/// session that is halted tells its sink that nothing more comes, so that the other end meets the end of its input; it
/// ends once its own input has ended. One that settles leaves its sink open.
///
/// # Errors
///
/// `AllocError` where there was no memory to begin; nothing was read then. Later want of memory is `Why::Memory`.
pub fn session<
    R: Threads + Wait + Sync,
    I: Source + Send,
    O: Sink + Send,
    S: Store + Send,
    M: Maker + Sync,
    C: Clock + Send,
    G: Gate + Sync,
>(
    rt: &R,
    alloc: Global,
    link_in: &mut I,
    link_out: &mut O,
    store: &mut S,
    channels: Channels,
    registry: Registry,
    maker: &M,
    workers: u32,
    clock: &mut C,
    gate: &G,
) -> Result<Session, AllocError>
where
    M::H: Send,
    requires workers { (0 < workers) × (workers ≤ 16) }
    requires open { O.finished link_out.old ≡ false }
    ensures history { IfOk result (λ s. IsSessionHistory M.H.rule (session_setting channels registry (M.seed_memo maker.now)) workers s.why s.journal.entries) }
    ensures begins { IfOk result (λ s. (items : List Item) × Begins (session_setting channels registry (M.seed_memo maker.now)) (I.left link_in.old) (I.left link_in.new) (O.written link_out.old) (O.written link_out.new) (S.holds store.old) (S.holds store.new) s.counts s.read s.done items s.journal.entries) }
    ensures whole { IfOk result (λ s. SendsWholeFrames (session_setting channels registry (M.seed_memo maker.now)) (O.written link_out.old) (O.written link_out.new) s.done s.journal.entries ⊎ Rose (O.faults link_out.old) (O.faults link_out.new)) }
    ensures explains { IfOk result (λ s. is_halted (session_setting channels registry (M.seed_memo maker.now)) s.journal.entries ≡ false →
        Explains (session_setting channels registry (M.seed_memo maker.now)) (I.left link_in.old) (I.left link_in.new) (O.written link_out.old) (O.written link_out.new) (S.holds store.old) (S.holds store.new) s.counts s.read s.done s.journal.entries) }
    ensures at_end { IfOk result (λ s. s.why ≡ Settled → IsAtEnd (I.left link_in.new)) }
    ensures at_limit { IfOk result (λ s. s.why ≡ InputLimit → s.read ≡ INPUT_LIMIT) }
    ensures below { IfOk result (λ s. (s.why ≡ Settled) ⊎ (s.why ≡ Read) → s.read < INPUT_LIMIT) }
    ensures source { IfOk result (λ s. s.why ≡ Read → Rose (I.faults link_in.old) (I.faults link_in.new)) }
    ensures sink { IfOk result (λ s. s.why ≡ Link → Rose (O.faults link_out.old) (O.faults link_out.new)) }
    ensures store { IfOk result (λ s. s.why ≡ Depot → Rose (S.faults store.old) (S.faults store.new)) }
    ensures ticks { IfOk result (λ s. TicksBetween (C.last clock.old) (C.last clock.new) s.journal.entries) }
    ensures began { IfOk result (λ s. (C.last clock.old ≤ s.began) × (s.began ≤ C.last clock.new)) }
    ensures due { IfOk result (λ s. is_halted (session_setting channels registry (M.seed_memo maker.now)) s.journal.entries ≡ false → LeavesNoneDue s.began (C.last clock.new) (moments s.journal.entries)) }
    ensures leaves { IfOk result (λ s. LeavesLink (session_setting channels registry (M.seed_memo maker.now)) s.journal.entries (O.finished link_out.new) (O.faults link_out.old) (O.faults link_out.new)) }
    ensures later { (I.faults link_in.old ≤ I.faults link_in.new) × (O.faults link_out.old ≤ O.faults link_out.new) × (S.faults store.old ≤ S.faults store.new) }
    ensures untouched { OnErr result ((link_in.new ≡ link_in.old) × (link_out.new ≡ link_out.old) × (store.new ≡ store.old) × (clock.new ≡ clock.old)) }
{
    let mut log = ItemLog::new(alloc, false);
    let served = serve(
        rt, alloc, link_in, link_out, store, &mut log, channels, registry, maker, workers, clock,
        gate,
    )?;
    Ok(Session {
        journal: served.calls.into_journal(),
        why: served.why,
        counts: served.counts,
        read: served.read,
        done: served.done,
        began: served.began,
    })
}

/// Like [`session`], but gives the table of calls and the items that were sent or stored, for a report.
///
/// # Errors
///
/// As for `session`.
pub fn session_with_items<
    R: Threads + Wait + Sync,
    I: Source + Send,
    O: Sink + Send,
    S: Store + Send,
    M: Maker + Sync,
    C: Clock + Send,
    G: Gate + Sync,
>(
    rt: &R,
    alloc: Global,
    link_in: &mut I,
    link_out: &mut O,
    store: &mut S,
    channels: Channels,
    registry: Registry,
    maker: &M,
    workers: u32,
    clock: &mut C,
    gate: &G,
) -> Result<Served<M::H>, AllocError>
where
    M::H: Send,
    requires workers { (0 < workers) × (workers ≤ 16) }
    requires open { O.finished link_out.old ≡ false }
    ensures history { IfOk result (λ s. IsSessionHistory M.H.rule (session_setting channels registry (M.seed_memo maker.now)) workers s.why s.calls.entries) }
    ensures begins { IfOk result (λ s. Begins (session_setting channels registry (M.seed_memo maker.now)) (I.left link_in.old) (I.left link_in.new) (O.written link_out.old) (O.written link_out.new) (S.holds store.old) (S.holds store.new) s.counts s.read s.done s.items.items s.calls.entries) }
    ensures whole { IfOk result (λ s. SendsWholeFrames (session_setting channels registry (M.seed_memo maker.now)) (O.written link_out.old) (O.written link_out.new) s.done s.calls.entries ⊎ Rose (O.faults link_out.old) (O.faults link_out.new)) }
    ensures explains { IfOk result (λ s. is_halted (session_setting channels registry (M.seed_memo maker.now)) s.calls.entries ≡ false →
        Explains (session_setting channels registry (M.seed_memo maker.now)) (I.left link_in.old) (I.left link_in.new) (O.written link_out.old) (O.written link_out.new) (S.holds store.old) (S.holds store.new) s.counts s.read s.done s.calls.entries) }
    ensures at_end { IfOk result (λ s. s.why ≡ Settled → IsAtEnd (I.left link_in.new)) }
    ensures at_limit { IfOk result (λ s. s.why ≡ InputLimit → s.read ≡ INPUT_LIMIT) }
    ensures below { IfOk result (λ s. (s.why ≡ Settled) ⊎ (s.why ≡ Read) → s.read < INPUT_LIMIT) }
    ensures source { IfOk result (λ s. s.why ≡ Read → Rose (I.faults link_in.old) (I.faults link_in.new)) }
    ensures sink { IfOk result (λ s. s.why ≡ Link → Rose (O.faults link_out.old) (O.faults link_out.new)) }
    ensures store { IfOk result (λ s. s.why ≡ Depot → Rose (S.faults store.old) (S.faults store.new)) }
    ensures ticks { IfOk result (λ s. TicksBetween (C.last clock.old) (C.last clock.new) s.calls.entries) }
    ensures began { IfOk result (λ s. (C.last clock.old ≤ s.began) × (s.began ≤ C.last clock.new)) }
    ensures due { IfOk result (λ s. is_halted (session_setting channels registry (M.seed_memo maker.now)) s.calls.entries ≡ false → LeavesNoneDue s.began (C.last clock.new) (moments s.calls.entries)) }
    ensures setting { IfOk result (λ s. s.calls.setting ≡ (session_setting channels registry (M.seed_memo maker.now))) }
    ensures leaves { IfOk result (λ s. LeavesLink (session_setting channels registry (M.seed_memo maker.now)) s.calls.entries (O.finished link_out.new) (O.faults link_out.old) (O.faults link_out.new)) }
    ensures later { (I.faults link_in.old ≤ I.faults link_in.new) × (O.faults link_out.old ≤ O.faults link_out.new) × (S.faults store.old ≤ S.faults store.new) }
    ensures untouched { OnErr result ((link_in.new ≡ link_in.old) × (link_out.new ≡ link_out.old) × (store.new ≡ store.old) × (clock.new ≡ clock.old)) }
{
    let mut log = ItemLog::new(alloc, true);
    let served = serve(
        rt, alloc, link_in, link_out, store, &mut log, channels, registry, maker, workers, clock,
        gate,
    )?;
    Ok(Served {
        calls: served.calls,
        why: served.why,
        counts: served.counts,
        read: served.read,
        done: served.done,
        began: served.began,
        items: log.items,
    })
}

// What a session did, without the items that it made.
#[derive(Drop)]
struct Ended<H: Handler> {
    calls: Calls<H>,
    why: Why,
    counts: Counts,
    read: u64,
    done: u64,
    began: u64,
}

fn serve<
    R: Threads + Wait + Sync,
    I: Source + Send,
    O: Sink + Send,
    S: Store + Send,
    M: Maker + Sync,
    C: Clock + Send,
    G: Gate + Sync,
>(
    rt: &R,
    alloc: Global,
    link_in: &mut I,
    link_out: &mut O,
    store: &mut S,
    log: &mut ItemLog,
    channels: Channels,
    registry: Registry,
    maker: &M,
    workers: u32,
    clock: &mut C,
    gate: &G,
) -> Result<Ended<M::H>, AllocError>
where
    M::H: Send,
    requires workers { (0 < workers) × (workers ≤ 16) }
    requires open { O.finished link_out.old ≡ false }
    ensures history { IfOk result (λ s. IsSessionHistory M.H.rule (session_setting channels registry (M.seed_memo maker.now)) workers s.why s.calls.entries) }
    ensures begins { IfOk result (λ s. (items : List Item) × Begins (session_setting channels registry (M.seed_memo maker.now)) (I.left link_in.old) (I.left link_in.new) (O.written link_out.old) (O.written link_out.new) (S.holds store.old) (S.holds store.new) s.counts s.read s.done items s.calls.entries × Logs log.old log.new items) }
    ensures whole { IfOk result (λ s. SendsWholeFrames (session_setting channels registry (M.seed_memo maker.now)) (O.written link_out.old) (O.written link_out.new) s.done s.calls.entries ⊎ Rose (O.faults link_out.old) (O.faults link_out.new)) }
    ensures explains { IfOk result (λ s. is_halted (session_setting channels registry (M.seed_memo maker.now)) s.calls.entries ≡ false →
        Explains (session_setting channels registry (M.seed_memo maker.now)) (I.left link_in.old) (I.left link_in.new) (O.written link_out.old) (O.written link_out.new) (S.holds store.old) (S.holds store.new) s.counts s.read s.done s.calls.entries) }
    ensures at_end { IfOk result (λ s. s.why ≡ Settled → IsAtEnd (I.left link_in.new)) }
    ensures at_limit { IfOk result (λ s. s.why ≡ InputLimit → s.read ≡ INPUT_LIMIT) }
    ensures below { IfOk result (λ s. (s.why ≡ Settled) ⊎ (s.why ≡ Read) → s.read < INPUT_LIMIT) }
    ensures source { IfOk result (λ s. s.why ≡ Read → Rose (I.faults link_in.old) (I.faults link_in.new)) }
    ensures sink { IfOk result (λ s. s.why ≡ Link → Rose (O.faults link_out.old) (O.faults link_out.new)) }
    ensures store { IfOk result (λ s. s.why ≡ Depot → Rose (S.faults store.old) (S.faults store.new)) }
    ensures ticks { IfOk result (λ s. TicksBetween (C.last clock.old) (C.last clock.new) s.calls.entries) }
    ensures began { IfOk result (λ s. (C.last clock.old ≤ s.began) × (s.began ≤ C.last clock.new)) }
    ensures due { IfOk result (λ s. is_halted (session_setting channels registry (M.seed_memo maker.now)) s.calls.entries ≡ false → LeavesNoneDue s.began (C.last clock.new) (moments s.calls.entries)) }
    ensures setting { IfOk result (λ s. s.calls.setting ≡ (session_setting channels registry (M.seed_memo maker.now))) }
    ensures leaves { IfOk result (λ s. LeavesLink (session_setting channels registry (M.seed_memo maker.now)) s.calls.entries (O.finished link_out.new) (O.faults link_out.old) (O.faults link_out.new)) }
    ensures later { (I.faults link_in.old ≤ I.faults link_in.new) × (O.faults link_out.old ≤ O.faults link_out.new) × (S.faults store.old ≤ S.faults store.new) }
    ensures untouched { OnErr result ((link_in.new ≡ link_in.old) × (link_out.new ≡ link_out.old) × (store.new ≡ store.old) × (clock.new ≡ clock.old)) }
{
    let mut listener = Listener::new(alloc, Role::Server)?;
    let (mut ring, mut end) = RingBuffer::new(alloc, PLACES)?;
    let seed = maker.seed()?;
    let calls = Calls::new(alloc, Role::Server, channels, registry, seed)?;
    let (shared, passes) = Table::with(alloc, calls, workers + 3)?;
    let Passes {
        mut reader,
        mut pumper,
        mut writer,
        workers: mut crew,
    } = apart(passes);
    let began = clock.now();
    let (done, reading) = run_threads(
        rt,
        alloc,
        &shared,
        &mut reader,
        &mut pumper,
        &mut writer,
        &mut crew,
        &mut ring,
        &mut end,
        &mut listener,
        link_in,
        maker,
        link_out,
        store,
        log,
        clock,
        began,
        gate,
    );
    let calls = shared.close(together(Passes {
        reader,
        pumper,
        writer,
        workers: crew,
    }));
    end.slots_beside(&mut ring);
    // A journal has fewer entries than the count can tell.
    calls.journal().len();
    Ok(Ended {
        why: why_of(calls.halted(), reading.ending),
        counts: listener.counts(),
        read: reading.read,
        done,
        began,
        calls,
    })
}

// The passes of a table, by what they are for.
struct Passes<H: Handler> {
    reader: Pass<H>,
    pumper: Pass<H>,
    writer: Pass<H>,
    workers: Workers<H>,
}

// Takes all passes apart: the first feeds, the second flushes, the last writes, and those between them work.
fn apart<H: Handler>(mut passes: Vec<Pass<H>>) -> Passes<H>
    requires { 3 ≤ vec_len passes }
    ensures parts { passes.items ≡ result.reader ∷ result.pumper ∷ (result.workers.passes.items ++ result.writer ∷ []) }
    ensures room { vec_capacity result.workers.passes ≡ vec_capacity passes }
{
    let pumper = passes.remove(1);
    let reader = passes.remove(0);
    let Some(writer) = passes.pop() else {
        unreachable!()
    };
    Passes {
        reader,
        pumper,
        writer,
        workers: Workers { passes },
    }
}

// All passes again, in the order of their numbers.
fn together<H: Handler>(passes: Passes<H>) -> Vec<Pass<H>>
    requires { vec_len passes.workers.passes + 3 ≤ vec_capacity passes.workers.passes }
    ensures { result.items ≡ passes.reader ∷ passes.pumper ∷ (passes.workers.passes.items ++ passes.writer ∷ []) }
{
    let Passes {
        reader,
        pumper,
        writer,
        workers,
    } = passes;
    let Workers { passes: mut all } = workers;
    all.push_reserved(writer);
    let Ok(()) = all.insert(0, pumper) else {
        unreachable!()
    };
    let Ok(()) = all.insert(0, reader) else {
        unreachable!()
    };
    all
}
