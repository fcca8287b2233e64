//! The threads of a session: a writer, a pump, workers and a reader, each in its place. The first part of each fork runs in a thread
//! of its own, or last where none can be made; the reader runs on the caller's thread.
ghost use Rattle.std.specs.Prelude.{◌≡◌, ◌⊎◌, ◌≤◌, false, [], None, Some, vec_capacity};
ghost use Rattle.std.specs.Thread.{IsSync};
ghost use Rattle.link_io.specs.Causes.{Rose};
ghost use Rattle.link_io.specs.declared.reading.Ending.TheVariants.{Failed};
ghost use Rattle.link_io.specs.declared.why.Why.TheVariants.{Sink as Link, Store as Depot};
ghost use Rattle.rpc_ids.specs.declared.method.Role.TheVariants.{Server};
ghost use Rattle.rpc_journal.specs.Items.{moments};
ghost use Rattle.rtrb.specs.Ring.{SameConsumer, SameProducer, received, sent};
ghost use Rattle.turn_cell.specs.Passes.{IsSame};
ghost use Rattle.rpc_shared.specs.session.Crew.{AllWorked, AreWorkers, Fed, HasRead, Reader, ReaderEnded};
ghost use Rattle.rpc_shared.specs.session.Leaving.{WriterLeaves};
ghost use Rattle.rpc_shared.specs.session.Ring.{HaltsFor, PumpEnded, Pumps, WriterEnded, Writes};
ghost use Rattle.rpc_shared.specs.session.Sessions.{AreSpaced, TicksInTime, last_from};
ghost use Rattle.rpc_crew.specs.WholeFrames.{WritesWholeFrames};

use crate::Gate;
use crate::pumping::pump;
use crate::reading::{Reading, read};
use crate::table::Table;
use crate::working::Workers;
use crate::writing::write;
use link_io::{Clock, Sink, Source, Store};
use rpc_frames::Listener;
use rpc_handlers::Maker;
use rpc_shared::Pass;
use rpc_shared::session::item_log::ItemLog;
use rpc_shared::session::parcel::Parcel;
use rtrb::{Consumer, Producer};
use std::alloc::Global;
use std::sync::Wait;
use std::thread::{Threads, join_mut};

/// All threads of a session, until each has ended. Answers how the reading ended, and how many items were made.
pub(crate) fn run_threads<
    'a,
    R: Threads + Wait + Sync,
    I: Source + Send,
    O: Sink + Send,
    S: Store + Send,
    M: Maker + Sync,
    C: Clock + Send,
    G: Gate + Sync,
>(
    rt: &'a R,
    alloc: Global,
    shared: &'a Table<M::H>,
    reader: &'a mut Pass<M::H>,
    pumper: &'a mut Pass<M::H>,
    writer: &'a mut Pass<M::H>,
    workers: &'a mut Workers<M::H>,
    ring: &'a mut Producer<Parcel>,
    end: &'a mut Consumer<Parcel>,
    listener: &'a mut Listener,
    link_in: &'a mut I,
    maker: &'a M,
    link_out: &'a mut O,
    store: &'a mut S,
    log: &'a mut ItemLog,
    clock: &'a mut C,
    began: u64,
    gate: &'a G,
) -> (u64, Reading)
where
    M::H: Send,
    requires reader { Reader M.H.rule shared.now reader.old }
    requires fed { Fed listener.old reader.old [] }
    requires server { shared.now.base.role ≡ Server }
    requires seed { M.seed_memo maker.now ≡ shared.now.base.seed }
    requires workers { AreWorkers M.H.rule shared.now workers.old.passes.items }
    requires pumps { Pumps M.H.rule shared.now (sent ring.old) None pumper.old }
    requires fresh { pumper.old.view.known.mine ≡ [] }
    requires began { C.last clock.old ≡ began }
    requires writes { Writes M.H.rule shared.now (O.written link_out.old) (O.written link_out.old) (S.holds store.old) (S.holds store.old) log.old log.old (received end.old) 0 writer.old }
    requires open { O.finished link_out.old ≡ false }
    ensures reader { ReaderEnded M.H.rule shared.now reader.new × IsSame reader.old reader.new }
    ensures read { HasRead shared.now.base (I.left link_in.old) (I.left link_in.new) result.1.ending result.1.read listener.new reader.new }
    ensures fault { result.1.ending ≡ Some Failed → Rose (I.faults link_in.old) (I.faults link_in.new) }
    ensures source { I.faults link_in.old ≤ I.faults link_in.new }
    ensures worked { AllWorked M.H.rule shared.now workers.old.passes.items workers.new.passes.items }
    ensures room { vec_capacity workers.new.passes ≡ vec_capacity workers.old.passes }
    ensures pump { PumpEnded M.H.rule shared.now (sent ring.new) pumper.new × IsSame pumper.old pumper.new }
    ensures producer { SameProducer ring.old ring.new }
    ensures spaced { AreSpaced began (moments pumper.new.view.known.mine) }
    ensures past { last_from began (moments pumper.new.view.known.mine) ≤ C.last clock.new }
    ensures due { TicksInTime shared.now.base pumper.new.view.known.seen began (C.last clock.new) (moments pumper.new.view.known.mine) }
    ensures writer { WriterEnded M.H.rule shared.now (O.written link_out.old) (O.written link_out.new) (S.holds store.old) (S.holds store.new) log.old log.new (received end.new) result.0 writer.new × IsSame writer.old writer.new }
    ensures whole { WritesWholeFrames (O.written link_out.old) (O.written link_out.new) (received end.new) result.0 ⊎ Rose (O.faults link_out.old) (O.faults link_out.new) }
    ensures consumer { SameConsumer end.old end.new }
    ensures sink { HaltsFor Link writer.new.view.known.mine → Rose (O.faults link_out.old) (O.faults link_out.new) }
    ensures store { HaltsFor Depot writer.new.view.known.mine → Rose (S.faults store.old) (S.faults store.new) }
    ensures later { (O.faults link_out.old ≤ O.faults link_out.new) × (S.faults store.old ≤ S.faults store.new) }
    ensures leaves { WriterLeaves shared.now.base writer.new.view.known.seen (received end.new) (O.finished link_out.new) (O.faults link_out.old) (O.faults link_out.new) }
{
    let own = alloc;
    join_mut(
        rt,
        &mut || -> u64
            requires { Writes M.H.rule shared.now (O.written link_out.now) (O.written link_out.now) (S.holds store.now) (S.holds store.now) log.now log.now (received end.now) 0 writer.now × (O.finished link_out.now ≡ false) }
            ensures { WriterEnded M.H.rule shared.entry.now (O.written link_out.entry.now) (O.written link_out.exit.now) (S.holds store.entry.now) (S.holds store.exit.now) log.entry.now log.exit.now (received end.exit.now) result writer.exit.now
                × (WritesWholeFrames (O.written link_out.entry.now) (O.written link_out.exit.now) (received end.exit.now) result ⊎ Rose (O.faults link_out.entry.now) (O.faults link_out.exit.now))
                × IsSame writer.entry.now writer.exit.now × SameConsumer end.entry.now end.exit.now
                × (HaltsFor Link writer.exit.now.view.known.mine → Rose (O.faults link_out.entry.now) (O.faults link_out.exit.now))
                × (HaltsFor Depot writer.exit.now.view.known.mine → Rose (S.faults store.entry.now) (S.faults store.exit.now))
                × ((O.faults link_out.entry.now ≤ O.faults link_out.exit.now) × (S.faults store.entry.now ≤ S.faults store.exit.now))
                × WriterLeaves shared.entry.now.base writer.exit.now.view.known.seen (received end.exit.now) (O.finished link_out.exit.now) (O.faults link_out.entry.now) (O.faults link_out.exit.now) }
        { write(rt, own, shared, writer, end, link_out, store, log) },
        &mut || -> Reading
            requires { IsSync R.row × Reader M.H.rule shared.now reader.now × Fed listener.now reader.now [] × (shared.now.base.role ≡ Server) × (M.seed_memo maker.now ≡ shared.now.base.seed)
                × AreWorkers M.H.rule shared.now workers.now.passes.items × Pumps M.H.rule shared.now (sent ring.now) None pumper.now × (pumper.now.view.known.mine ≡ []) × (C.last clock.now ≡ began) }
        {
            pumped_any(
                rt, alloc, shared, reader, pumper, workers, ring, listener, link_in, maker, clock,
                began, gate,
            )
        },
    )
}

// Calls `pumped`. The references have lifetimes of their own here, since `join_mut` wants one lifetime for all that a closure
// borrows.
fn pumped_any<
    R: Threads + Wait + Sync,
    I: Source,
    M: Maker + Sync,
    C: Clock + Send,
    G: Gate + Sync,
>(
    rt: &R,
    alloc: Global,
    shared: &Table<M::H>,
    reader: &mut Pass<M::H>,
    pumper: &mut Pass<M::H>,
    workers: &mut Workers<M::H>,
    ring: &mut Producer<Parcel>,
    listener: &mut Listener,
    link_in: &mut I,
    maker: &M,
    clock: &mut C,
    began: u64,
    gate: &G,
) -> Reading
where
    M::H: Send,
    requires reader { Reader M.H.rule shared.now reader.old }
    requires fed { Fed listener.old reader.old [] }
    requires server { shared.now.base.role ≡ Server }
    requires seed { M.seed_memo maker.now ≡ shared.now.base.seed }
    requires workers { AreWorkers M.H.rule shared.now workers.old.passes.items }
    requires pumps { Pumps M.H.rule shared.now (sent ring.old) None pumper.old }
    requires fresh { pumper.old.view.known.mine ≡ [] }
    requires began { C.last clock.old ≡ began }
    ensures reader { ReaderEnded M.H.rule shared.now reader.new × IsSame reader.old reader.new }
    ensures read { HasRead shared.now.base (I.left link_in.old) (I.left link_in.new) result.ending result.read listener.new reader.new }
    ensures fault { result.ending ≡ Some Failed → Rose (I.faults link_in.old) (I.faults link_in.new) }
    ensures source { I.faults link_in.old ≤ I.faults link_in.new }
    ensures worked { AllWorked M.H.rule shared.now workers.old.passes.items workers.new.passes.items }
    ensures room { vec_capacity workers.new.passes ≡ vec_capacity workers.old.passes }
    ensures pump { PumpEnded M.H.rule shared.now (sent ring.new) pumper.new × IsSame pumper.old pumper.new }
    ensures producer { SameProducer ring.old ring.new }
    ensures spaced { AreSpaced began (moments pumper.new.view.known.mine) }
    ensures past { last_from began (moments pumper.new.view.known.mine) ≤ C.last clock.new }
    ensures due { TicksInTime shared.now.base pumper.new.view.known.seen began (C.last clock.new) (moments pumper.new.view.known.mine) }
{
    pumped(
        rt, alloc, shared, reader, pumper, workers, ring, listener, link_in, maker, clock, began,
        gate,
    )
}

// The pump beside the workers and the reader.
fn pumped<
    'a,
    R: Threads + Wait + Sync,
    I: Source,
    M: Maker + Sync,
    C: Clock + Send,
    G: Gate + Sync,
>(
    rt: &'a R,
    alloc: Global,
    shared: &'a Table<M::H>,
    reader: &'a mut Pass<M::H>,
    pumper: &'a mut Pass<M::H>,
    workers: &'a mut Workers<M::H>,
    ring: &'a mut Producer<Parcel>,
    listener: &'a mut Listener,
    link_in: &'a mut I,
    maker: &'a M,
    clock: &'a mut C,
    began: u64,
    gate: &'a G,
) -> Reading
where
    M::H: Send,
    requires reader { Reader M.H.rule shared.now reader.old }
    requires fed { Fed listener.old reader.old [] }
    requires server { shared.now.base.role ≡ Server }
    requires seed { M.seed_memo maker.now ≡ shared.now.base.seed }
    requires workers { AreWorkers M.H.rule shared.now workers.old.passes.items }
    requires pumps { Pumps M.H.rule shared.now (sent ring.old) None pumper.old }
    requires fresh { pumper.old.view.known.mine ≡ [] }
    requires began { C.last clock.old ≡ began }
    ensures reader { ReaderEnded M.H.rule shared.now reader.new × IsSame reader.old reader.new }
    ensures read { HasRead shared.now.base (I.left link_in.old) (I.left link_in.new) result.ending result.read listener.new reader.new }
    ensures fault { result.ending ≡ Some Failed → Rose (I.faults link_in.old) (I.faults link_in.new) }
    ensures source { I.faults link_in.old ≤ I.faults link_in.new }
    ensures worked { AllWorked M.H.rule shared.now workers.old.passes.items workers.new.passes.items }
    ensures room { vec_capacity workers.new.passes ≡ vec_capacity workers.old.passes }
    ensures pump { PumpEnded M.H.rule shared.now (sent ring.new) pumper.new × IsSame pumper.old pumper.new }
    ensures producer { SameProducer ring.old ring.new }
    ensures spaced { AreSpaced began (moments pumper.new.view.known.mine) }
    ensures past { last_from began (moments pumper.new.view.known.mine) ≤ C.last clock.new }
    ensures due { TicksInTime shared.now.base pumper.new.view.known.seen began (C.last clock.new) (moments pumper.new.view.known.mine) }
{
    let (_, reading) = join_mut(
        rt,
        &mut ||
            requires { Pumps M.H.rule shared.now (sent ring.now) None pumper.now × (pumper.now.view.known.mine ≡ []) × (C.last clock.now ≡ began) }
            ensures { PumpEnded M.H.rule shared.entry.now (sent ring.exit.now) pumper.exit.now × IsSame pumper.entry.now pumper.exit.now × SameProducer ring.entry.now ring.exit.now
                × AreSpaced began (moments pumper.exit.now.view.known.mine) × (last_from began (moments pumper.exit.now.view.known.mine) ≤ C.last clock.exit.now)
                × TicksInTime shared.entry.now.base pumper.exit.now.view.known.seen began (C.last clock.exit.now) (moments pumper.exit.now.view.known.mine) }
        { pump(rt, shared, pumper, ring, clock, began) },
        &mut || -> Reading
            requires { IsSync R.row × Reader M.H.rule shared.now reader.now × Fed listener.now reader.now [] × (shared.now.base.role ≡ Server) × (M.seed_memo maker.now ≡ shared.now.base.seed)
                × AreWorkers M.H.rule shared.now workers.now.passes.items }
        {
            readers_any(
                rt, alloc, shared, reader, workers, listener, link_in, maker, gate,
            )
        },
    );
    reading
}

// Calls `readers`, in the same way.
fn readers_any<R: Threads + Wait + Sync, I: Source, M: Maker + Sync, G: Gate + Sync>(
    rt: &R,
    alloc: Global,
    shared: &Table<M::H>,
    reader: &mut Pass<M::H>,
    workers: &mut Workers<M::H>,
    listener: &mut Listener,
    link_in: &mut I,
    maker: &M,
    gate: &G,
) -> Reading
where
    M::H: Send,
    requires reader { Reader M.H.rule shared.now reader.old }
    requires fed { Fed listener.old reader.old [] }
    requires server { shared.now.base.role ≡ Server }
    requires seed { M.seed_memo maker.now ≡ shared.now.base.seed }
    requires workers { AreWorkers M.H.rule shared.now workers.old.passes.items }
    ensures reader { ReaderEnded M.H.rule shared.now reader.new × IsSame reader.old reader.new }
    ensures read { HasRead shared.now.base (I.left link_in.old) (I.left link_in.new) result.ending result.read listener.new reader.new }
    ensures fault { result.ending ≡ Some Failed → Rose (I.faults link_in.old) (I.faults link_in.new) }
    ensures source { I.faults link_in.old ≤ I.faults link_in.new }
    ensures worked { AllWorked M.H.rule shared.now workers.old.passes.items workers.new.passes.items }
    ensures room { vec_capacity workers.new.passes ≡ vec_capacity workers.old.passes }
{
    readers(
        rt, alloc, shared, reader, workers, listener, link_in, maker, gate,
    )
}

// The workers, and the reader on this thread.
fn readers<'a, R: Threads + Wait + Sync, I: Source, M: Maker + Sync, G: Gate + Sync>(
    rt: &'a R,
    alloc: Global,
    shared: &'a Table<M::H>,
    reader: &'a mut Pass<M::H>,
    workers: &'a mut Workers<M::H>,
    listener: &'a mut Listener,
    link_in: &'a mut I,
    maker: &'a M,
    gate: &'a G,
) -> Reading
where
    M::H: Send,
    requires reader { Reader M.H.rule shared.now reader.old }
    requires fed { Fed listener.old reader.old [] }
    requires server { shared.now.base.role ≡ Server }
    requires seed { M.seed_memo maker.now ≡ shared.now.base.seed }
    requires workers { AreWorkers M.H.rule shared.now workers.old.passes.items }
    ensures reader { ReaderEnded M.H.rule shared.now reader.new × IsSame reader.old reader.new }
    ensures read { HasRead shared.now.base (I.left link_in.old) (I.left link_in.new) result.ending result.read listener.new reader.new }
    ensures fault { result.ending ≡ Some Failed → Rose (I.faults link_in.old) (I.faults link_in.new) }
    ensures source { I.faults link_in.old ≤ I.faults link_in.new }
    ensures worked { AllWorked M.H.rule shared.now workers.old.passes.items workers.new.passes.items }
    ensures room { vec_capacity workers.new.passes ≡ vec_capacity workers.old.passes }
{
    let (_, reading) = join_mut(
        rt,
        &mut ||
            requires { IsSync R.row × AreWorkers M.H.rule shared.now workers.now.passes.items }
            ensures { AllWorked M.H.rule shared.entry.now workers.entry.now.passes.items workers.exit.now.passes.items × (vec_capacity workers.exit.now.passes ≡ vec_capacity workers.entry.now.passes) }
        { workers.run(rt, alloc, shared, gate) },
        &mut || -> Reading
            requires { Reader M.H.rule shared.now reader.now × Fed listener.now reader.now [] × (shared.now.base.role ≡ Server) × (M.seed_memo maker.now ≡ shared.now.base.seed) }
        { read(rt, shared, reader, listener, link_in, maker, gate) },
    );
    reading
}
