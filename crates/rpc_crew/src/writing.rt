//! The writer: it makes the items that come through the ring, in their order.
ghost use Rattle.std.specs.Prelude.{◌≡◌, ◌≢◌, ◌⊎◌, ◌+◌, ◌≤◌, true, false, List, [], ◌∷◌, is_some, IfErr, IfOk, OnErr, OnOk};
ghost use Rattle.std.specs.Io.Iter.{u64_saturate};
ghost use Rattle.link_io.specs.Causes.{Rose};
ghost use Rattle.link_io.specs.declared.why.Why.TheVariants.{JournalLimit, Sink as Link, Store as Depot};
ghost use Rattle.rpc_schedule.specs.Kept.{Holds};
ghost use Rattle.rtrb.specs.Ring.{SameConsumer, received};
ghost use Rattle.turn_cell.specs.Passes.{IsSame};
ghost use Rattle.rpc_shared.specs.session.Leaving.{WriterLeaves};
ghost use Rattle.rpc_shared.specs.session.Log.{HasPlaces, Logs};
ghost use Rattle.rpc_shared.specs.session.Ring.{HaltsFor, Writes, WriterEnded};
ghost use Rattle.rpc_shared.specs.session.Sessions.{is_halting};
ghost use Rattle.rpc_shared.specs.declared.session.parcel.Parcel.{Parcel};
ghost use Rattle.rpc_crew.specs.Batches.{CameBehind, FailsAtLast, FailsBehind, FailsRound, MakesBehind, MakesRound, no_batch, places_for};
ghost use Rattle.rpc_crew.specs.WholeFrames.{WritesWholeFrames};

use crate::batch::Batch;
use crate::bell::Bell;
use crate::gathering::{Behind, gather};
use crate::halting::halt;
use crate::sending::write_batch;
use crate::table::Table;
use link_io::{Sink, Store, StoreRefused, Why};
use rpc_handlers::Handler;
use rpc_journal::Item;
use rpc_schedule::make_action;
use rpc_shared::session::hanging_up::hang_up;
use rpc_shared::session::item_log::ItemLog;
use rpc_shared::session::parcel::Parcel;
use rpc_shared::{Look, Pass};
use rtrb::Consumer;
use std::alloc::Global;
use std::sync::Wait;

/// Makes the items that come through the ring, until its end, a failure, or a halt of the table, and answers how many were made
/// whole. At a failure and a halt the output is told that nothing more comes, so that the other end doesn't wait for it.
pub(crate) fn write<H: Handler, O: Sink, S: Store, R: Wait>(
    rt: &R,
    alloc: Global,
    shared: &Table<H>,
    pass: &mut Pass<H>,
    ring: &mut Consumer<Parcel>,
    output: &mut O,
    store: &mut S,
    log: &mut ItemLog,
) -> u64
    requires writes { Writes H.rule shared.now (O.written output.old) (O.written output.old) (S.holds store.old) (S.holds store.old) log.old log.old (received ring.old) 0 pass.old }
    requires open { O.finished output.old ≡ false }
    ensures ended { WriterEnded H.rule shared.now (O.written output.old) (O.written output.new) (S.holds store.old) (S.holds store.new) log.old log.new (received ring.new) result pass.new }
    ensures whole { WritesWholeFrames (O.written output.old) (O.written output.new) (received ring.new) result ⊎ Rose (O.faults output.old) (O.faults output.new) }
    ensures same { IsSame pass.old pass.new }
    ensures ring { SameConsumer ring.old ring.new }
    ensures sink { HaltsFor Link pass.new.view.known.mine → Rose (O.faults output.old) (O.faults output.new) }
    ensures store { HaltsFor Depot pass.new.view.known.mine → Rose (S.faults store.old) (S.faults store.new) }
    ensures later { (O.faults output.old ≤ O.faults output.new) × (S.faults store.old ≤ S.faults store.new) }
    ensures leaves { WriterLeaves shared.now.base pass.new.view.known.seen (received ring.new) (O.finished output.new) (O.faults output.old) (O.faults output.new) }
{
    shared.bells().begun.ring();
    let mut batch = Batch::new(alloc);
    let mut done: u64 = 0;
    for _ in rt.forever() {
        let heard = shared.bells().writer.rings();
        match round(alloc, ring, &mut batch, output, store, log, &mut done) {
            Ok(Step::More) => {}
            Ok(Step::Rest) => {
                if !waits(rt, &shared.bells().writer, heard, shared.look(rt, pass)) {
                    hang_up(output);
                    return done;
                }
            }
            Ok(Step::Ended) => return done,
            Err(why) => {
                halt(rt, shared, pass, why);
                hang_up(output);
                return done;
            }
        }
    }
    unreachable!()
}

/// What the writer does behind a round.
#[derive(Clone, Copy, Debug)]
pub(crate) enum Step {
    /// There may be more in the ring.
    More,
    /// The ring was empty.
    Rest,
    /// The end of all items came.
    Ended,
}

// Makes what is in the ring, up to the first item that is no packet: the frames of the packets before it go out together.
fn round<O: Sink, S: Store>(
    alloc: Global,
    ring: &mut Consumer<Parcel>,
    batch: &mut Batch,
    output: &mut O,
    store: &mut S,
    log: &mut ItemLog,
    done: &mut u64,
) -> Result<Step, Why>
    requires open { O.finished output.old ≡ false }
    requires empty { batch.old ≡ no_batch }
    ensures makes { IfOk result (λ step. MakesRound (received ring.old) (received ring.new) (O.written output.old) (O.written output.new) (S.holds store.old) (S.holds store.new) log.old log.new done.old done.new step) }
    ensures empty { OnOk result (batch.new ≡ no_batch) }
    ensures fails { OnErr result (FailsRound (received ring.old) (received ring.new) (O.written output.old) (O.written output.new) (S.holds store.old) (S.holds store.new) log.old log.new done.old done.new) }
    ensures last { IfErr result (λ why. (why ≡ Link) ⊎ FailsAtLast (received ring.old) (received ring.new) (O.written output.old) (O.written output.new) done.old done.new) }
    ensures ring { SameConsumer ring.old ring.new }
    ensures why { IfErr result (λ why. (is_halting why ≡ true) × (why ≢ JournalLimit)) }
    ensures sink { IfErr result (λ why. why ≡ Link → Rose (O.faults output.old) (O.faults output.new)) }
    ensures store { IfErr result (λ why. why ≡ Depot → Rose (S.faults store.old) (S.faults store.new)) }
    ensures later { (O.faults output.old ≤ O.faults output.new) × (S.faults store.old ≤ S.faults store.new) }
    ensures open { O.finished output.new ≡ false }
{
    let behind = gather(alloc, ring, batch, log);
    if write_batch(batch, output, log, done).is_err() {
        return Err(Why::Sink);
    }
    make_behind(behind, store, log, done)
}

// Makes what came behind the frames.
fn make_behind<S: Store>(
    behind: Behind,
    store: &mut S,
    log: &mut ItemLog,
    done: &mut u64,
) -> Result<Step, Why>
    requires place { HasPlaces log.old (places_for behind 0) }
    ensures makes { IfOk result (λ step. (came : List Parcel) → CameBehind behind came → done.old ≡ u64_saturate done.old → MakesBehind came (S.holds store.old) (S.holds store.new) log.old log.new done.old done.new step) }
    ensures fails { OnErr result ((came : List Parcel) → CameBehind behind came → FailsBehind came (S.holds store.old) (S.holds store.new) log.old log.new done.old done.new) }
    ensures why { IfErr result (λ why. (is_halting why ≡ true) × (why ≢ JournalLimit) × (why ≢ Link)) }
    ensures store { IfErr result (λ why. why ≡ Depot → Rose (S.faults store.old) (S.faults store.new)) }
    ensures later { S.faults store.old ≤ S.faults store.new }
{
    match behind {
        Behind::Full => Ok(Step::More),
        Behind::Nothing => Ok(Step::Rest),
        Behind::Close => Ok(Step::Ended),
        Behind::Unfit => Err(Why::Memory),
        Behind::Act(item) => {
            act(item, store, log, done)?;
            Ok(Step::More)
        }
    }
}

// Makes the store action of an item.
fn act<S: Store>(item: Item, store: &mut S, log: &mut ItemLog, done: &mut u64) -> Result<(), Why>
    requires place { HasPlaces log.old 1 }
    ensures stored { OnOk result (Holds (item ∷ []) (S.holds store.old) (S.holds store.new)) }
    ensures logged { OnOk result (Logs log.old log.new (item ∷ [])) }
    ensures counted { OnOk result (done.new ≡ u64_saturate (done.old + 1)) }
    ensures kept { OnErr result ((S.holds store.new ≡ S.holds store.old) × (log.new ≡ log.old) × (done.new ≡ done.old)) }
    ensures why { IfErr result (λ why. (is_halting why ≡ true) × (why ≢ JournalLimit) × (why ≢ Link)) }
    ensures store { IfErr result (λ why. why ≡ Depot → Rose (S.faults store.old) (S.faults store.new)) }
    ensures later { S.faults store.old ≤ S.faults store.new }
{
    match make_action(store, item.call, &item.act) {
        Ok(()) => {
            log.add(item);
            *done = done.saturating_add(1);
            Ok(())
        }
        Err(StoreRefused::Failed) => Err(Why::Store),
        Err(StoreRefused::Memory) => Err(Why::Memory),
    }
}

// Waits for the next parcel, unless the table is halted.
fn waits<R: Wait>(rt: &R, bell: &Bell, heard: u32, look: Look) -> bool
    ensures { result ≡ false → is_some look.halted ≡ true }
{
    if look.halted.is_some() {
        return false;
    }
    bell.wait(rt, heard);
    true
}
