//! The pump: it tells the table the time, and takes what goes out to the ring.
ghost use Rattle.std.specs.Prelude.{◌≡◌, ◌⊎◌, ℕ, ◌+◌, ◌<◌, ◌≤◌, true, false, [], ◌∷◌, ◌++◌, Some, None, is_some, IfOk, OnOk, OnErr};
ghost use Rattle.rpc_journal.specs.Items.{flushes, moments};
ghost use Rattle.rtrb.specs.Ring.{SameProducer, sent};
ghost use Rattle.rtrb.specs.declared.errors.PushError.TheVariants.{Full};
ghost use Rattle.turn_cell.specs.Passes.{IsSame};
ghost use Rattle.rpc_shared.specs.session.Crew.{Adds, Stands, is_pumps};
ghost use Rattle.rpc_shared.specs.session.Ring.{PumpEnded, Pumps, Ticked};
ghost use Rattle.rpc_shared.specs.session.Sessions.{AreSpaced, TicksInTime, is_halted, last_from};
ghost use Rattle.rpc_shared.specs.declared.session.parcel.Parcel.{Parcel};
ghost use Rattle.rpc_shared.specs.declared.session.parcel.Parcel.TheVariants.{End};

use crate::bell::{Bell, Bells, Owed};
use crate::halting::{Halted, halt};
use crate::table::Table;
use link_io::{Clock, Why};
use rpc_calls::StartRefused;
use rpc_handlers::Handler;
use rpc_shared::session::parcel::Parcel;
use rpc_shared::{Look, Pass};
use rtrb::{Producer, PushError};
use std::sync::Wait;

/// The time goes on in steps of at least so many milliseconds.
pub(crate) const TICK: u64 = 500;

// The pump waits so many milliseconds at most before it asks the clock again. So a Tick comes 2 ms late at most, a thousand rounds
// take about 2 s, and a pump that finds nothing to do takes less than a hundredth of a processor.
const ROUND: u64 = 2;

// The pump rings for the writer once it has flushed all that waits, and within a burst once for so many parcels.
const BURST: u32 = 32;

/// The pump is done: the end is in the ring, or the table is halted.
#[derive(Clone, Copy, Debug)]
struct Ended;

/// Ticks and flushes until the table is settled and the ring has had all items and the end, or the table is halted. An item is
/// flushed only when the one before it is in the ring. The first Tick is due `TICK` past the moment `began`.
pub(crate) fn pump<H: Handler, C: Clock, R: Wait>(
    rt: &R,
    shared: &Table<H>,
    pass: &mut Pass<H>,
    ring: &mut Producer<Parcel>,
    clock: &mut C,
    began: u64,
)
    requires pumps { Pumps H.rule shared.now (sent ring.old) None pass.old }
    requires fresh { pass.old.view.known.mine ≡ [] }
    requires began { C.last clock.old ≡ began }
    ensures ended { PumpEnded H.rule shared.now (sent ring.new) pass.new }
    ensures same { IsSame pass.old pass.new }
    ensures ring { SameProducer ring.old ring.new }
    ensures spaced { AreSpaced began (moments pass.new.view.known.mine) }
    ensures past { last_from began (moments pass.new.view.known.mine) ≤ C.last clock.new }
    ensures due { TicksInTime shared.now.base pass.new.view.known.seen began (C.last clock.new) (moments pass.new.view.known.mine) }
{
    shared.bells().begun.ring();
    let mut ticked = began;
    let mut hand = None;
    let mut owed = Owed::none();
    for _ in rt.forever() {
        if tick(rt, shared, pass, clock, &mut ticked).is_err() {
            return;
        }
        match go_on(rt, shared, pass, ring, hand, &mut owed) {
            Ok(next) => hand = next,
            Err(_) => return,
        }
        if owed.rings >= BURST {
            owed.pay(shared.bells().writer.ring());
        }
    }
    unreachable!()
}

// Tells the time, where it has gone on far enough.
fn tick<H: Handler, C: Clock, R: Wait>(
    rt: &R,
    shared: &Table<H>,
    pass: &mut Pass<H>,
    clock: &mut C,
    ticked: &mut u64,
) -> Result<(), Halted>
    requires stands { Stands H.rule shared.now pass.old }
    requires pump { pass.old.view.known.number ≡ 1 }
    requires past { ticked.old ≤ C.last clock.old }
    ensures adds { Adds H.rule shared.now is_pumps pass.old pass.new }
    ensures flushes { flushes pass.new.view.known.mine ≡ flushes pass.old.view.known.mine }
    ensures ticks { (start : ℕ) → Ticked start pass.old.view.known.mine ticked.old (C.last clock.old) → Ticked start pass.new.view.known.mine ticked.new (C.last clock.new) }
    ensures due { OnOk result (C.last clock.new < ticked.new + 500) }
    ensures halted { OnErr result (is_halted shared.now.base pass.new.view.known.seen ≡ true) }
{
    let now = clock.now();
    if now - *ticked < TICK {
        return Ok(());
    }
    match shared.tick(rt, pass, now) {
        Ok(()) => {
            *ticked = now;
            Ok(())
        }
        Err(StartRefused::JournalFull) => {
            halt(rt, shared, pass, Why::JournalLimit);
            Err(Halted)
        }
        Err(StartRefused::Memory) => {
            halt(rt, shared, pass, Why::Memory);
            Err(Halted)
        }
    }
}

// The parcel in the hand goes first; then the next item.
fn go_on<H: Handler, R: Wait>(
    rt: &R,
    shared: &Table<H>,
    pass: &mut Pass<H>,
    ring: &mut Producer<Parcel>,
    hand: Option<Parcel>,
    owed: &mut Owed,
) -> Result<Option<Parcel>, Ended>
    requires pumps { Pumps H.rule shared.now (sent ring.old) hand pass.old }
    ensures same { IsSame pass.old pass.new }
    ensures ticks { moments pass.new.view.known.mine ≡ moments pass.old.view.known.mine }
    ensures ring { SameProducer ring.old ring.new }
    ensures pumps { IfOk result (λ next. Pumps H.rule shared.now (sent ring.new) next pass.new) }
    ensures ended { OnErr result (PumpEnded H.rule shared.now (sent ring.new) pass.new) }
{
    match hand {
        None => flush(rt, shared, pass, ring, owed),
        Some(parcel) => offer(rt, shared, pass, ring, parcel, owed),
    }
}

// Flushes an item, and puts it into the ring.
fn flush<H: Handler, R: Wait>(
    rt: &R,
    shared: &Table<H>,
    pass: &mut Pass<H>,
    ring: &mut Producer<Parcel>,
    owed: &mut Owed,
) -> Result<Option<Parcel>, Ended>
    requires pumps { Pumps H.rule shared.now (sent ring.old) None pass.old }
    ensures same { IsSame pass.old pass.new }
    ensures ticks { moments pass.new.view.known.mine ≡ moments pass.old.view.known.mine }
    ensures ring { SameProducer ring.old ring.new }
    ensures pumps { IfOk result (λ next. Pumps H.rule shared.now (sent ring.new) next pass.new) }
    ensures ended { OnErr result (PumpEnded H.rule shared.now (sent ring.new) pass.new) }
{
    let heard = shared.bells().pump.rings();
    match shared.flush_front(rt, pass) {
        Some(item) => offer(rt, shared, pass, ring, Parcel::Put(item), owed),
        None => {
            pay(shared.bells(), owed);
            rest(rt, shared, pass, ring, heard, owed)
        }
    }
}

// Rings for the writer, where parcels went into the ring since it was last rung for.
fn pay(bells: &Bells, owed: &mut Owed)
    ensures { owed.new.rings ≡ 0 }
{
    if owed.rings > 0 {
        owed.pay(bells.writer.ring());
    }
}

// Puts a parcel into the ring, for which the writer is owed a ring then; or keeps it in the hand where the ring is full.
fn offer<H: Handler, R: Wait>(
    rt: &R,
    shared: &Table<H>,
    pass: &mut Pass<H>,
    ring: &mut Producer<Parcel>,
    parcel: Parcel,
    owed: &mut Owed,
) -> Result<Option<Parcel>, Ended>
    requires pumps { Pumps H.rule shared.now (sent ring.old) (Some parcel) pass.old }
    ensures owed { (sent ring.new ≡ sent ring.old) ⊎ (0 < owed.new.rings) }
    ensures same { IsSame pass.old pass.new }
    ensures mine { pass.new.view.known.mine ≡ pass.old.view.known.mine }
    ensures ring { SameProducer ring.old ring.new }
    ensures pumps { IfOk result (λ next. Pumps H.rule shared.now (sent ring.new) next pass.new) }
    ensures ended { OnErr result (PumpEnded H.rule shared.now (sent ring.new) pass.new) }
{
    match ring.push(parcel) {
        Ok(()) => {
            owed.add(1);
            Ok(None)
        }
        Err(refused) => {
            pay(shared.bells(), owed);
            keep(
                rt,
                &shared.bells().pump,
                shared.look(rt, pass),
                refused,
                owed,
            )
        }
    }
}

// The parcel that the ring gave back stays in the hand, unless the table is halted. The writer doesn't ring for each place: while
// the pump waits out its round, it has a whole ring to write.
fn keep<R: Wait>(
    rt: &R,
    bell: &Bell,
    look: Look,
    refused: PushError<Parcel>,
    owed: &Owed,
) -> Result<Option<Parcel>, Ended>
    requires paid { owed.now.rings ≡ 0 }
    ensures kept { IfOk result (λ hand. (parcel : Parcel) → refused ≡ Full parcel → hand ≡ Some parcel) }
    ensures halted { OnErr result (is_some look.halted ≡ true) }
{
    if look.halted.is_some() {
        return Err(Ended);
    }
    bell.wait_for(rt, bell.rings(), ROUND);
    match refused {
        PushError::Full(parcel) => Ok(Some(parcel)),
    }
}

// No item waits: the end goes into the ring where the table is settled.
fn rest<H: Handler, R: Wait>(
    rt: &R,
    shared: &Table<H>,
    pass: &mut Pass<H>,
    ring: &mut Producer<Parcel>,
    heard: u32,
    owed: &Owed,
) -> Result<Option<Parcel>, Ended>
    requires pumps { Pumps H.rule shared.now (sent ring.old) None pass.old }
    requires paid { owed.now.rings ≡ 0 }
    ensures same { IsSame pass.old pass.new }
    ensures mine { pass.new.view.known.mine ≡ pass.old.view.known.mine }
    ensures ring { SameProducer ring.old ring.new }
    ensures pumps { IfOk result (λ next. Pumps H.rule shared.now (sent ring.new) next pass.new) }
    ensures ended { OnErr result (PumpEnded H.rule shared.now (sent ring.new) pass.new) }
{
    let look = shared.look(rt, pass);
    if look.halted.is_some() {
        return Err(Ended);
    }
    if look.settled {
        if close(ring) {
            shared.bells().writer.ring();
            shared.end_time();
            return Err(Ended);
        }
        shared.bells().pump.wait_for(rt, heard, ROUND);
        return Ok(None);
    }
    shared.bells().pump.wait_for(rt, heard, ROUND);
    Ok(None)
}

// Puts the end into the ring, where it has a place.
fn close(ring: &mut Producer<Parcel>) -> bool
    ensures same { SameProducer ring.old ring.new }
    ensures put { result ≡ true → sent ring.new ≡ sent ring.old ++ End ∷ [] }
    ensures full { result ≡ false → sent ring.new ≡ sent ring.old }
{
    ring.push(Parcel::End).is_ok()
}
