//! The reader: it feeds the source's bytes to its listener, and the packets heard in them arrive.
ghost use Rattle.std.specs.Prelude.{◌≡◌, ℕ, ◌<◌, ◌≤◌, true, false, [], ◌∷◌, ◌++◌, length, take, is_some, List, Ok, Some, IfOk, IfSome, OnErr, OnOk};
ghost use Rattle.std.specs.Option.{option_to_list};
ghost use Rattle.link_io.specs.Causes.{Rose};
ghost use Rattle.link_io.specs.declared.reading.Ending.TheVariants.{Failed};
ghost use Rattle.turn_cell.specs.Passes.{IsNew, IsSame};
ghost use Rattle.rpc_frames.specs.Listening.{HasHeard};
ghost use Rattle.rpc_ids.specs.declared.method.Role.TheVariants.{Client};
ghost use Rattle.rpc_handlers.specs.HandlerRule.{empty_memo};
ghost use Rattle.rpc_journal.specs.Conditions.{IsHeard};
ghost use Rattle.rpc_journal.specs.Items.{arrivals};
ghost use Rattle.rpc_packet.specs.Hearing.{Hears};
ghost use Rattle.rpc_packet.specs.Message.{message_of};
ghost use Rattle.live_client.specs.Feeding.{Cut, Fed, HasRead, Reader, is_feeding, is_readers};
ghost use Rattle.live_client.specs.Waking.{CanRing, RangForEach};
ghost use Rattle.rpc_shared.specs.session.Sessions.{is_halted};

use crate::halting::{Halted, Seat, Table, halt};
use crate::signal::{ROUND, Signal};
use crate::silent::Silent;
use crate::wakes::Wakes;
use link_io::{Ending, Source, Why};
use rpc_calls::ArriveRefused;
use rpc_frames::Listener;
use rpc_handlers::Nobody;
use rpc_packet::Packet;
use rpc_schedule::INPUT_LIMIT;
use rpc_shared::Look;
use std::sync::Wait;
use task_core::bells::Bell;

// How many bytes are asked for in one read.
const PIECE: usize = 4_096;

/// How the reading of the source ended.
#[derive(Clone, Copy, Debug)]
pub(crate) struct Reading {
    /// None where the reader stopped at a halt of the table.
    pub ending: Option<Ending>,
    /// How many bytes the source gave.
    pub read: u64,
}

/// Feeds the source to its end, a fault, or the limit, and ends the input there; a halt of the table cuts it short.
pub(crate) fn read<I: Source, R: Wait>(
    rt: &R,
    table: &Table,
    pass: &mut Seat,
    wakes: &Wakes,
    bell: &mut Bell,
    listener: &mut Listener,
    input: &mut I,
    maker: &Nobody<Silent>,
) -> Reading
    requires new { IsNew table.now 0 pass.old }
    requires fed { Fed listener.old pass.old [] }
    requires client { table.now.base.role ≡ Client }
    requires seed { table.now.base.seed ≡ empty_memo }
    requires bell { CanRing wakes.now.bells bell.old }
    ensures bell { bell.new.table ≡ bell.old.table }
    ensures rung { RangForEach 1 bell.old bell.new pass.old pass.new }
    ensures ended { Reader is_readers table.now pass.new }
    ensures same { IsSame pass.old pass.new }
    ensures read { HasRead table.now.base (I.left input.old) (I.left input.new) result.ending result.read listener.new pass.new }
    ensures fault { result.ending ≡ Some Failed → Rose (I.faults input.old) (I.faults input.new) }
    ensures later { I.faults input.old ≤ I.faults input.new }
{
    wakes.signals.begun.ring();
    let reading = feed_source(rt, table, pass, wakes, bell, listener, input, maker);
    table.end_in(rt, pass);
    wakes.call(bell);
    reading
}

// Feeds the source, once the call is there. Where the table is halted by then, nothing is read.
fn feed_source<I: Source, R: Wait>(
    rt: &R,
    table: &Table,
    pass: &mut Seat,
    wakes: &Wakes,
    bell: &mut Bell,
    listener: &mut Listener,
    input: &mut I,
    maker: &Nobody<Silent>,
) -> Reading
    requires new { IsNew table.now 0 pass.old }
    requires fed { Fed listener.old pass.old [] }
    requires client { table.now.base.role ≡ Client }
    requires seed { table.now.base.seed ≡ empty_memo }
    requires bell { CanRing wakes.now.bells bell.old }
    ensures bell { bell.new.table ≡ bell.old.table }
    ensures rung { RangForEach 0 bell.old bell.new pass.old pass.new }
    ensures reader { Reader is_feeding table.now pass.new }
    ensures same { IsSame pass.old pass.new }
    ensures read { HasRead table.now.base (I.left input.old) (I.left input.new) result.ending result.read listener.new pass.new }
    ensures fault { result.ending ≡ Some Failed → Rose (I.faults input.old) (I.faults input.new) }
    ensures later { I.faults input.old ≤ I.faults input.new }
{
    if see_call(rt, table, pass).is_err() {
        return Reading {
            ending: None,
            read: 0,
        };
    }
    feed_stream(rt, table, pass, wakes, bell, listener, input, maker)
}

// Feeds the source piece by piece.
fn feed_stream<I: Source, R: Wait>(
    rt: &R,
    table: &Table,
    pass: &mut Seat,
    wakes: &Wakes,
    bell: &mut Bell,
    listener: &mut Listener,
    input: &mut I,
    maker: &Nobody<Silent>,
) -> Reading
    requires reader { Reader is_feeding table.now pass.old }
    requires fed { Fed listener.old pass.old [] }
    requires client { table.now.base.role ≡ Client }
    requires seed { table.now.base.seed ≡ empty_memo }
    requires bell { CanRing wakes.now.bells bell.old }
    ensures bell { bell.new.table ≡ bell.old.table }
    ensures rung { RangForEach 0 bell.old bell.new pass.old pass.new }
    ensures reader { Reader is_feeding table.now pass.new }
    ensures same { IsSame pass.old pass.new }
    ensures read { HasRead table.now.base (I.left input.old) (I.left input.new) result.ending result.read listener.new pass.new }
    ensures fault { result.ending ≡ Some Failed → Rose (I.faults input.old) (I.faults input.new) }
    ensures later { I.faults input.old ≤ I.faults input.new }
{
    let mut buffer = [0; PIECE];
    let mut total = 0;
    'pieces: while total < INPUT_LIMIT {
        let room = PIECE.min(INPUT_LIMIT - total);
        match input.read(&mut buffer[..room]) {
            Ok(0) => return Reading {
                ending: Some(Ending::AtEnd),
                read: total as u64,
            },
            Ok(count) => {
                total += count;
                let fed = feed_all(
                    rt,
                    table,
                    pass,
                    wakes,
                    bell,
                    listener,
                    &buffer[..count],
                    maker,
                );
                if fed.is_err() {
                    return Reading {
                        ending: None,
                        read: total as u64,
                    };
                }
            }
            Err(_) => return Reading {
                ending: Some(Ending::Failed),
                read: total as u64,
            },
        }
    }
    Reading {
        ending: Some(Ending::AtLimit),
        read: total as u64,
    }
}

// Feeds a piece frame by frame.
fn feed_all<R: Wait>(
    rt: &R,
    table: &Table,
    pass: &mut Seat,
    wakes: &Wakes,
    bell: &mut Bell,
    listener: &mut Listener,
    piece: &[u8],
    maker: &Nobody<Silent>,
) -> Result<(), Halted>
    requires reader { Reader is_feeding table.now pass.old }
    requires role { listener.old.role ≡ Client }
    requires client { table.now.base.role ≡ Client }
    requires seed { table.now.base.seed ≡ empty_memo }
    requires bell { CanRing wakes.now.bells bell.old }
    ensures bell { bell.new.table ≡ bell.old.table }
    ensures rung { RangForEach 0 bell.old bell.new pass.old pass.new }
    ensures reader { Reader is_feeding table.now pass.new }
    ensures same { IsSame pass.old pass.new }
    ensures role { listener.new.role ≡ Client }
    ensures fed { OnOk result ((bytes : List ℕ) → Fed listener.old pass.old bytes → Fed listener.new pass.new (bytes ++ piece.now)) }
    ensures cut { OnErr result ((bytes : List ℕ) → Fed listener.old pass.old bytes → Cut listener.new pass.new (bytes ++ piece.now)) }
    ensures halted { OnErr result (is_halted table.now.base pass.new.view.known.seen ≡ true) }
{
    let mut done = 0;
    'frames: while done < piece.len() {
        done += feed(
            rt,
            table,
            pass,
            wakes,
            bell,
            listener,
            &piece[done..],
            maker,
        )?;
    }
    Ok(())
}

// Feeds the front of a piece, up to the end of the first segment in it, and answers how many bytes that were.
fn feed<R: Wait>(
    rt: &R,
    table: &Table,
    pass: &mut Seat,
    wakes: &Wakes,
    bell: &mut Bell,
    listener: &mut Listener,
    piece: &[u8],
    maker: &Nobody<Silent>,
) -> Result<usize, Halted>
    requires some { 0 < length piece.now }
    requires reader { Reader is_feeding table.now pass.old }
    requires role { listener.old.role ≡ Client }
    requires client { table.now.base.role ≡ Client }
    requires seed { table.now.base.seed ≡ empty_memo }
    requires bell { CanRing wakes.now.bells bell.old }
    ensures bell { bell.new.table ≡ bell.old.table }
    ensures rung { RangForEach 0 bell.old bell.new pass.old pass.new }
    ensures taken { IfOk result (λ n. (0 < n) × (n ≤ length piece.now)) }
    ensures reader { Reader is_feeding table.now pass.new }
    ensures same { IsSame pass.old pass.new }
    ensures role { listener.new.role ≡ Client }
    ensures fed { IfOk result (λ n. (bytes : List ℕ) → Fed listener.old pass.old bytes → Fed listener.new pass.new (bytes ++ take n piece.now)) }
    ensures cut { OnErr result ((bytes : List ℕ) → Fed listener.old pass.old bytes → Cut listener.new pass.new (bytes ++ piece.now)) }
    ensures halted { OnErr result (is_halted table.now.base pass.new.view.known.seen ≡ true) }
{
    match listener.listen(piece) {
        Ok(listened) => {
            take_heard(rt, table, pass, wakes, bell, &listened.packet, maker)?;
            Ok(listened.taken)
        }
        Err(_) => {
            halt(rt, table, pass, Why::Memory);
            Err(Halted)
        }
    }
}

// The packet that was heard arrives, where there was one.
fn take_heard<R: Wait>(
    rt: &R,
    table: &Table,
    pass: &mut Seat,
    wakes: &Wakes,
    bell: &mut Bell,
    heard: &Option<Packet>,
    maker: &Nobody<Silent>,
) -> Result<(), Halted>
    requires reader { Reader is_feeding table.now pass.old }
    requires heard { IfSome heard.now (IsHeard table.now.base) }
    requires seed { table.now.base.seed ≡ empty_memo }
    requires bell { CanRing wakes.now.bells bell.old }
    ensures bell { bell.new.table ≡ bell.old.table }
    ensures rung { RangForEach 0 bell.old bell.new pass.old pass.new }
    ensures reader { Reader is_feeding table.now pass.new }
    ensures same { IsSame pass.old pass.new }
    ensures arrived { OnOk result (arrivals pass.new.view.known.mine ≡ arrivals pass.old.view.known.mine ++ option_to_list heard.now) }
    ensures lost { OnErr result (arrivals pass.new.view.known.mine ≡ arrivals pass.old.view.known.mine) }
    ensures halted { OnErr result (is_halted table.now.base pass.new.view.known.seen ≡ true) }
{
    match heard {
        Some(packet) => take_in(rt, table, pass, wakes, bell, packet, maker),
        None => Ok(()),
    }
}

// A packet arrives, at once or when its call has room for its event.
fn take_in<R: Wait>(
    rt: &R,
    table: &Table,
    pass: &mut Seat,
    wakes: &Wakes,
    bell: &mut Bell,
    packet: &Packet,
    maker: &Nobody<Silent>,
) -> Result<(), Halted>
    requires reader { Reader is_feeding table.now pass.old }
    requires heard { IsHeard table.now.base packet.now }
    requires seed { table.now.base.seed ≡ empty_memo }
    requires bell { CanRing wakes.now.bells bell.old }
    ensures bell { bell.new.table ≡ bell.old.table }
    ensures rung { RangForEach 0 bell.old bell.new pass.old pass.new }
    ensures reader { Reader is_feeding table.now pass.new }
    ensures same { IsSame pass.old pass.new }
    ensures arrived { OnOk result (arrivals pass.new.view.known.mine ≡ arrivals pass.old.view.known.mine ++ packet.now ∷ []) }
    ensures lost { OnErr result (arrivals pass.new.view.known.mine ≡ arrivals pass.old.view.known.mine) }
    ensures halted { OnErr result (is_halted table.now.base pass.new.view.known.seen ≡ true) }
{
    for _ in rt.forever() {
        if try_in(rt, table, pass, wakes, bell, packet, maker)? {
            return Ok(());
        }
    }
    unreachable!()
}

// A packet arrives. False where its call's queue is full: the reader has waited for the driver then.
fn try_in<R: Wait>(
    rt: &R,
    table: &Table,
    pass: &mut Seat,
    wakes: &Wakes,
    bell: &mut Bell,
    packet: &Packet,
    maker: &Nobody<Silent>,
) -> Result<bool, Halted>
    requires reader { Reader is_feeding table.now pass.old }
    requires heard { IsHeard table.now.base packet.now }
    requires seed { table.now.base.seed ≡ empty_memo }
    requires bell { CanRing wakes.now.bells bell.old }
    ensures reader { Reader is_feeding table.now pass.new }
    ensures same { IsSame pass.old pass.new }
    ensures arrived { result ≡ Ok true → arrivals pass.new.view.known.mine ≡ arrivals pass.old.view.known.mine ++ packet.now ∷ [] }
    ensures kept { result ≡ Ok false → arrivals pass.new.view.known.mine ≡ arrivals pass.old.view.known.mine }
    ensures lost { OnErr result (arrivals pass.new.view.known.mine ≡ arrivals pass.old.view.known.mine) }
    ensures halted { OnErr result (is_halted table.now.base pass.new.view.known.seen ≡ true) }
    ensures bell { bell.new.table ≡ bell.old.table }
    ensures rung { RangForEach 0 bell.old bell.new pass.old pass.new }
{
    let heard = wakes.signals.reader.rings();
    match table.arrive(rt, pass, packet, maker) {
        Ok(_) => {
            wakes.call(bell);
            Ok(true)
        }
        Err(ArriveRefused::QueueFull(_)) => {
            rest(rt, &wakes.signals.reader, heard, table.look(rt, pass))?;
            Ok(false)
        }
        Err(ArriveRefused::JournalFull) => {
            halt(rt, table, pass, Why::JournalLimit);
            Err(Halted)
        }
        Err(ArriveRefused::Memory) => {
            halt(rt, table, pass, Why::Memory);
            Err(Halted)
        }
    }
}

// Waits for a place in a queue, unless the table is halted.
fn rest<R: Wait>(rt: &R, signal: &Signal, heard: u32, look: Look) -> Result<(), Halted>
    ensures { OnErr result (is_some look.halted ≡ true) }
{
    if look.halted.is_some() {
        return Err(Halted);
    }
    signal.wait_for(rt, heard, ROUND);
    Ok(())
}

// Waits until the pass has seen that the call is there, so that all that arrives comes behind it.
fn see_call<R: Wait>(rt: &R, table: &Table, pass: &mut Seat) -> Result<(), Halted>
    requires new { IsNew table.now 0 pass.old }
    ensures reader { Reader is_feeding table.now pass.new }
    ensures same { IsSame pass.old pass.new }
    ensures none { pass.new.view.known.mine ≡ [] }
    ensures halted { OnErr result (is_halted table.now.base pass.new.view.known.seen ≡ true) }
{
    for _ in rt.forever() {
        let look = table.look(rt, pass);
        if look.halted.is_some() {
            return Err(Halted);
        }
        if look.calls > 0 {
            return Ok(());
        }
    }
    unreachable!()
}
