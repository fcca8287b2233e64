//! The reader: it feeds the source's bytes to its listener, and the packets heard in them arrive.
ghost use Rattle.std.specs.Prelude.{◌≡◌, ℕ, ◌<◌, ◌≤◌, true, false, [], ◌∷◌, ◌++◌, length, take, is_some, List, Ok, Some, IfOk, IfSome, OnErr, OnOk};
ghost use Rattle.std.specs.Option.{option_to_list};
ghost use Rattle.link_io.specs.Causes.{Rose};
ghost use Rattle.link_io.specs.declared.reading.Ending.TheVariants.{Failed};
ghost use Rattle.turn_cell.specs.Passes.{IsSame};
ghost use Rattle.rpc_frames.specs.Listening.{HasHeard};
ghost use Rattle.rpc_ids.specs.declared.method.Role.TheVariants.{Server};
ghost use Rattle.rpc_journal.specs.Conditions.{IsHeard};
ghost use Rattle.rpc_journal.specs.Items.{arrivals};
ghost use Rattle.rpc_packet.specs.Hearing.{Hears};
ghost use Rattle.rpc_packet.specs.Message.{message_of};
ghost use Rattle.rpc_shared.specs.Steps.{IsOwn};
ghost use Rattle.rpc_shared.specs.session.Crew.{Adds, Cut, Fed, HasRead, Reader, ReaderEnded, is_workers};
ghost use Rattle.rpc_shared.specs.session.Sessions.{is_halted};

use crate::Gate;
use crate::bell::{Bell, Owed};
use crate::halting::{Halted, halt};
use crate::running::run;
use crate::table::Table;
use link_io::{Ending, Source, Why};
use rpc_calls::{ArriveRefused, StartOfRefused};
use rpc_frames::Listener;
use rpc_handlers::{Handler, Maker};
use rpc_packet::Packet;
use rpc_schedule::INPUT_LIMIT;
use rpc_shared::{Look, Pass};
use std::sync::Wait;

// How many bytes are asked for in one read.
const PIECE: usize = 4_096;

/// How the reading of the source ended.
#[derive(Clone, Copy, Debug)]
pub(crate) struct Reading {
    /// None where the reader stopped at a halt of the table.
    pub ending: Option<Ending>,
    /// How many bytes the source gave.
    pub read: u64,
}

/// Feeds the source to its end, a fault, or the limit, and ends the input there; a halt of the table cuts it short.
pub(crate) fn read<M: Maker, I: Source, R: Wait, G: Gate>(
    rt: &R,
    shared: &Table<M::H>,
    pass: &mut Pass<M::H>,
    listener: &mut Listener,
    input: &mut I,
    maker: &M,
    gate: &G,
) -> Reading
    requires reader { Reader M.H.rule shared.now pass.old }
    requires fed { Fed listener.old pass.old [] }
    requires server { shared.now.base.role ≡ Server }
    requires seed { M.seed_memo maker.now ≡ shared.now.base.seed }
    ensures ended { ReaderEnded M.H.rule shared.now pass.new }
    ensures same { IsSame pass.old pass.new }
    ensures read { HasRead shared.now.base (I.left input.old) (I.left input.new) result.ending result.read listener.new pass.new }
    ensures fault { result.ending ≡ Some Failed → Rose (I.faults input.old) (I.faults input.new) }
    ensures later { I.faults input.old ≤ I.faults input.new }
{
    let reading = feed_source(rt, shared, pass, listener, input, maker, gate);
    shared.end_in(rt, pass);
    reading
}

// Feeds the source, once all other threads have begun. Where one couldn't be made, nothing is read.
fn feed_source<M: Maker, I: Source, R: Wait, G: Gate>(
    rt: &R,
    shared: &Table<M::H>,
    pass: &mut Pass<M::H>,
    listener: &mut Listener,
    input: &mut I,
    maker: &M,
    gate: &G,
) -> Reading
    requires reader { Reader M.H.rule shared.now pass.old }
    requires fed { Fed listener.old pass.old [] }
    requires server { shared.now.base.role ≡ Server }
    requires seed { M.seed_memo maker.now ≡ shared.now.base.seed }
    ensures reader { Reader M.H.rule shared.now pass.new }
    ensures same { IsSame pass.old pass.new }
    ensures read { HasRead shared.now.base (I.left input.old) (I.left input.new) result.ending result.read listener.new pass.new }
    ensures fault { result.ending ≡ Some Failed → Rose (I.faults input.old) (I.faults input.new) }
    ensures later { I.faults input.old ≤ I.faults input.new }
{
    if !shared.have_begun(rt) {
        halt(rt, shared, pass, Why::Memory);
        return Reading {
            ending: None,
            read: 0,
        };
    }
    feed_stream(rt, shared, pass, listener, input, maker, gate)
}

// Feeds the source piece by piece.
fn feed_stream<M: Maker, I: Source, R: Wait, G: Gate>(
    rt: &R,
    shared: &Table<M::H>,
    pass: &mut Pass<M::H>,
    listener: &mut Listener,
    input: &mut I,
    maker: &M,
    gate: &G,
) -> Reading
    requires reader { Reader M.H.rule shared.now pass.old }
    requires fed { Fed listener.old pass.old [] }
    requires server { shared.now.base.role ≡ Server }
    requires seed { M.seed_memo maker.now ≡ shared.now.base.seed }
    ensures reader { Reader M.H.rule shared.now pass.new }
    ensures same { IsSame pass.old pass.new }
    ensures read { HasRead shared.now.base (I.left input.old) (I.left input.new) result.ending result.read listener.new pass.new }
    ensures fault { result.ending ≡ Some Failed → Rose (I.faults input.old) (I.faults input.new) }
    ensures later { I.faults input.old ≤ I.faults input.new }
{
    let mut buffer = [0; PIECE];
    let mut owed = Owed::none();
    let mut total = 0;
    'pieces: while total < INPUT_LIMIT {
        let room = PIECE.min(INPUT_LIMIT - total);
        match input.read(&mut buffer[..room]) {
            Ok(0) => return Reading {
                ending: Some(Ending::AtEnd),
                read: total as u64,
            },
            Ok(count) => {
                total += count;
                let piece = &buffer[..count];
                let fed = feed_all(rt, shared, pass, listener, piece, maker, gate, &mut owed);
                if fed.is_err() {
                    return Reading {
                        ending: None,
                        read: total as u64,
                    };
                }
            }
            Err(_) => return Reading {
                ending: Some(Ending::Failed),
                read: total as u64,
            },
        }
    }
    Reading {
        ending: Some(Ending::AtLimit),
        read: total as u64,
    }
}

// Feeds a piece frame by frame, and rings once for all that came in it.
fn feed_all<M: Maker, R: Wait, G: Gate>(
    rt: &R,
    shared: &Table<M::H>,
    pass: &mut Pass<M::H>,
    listener: &mut Listener,
    piece: &[u8],
    maker: &M,
    gate: &G,
    owed: &mut Owed,
) -> Result<(), Halted>
    requires reader { Reader M.H.rule shared.now pass.old }
    requires role { listener.old.role ≡ Server }
    requires server { shared.now.base.role ≡ Server }
    requires seed { M.seed_memo maker.now ≡ shared.now.base.seed }
    ensures reader { Reader M.H.rule shared.now pass.new }
    ensures same { IsSame pass.old pass.new }
    ensures role { listener.new.role ≡ Server }
    ensures paid { OnOk result (owed.new.rings ≡ 0) }
    ensures fed { OnOk result ((bytes : List ℕ) → Fed listener.old pass.old bytes → Fed listener.new pass.new (bytes ++ piece.now)) }
    ensures cut { OnErr result ((bytes : List ℕ) → Fed listener.old pass.old bytes → Cut listener.new pass.new (bytes ++ piece.now)) }
    ensures halted { OnErr result (is_halted shared.now.base pass.new.view.known.seen ≡ true) }
{
    let mut done = 0;
    'frames: while done < piece.len() {
        done += feed(
            rt,
            shared,
            pass,
            listener,
            &piece[done..],
            maker,
            gate,
            owed,
        )?;
    }
    shared.pay(owed);
    Ok(())
}

// Feeds the front of a piece, up to the end of the first segment in it, and answers how many bytes that were.
fn feed<M: Maker, R: Wait, G: Gate>(
    rt: &R,
    shared: &Table<M::H>,
    pass: &mut Pass<M::H>,
    listener: &mut Listener,
    piece: &[u8],
    maker: &M,
    gate: &G,
    owed: &mut Owed,
) -> Result<usize, Halted>
    requires some { 0 < length piece.now }
    requires reader { Reader M.H.rule shared.now pass.old }
    requires role { listener.old.role ≡ Server }
    requires server { shared.now.base.role ≡ Server }
    requires seed { M.seed_memo maker.now ≡ shared.now.base.seed }
    ensures taken { IfOk result (λ n. (0 < n) × (n ≤ length piece.now)) }
    ensures reader { Reader M.H.rule shared.now pass.new }
    ensures same { IsSame pass.old pass.new }
    ensures role { listener.new.role ≡ Server }
    ensures fed { IfOk result (λ n. (bytes : List ℕ) → Fed listener.old pass.old bytes → Fed listener.new pass.new (bytes ++ take n piece.now)) }
    ensures cut { OnErr result ((bytes : List ℕ) → Fed listener.old pass.old bytes → Cut listener.new pass.new (bytes ++ piece.now)) }
    ensures halted { OnErr result (is_halted shared.now.base pass.new.view.known.seen ≡ true) }
{
    match listener.listen(piece) {
        Ok(listened) => {
            take_heard(rt, shared, pass, &listened.packet, maker, gate, owed)?;
            Ok(listened.taken)
        }
        Err(_) => {
            halt(rt, shared, pass, Why::Memory);
            Err(Halted)
        }
    }
}

// The packet that was heard arrives, where there was one.
fn take_heard<M: Maker, R: Wait, G: Gate>(
    rt: &R,
    shared: &Table<M::H>,
    pass: &mut Pass<M::H>,
    heard: &Option<Packet>,
    maker: &M,
    gate: &G,
    owed: &mut Owed,
) -> Result<(), Halted>
    requires reader { Reader M.H.rule shared.now pass.old }
    requires heard { IfSome heard.now (IsHeard shared.now.base) }
    requires seed { M.seed_memo maker.now ≡ shared.now.base.seed }
    ensures reader { Reader M.H.rule shared.now pass.new }
    ensures same { IsSame pass.old pass.new }
    ensures arrived { OnOk result (arrivals pass.new.view.known.mine ≡ arrivals pass.old.view.known.mine ++ option_to_list heard.now) }
    ensures lost { OnErr result (arrivals pass.new.view.known.mine ≡ arrivals pass.old.view.known.mine) }
    ensures halted { OnErr result (is_halted shared.now.base pass.new.view.known.seen ≡ true) }
{
    match heard {
        Some(packet) => take_in(rt, shared, pass, packet, maker, gate, owed),
        None => Ok(()),
    }
}

// A packet arrives, at once or when its call has room for its event.
fn take_in<M: Maker, R: Wait, G: Gate>(
    rt: &R,
    shared: &Table<M::H>,
    pass: &mut Pass<M::H>,
    packet: &Packet,
    maker: &M,
    gate: &G,
    owed: &mut Owed,
) -> Result<(), Halted>
    requires reader { Reader M.H.rule shared.now pass.old }
    requires heard { IsHeard shared.now.base packet.now }
    requires seed { M.seed_memo maker.now ≡ shared.now.base.seed }
    ensures reader { Reader M.H.rule shared.now pass.new }
    ensures same { IsSame pass.old pass.new }
    ensures arrived { OnOk result (arrivals pass.new.view.known.mine ≡ arrivals pass.old.view.known.mine ++ packet.now ∷ []) }
    ensures lost { OnErr result (arrivals pass.new.view.known.mine ≡ arrivals pass.old.view.known.mine) }
    ensures halted { OnErr result (is_halted shared.now.base pass.new.view.known.seen ≡ true) }
{
    for _ in rt.forever() {
        if try_in(rt, shared, pass, packet, maker, gate, owed)? {
            return Ok(());
        }
    }
    unreachable!()
}

// A packet arrives. False where its call's queue is full: the reader has run the call's handler then, where it was ready.
fn try_in<M: Maker, R: Wait, G: Gate>(
    rt: &R,
    shared: &Table<M::H>,
    pass: &mut Pass<M::H>,
    packet: &Packet,
    maker: &M,
    gate: &G,
    owed: &mut Owed,
) -> Result<bool, Halted>
    requires reader { Reader M.H.rule shared.now pass.old }
    requires heard { IsHeard shared.now.base packet.now }
    requires seed { M.seed_memo maker.now ≡ shared.now.base.seed }
    ensures reader { Reader M.H.rule shared.now pass.new }
    ensures same { IsSame pass.old pass.new }
    ensures arrived { result ≡ Ok true → arrivals pass.new.view.known.mine ≡ arrivals pass.old.view.known.mine ++ packet.now ∷ [] }
    ensures kept { result ≡ Ok false → arrivals pass.new.view.known.mine ≡ arrivals pass.old.view.known.mine }
    ensures lost { OnErr result (arrivals pass.new.view.known.mine ≡ arrivals pass.old.view.known.mine) }
    ensures halted { OnErr result (is_halted shared.now.base pass.new.view.known.seen ≡ true) }
{
    let heard = shared.bells().reader.rings();
    match shared.arrive(rt, pass, packet, maker, owed) {
        Ok(_) => Ok(true),
        Err(ArriveRefused::QueueFull(call)) => {
            shared.pay(owed);
            make_room(rt, shared, pass, call, heard, gate, owed)?;
            Ok(false)
        }
        Err(ArriveRefused::JournalFull) => {
            halt(rt, shared, pass, Why::JournalLimit);
            Err(Halted)
        }
        Err(ArriveRefused::Memory) => {
            halt(rt, shared, pass, Why::Memory);
            Err(Halted)
        }
    }
}

// Runs the handler of a call whose queue is full, where it is ready. Where another thread runs it just now, this one waits for a
// ring past those heard before the packet was refused.
fn make_room<H: Handler, R: Wait, G: Gate>(
    rt: &R,
    shared: &Table<H>,
    pass: &mut Pass<H>,
    call: u32,
    heard: u32,
    gate: &G,
    owed: &Owed,
) -> Result<(), Halted>
    requires own { IsOwn shared.now pass.old }
    requires paid { owed.now.rings ≡ 0 }
    ensures adds { Adds H.rule shared.now is_workers pass.old pass.new }
    ensures halted { OnErr result (is_halted shared.now.base pass.new.view.known.seen ≡ true) }
{
    match shared.start_of(rt, pass, call) {
        Ok(running) => run(rt, shared, pass, gate, running),
        Err(StartOfRefused::NotReady) => {
            rest(
                rt,
                &shared.bells().reader,
                heard,
                shared.look(rt, pass),
                owed,
            )
        }
        Err(StartOfRefused::JournalFull) => {
            halt(rt, shared, pass, Why::JournalLimit);
            Err(Halted)
        }
        Err(StartOfRefused::Memory) => {
            halt(rt, shared, pass, Why::Memory);
            Err(Halted)
        }
    }
}

// Waits for a place in a queue, unless the table is halted.
fn rest<R: Wait>(rt: &R, bell: &Bell, heard: u32, look: Look, owed: &Owed) -> Result<(), Halted>
    requires paid { owed.now.rings ≡ 0 }
    ensures { OnErr result (is_some look.halted ≡ true) }
{
    if look.halted.is_some() {
        return Err(Halted);
    }
    bell.wait(rt, heard);
    Ok(())
}
