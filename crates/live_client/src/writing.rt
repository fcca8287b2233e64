//! The driver takes what goes out, and makes it.
ghost use Rattle.std.specs.Prelude.{◌≡◌, ◌≢◌, ◌≤◌, ◌⊎◌, ◌∷◌, [], List, Ok, true, false, if◌then◌else◌, IfErr, IfOk, OnErr, OnOk};
ghost use Rattle.std.specs.Io.KnownBytes.{Appends};
ghost use Rattle.link_io.specs.Causes.{Rose};
ghost use Rattle.link_io.specs.Device.{AppendsSome};
ghost use Rattle.link_io.specs.declared.why.Why.TheVariants.{JournalLimit, Sink as Link, Store as Depot};
ghost use Rattle.rpc_frames.specs.Written.{frame_of_packet};
ghost use Rattle.rpc_packet.specs.Message.{message_of};
ghost use Rattle.rpc_journal.specs.declared.item.Item.{Item as Sent};
ghost use Rattle.rpc_journal.specs.Changes.{NothingToFlush};
ghost use Rattle.rpc_journal.specs.History.{history};
ghost use Rattle.rpc_schedule.specs.Kept.{Holds};
ghost use Rattle.rpc_shared.specs.session.Crew.{Adds};
ghost use Rattle.rpc_shared.specs.session.Ring.{HaltsFor};
ghost use Rattle.rpc_shared.specs.session.Sessions.{is_halted, is_halting, wire};
ghost use Rattle.live_client.specs.Driving.{CanDrive, FlushFails, Flushed, FlushesMore, is_flushing};
ghost use Rattle.live_client.specs.Silent.{silent_rule};

use crate::halting::{Halted, Seat, Table, halt};
use crate::stepping::take_item;
use link_io::{Sink, Store, StoreRefused, Why, write_whole};
use rpc_frames::write_frame;
use rpc_journal::{Act, Item};
use rpc_packet::Packet;
use rpc_schedule::make_action;
use std::alloc::{AllocError, Global};
use std::sync::Wait;

/// Flushes the next item and makes it. False where none waits. Behind the end of the output a packet is let go.
pub(crate) fn flush_one<O: Sink, S: Store, R: Wait>(
    rt: &R,
    alloc: Global,
    table: &Table,
    pass: &mut Seat,
    call: u32,
    finished: bool,
    output: &mut O,
    store: &mut S,
) -> Result<bool, Halted>
    requires can { CanDrive table.now call pass.old }
    requires open { O.finished output.old ≡ finished }
    ensures adds { Adds silent_rule table.now is_flushing pass.old pass.new }
    ensures made { OnOk result ((made : List Sent) × Flushed finished (O.written output.old) (O.written output.new) (S.holds store.old) (S.holds store.new) made × FlushesMore table.now call made pass.old pass.new) }
    ensures failed { OnErr result (FlushFails table.now call (O.written output.old) (O.written output.new) (S.holds store.old) (S.holds store.new) pass.old pass.new) }
    ensures none { result ≡ Ok false → NothingToFlush (history table.now.base pass.new.view.known.seen) }
    ensures halted { OnErr result (is_halted table.now.base pass.new.view.known.seen ≡ true) }
    ensures sink { HaltsFor Link pass.new.view.known.mine → HaltsFor Link pass.old.view.known.mine ⊎ Rose (O.faults output.old) (O.faults output.new) }
    ensures store { HaltsFor Depot pass.new.view.known.mine → HaltsFor Depot pass.old.view.known.mine ⊎ Rose (S.faults store.old) (S.faults store.new) }
    ensures later { (O.faults output.old ≤ O.faults output.new) × (S.faults store.old ≤ S.faults store.new) }
    ensures open { O.finished output.new ≡ finished }
{
    match take_item(rt, table, pass, call) {
        None => Ok(false),
        Some(item) => match make(alloc, &item, finished, output, store) {
            Ok(()) => Ok(true),
            Err(why) => {
                halt(rt, table, pass, why);
                Err(Halted)
            }
        },
    }
}

// Writes the frame of an item that is a packet, and makes the store action of another.
fn make<O: Sink, S: Store>(
    alloc: Global,
    item: &Item,
    finished: bool,
    output: &mut O,
    store: &mut S,
) -> Result<(), Why>
    requires open { O.finished output.old ≡ finished }
    ensures written { OnOk result (Appends (O.written output.old) (O.written output.new) (if finished then [] else wire (item.now ∷ []))) }
    ensures stored { OnOk result (Holds (item.now ∷ []) (S.holds store.old) (S.holds store.new)) }
    ensures begun { OnErr result (AppendsSome (O.written output.old) (O.written output.new) (wire (item.now ∷ []))) }
    ensures kept { OnErr result (S.holds store.new ≡ S.holds store.old) }
    ensures why { IfErr result (λ why. (is_halting why ≡ true) × (why ≢ JournalLimit)) }
    ensures sink { IfErr result (λ why. why ≡ Link → Rose (O.faults output.old) (O.faults output.new)) }
    ensures store { IfErr result (λ why. why ≡ Depot → Rose (S.faults store.old) (S.faults store.new)) }
    ensures later { (O.faults output.old ≤ O.faults output.new) × (S.faults store.old ≤ S.faults store.new) }
    ensures open { O.finished output.new ≡ finished }
{
    match &item.act {
        Act::Send(packet) => send(alloc, packet, finished, output),
        act => match make_action(store, item.call, act) {
            Ok(()) => Ok(()),
            Err(StoreRefused::Failed) => Err(Why::Store),
            Err(StoreRefused::Memory) => Err(Why::Memory),
        },
    }
}

// Writes the frame of a packet, before the end of the output.
fn send<O: Sink>(alloc: Global, packet: &Packet, finished: bool, output: &mut O) -> Result<(), Why>
    requires { O.finished output.old ≡ finished }
    ensures written { OnOk result (Appends (O.written output.old) (O.written output.new) (if finished then [] else frame_of_packet (message_of packet.now))) }
    ensures begun { OnErr result (AppendsSome (O.written output.old) (O.written output.new) (frame_of_packet (message_of packet.now))) }
    ensures why { IfErr result (λ why. (is_halting why ≡ true) × (why ≢ JournalLimit) × (why ≢ Depot)) }
    ensures sink { IfErr result (λ why. why ≡ Link → Rose (O.faults output.old) (O.faults output.new)) }
    ensures later { O.faults output.old ≤ O.faults output.new }
    ensures open { O.finished output.new ≡ finished }
{
    if finished {
        return Ok(());
    }
    let Ok(frame) = frame_of(alloc, packet) else {
        return Err(Why::Memory);
    };
    match write_whole(output, &frame) {
        Ok(()) => Ok(()),
        Err(_) => Err(Why::Sink),
    }
}

// The frame of a packet.
fn frame_of(alloc: Global, packet: &Packet) -> Result<Vec<u8>, AllocError>
    ensures { IfOk result (λ frame. frame.items ≡ frame_of_packet (message_of packet.now)) }
{
    let mut frame = Vec::new(alloc);
    write_frame(alloc, packet, &mut frame)?;
    Ok(frame)
}
