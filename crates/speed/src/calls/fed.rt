//! A server's table of the demo service, and what is done with it.
ghost use Rattle.std.specs.Prelude.{◌≡◌, true, false, Some, None, IfOk, IfSome};
ghost use Rattle.rpc_ids.specs.declared.method.Role.TheVariants.{Server};
ghost use Rattle.rpc_journal.specs.Lawful.{has_zero, hears};
ghost use Rattle.rpc_journal.specs.Runs.{IsRunning};
ghost use Rattle.speed.specs.Fed.{IsFed, bare_seed};

use bytes::Bytes;
use demo_services::{DemoCall, DemoMaker, demo_registry, ids};
use link_io::{Fulls, Lefts, Shelf};
use rpc_calls::{Calls, Running};
use rpc_channel::Channels;
use rpc_handlers::{Handler, Maker};
use rpc_ids::Role;
use rpc_journal::{ArriveRefused, Arrived, StartRefused};
use rpc_packet::{CallName, Packet, PacketType};
use std::alloc::Global;
use transfer_base::Tuning;

/// A maker whose transfers have nothing to move.
pub fn bare_maker(alloc: Global) -> anyhow::Result<DemoMaker>
    ensures { IfOk result (λ maker. ⟦<DemoMaker as Maker>⟧.seed_memo maker ≡ bare_seed) }
{
    let shelf = Shelf {
        full: Fulls::new(alloc),
        left: Lefts::new(alloc),
    };
    let tuning = Tuning {
        window: 4,
        chunk: 256,
    };
    Ok(DemoMaker::new(alloc, shelf, tuning)?)
}

/// A table of a server with channel 1 and no call.
pub fn open_table(alloc: Global, maker: &DemoMaker) -> anyhow::Result<Calls<DemoCall>>
    requires { ⟦<DemoMaker as Maker>⟧.seed_memo maker.now ≡ bare_seed }
    ensures { IfOk result IsFed }
{
    let mut channels = Channels::new(alloc);
    channels.add(1)?;
    let registry = demo_registry(alloc)?;
    let seed = maker.seed()?;
    Ok(Calls::new(alloc, Role::Server, channels, registry, seed)?)
}

/// What a client sends, of eight octets.
#[derive(Clone, Copy)]
pub enum Sent {
    /// The request of a call of Chat.
    Request,
    /// A message to a call of Chat.
    Message,
    /// The request of a call of Echo.
    Echo,
}

/// A packet of this kind for the call with this id.
pub fn sent_packet(sent: Sent, id: u32) -> Packet
    ensures heard { hears Server result.ptype ≡ true }
    ensures named { has_zero result.name ≡ false }
{
    let (ptype, method) = match sent {
        Sent::Request => (PacketType::Request, ids::CHAT),
        Sent::Message => (PacketType::ClientStream, ids::CHAT),
        Sent::Echo => (PacketType::Request, ids::ECHO),
    };
    Packet {
        ptype,
        name: CallName {
            channel: 1,
            service: ids::DEMO,
            method,
            call: id,
        },
        payload: Bytes::from_static(b"12345678"),
        status: 0,
    }
}

/// A packet of this kind for the call with this id arrives.
pub fn arrive(
    calls: &mut Calls<DemoCall>,
    maker: &DemoMaker,
    sent: Sent,
    id: u32,
) -> Result<Arrived, ArriveRefused>
    requires seed { ⟦<DemoMaker as Maker>⟧.seed_memo maker.now ≡ bare_seed }
    requires fed { IsFed calls.old }
    ensures { IsFed calls.new }
{
    let p = sent_packet(sent, id);
    calls.arrive(0, &p, maker)
}

/// A run of the call that is ready first.
pub fn start(calls: &mut Calls<DemoCall>) -> Result<Option<Running<DemoCall>>, StartRefused>
    ensures fed { IsFed calls.old → IsFed calls.new }
    ensures on { IfOk result (λ o. IfSome o (λ r. IsRunning ⟦<DemoCall as Handler>⟧.rule calls.new.setting calls.new.entries r.run)) }
    ensures unasked { IfOk result (λ o. IfSome o (λ r. r.answer ≡ None)) }
{
    calls.start(2)
}

/// The end of a run whose handler has answered.
pub fn finish(calls: &mut Calls<DemoCall>, running: Running<DemoCall>)
    requires on { IsRunning ⟦<DemoCall as Handler>⟧.rule calls.old.setting calls.old.entries running.run }
    requires answered { running.answer ≡ Some running.gives }
    ensures fed { IsFed calls.old → IsFed calls.new }
{
    let _ = calls.finish(running);
}

/// The item that waits first goes out.
pub fn flush(calls: &mut Calls<DemoCall>)
    ensures fed { IsFed calls.old → IsFed calls.new }
{
    let _ = calls.flush_front(1);
}
