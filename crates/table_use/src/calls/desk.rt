//! A server with three methods on channels 1 and 2, and what comes to it.
ghost use Rattle.std.specs.Prelude.{◌≡◌, IfOk};
ghost use Rattle.rpc_ids.specs.declared.method.Role.TheVariants.{Server};
ghost use Rattle.rpc_journal.specs.Lawful.{hears};

use super::letters::{Letter, Letters};
use super::steps::Method;
use bytes::Bytes;
use rpc_calls::Calls;
use rpc_channel::Channels;
use rpc_handlers::Maker;
use rpc_ids::{Kind, MethodRef, Registry, Role};
use rpc_journal::{ArriveRefused, Arrived};
use rpc_packet::{CallName, Packet, PacketType};
use std::alloc::Global;
use std::process::Abort;
use std::test::Fail;

/// The methods that the server knows.
#[derive(Clone, Copy)]
pub struct Methods {
    pub echo: MethodRef,
    pub sum: MethodRef,
    pub chat: MethodRef,
}

impl Methods {
    pub fn of(self, method: Method) -> MethodRef {
        match method {
            Method::Echo => self.echo,
            Method::Sum => self.sum,
            Method::Chat => self.chat,
            Method::Count | Method::Unknown => MethodRef {
                service: self.chat.service,
                method: 7,
                kind: Kind::Unary,
                ticks: false,
            },
        }
    }
}

/// Makes handlers of this letter, whose calls end with their first answer or go on.
pub fn letters(alloc: Global, letter: u8, ends: bool) -> Letters {
    Letters {
        alloc,
        letter,
        ends,
    }
}

/// What the server serves.
pub fn served(alloc: Global) -> Result<(Channels, Registry, Methods), Fail> {
    let mut channels = Channels::new(alloc);
    channels.add(1)?;
    channels.add(2)?;
    let mut registry = Registry::new(alloc);
    let methods = Methods {
        echo: registry.add(b"demo.Demo", b"Echo", Kind::Unary, false)?,
        sum: registry.add(b"demo.Demo", b"Sum", Kind::ClientStream, false)?,
        chat: registry.add(b"demo.Demo", b"Chat", Kind::Bidi, true)?,
    };
    Ok((channels, registry, methods))
}

/// A table without a call.
pub fn open_table(alloc: Global, maker: &Letters) -> Result<(Calls<Letter>, Methods), Fail>
    ensures role { IfOk result (λ made. made.0.setting.role ≡ Server) }
    ensures seed { IfOk result (λ made. ⟦<Letters as Maker>⟧.seed_memo maker.now ≡ made.0.setting.seed) }
{
    let (channels, registry, methods) = served(alloc)?;
    let seed = maker.seed()?;
    let calls = Calls::new(alloc, Role::Server, channels, registry, seed)?;
    Ok((calls, methods))
}

/// A packet of the call 1 of this method, without a payload.
pub fn packet_on(channel: u32, ptype: PacketType, method: MethodRef) -> Packet {
    Packet {
        ptype,
        name: CallName {
            channel,
            service: method.service,
            method: method.method,
            call: 1,
        },
        payload: Bytes::new(),
        status: 0,
    }
}

// Whether a server is sent such packets.
fn is_for_server(ptype: PacketType) -> bool
    ensures { result ≡ hears Server ptype }
{
    match ptype {
        PacketType::Request
        | PacketType::ClientStream
        | PacketType::ClientError
        | PacketType::Completion => true,
        PacketType::Response | PacketType::ServerError | PacketType::ServerStream => false,
    }
}

/// The packet arrives. It must be one for a server, and the input must not have ended.
pub fn arrive(
    rt: &impl Abort,
    calls: &mut Calls<Letter>,
    maker: &Letters,
    p: &Packet,
) -> Result<Arrived, ArriveRefused>
    requires role { calls.old.setting.role ≡ Server }
    requires seed { ⟦<Letters as Maker>⟧.seed_memo maker.now ≡ calls.old.setting.seed }
    ensures { calls.new.setting ≡ calls.old.setting }
{
    let name = p.name;
    assert!(rt; is_for_server(p.ptype));
    assert!(rt; name.channel != 0);
    assert!(rt; name.service != 0);
    assert!(rt; name.method != 0);
    assert!(rt; !calls.input_ended());
    calls.arrive(0, p, maker)
}

/// The packet arrives, with this answer.
pub fn arrives(
    rt: &impl Abort,
    calls: &mut Calls<Letter>,
    maker: &Letters,
    p: &Packet,
    want: Result<Arrived, ArriveRefused>,
    step: usize,
)
    requires role { calls.old.setting.role ≡ Server }
    requires seed { ⟦<Letters as Maker>⟧.seed_memo maker.now ≡ calls.old.setting.seed }
    ensures { calls.new.setting ≡ calls.old.setting }
{
    assert_eq!(rt; arrive(rt, calls, maker, p), want, "step {step}");
}
