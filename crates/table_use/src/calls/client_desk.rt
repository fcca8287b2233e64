//! A client with four methods on channel 1, and what comes to it.
ghost use Rattle.std.specs.Prelude.{◌≡◌, IfOk};
ghost use Rattle.rpc_handlers.specs.HandlerRule.{empty_memo};
ghost use Rattle.rpc_ids.specs.declared.method.Role.TheVariants.{Client};
ghost use Rattle.rpc_journal.specs.Lawful.{hears};

use super::letters::Letter;
use super::steps::Method;
use bytes::Bytes;
use rpc_calls::Calls;
use rpc_channel::Channels;
use rpc_handlers::{Maker, Nobody};
use rpc_ids::{Kind, MethodRef, Registry, Role, Status};
use rpc_journal::{ArriveRefused, Arrived, InvokeRefused, SayRefused};
use rpc_packet::{CallName, Packet, PacketType};
use std::alloc::Global;
use std::process::Abort;
use std::test::Fail;

/// The methods that the client knows.
#[derive(Clone, Copy)]
pub struct Methods {
    pub echo: MethodRef,
    pub count: MethodRef,
    pub sum: MethodRef,
    pub chat: MethodRef,
}

impl Methods {
    pub fn of(self, method: Method) -> MethodRef {
        match method {
            Method::Echo => self.echo,
            Method::Count => self.count,
            Method::Sum => self.sum,
            Method::Chat => self.chat,
            Method::Unknown => MethodRef {
                service: self.echo.service,
                method: 7,
                kind: Kind::Unary,
                ticks: false,
            },
        }
    }
}

/// What the client knows.
pub fn known(alloc: Global) -> Result<(Channels, Registry, Methods), Fail> {
    let mut channels = Channels::new(alloc);
    channels.add(1)?;
    let mut registry = Registry::new(alloc);
    let methods = Methods {
        echo: registry.add(b"demo.Demo", b"Echo", Kind::Unary, false)?,
        count: registry.add(b"demo.Demo", b"Count", Kind::ServerStream, true)?,
        sum: registry.add(b"demo.Demo", b"Sum", Kind::ClientStream, false)?,
        chat: registry.add(b"demo.Demo", b"Chat", Kind::Bidi, false)?,
    };
    Ok((channels, registry, methods))
}

/// A client's table without a call.
pub fn open_client(alloc: Global) -> Result<(Calls<Letter>, Methods), Fail>
    ensures role { IfOk result (λ made. made.0.setting.role ≡ Client) }
    ensures seed { IfOk result (λ made. made.0.setting.seed ≡ empty_memo) }
{
    let (channels, registry, methods) = known(alloc)?;
    let nobody: Nobody<Letter> = Nobody::new(alloc);
    let seed = nobody.seed()?;
    let calls = Calls::new(alloc, Role::Client, channels, registry, seed)?;
    Ok((calls, methods))
}

/// The call of this number of a method, on a channel.
pub fn name_on(channel: u32, method: MethodRef, call: u32) -> CallName {
    CallName {
        channel,
        service: method.service,
        method: method.method,
        call,
    }
}

/// A packet from the server, on channel 1.
pub fn from_server(ptype: PacketType, method: MethodRef, call: u32, status: Status) -> Packet {
    Packet {
        ptype,
        name: name_on(1, method, call),
        payload: Bytes::from_static(b"p"),
        status: status.number(),
    }
}

/// Opens a call with a handler that says its letter, and ends its run with OK where it is one that ends.
pub fn invoke(
    rt: &impl Abort,
    calls: &mut Calls<Letter>,
    alloc: Global,
    name: CallName,
    ends: bool,
) -> Result<u32, InvokeRefused>
    requires { calls.old.setting.role ≡ Client }
    ensures { calls.new.setting ≡ calls.old.setting }
{
    assert!(rt; name.channel != 0);
    assert!(rt; name.service != 0);
    assert!(rt; name.method != 0);
    let letter = Letter {
        alloc,
        letter: b'h',
        ends,
    };
    match calls.invoke(2, name, Bytes::from_static(b"\x03"), letter) {
        Ok(call) => Ok(call),
        Err((letter, refusal)) => {
            assert_eq!(rt; letter.letter, b'h');
            Err(refusal)
        }
    }
}

// Whether a client is sent such packets.
fn is_for_client(ptype: PacketType) -> bool
    ensures { result ≡ hears Client ptype }
{
    match ptype {
        PacketType::Response | PacketType::ServerError | PacketType::ServerStream => true,
        PacketType::Request
        | PacketType::ClientStream
        | PacketType::ClientError
        | PacketType::Completion => false,
    }
}

/// The packet arrives. It must be one for a client, and the input must not have ended.
pub fn arrive(
    rt: &impl Abort,
    calls: &mut Calls<Letter>,
    alloc: Global,
    p: &Packet,
) -> Result<Arrived, ArriveRefused>
    requires role { calls.old.setting.role ≡ Client }
    requires seed { calls.old.setting.seed ≡ empty_memo }
    ensures { calls.new.setting ≡ calls.old.setting }
{
    let name = p.name;
    assert!(rt; is_for_client(p.ptype));
    assert!(rt; name.channel != 0);
    assert!(rt; name.service != 0);
    assert!(rt; name.method != 0);
    assert!(rt; !calls.input_ended());
    let nobody: Nobody<Letter> = Nobody::new(alloc);
    calls.arrive(0, p, &nobody)
}

/// The client ends its stream of this call, which must be there.
pub fn done(rt: &impl Abort, calls: &mut Calls<Letter>, call: u32) -> Result<(), SayRefused>
    requires { calls.old.setting.role ≡ Client }
    ensures { calls.new.setting ≡ calls.old.setting }
{
    assert!(rt; call < calls.count());
    calls.done(2, call)
}

/// The client asks for this call, with this answer.
pub fn invokes(
    rt: &impl Abort,
    calls: &mut Calls<Letter>,
    alloc: Global,
    name: CallName,
    ends: bool,
    want: Result<u32, InvokeRefused>,
    step: usize,
)
    requires { calls.old.setting.role ≡ Client }
    ensures { calls.new.setting ≡ calls.old.setting }
{
    assert_eq!(rt; invoke(rt, calls, alloc, name, ends), want, "step {step}");
}

/// The packet arrives, with this answer.
pub fn hears_from(
    rt: &impl Abort,
    calls: &mut Calls<Letter>,
    alloc: Global,
    p: &Packet,
    want: Result<Arrived, ArriveRefused>,
    step: usize,
)
    requires role { calls.old.setting.role ≡ Client }
    requires seed { calls.old.setting.seed ≡ empty_memo }
    ensures { calls.new.setting ≡ calls.old.setting }
{
    assert_eq!(rt; arrive(rt, calls, alloc, p), want, "step {step}");
}

/// The client ends its stream of this call, which must be there, with this answer.
pub fn completes(
    rt: &impl Abort,
    calls: &mut Calls<Letter>,
    call: u32,
    want: Result<(), SayRefused>,
    step: usize,
)
    requires { calls.old.setting.role ≡ Client }
    ensures { calls.new.setting ≡ calls.old.setting }
{
    assert_eq!(rt; done(rt, calls, call), want, "step {step}");
}
