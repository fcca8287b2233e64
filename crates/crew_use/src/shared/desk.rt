//! A server with three methods on channels 1 and 2 behind a lock with four passes, and what comes to it.
ghost use Rattle.std.specs.Prelude.{◌≡◌, [], IfOk};
ghost use Rattle.rpc_ids.specs.declared.method.Role.TheVariants.{Server};
ghost use Rattle.rpc_journal.specs.Lawful.{hears};
ghost use Rattle.turn_cell.specs.Passes.{AreAll, IsNew};
ghost use Rattle.rpc_shared.specs.Helpers.{AreFour, IsFeeder, IsSeat};

use super::letters::{Letter, Letters};
use bytes::Bytes;
use rpc_calls::{ArriveRefused, Arrived, Calls};
use rpc_channel::Channels;
use rpc_handlers::{Handler, Maker};
use rpc_ids::{Kind, MethodRef, Registry, Role, Status};
use rpc_journal::{Act, Item};
use rpc_packet::{CallName, Packet, PacketType};
use rpc_shared::{Pass, Shared};
use std::alloc::{AllocError, Global};
use std::process::Abort;
use std::sync::Wait;
use std::test::Fail;

/// The methods that the server knows.
#[derive(Clone, Copy)]
pub struct Methods {
    pub echo: MethodRef,
    pub sum: MethodRef,
    pub chat: MethodRef,
}

/// One of them, or one that the server doesn't know.
#[derive(Clone, Copy)]
pub enum Method {
    Echo,
    Sum,
    Chat,
    Unknown,
}

impl Methods {
    pub fn of(self, method: Method) -> MethodRef {
        match method {
            Method::Echo => self.echo,
            Method::Sum => self.sum,
            Method::Chat => self.chat,
            Method::Unknown => MethodRef {
                service: self.chat.service,
                method: 7,
                kind: Kind::Unary,
                ticks: false,
            },
        }
    }
}

/// What the server serves.
pub fn served(alloc: Global) -> Result<(Channels, Registry, Methods), Fail> {
    let mut channels = Channels::new(alloc);
    channels.add(1)?;
    channels.add(2)?;
    let mut registry = Registry::new(alloc);
    let methods = Methods {
        echo: registry.add(b"demo.Demo", b"Echo", Kind::Unary, false)?,
        sum: registry.add(b"demo.Demo", b"Sum", Kind::ClientStream, false)?,
        chat: registry.add(b"demo.Demo", b"Chat", Kind::Bidi, true)?,
    };
    Ok((channels, registry, methods))
}

/// A table without a call.
pub fn open_table(alloc: Global, maker: &Letters) -> Result<(Calls<Letter>, Methods), Fail>
    ensures role { IfOk result (λ made. made.0.setting.role ≡ Server) }
    ensures seed { IfOk result (λ made. ⟦<Letters as Maker>⟧.seed_memo maker.now ≡ made.0.setting.seed) }
    ensures empty { IfOk result (λ made. made.0.entries ≡ []) }
{
    let (channels, registry, methods) = served(alloc)?;
    let seed = maker.seed()?;
    let calls = Calls::new(alloc, Role::Server, channels, registry, seed)?;
    Ok((calls, methods))
}

/// The four passes of a table, of the numbers 0 to 3 in order.
pub struct Four<H: Handler> {
    pub reader: Pass<H>,
    pub writer: Pass<H>,
    pub worker: Pass<H>,
    pub other: Pass<H>,
}

impl<H: Handler> Drop for Four<H> {
    fn drop(self) {
        let Self {
            reader: _,
            writer: _,
            worker: _,
            other: _,
        } = self;
    }
}

impl<H: Handler> Four<H> {
    /// Each by itself, in order.
    pub fn apart(self) -> (Pass<H>, Pass<H>, Pass<H>, Pass<H>)
        ensures reader { result.0 ≡ self.reader }
        ensures writer { result.1 ≡ self.writer }
        ensures worker { result.2 ≡ self.worker }
        ensures other { result.3 ≡ self.other }
    {
        let Self {
            reader,
            writer,
            worker,
            other,
        } = self;
        (reader, writer, worker, other)
    }
}

/// The table behind a lock with four passes.
pub fn share<H: Handler>(rt: &impl Abort, alloc: Global, calls: Calls<H>) -> (Shared<H>, Four<H>)
    requires { calls.entries ≡ [] }
    ensures base { result.0.base ≡ calls.setting }
    ensures count { result.0.count ≡ 4 }
    ensures passes { AreFour result.0 result.1.reader result.1.writer result.1.worker result.1.other }
{
    let Ok((shared, passes)) = Shared::with(alloc, calls, 4) else {
        panic!(rt; "no memory")
    };
    let passes = four_of(&shared, passes);
    (shared, passes)
}

// The passes out of their list.
fn four_of<H: Handler>(shared: &Shared<H>, mut passes: Vec<Pass<H>>) -> Four<H>
    requires { AreAll shared.now (IsNew shared.now) passes.items × (shared.now.count ≡ 4) }
    ensures { AreFour shared.now result.reader result.writer result.worker result.other }
{
    let other = passes.remove(3);
    let worker = passes.remove(2);
    let writer = passes.remove(1);
    let reader = passes.remove(0);
    Four {
        reader,
        writer,
        worker,
        other,
    }
}

/// The table again. Its passes must be these.
pub fn close<H: Handler>(
    rt: &impl Abort,
    alloc: Global,
    shared: Shared<H>,
    passes: Four<H>,
) -> Result<Calls<H>, AllocError>
    requires count { shared.count ≡ 4 }
    requires reader { IsSeat shared passes.reader }
    requires writer { IsSeat shared passes.writer }
    requires worker { IsSeat shared passes.worker }
    requires other { IsSeat shared passes.other }
{
    let (reader, writer, worker, other) = passes.apart();
    assert!(rt; reader.number() == 0);
    assert!(rt; writer.number() == 1);
    assert!(rt; worker.number() == 2);
    assert!(rt; other.number() == 3);
    let passes = vec![in alloc; reader, writer, worker, other]?;
    Ok(shared.close(passes))
}

/// A packet of this call of a method, without a payload.
pub fn packet_on(channel: u32, ptype: PacketType, method: MethodRef, call: u32) -> Packet {
    Packet {
        ptype,
        name: CallName {
            channel,
            service: method.service,
            method: method.method,
            call,
        },
        payload: Bytes::new(),
        status: 0,
    }
}

// Whether a server is sent such packets.
fn is_for_server(ptype: PacketType) -> bool
    ensures { result ≡ hears Server ptype }
{
    match ptype {
        PacketType::Request
        | PacketType::ClientStream
        | PacketType::ClientError
        | PacketType::Completion => true,
        PacketType::Response | PacketType::ServerError | PacketType::ServerStream => false,
    }
}

/// The packet arrives. It must be one for a server.
pub fn arrive<M: Maker, R: Abort + Wait>(
    rt: &R,
    shared: &Shared<M::H>,
    reader: &mut Pass<M::H>,
    maker: &M,
    p: &Packet,
) -> Result<Arrived, ArriveRefused>
    requires role { shared.now.base.role ≡ Server }
    requires seed { M.seed_memo maker.now ≡ shared.now.base.seed }
    requires feeder { IsFeeder shared.now reader.old }
    ensures feeder { IsFeeder shared.now reader.new }
    ensures number { reader.new.view.known.number ≡ reader.old.view.known.number }
{
    let name = p.name;
    assert!(rt; is_for_server(p.ptype));
    assert!(rt; name.channel != 0);
    assert!(rt; name.service != 0);
    assert!(rt; name.method != 0);
    shared.arrive(rt, reader, p, maker)
}

/// What goes out next.
pub fn next_item<H: Handler, R: Abort + Wait>(
    rt: &R,
    shared: &Shared<H>,
    writer: &mut Pass<H>,
) -> Option<Item>
    requires seat { IsSeat shared.now writer.old }
    ensures seat { IsSeat shared.now writer.new }
    ensures number { writer.new.view.known.number ≡ writer.old.view.known.number }
{
    assert!(rt; writer.number() == 1);
    shared.flush_front(rt, writer)
}

/// The type and the status of the packet that goes out next.
pub fn next_sent<H: Handler, R: Abort + Wait>(
    rt: &R,
    shared: &Shared<H>,
    writer: &mut Pass<H>,
) -> Option<(PacketType, Status)>
    requires { IsSeat shared.now writer.old }
    ensures { IsSeat shared.now writer.new }
{
    match next_item(rt, shared, writer)?.act {
        Act::Send(p) => Some((p.ptype, Status::of(p.status))),
        Act::Keep(_) | Act::LeaveCall => None,
    }
}

/// The packet arrives, with this answer.
pub fn arrives<M: Maker, R: Abort + Wait>(
    rt: &R,
    shared: &Shared<M::H>,
    reader: &mut Pass<M::H>,
    maker: &M,
    p: &Packet,
    want: Result<Arrived, ArriveRefused>,
)
    requires role { shared.now.base.role ≡ Server }
    requires seed { M.seed_memo maker.now ≡ shared.now.base.seed }
    requires feeder { IsFeeder shared.now reader.old }
    ensures feeder { IsFeeder shared.now reader.new }
{
    assert_eq!(rt; arrive(rt, shared, reader, maker, p), want);
}

/// A request of this method opens call 0.
pub fn opens<M: Maker, R: Abort + Wait>(
    rt: &R,
    shared: &Shared<M::H>,
    reader: &mut Pass<M::H>,
    maker: &M,
    method: MethodRef,
)
    requires role { shared.now.base.role ≡ Server }
    requires seed { M.seed_memo maker.now ≡ shared.now.base.seed }
    requires feeder { IsFeeder shared.now reader.old }
    ensures feeder { IsFeeder shared.now reader.new }
{
    let request = packet_on(1, PacketType::Request, method, 1);
    arrives(rt, shared, reader, maker, &request, Ok(Arrived::Opened(0)));
}

/// This goes out next.
pub fn sends<H: Handler, R: Abort + Wait>(
    rt: &R,
    shared: &Shared<H>,
    writer: &mut Pass<H>,
    want: Option<(PacketType, Status)>,
)
    requires { IsSeat shared.now writer.old }
    ensures { IsSeat shared.now writer.new }
{
    assert_eq!(rt; next_sent(rt, shared, writer), want);
}
