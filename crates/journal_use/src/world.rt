//! Endpoints whose journals are judged, and what stands in those journals.

use bytes::Bytes;
use link_io::Why;
use rpc_channel::Channels;
use rpc_handlers::{Answer, End, Memo, Out, Outs, Parts, Words};
use rpc_ids::{Kind, MethodRef, Registry, Role, Status};
use rpc_journal::*;
use rpc_packet::{CallName, Packet, PacketType};
use std::alloc::{AllocError, Global};
use std::process::Abort;
use std::test::Fail;

/// A method of the endpoint, or one that it doesn't know.
#[derive(Clone, Copy)]
pub enum Method {
    Echo,
    Count,
    Sum,
    Chat,
    Unknown,
}

/// An entry of a journal, as a constant can say it. A packet is one on channel 1, to call 1 of its method, without a
/// payload and with status 0, where nothing else is said.
#[derive(Clone, Copy)]
pub enum Step {
    /// A packet of this type comes.
    Comes(PacketType, Method),
    /// A packet comes to this call of a channel.
    ComesTo(u32, u32, PacketType, Method),
    /// A packet comes with this status.
    ComesWith(u32, PacketType, Method),
    /// A client opens a call of this method.
    Opens(Method),
    /// A client opens a call with this packet.
    Invokes(Asked),
    /// So many zeros are said of a call.
    Says(u32, usize),
    /// Seat 2 commits the session 1 of a call.
    Commits(u32),
    /// A client ends the stream of a call.
    Done(u32),
    /// This seat begins a run of a call.
    Start(u32, u32),
    /// This seat ends the run of a call, with no answer.
    Finish(u32, u32),
    /// Seat 2 ends the run of call 0 with this end of the call.
    Ends(Option<Status>),
    /// This seat gives a call another handler.
    Replace(u32, u32),
    /// This seat cancels a call.
    Cancel(u32, u32),
    Tick(u64),
    Flush,
    /// Another seat flushes.
    FlushBy(u32),
    /// The input has ended, says this seat.
    EndIn(u32),
    /// This seat halts the table.
    Halt(u32, Why),
    /// This seat closes a channel.
    Close(u32, u32),
}

/// Steps, and the first of a journal that breaks a rule, with that rule, where one does.
pub type Case = (&'static [Step], Option<(u64, Broken)>);

/// The packet by which a client asks for a call.
#[derive(Clone, Copy)]
pub struct Asked {
    pub channel: u32,
    pub call: u32,
    pub ptype: PacketType,
    pub method: Method,
    pub status: u32,
    pub length: usize,
}

/// An endpoint with channels 1 and 2 and these methods.
#[derive(Drop)]
pub struct World {
    pub alloc: Global,
    pub role: Role,
    pub channels: Channels,
    pub registry: Registry,
    echo: MethodRef,
    count: MethodRef,
    sum: MethodRef,
    chat: MethodRef,
}

impl World {
    pub fn new(alloc: Global, role: Role) -> Result<World, Fail> {
        let mut channels = Channels::new(alloc);
        channels.add(1)?;
        channels.add(2)?;
        let mut registry = Registry::new(alloc);
        let echo = registry.add(b"demo.Demo", b"Echo", Kind::Unary, false)?;
        let count = registry.add(b"demo.Demo", b"Count", Kind::ServerStream, false)?;
        let sum = registry.add(b"demo.Demo", b"Sum", Kind::ClientStream, false)?;
        let chat = registry.add(b"demo.Demo", b"Chat", Kind::Bidi, true)?;
        Ok(World {
            alloc,
            role,
            channels,
            registry,
            echo,
            count,
            sum,
            chat,
        })
    }

    pub fn method(&self, method: Method) -> MethodRef {
        match method {
            Method::Echo => self.echo,
            Method::Count => self.count,
            Method::Sum => self.sum,
            Method::Chat => self.chat,
            Method::Unknown => MethodRef {
                service: 5,
                method: 6,
                kind: Kind::Bidi,
                ticks: false,
            },
        }
    }

    /// A packet of this type to call `call` of the method, without a payload and with status 0.
    pub fn packet(&self, channel: u32, call: u32, ptype: PacketType, method: Method) -> Packet {
        let method = self.method(method);
        let name = CallName {
            channel,
            service: method.service,
            method: method.method,
            call,
        };
        Packet {
            ptype,
            name,
            payload: Bytes::new(),
            status: 0,
        }
    }

    // The packet by which a client asks.
    fn asked(&self, asked: Asked) -> Result<Packet, AllocError> {
        let payload = self.zeros(asked.length)?;
        Ok(Packet {
            payload,
            status: asked.status,
            ..self.packet(asked.channel, asked.call, asked.ptype, asked.method)
        })
    }

    fn zeros(&self, count: usize) -> Result<Bytes, AllocError> {
        let mut bytes = Vec::new(self.alloc);
        bytes.resize(count, 0u8)?;
        Ok(Bytes::from_vec(bytes)?)
    }

    /// The entry of a step.
    pub fn entry(&self, step: Step) -> Result<Entry, AllocError> {
        Ok(match step {
            Step::Comes(ptype, method) => arrived(self.packet(1, 1, ptype, method)),
            Step::ComesTo(channel, call, ptype, method) => {
                arrived(self.packet(channel, call, ptype, method))
            }
            Step::ComesWith(status, ptype, method) => arrived(Packet {
                status,
                ..self.packet(1, 1, ptype, method)
            }),
            Step::Opens(method) => self.invoked(self.packet(1, 1, PacketType::Request, method)),
            Step::Invokes(asked) => self.invoked(self.asked(asked)?),
            Step::Says(call, count) => entry(3, EntryKind::Say(call, Out::Say(self.zeros(count)?))),
            Step::Commits(call) => entry(2, EntryKind::Say(call, Out::Commit { session: 1 })),
            Step::Finish(seat, call) => entry(seat, EntryKind::Finish(call, self.answer(None))),
            Step::Ends(status) => entry(2, EntryKind::Finish(0, self.answer(status))),
            Step::Replace(seat, call) => entry(seat, EntryKind::Replace(call, self.memo())),
            plain => plain_entry(plain),
        })
    }

    fn invoked(&self, packet: Packet) -> Entry {
        entry(3, EntryKind::Invoke(packet, self.memo()))
    }

    fn answer(&self, end: Option<Status>) -> Answer {
        let end = match end {
            Some(status) => Some(End {
                status,
                payload: Bytes::new(),
            }),
            None => None,
        };
        Answer {
            items: Outs::new(self.alloc),
            end,
        }
    }

    // An empty state.
    fn memo(&self) -> Memo {
        Memo {
            words: Words::new(self.alloc),
            parts: Parts::new(self.alloc),
        }
    }

    /// The step behind what stands in the journal.
    pub fn step(&self, journal: &mut Journal, step: Step) -> Result<(), AllocError> {
        let entry = self.entry(step)?;
        journal.reserve(1)?;
        journal.push(entry);
        Ok(())
    }

    // These steps, one after another.
    fn steps(&self, journal: &mut Journal, steps: &[Step]) -> Result<(), AllocError> {
        for step in steps {
            self.step(journal, *step)?;
        }
        Ok(())
    }

    // The journal of these steps and then those.
    fn journal(&self, before: &[Step], steps: &[Step]) -> Result<Journal, AllocError> {
        let mut journal = Journal::new(self.alloc);
        self.steps(&mut journal, before)?;
        self.steps(&mut journal, steps)?;
        Ok(journal)
    }

    /// The fault of a journal.
    pub fn judge(&self, journal: &Journal) -> Result<Option<Fault>, AllocError> {
        check(
            self.alloc,
            journal,
            self.role,
            &self.channels,
            &self.registry,
        )
    }
}

// An entry that has no packet, answer or state.
fn plain_entry(step: Step) -> Entry {
    match step {
        Step::Done(call) => entry(3, EntryKind::Done(call)),
        Step::Start(seat, call) => entry(seat, EntryKind::Start(call)),
        Step::Cancel(seat, call) => entry(seat, EntryKind::Cancel(call)),
        Step::Tick(now) => entry(1, EntryKind::Tick(now)),
        Step::FlushBy(seat) => entry(seat, EntryKind::Flush),
        Step::EndIn(seat) => entry(seat, EntryKind::EndIn),
        Step::Halt(seat, why) => entry(seat, EntryKind::Halt(why)),
        Step::Close(seat, channel) => entry(seat, EntryKind::Close(channel)),
        _ => entry(1, EntryKind::Flush),
    }
}

fn entry(seat: u32, kind: EntryKind) -> Entry {
    Entry { seat, kind }
}

fn arrived(packet: Packet) -> Entry {
    entry(0, EntryKind::Arrive(packet))
}

/// The fault of the journal is this.
pub fn judged(
    rt: &impl Abort,
    w: &World,
    journal: &Journal,
    want: Option<(u64, Broken)>,
    row: usize,
) {
    let want = match want {
        Some((at, rule)) => Some(Fault { at, rule }),
        None => None,
    };
    assert_eq!(rt; w.judge(journal), Ok(want), "row {row}");
}

/// The journal of these steps and then those has this fault.
pub fn found(
    rt: &impl Abort,
    w: &World,
    before: &[Step],
    steps: &[Step],
    want: Option<(u64, Broken)>,
    row: usize,
) {
    let Ok(journal) = w.journal(before, steps) else {
        panic!(rt; "no memory")
    };
    judged(rt, w, &journal, want, row);
}

/// The same of the steps of each case.
pub fn each_found(rt: &impl Abort, w: &World, before: &[Step], cases: &[Case]) {
    for (row, (steps, want)) in cases.iter().enumerate() {
        found(rt, w, before, steps, *want, row);
    }
}
