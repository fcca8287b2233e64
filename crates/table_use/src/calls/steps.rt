//! Steps of a test: what is done to a table, with its answer, and what is asked of the table.

use link_io::Why;
use rpc_ids::Status;
use rpc_journal::{
    ArriveRefused, Arrived, Cancelled, CloseRefused, InvokeRefused, ReplaceRefused, SayRefused,
    StartOfRefused, StartRefused,
};
use rpc_packet::PacketType;

/// A method of a server or a client, or one that it doesn't know. A server has no `Count`.
#[derive(Clone, Copy)]
pub enum Method {
    Echo,
    Count,
    Sum,
    Chat,
    Unknown,
}

/// What a handler hears.
#[derive(Clone, Copy)]
pub enum Heard {
    Message,
    Tick(u64),
    End(Status),
}

/// What a client says of a call.
#[derive(Clone, Copy)]
pub enum Said {
    Letter,
    StoreAction,
}

/// What goes out, by its type, its status and its length.
pub type Sent = Option<(PacketType, Status, usize)>;

/// Whether a call ends at the first answer of its handler.
pub const GOES_ON: bool = false;

pub const ENDS: bool = true;

/// A step. A packet is one on channel 1 and to call 1 of its method, where nothing else is said. Seat 2 does what is
/// done, where no seat is named. Calls are told by their numbers.
#[derive(Clone, Copy)]
pub enum Step {
    /// A packet comes to a server, with this answer, and then this goes out.
    Comes(PacketType, Method, Arrived, Sent),
    /// The same on this channel.
    ComesOn(u32, PacketType, Method, Arrived, Sent),
    /// So many messages come to a server and wait for a call. Nothing goes out.
    ComeOften(u32, Method, u32),
    /// A request opens a call of a server.
    Opens(Method, u32),
    /// The same on this channel.
    OpensOn(u32, Method, u32),
    /// The same with this call id.
    OpensAs(u32, Method, u32),
    /// A message waits for a call of a server.
    Queues(Method, u32),
    /// A packet to a server is refused.
    Refuses(PacketType, Method, ArriveRefused),

    /// A client asks for call 1 of a method on this channel, with this answer.
    Asks(u32, Method, Result<u32, InvokeRefused>),
    /// A client says this of a call, with this answer.
    Says(u32, Said, Result<(), SayRefused>),
    /// A client ends its stream of a call, with this answer.
    Completes(u32, Result<(), SayRefused>),
    /// A packet with status `OK` comes to a client, with this answer.
    Hears(PacketType, Method, Arrived),

    /// The call that is ready first runs. Its handler comes back with this letter, or doesn't.
    Runs(Option<u8>),
    /// The same, and its handler hears this.
    RunsAndHears(Heard, Option<u8>),
    /// The same, and meanwhile seat 3 cancels the call, with this answer.
    RunsCancelled(Cancelled, Option<u8>),
    /// The same, and meanwhile seat 3 gives the call a handler of the first letter.
    RunsReplaced(u8, Option<u8>),
    /// A run of the call that is ready first, this one, begins for good. Its handler is to hear this.
    Begins(u32, Heard),
    /// A run of the call that is ready first begins for good. Its handler has this letter.
    BeginsWith(u8),
    /// A run of this call begins, with this entry of the journal, and no other beside it. Its handler has this letter.
    RunsAlone(u32, u64, u8),

    /// A run of the call that is ready first begins for good, or doesn't.
    Starts(Result<Option<u32>, StartRefused>),
    /// A run of this call begins for good, or doesn't.
    StartsCall(u32, Result<u32, StartOfRefused>),
    /// A handler of this letter is refused by a call, and comes back.
    RefusesHandler(u32, u8, ReplaceRefused),
    /// This seat cancels a call, with this answer.
    Cancels(u32, u32, Cancelled),
    /// A channel is closed, with this answer.
    Closes(u32, Result<u32, CloseRefused>),
    /// The time is told, with this answer.
    Ticks(u64, Result<(), StartRefused>),
    /// The time is told so often, from 0 on.
    TicksOften(u64),
    /// The input ends, which it must not have done before.
    InputEnds,
    /// This seat halts the table.
    Halts(u32, Why),

    /// This goes out next.
    Sends(Sent),
    /// There are so many calls.
    Counts(u32),
    /// This call has ended so, or lives.
    StatusIs(u32, Option<Status>),
    /// So many events wait for a call.
    Waits(u32, u32),
    /// Whether no event waits.
    NoneWaits(bool),
    /// Whether nothing is left to do.
    Settles(bool),
    /// The journal has so many entries.
    LengthIs(u64),
    /// Why the table halted, or that it didn't.
    IsHalted(Option<Why>),
}

/// What a run of a server's call sends that says its letter.
pub const ITS_LETTER: Sent = Some((PacketType::ServerStream, Status::Okay, 1));

/// What a server's call sends that ends with `OK`.
pub const ITS_END: Sent = Some((PacketType::Response, Status::Okay, 0));

/// The request of a client's call.
pub const ITS_REQUEST: Sent = Some((PacketType::Request, Status::Okay, 1));

/// A message of a client.
pub const ITS_MESSAGE: Sent = Some((PacketType::ClientStream, Status::Okay, 1));

/// The end of a client's stream.
pub const ITS_COMPLETION: Sent = Some((PacketType::Completion, Status::Okay, 0));
