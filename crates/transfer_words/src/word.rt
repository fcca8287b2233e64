ghost use Rattle.std.specs.Prelude.{◌≡◌, ◌<◌, ◌^◌, option_map};
ghost use Rattle.transfer_chunk.specs.Chunk.{lent_chunk};
ghost use Rattle.transfer_words.specs.Spoken.{HasSmallWindow, asked_size, ask_in, is_nothing, of_session, rest_after, spoken, status_by, with_ask, word_of};
ghost use Rattle.transfer_words.specs.Word.{lent_word, start, start_ack, confirmation, parameters, piece_word, completion};

use rpc_ids::Status;
use transfer_chunk::{Ask, ChunkRef, ChunkType};

/// What a chunk of a session says, apart from the session's number, with its data lent.
#[derive(Clone, Copy, Debug, PartialEq, Eq)]
pub enum WordRef<'a> {
    /// The client opens a session on a resource, from an offset on, in bytes.
    Start {
        resource: u32,
        offset: u64,
    },
    /// The service agrees to open it from this offset on.
    StartAck {
        offset: u64,
    },
    /// The client knows of that. Of a read it carries the first parameters; of a write all numbers are 0.
    Confirmation(Ask),
    /// What a receiver asks for.
    Parameters(Ask),
    /// A part of the resource.
    Data {
        /// Where it begins, in bytes.
        offset: u64,
        bytes: &'a [u8],
        /// Whether it ends where the resource ends.
        last: bool,
    },
    /// The session has ended so.
    Completion(Status),
    /// The end is known.
    CompletionAck,
}

impl<'a> WordRef<'a> {
    /// What a chunk says, or `None` where its type has a number that no type has. Without a status a completion says
    /// `Unknown`; a number that is missing is 0.
    pub fn of(chunk: &ChunkRef<'a>) -> Option<WordRef<'a>>
        ensures { option_map lent_word result ≡ word_of (lent_chunk chunk.now) }
    {
        let word = match chunk.chunk_type()? {
            ChunkType::Data => WordRef::Data {
                offset: chunk.offset,
                bytes: chunk.bytes,
                last: is_nothing(chunk.remaining),
            },
            ChunkType::Start => WordRef::Start {
                resource: chunk.resource.unwrap_or(0),
                offset: chunk.initial,
            },
            ChunkType::ParametersRetransmit => WordRef::Parameters(ask_in(chunk, true)),
            ChunkType::ParametersContinue => WordRef::Parameters(ask_in(chunk, false)),
            ChunkType::Completion => WordRef::Completion(status_by(chunk.status)),
            ChunkType::CompletionAck => WordRef::CompletionAck,
            ChunkType::StartAck => WordRef::StartAck {
                offset: chunk.initial,
            },
            ChunkType::StartAckConfirmation => WordRef::Confirmation(ask_in(chunk, true)),
        };
        Some(word)
    }

    /// The chunk that says the word in a session.
    pub fn chunk(self, session: u32) -> ChunkRef<'a>
        requires { HasSmallWindow (lent_word self) }
        ensures { lent_chunk result ≡ spoken session (lent_word self.entry) }
    {
        match self {
            WordRef::Start { resource, offset } => start(session, resource, offset),
            WordRef::StartAck { offset } => start_ack(session, offset),
            WordRef::Confirmation(ask) => confirmation(session, ask),
            WordRef::Parameters(ask) => parameters(session, ask),
            WordRef::Data {
                offset,
                bytes,
                last,
            } => data(session, offset, bytes, last),
            WordRef::Completion(status) => completion(session, status),
            WordRef::CompletionAck => of_session(ChunkType::CompletionAck, session),
        }
    }
}

fn start<'a>(session: u32, resource: u32, offset: u64) -> ChunkRef<'a>
    ensures { lent_chunk result ≡ spoken session (start resource offset) }
{
    ChunkRef {
        ctype: Some(ChunkType::Start.number()),
        resource: Some(resource),
        version: Some(2),
        desired: Some(session),
        initial: offset,
        ..ChunkRef::empty()
    }
}

fn start_ack<'a>(session: u32, offset: u64) -> ChunkRef<'a>
    ensures { lent_chunk result ≡ spoken session (start_ack offset) }
{
    ChunkRef {
        version: Some(2),
        initial: offset,
        ..of_session(ChunkType::StartAck, session)
    }
}

fn confirmation<'a>(session: u32, ask: Ask) -> ChunkRef<'a>
    requires { ask.window_end < 2 ^ 32 }
    ensures { lent_chunk result ≡ spoken session (confirmation ask) }
{
    ChunkRef {
        version: Some(2),
        ..asking(ChunkType::StartAckConfirmation, session, ask)
    }
}

fn parameters<'a>(session: u32, ask: Ask) -> ChunkRef<'a>
    requires { ask.window_end < 2 ^ 32 }
    ensures { lent_chunk result ≡ spoken session (parameters ask) }
{
    if ask.again {
        return asking(ChunkType::ParametersRetransmit, session, ask);
    }
    asking(ChunkType::ParametersContinue, session, ask)
}

fn data<'a>(session: u32, offset: u64, bytes: &'a [u8], last: bool) -> ChunkRef<'a>
    ensures { lent_chunk result ≡ spoken session (piece_word offset bytes.now last) }
{
    ChunkRef {
        offset,
        bytes,
        remaining: rest_after(last),
        ..of_session(ChunkType::Data, session)
    }
}

fn completion<'a>(session: u32, status: Status) -> ChunkRef<'a>
    ensures { lent_chunk result ≡ spoken session (completion status) }
{
    ChunkRef {
        status: Some(status.number()),
        ..of_session(ChunkType::Completion, session)
    }
}

// A chunk of this type that has nothing but its session.
fn of_session<'a>(chunk_type: ChunkType, session: u32) -> ChunkRef<'a>
    ensures { lent_chunk result ≡ of_session chunk_type session }
{
    ChunkRef {
        ctype: Some(chunk_type.number()),
        session: Some(session),
        ..ChunkRef::empty()
    }
}

// A chunk of this type that asks.
fn asking<'a>(chunk_type: ChunkType, session: u32, ask: Ask) -> ChunkRef<'a>
    requires { ask.window_end < 2 ^ 32 }
    ensures { lent_chunk result ≡ with_ask ask (of_session chunk_type session) }
{
    ChunkRef {
        offset: ask.offset,
        window_end: ask.window_end as u32,
        max_chunk: asked_size(ask.max_chunk),
        ..of_session(chunk_type, session)
    }
}

fn asked_size(size: u32) -> Option<u32>
    ensures { result ≡ asked_size size }
{
    if size == 0 {
        return None;
    }
    Some(size)
}

fn rest_after(last: bool) -> Option<u64>
    ensures { result ≡ rest_after last }
{
    if last {
        return Some(0);
    }
    None
}

// The ask in a chunk of parameters, or in a confirmation.
fn ask_in(chunk: &ChunkRef<'_>, again: bool) -> Ask
    ensures { result ≡ ask_in again (lent_chunk chunk.now) }
{
    Ask {
        again,
        offset: chunk.offset,
        window_end: u64::from(chunk.window_end),
        max_chunk: chunk.max_chunk.unwrap_or(0),
    }
}

// Whether nothing follows the data of a chunk.
fn is_nothing(remaining: Option<u64>) -> bool
    ensures { result ≡ is_nothing remaining }
{
    match remaining {
        Some(rest) => rest == 0,
        None => false,
    }
}

fn status_by(number: Option<u32>) -> Status
    ensures { result ≡ status_by number }
{
    match number {
        Some(number) => Status::of(number),
        None => Status::Unknown,
    }
}
