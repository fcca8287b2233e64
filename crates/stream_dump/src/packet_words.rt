//! A packet in words.
ghost use Rattle.std.specs.Prelude.{◌≡◌, ◌+◌, ◌≤◌};
ghost use Rattle.arrayvec.specs.ArrayVec.{array_vec_len};
ghost use Rattle.rpc_packet.specs.Message.{lent_message};
ghost use Rattle.stream_dump.specs.Names.{names_of};
ghost use Rattle.stream_dump.specs.Packets.{call_words, content_words, digits_words, has_status, is_stream, is_transfer, message_words, packet_words, payload_words, status_words, type_name, type_words};
ghost use Rattle.stream_dump.specs.Words.{Adds};

use crate::chunk_words::add_chunk;
use crate::ids::{READ, TRANSFER, WRITE};
use crate::names::{MethodName, method_word, service_word};
use crate::words::{MOST_WORDS, Word, Words, add};
use rpc_ids::Status;
use rpc_packet::{CallName, PacketRef, PacketType};

/// Adds what the payload of a frame says as a packet.
pub(crate) fn add_packet<'n, 'a>(
    names: &[MethodName<'n>],
    payload: &'a [u8],
    words: &mut Words<'n, 'a>,
)
    requires { array_vec_len words.old + 39 ≤ MOST_WORDS }
    ensures { Adds 39 words.old words.new (packet_words (names_of names.now) payload.now) }
{
    match PacketRef::read(payload) {
        Ok(packet) => add_message(names, &packet, words),
        Err(malformed) => add(
            words,
            &[
                Word::Plain("packet"),
                Word::Plain("malformed"),
                Word::Plain("at"),
                Word::Number(malformed.at as u64),
            ],
        ),
    }
}

fn add_message<'n, 'a>(names: &[MethodName<'n>], packet: &PacketRef<'a>, words: &mut Words<'n, 'a>)
    requires { array_vec_len words.old + 39 ≤ MOST_WORDS }
    ensures { Adds 39 words.old words.new (message_words (names_of names.now) (lent_message packet.now)) }
{
    add_type(packet.ptype, words);
    add_call(names, packet.name, words);
    add_status(packet, words);
    add_content(packet, words);
}

fn add_type(number: u64, words: &mut Words<'_, '_>)
    requires { array_vec_len words.old + 2 ≤ MOST_WORDS }
    ensures { Adds 2 words.old words.new (type_words number) }
{
    match PacketType::of(number) {
        Some(ptype) => add(words, &[Word::Plain(type_name(ptype))]),
        None => add(words, &[Word::Plain("type"), Word::Number(number)]),
    }
}

fn add_call<'n>(names: &[MethodName<'n>], called: CallName, words: &mut Words<'n, '_>)
    requires { array_vec_len words.old + 4 ≤ MOST_WORDS }
    ensures { Adds 4 words.old words.new (call_words (names_of names.now) called) }
{
    let service = service_word(names, called.service);
    let method = method_word(names, called.service, called.method);
    add(
        words,
        &[
            Word::Number(u64::from(called.channel)),
            service,
            method,
            Word::Number(u64::from(called.call)),
        ],
    );
}

fn add_status<'a>(packet: &PacketRef<'a>, words: &mut Words<'_, 'a>)
    requires { array_vec_len words.old + 2 ≤ MOST_WORDS }
    ensures { Adds 2 words.old words.new (status_words (lent_message packet.now)) }
{
    if has_status(PacketType::of(packet.ptype)) {
        add(
            words,
            &[
                Word::Plain("status"),
                Word::Plain(Status::of(packet.status).name()),
            ],
        );
    }
}

fn add_content<'a>(packet: &PacketRef<'a>, words: &mut Words<'_, 'a>)
    requires { array_vec_len words.old + 31 ≤ MOST_WORDS }
    ensures { Adds 31 words.old words.new (content_words (lent_message packet.now)) }
{
    if is_stream(PacketType::of(packet.ptype)) && is_transfer(packet.name) {
        add_chunk(packet.payload, words);
    } else {
        add_payload(packet.payload, words);
    }
}

fn add_payload<'a>(payload: &'a [u8], words: &mut Words<'_, 'a>)
    requires { array_vec_len words.old + 3 ≤ MOST_WORDS }
    ensures { Adds 3 words.old words.new (payload_words payload.now) }
{
    let len = payload.len() as u64;
    add(words, &[Word::Plain("payload"), Word::Number(len)]);
    if !payload.is_empty() {
        add(words, &[Word::Digits(payload)]);
    }
}

// Whether a packet of this type ends a call or refuses one.
fn has_status(ptype: Option<PacketType>) -> bool
    ensures { result ≡ has_status ptype }
{
    match ptype {
        Some(PacketType::Response | PacketType::ClientError | PacketType::ServerError) => true,
        _ => false,
    }
}

// Whether a packet of this type has a message of a stream.
fn is_stream(ptype: Option<PacketType>) -> bool
    ensures { result ≡ is_stream ptype }
{
    match ptype {
        Some(PacketType::ClientStream | PacketType::ServerStream) => true,
        _ => false,
    }
}

fn is_transfer(called: CallName) -> bool
    ensures { result ≡ is_transfer called }
{
    called.service == TRANSFER && (called.method == READ || called.method == WRITE)
}

fn type_name(ptype: PacketType) -> &'static str
    ensures { result.now ≡ type_name ptype }
{
    match ptype {
        PacketType::Request => "request",
        PacketType::Response => "response",
        PacketType::ClientStream => "client_stream",
        PacketType::ClientError => "client_error",
        PacketType::ServerError => "server_error",
        PacketType::ServerStream => "server_stream",
        PacketType::Completion => "client_request_completion",
    }
}
