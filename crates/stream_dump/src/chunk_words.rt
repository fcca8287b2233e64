//! A chunk in words.
ghost use Rattle.std.specs.Prelude.{◌≡◌, ◌+◌, ◌≤◌, codes};
ghost use Rattle.arrayvec.specs.ArrayVec.{array_vec_len};
ghost use Rattle.transfer_chunk.specs.Chunk.{lent_chunk};
ghost use Rattle.stream_dump.specs.Chunks.{chunk_type_name, chunk_type_words, chunk_words, data_words, end_words, ended_words, fields_words, kept_words, number_words, opening_words, remaining_words, session_words, window_words};
ghost use Rattle.stream_dump.specs.Words.{Adds};

use crate::words::{MOST_WORDS, Word, Words, add};
use rpc_ids::Status;
use transfer_chunk::{ChunkRef, ChunkType};

/// Adds what a payload says as a chunk.
pub(crate) fn add_chunk<'a>(payload: &'a [u8], words: &mut Words<'_, 'a>)
    requires { array_vec_len words.old + 31 ≤ MOST_WORDS }
    ensures { Adds 31 words.old words.new (chunk_words payload.now) }
{
    match ChunkRef::read(payload) {
        Ok(chunk) => add_fields(&chunk, words),
        Err(malformed) => add(
            words,
            &[
                Word::Plain("chunk"),
                Word::Plain("malformed"),
                Word::Plain("at"),
                Word::Number(malformed.at as u64),
            ],
        ),
    }
}

fn add_fields<'a>(chunk: &ChunkRef<'a>, words: &mut Words<'_, 'a>)
    requires { array_vec_len words.old + 31 ≤ MOST_WORDS }
    ensures { Adds 31 words.old words.new (fields_words (lent_chunk chunk.now)) }
{
    add(words, &[Word::Plain("chunk")]);
    add_type(chunk, words);
    add_opening(chunk, words);
    add_data(chunk, words);
    add_window(chunk, words);
    add_end(chunk, words);
}

fn add_type<'a>(chunk: &ChunkRef<'a>, words: &mut Words<'_, 'a>)
    requires { array_vec_len words.old + 2 ≤ MOST_WORDS }
    ensures { Adds 2 words.old words.new (chunk_type_words chunk.now.ctype) }
{
    match chunk.chunk_type() {
        Some(ctype) => add(words, &[Word::Plain(type_name(ctype))]),
        None => add_kept("type", chunk.ctype, words),
    }
}

fn add_opening<'a>(chunk: &ChunkRef<'a>, words: &mut Words<'_, 'a>)
    requires { array_vec_len words.old + 10 ≤ MOST_WORDS }
    ensures { Adds 10 words.old words.new (opening_words (lent_chunk chunk.now)) }
{
    add_session(chunk.session, chunk.desired, words);
    add_kept("resource", widened(chunk.resource), words);
    add_kept("version", widened(chunk.version), words);
    add_number("initial", chunk.initial, words);
}

fn add_data<'a>(chunk: &ChunkRef<'a>, words: &mut Words<'_, 'a>)
    requires { array_vec_len words.old + 6 ≤ MOST_WORDS }
    ensures { Adds 6 words.old words.new (data_words (lent_chunk chunk.now)) }
{
    add_number("offset", chunk.offset, words);
    add_number("bytes", chunk.bytes.len() as u64, words);
    add_remaining(chunk.remaining, words);
}

fn add_window<'a>(chunk: &ChunkRef<'a>, words: &mut Words<'_, 'a>)
    requires { array_vec_len words.old + 8 ≤ MOST_WORDS }
    ensures { Adds 8 words.old words.new (window_words (lent_chunk chunk.now)) }
{
    add_number("window_end", u64::from(chunk.window_end), words);
    add_kept("max_chunk", widened(chunk.max_chunk), words);
    add_kept("pending", widened(chunk.pending), words);
    add_number("min_delay", u64::from(chunk.min_delay), words);
}

fn add_end<'a>(chunk: &ChunkRef<'a>, words: &mut Words<'_, 'a>)
    requires { array_vec_len words.old + 4 ≤ MOST_WORDS }
    ensures { Adds 4 words.old words.new (end_words (lent_chunk chunk.now)) }
{
    add_ended(chunk.status, words);
    add_number("transfer_id", u64::from(chunk.transfer_id), words);
}

fn add_session(session: Option<u32>, desired: Option<u32>, words: &mut Words<'_, '_>)
    requires { array_vec_len words.old + 4 ≤ MOST_WORDS }
    ensures { Adds 4 words.old words.new (session_words session desired) }
{
    match session {
        None => add_kept("session", widened(desired), words),
        Some(session) => {
            add_kept("session", Some(u64::from(session)), words);
            add_kept("desired", widened(desired), words);
        }
    }
}

fn add_remaining(remaining: Option<u64>, words: &mut Words<'_, '_>)
    requires { array_vec_len words.old + 2 ≤ MOST_WORDS }
    ensures { Adds 2 words.old words.new (remaining_words remaining) }
{
    match remaining {
        Some(0) => add(words, &[Word::Plain("last")]),
        _ => add_kept("remaining", remaining, words),
    }
}

fn add_ended(status: Option<u32>, words: &mut Words<'_, '_>)
    requires { array_vec_len words.old + 2 ≤ MOST_WORDS }
    ensures { Adds 2 words.old words.new (ended_words status) }
{
    match status {
        None => {}
        Some(number) => add(
            words,
            &[
                Word::Plain("status"),
                Word::Plain(Status::of(number).name()),
            ],
        ),
    }
}

// A number behind its word, where it is there.
fn add_kept(word: &'static str, number: Option<u64>, words: &mut Words<'_, '_>)
    requires { array_vec_len words.old + 2 ≤ MOST_WORDS }
    ensures { Adds 2 words.old words.new (kept_words word.now number) }
{
    match number {
        None => {}
        Some(number) => add(words, &[Word::Plain(word), Word::Number(number)]),
    }
}

// A number behind its word, where it isn't 0.
fn add_number(word: &'static str, number: u64, words: &mut Words<'_, '_>)
    requires { array_vec_len words.old + 2 ≤ MOST_WORDS }
    ensures { Adds 2 words.old words.new (number_words word.now number) }
{
    if number != 0 {
        add(words, &[Word::Plain(word), Word::Number(number)]);
    }
}

fn widened(number: Option<u32>) -> Option<u64>
    ensures { result ≡ number }
{
    match number {
        Some(number) => Some(u64::from(number)),
        None => None,
    }
}

fn type_name(ctype: ChunkType) -> &'static str
    ensures { result.now ≡ chunk_type_name ctype }
{
    match ctype {
        ChunkType::Data => "DATA",
        ChunkType::Start => "START",
        ChunkType::ParametersRetransmit => "PARAMETERS_RETRANSMIT",
        ChunkType::ParametersContinue => "PARAMETERS_CONTINUE",
        ChunkType::Completion => "COMPLETION",
        ChunkType::CompletionAck => "COMPLETION_ACK",
        ChunkType::StartAck => "START_ACK",
        ChunkType::StartAckConfirmation => "START_ACK_CONFIRMATION",
    }
}
