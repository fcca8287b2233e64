// Words as bytes, and bytes as words.
use rpc_handlers::{Out, Outs};
use rpc_ids::Status;
use std::alloc::Global;
use std::process::Abort;
use transfer_chunk::{Ask, ChunkRef};
use transfer_words::{WordRef, say, text_of};

const ASK: Ask = Ask {
    again: true,
    offset: 768,
    window_end: 1_792,
    max_chunk: 256,
};

const WORDS: &[(WordRef<'static>, &[u8])] = &[
    (
        WordRef::Start {
            resource: 7,
            offset: 0,
        },
        &[0x50, 0x01, 0x58, 0x07, 0x68, 0x02, 0x70, 0x01],
    ),
    (
        WordRef::StartAck { offset: 300 },
        &[0x50, 0x06, 0x60, 0x01, 0x68, 0x02, 0x78, 0xac, 0x02],
    ),
    (
        WordRef::Parameters(ASK),
        &[
            0x18, 0x80, 0x02, 0x28, 0x80, 0x06, 0x48, 0x80, 0x0e, 0x50, 0x02, 0x60, 0x01,
        ],
    ),
    (
        WordRef::Data {
            offset: 0,
            bytes: b"hi",
            last: true,
        },
        &[0x32, 0x02, 0x68, 0x69, 0x38, 0x00, 0x50, 0x00, 0x60, 0x01],
    ),
    (
        WordRef::Completion(Status::NotFound),
        &[0x40, 0x05, 0x50, 0x04, 0x60, 0x01],
    ),
    (WordRef::CompletionAck, &[0x50, 0x05, 0x60, 0x01]),
];

fn is_written(rt: &impl Abort, alloc: Global, word: WordRef<'_>, bytes: &[u8]) {
    assert!(rt; is_written_so(alloc, word, bytes));
}

#[test]
fn words_are_written_and_read(rt: HostRuntime) {
    for (word, bytes) in WORDS {
        is_written(&rt, rt.alloc(), *word, bytes);
    }
}

fn is_written_so(alloc: Global, word: WordRef<'_>, bytes: &[u8]) -> bool {
    if let WordRef::Parameters(ask) = word {
        if ask.window_end > 4_294_967_295 {
            return false;
        }
    }
    if let WordRef::Confirmation(ask) = word {
        if ask.window_end > 4_294_967_295 {
            return false;
        }
    }
    let Ok(text) = text_of(alloc, 1, word) else {
        return false;
    };
    match ChunkRef::read(text.as_slice()) {
        Ok(chunk) => text.as_slice() == bytes && WordRef::of(&chunk) == Some(word),
        Err(_) => false,
    }
}

#[test]
fn a_word_is_said_behind_the_others(rt: HostRuntime) {
    let mut outs = Outs::new(rt.alloc());
    assert!(rt; outs.push(Out::Leave { session: 1 }).is_ok());
    assert!(rt; say(rt.alloc(), &mut outs, 1, WordRef::CompletionAck).is_ok());
    assert_eq!(rt; outs.as_slice().len(), 2);
}
