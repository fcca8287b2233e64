//! What is found in a segment, in words.
ghost use Rattle.std.specs.Prelude.{◌≡◌, ◌+◌, ◌≤◌, ◌∷◌};
ghost use Rattle.std.specs.Fmt.{decimal};
ghost use Rattle.arrayvec.specs.ArrayVec.{array_vec_len};
ghost use Rattle.hdlc_frame.specs.Lent.{found_of, parts_of};
ghost use Rattle.stream_dump.specs.Dump.{bad_name, found_words, frame_words};
ghost use Rattle.stream_dump.specs.Names.{names_of};
ghost use Rattle.stream_dump.specs.Words.{Adds};

use crate::counting::is_handled;
use crate::names::MethodName;
use crate::packet_words::add_packet;
use crate::words::{MOST_WORDS, Word, Words, add};
use hdlc_frame::{Bad, Frame, Got};

/// Adds what is found in a segment of `len` bytes.
pub(crate) fn add_found<'n, 'a>(
    names: &[MethodName<'n>],
    len: u64,
    got: Got<'a>,
    words: &mut Words<'n, 'a>,
)
    requires { array_vec_len words.old + 42 ≤ MOST_WORDS }
    ensures { Adds 42 words.old words.new (found_words (names_of names.now) len (found_of got.entry)) }
{
    match got {
        Got::Bad(bad) => {
            let fault = Word::Plain(bad_name(bad));
            add(words, &[Word::Plain("bad"), fault, Word::Number(len)]);
        }
        Got::Frame(frame) => {
            let address = Word::Number(u64::from(frame.address));
            add(words, &[Word::Plain("frame"), address, Word::Number(len)]);
            add_frame(names, &frame, words);
        }
    }
}

// What a frame says.
fn add_frame<'n, 'a>(names: &[MethodName<'n>], frame: &Frame<'a>, words: &mut Words<'n, 'a>)
    requires { array_vec_len words.old + 39 ≤ MOST_WORDS }
    ensures { Adds 39 words.old words.new (frame_words (names_of names.now) (parts_of frame.now)) }
{
    if is_handled(frame) {
        add_packet(names, frame.payload, words);
    } else {
        add(words, &[Word::Plain("other")]);
    }
}

fn bad_name(bad: Bad) -> &'static str
    ensures { result.now ≡ bad_name bad }
{
    match bad {
        Bad::Escape => "Escape",
        Bad::Long => "Long",
        Bad::Short => "Short",
        Bad::Check => "Check",
        Bad::Address => "Address",
    }
}
