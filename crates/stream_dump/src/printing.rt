//! Lines are written word by word.
ghost use Rattle.std.specs.Prelude.{◌≡◌, ◌≤◌, false, length, OnOk};
ghost use Rattle.std.specs.Io.KnownBytes.{Appends};
ghost use Rattle.hex.specs.Hex.{encode_lower};
ghost use Rattle.link_io.specs.Causes.{HasCause};
ghost use Rattle.link_io.specs.Device.{AppendsSome};
ghost use Rattle.stream_dump.specs.Lines.{behind_blank, line, line_behind};
ghost use Rattle.stream_dump.specs.Words.{texts, word_text};

use crate::words::Word;
use itoa::Buffer;
use link_io::{Failed, Sink, write_whole};

// How many bytes are written as digits at once.
const DIGITS_PIECE: usize = 256;

// How many digits these have.
const MOST_DIGITS: usize = 512;

/// Writes a line of these words.
pub(crate) fn print_line<O: Sink>(output: &mut O, words: &[Word<'_, '_>]) -> Result<(), Failed>
    requires { O.finished output.old ≡ false }
    ensures whole { OnOk result (Appends (O.written output.old) (O.written output.new) (line (texts words.now))) }
    ensures begun { AppendsSome (O.written output.old) (O.written output.new) (line (texts words.now)) }
    ensures cause { HasCause (O.faults output.old) (O.faults output.new) result }
    ensures open { O.finished output.new ≡ false }
{
    let Some((first, rest)) = words.split_first() else {
        return write_whole(output, b"\n");
    };
    print_word(output, *first)?;
    print_rest(output, rest)
}

// Writes further words of a line, and its newline.
fn print_rest<O: Sink>(output: &mut O, words: &[Word<'_, '_>]) -> Result<(), Failed>
    requires { O.finished output.old ≡ false }
    ensures whole { OnOk result (Appends (O.written output.old) (O.written output.new) (line_behind (texts words.now))) }
    ensures begun { AppendsSome (O.written output.old) (O.written output.new) (line_behind (texts words.now)) }
    ensures cause { HasCause (O.faults output.old) (O.faults output.new) result }
    ensures open { O.finished output.new ≡ false }
{
    for word in words {
        print_behind_blank(output, *word)?;
    }
    write_whole(output, b"\n")
}

fn print_behind_blank<O: Sink>(output: &mut O, word: Word<'_, '_>) -> Result<(), Failed>
    requires { O.finished output.old ≡ false }
    ensures whole { OnOk result (Appends (O.written output.old) (O.written output.new) (behind_blank (word_text word.entry))) }
    ensures begun { AppendsSome (O.written output.old) (O.written output.new) (behind_blank (word_text word.entry)) }
    ensures cause { HasCause (O.faults output.old) (O.faults output.new) result }
    ensures open { O.finished output.new ≡ false }
{
    write_whole(output, b" ")?;
    print_word(output, word)
}

fn print_word<O: Sink>(output: &mut O, word: Word<'_, '_>) -> Result<(), Failed>
    requires { O.finished output.old ≡ false }
    ensures whole { OnOk result (Appends (O.written output.old) (O.written output.new) (word_text word.entry)) }
    ensures begun { AppendsSome (O.written output.old) (O.written output.new) (word_text word.entry) }
    ensures cause { HasCause (O.faults output.old) (O.faults output.new) result }
    ensures open { O.finished output.new ≡ false }
{
    match word {
        Word::Plain(text) => write_whole(output, text.as_bytes()),
        Word::Name(text) => write_whole(output, text),
        Word::Number(number) => write_whole(output, Buffer::new().format(number).as_bytes()),
        Word::Digits(bytes) => print_digits(output, bytes),
        Word::Id(id) => print_digits(output, &id.to_be_bytes()),
    }
}

// Writes bytes in hexadecimal digits, some at a time.
fn print_digits<O: Sink>(output: &mut O, bytes: &[u8]) -> Result<(), Failed>
    requires { O.finished output.old ≡ false }
    ensures whole { OnOk result (Appends (O.written output.old) (O.written output.new) (encode_lower bytes.now)) }
    ensures begun { AppendsSome (O.written output.old) (O.written output.new) (encode_lower bytes.now) }
    ensures cause { HasCause (O.faults output.old) (O.faults output.new) result }
    ensures open { O.finished output.new ≡ false }
{
    let mut done = 0;
    'pieces: while done < bytes.len() {
        let count = DIGITS_PIECE.min(bytes.len() - done);
        print_few_digits(output, &bytes[done..done + count])?;
        done += count;
    }
    Ok(())
}

fn print_few_digits<O: Sink>(output: &mut O, bytes: &[u8]) -> Result<(), Failed>
    requires few { length bytes.now ≤ DIGITS_PIECE }
    requires open { O.finished output.old ≡ false }
    ensures whole { OnOk result (Appends (O.written output.old) (O.written output.new) (encode_lower bytes.now)) }
    ensures begun { AppendsSome (O.written output.old) (O.written output.new) (encode_lower bytes.now) }
    ensures cause { HasCause (O.faults output.old) (O.faults output.new) result }
    ensures open { O.finished output.new ≡ false }
{
    let mut room = [0; MOST_DIGITS];
    let end = 2 * bytes.len();
    hex::encode_to_slice(bytes, &mut room[..end]).unwrap();
    write_whole(output, &room[..end])
}
