//! The words of a line, gathered before any of them is written.
ghost use Rattle.std.specs.Prelude.{◌+◌, ◌≤◌, length};
ghost use Rattle.arrayvec.specs.ArrayVec.{array_vec_len};
ghost use Rattle.stream_dump.specs.Words.{Adds, texts};

use arrayvec::ArrayVec;

/// A word of a line. It takes no memory: names and bytes are lent.
#[derive(Clone, Copy)]
pub(crate) enum Word<'n, 'a> {
    /// A word of the text's own.
    Plain(&'static str),
    /// The name of a service or a method.
    Name(&'n [u8]),
    /// A number in decimal digits.
    Number(u64),
    /// Bytes, in two hexadecimal digits each.
    Digits(&'a [u8]),
    /// An id, in eight hexadecimal digits.
    Id(u32),
}

impl Default for Word<'_, '_> {
    fn default() -> Self {
        Word::Number(0)
    }
}

/// The most words of a line.
pub(crate) const MOST_WORDS: usize = 48;

/// The words of a line.
pub(crate) type Words<'n, 'a> = ArrayVec<Word<'n, 'a>, MOST_WORDS>;

/// Adds these words.
pub(crate) fn add<'n, 'a>(words: &mut Words<'n, 'a>, more: &[Word<'n, 'a>])
    requires { array_vec_len words.old + length more.now ≤ MOST_WORDS }
    ensures { Adds (length more.now) words.old words.new (texts more.now) }
{
    for word in more {
        words.push(*word);
    }
}
