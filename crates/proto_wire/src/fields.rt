//! The fields of a message, one after another.
ghost use Rattle.std.specs.Prelude.{◌≡◌, false};
ghost use Rattle.proto_wire.specs.Message.{fields_of};
ghost use Rattle.proto_wire.specs.Reading.{Reading, unread};

use crate::field::Field;
use crate::reader::read_field;
use std::marker::Model;
use thiserror::Error;

/// The offset where no field can be read, in bytes from the start of the message.
#[derive(Clone, Copy, Debug, PartialEq, Eq, Error)]
#[error("malformed message at byte {at}")]
pub struct Malformed {
    pub at: usize,
}

/// The fields of a message in order, read in place. Reading takes no memory.
///
/// A field is a tag and a value (Protocol Buffers encoding, "Message Structure"). A tag is a varint below 2^32,
/// `number * 8 + wire type`, with a number of at least 1. A varint has at most ten bytes and a value below 2^64, and
/// needn't be the shortest spelling. The wire types 0, 1, 2 and 5 are read. The group types 3 and 4 aren't, nor are 6
/// and 7. Where no field can be read, `next` gives `Malformed` once, and `None` from then on.
#[derive(Debug, Drop)]
pub struct Fields<'a> {
    bytes: &'a [u8],
    at: usize,
    failed: bool,
}

impl<'a> Model for Fields<'a> {
    ghost use Rattle.std.specs.Prelude.{◌≤◌, drop, length};
    ghost use Rattle.proto_wire.specs.Reading.{Reading};

    ghost Value = { Reading };

    ghost view = { λ f. record { left = drop f.at f.bytes.now; at = f.at; failed = f.failed } };

    ghost invariant = { λ f. f.at ≤ length f.bytes.now };
}

impl<'a> Fields<'a> {
    /// The fields of the message in these bytes.
    #[tactic(auto, unfolding(crate::specs::Reading::unread))]
    pub fn new(bytes: &'a [u8]) -> Fields<'a>
        ensures start { result ≡ record { left = bytes.now; at = 0; failed = false } }
        ensures unread { unread result ≡ fields_of bytes.now }
    {
        Fields {
            bytes,
            at: 0,
            failed: false,
        }
    }

    /// The offset at which the next field begins, or after a `Malformed` that one's.
    pub fn at(&self) -> usize
        ensures { result ≡ self.now.at }
    {
        self.at
    }
}

impl<'a> Iterator for Fields<'a> {
    ghost use Rattle.std.specs.Prelude.{◌+◌, if◌then◌else◌, length};
    ghost use Rattle.std.specs.Iterator.{at_most};
    ghost use Rattle.proto_wire.specs.Gives.{Gives};

    type Item = Result<Field<'a>, Malformed>;

    ghost next_gives = { Gives };

    ghost remaining = { λ s. at_most (if s.failed then 0 else length s.left + 1) };

    fn next(&mut self) -> Option<Result<Field<'a>, Malformed>> {
        let (_, left) = self.bytes.split_at(self.at);
        if self.failed || left.is_empty() {
            return None;
        }
        match read_field(left) {
            Some((field, rest)) => {
                self.at = self.bytes.len() - rest.len();
                Some(Ok(field))
            }
            None => {
                self.failed = true;
                Some(Err(Malformed { at: self.at }))
            }
        }
    }
}
