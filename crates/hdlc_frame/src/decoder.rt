//! The decoder with a buffer of its own.

use crate::closed::Closed;
use crate::found::{Got, Pushed};
use crate::judge::judge;
use crate::machine::Machine;
use std::alloc::{AllocError, Global};
use std::marker::Model;

/// Reads a stream in pieces. It keeps at most `limit` octets, the content of the segment that is open, whatever comes.
#[derive(Drop)]
pub struct Decoder {
    machine: Machine,
    buffer: Vec<u8>,
}

impl Model for Decoder {
    ghost use Rattle.std.specs.Prelude.{◌≤◌, length};
    ghost use Rattle.hdlc_frame.specs.Machine.{Reading, reading_at};

    ghost Value = { Reading };

    ghost view = { λ d. reading_at d.machine d.buffer.items };

    ghost invariant = { λ d. d.machine.len ≤ length d.buffer.items };
}

impl Decoder {
    ghost use Rattle.std.specs.Prelude.{◌≡◌, ◌<◌, ◌≤◌, ◌++◌, [], ℕ, List, length, take, IfOk, IsNone};
    ghost use Rattle.std.specs.Borrow.{sem};
    ghost use Rattle.hdlc_frame.specs.Found.{found};
    ghost use Rattle.hdlc_frame.specs.Machine.{HasRead};
    ghost use Rattle.hdlc_frame.specs.Lent.{found_in_got};
    ghost use Rattle.hdlc_frame.specs.Pushed.{Leaves};
    ghost use Rattle.hdlc_frame.specs.Steps.{IsWithin, Moves, closed_found};

    /// A decoder that has read nothing, for contents of at most `limit` octets (6 to 8,192). It takes its buffer of
    /// `limit` bytes here, and no memory later.
    pub fn new(alloc: Global, limit: usize) -> Result<Decoder, AllocError>
        requires least { 6 ≤ limit }
        requires most { limit ≤ 8192 }
        ensures limit { IfOk result (λ decoder. decoder.limit ≡ limit) }
        ensures read { IfOk result (λ decoder. HasRead decoder []) }
    {
        let buffer = vec![in alloc; 0; limit]?;
        Ok(Decoder {
            machine: Machine::new(),
            buffer,
        })
    }

    /// Takes bytes up to and with the first flag that ends a segment, else the whole piece. It takes no memory.
    ///
    /// A segment is the text between two consecutive flags, if it isn't empty. Its frame is lent from `piece` where the
    /// segment lies in it whole with no escape, else from the decoder's buffer.
    pub fn push<'a>(&'a mut self, piece: &'a [u8]) -> Pushed<'a>
        ensures taken { result.taken ≤ length piece.now }
        ensures whole { IsNone result.got → result.taken ≡ length piece.now }
        ensures progress { 0 < length piece.now → 0 < result.taken }
        ensures gives { (stream : List ℕ) → HasRead self.old stream → found self.old.limit (stream ++ take result.taken piece.now) ≡ found self.old.limit stream ++ found_in_got result.got }
        ensures first { (stream : List ℕ) → HasRead self.old stream → (n : ℕ) → n < result.taken → found self.old.limit (stream ++ take n piece.now) ≡ found self.old.limit stream }
        ensures* state { sem 𝓛 (Leaves self.entry piece.now result) }
    {
        let (taken, closed) = self.feed(piece);
        let got = self.lend(piece, closed);
        Pushed { taken, got }
    }

    // Reads up to the first flag that ends a segment, else the whole piece. Answers how far it came.
    fn feed(&mut self, piece: &[u8]) -> (usize, Closed)
        ensures taken { result.0 ≤ length piece.now }
        ensures whole { result.1 ≡ Closed.Open → result.0 ≡ length piece.now }
        ensures progress { 0 < length piece.now → 0 < result.0 }
        ensures within { IsWithin piece.now result.1 }
        ensures moves { Moves self.old self.new (take result.0 piece.now) (closed_found self.new piece.now result.1) }
    {
        self.machine.feed(&mut self.buffer, piece)
    }

    // What the segment carries that has just ended.
    fn lend<'a>(&'a self, piece: &'a [u8], closed: Closed) -> Option<Got<'a>>
        requires { IsWithin piece.now closed }
        ensures { found_in_got result ≡ closed_found self.now piece.now closed }
    {
        let limit = self.buffer.len();
        match closed {
            Closed::Open => None,
            Closed::Faulty(bad) => Some(Got::Bad(bad)),
            Closed::Kept => Some(judge(&self.buffer[..self.machine.len], limit)),
            Closed::Whole(from, to) => Some(judge(&piece[from..to], limit)),
        }
    }
}
