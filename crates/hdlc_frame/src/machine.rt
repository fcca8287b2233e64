//! The machine of a decoder: it reads runs of ordinary octets and the flags and escapes between them, and keeps a
//! segment's content in a buffer that it is handed at each push.

ghost use Rattle.std.specs.Prelude.{◌≡◌, ◌+◌, ◌<◌, ◌≤◌, ◌++◌, [], ℕ, List, length, take, slice_index, slice_range, IsNone, IsTrue, ◌↔◌, false};
ghost use Rattle.hdlc_frame.specs.Found.{found};
ghost use Rattle.hdlc_frame.specs.Machine.{HasRead, reading_at};
ghost use Rattle.hdlc_frame.specs.Steps.{EndsText, IsWithin, Moves, after_escape, after_run, begun, closed_by, closed_found, keeping};
ghost use Rattle.hdlc_frame.specs.Told.{LiesWithin, found_told};
ghost use Rattle.hdlc_frame.specs.declared.phase.Phase.TheVariants.{Escaped, Start};

use crate::closed::Closed;
use crate::found::Bad;
use crate::judge::judge_at;
use crate::octets::{ESCAPE, ESCAPE_BIT, ordinary_len};
use crate::phase::Phase;
use crate::told::{Place, Segment, Told};
use crate::unescape::unescape;

/// A decoder that has no buffer of its own. What it keeps of the open segment lies in its caller's buffer, whose length
/// is the limit of a content: hand in the same buffer at each push, and leave it as it is in between.
///
/// Any values of the fields are safe: a `len` past the buffer counts as the buffer's length. Where no stream leads to them,
/// what is told is a frame or a fault of no stream.
#[derive(Clone, Copy, Debug, PartialEq, Eq)]
pub struct Machine {
    pub phase: Phase,
    /// Whether the open segment's content is longer than the buffer.
    pub is_long: bool,
    /// How many octets of that content stand in the buffer.
    pub len: usize,
}

impl Machine {
    /// A machine that has read nothing.
    pub fn new() -> Machine
        ensures empty { result.len ≡ 0 }
        ensures read { (buffer : List ℕ) → HasRead (reading_at result buffer) [] }
    {
        Machine {
            phase: Phase::Outside,
            is_long: false,
            len: 0,
        }
    }

    /// Takes bytes up to and with the first flag that ends a segment, else the whole piece. It takes no memory.
    ///
    /// A segment is the text between two consecutive flags, if it isn't empty. Its frame's payload lies in `piece` where
    /// the segment lies in it whole with no escape, else in `buffer`, until the next push.
    pub fn push(&mut self, buffer: &mut [u8], piece: &[u8]) -> Told
        ensures taken { result.taken ≤ length piece.now }
        ensures whole { IsNone result.segment → result.taken ≡ length piece.now }
        ensures progress { 0 < length piece.now → 0 < result.taken }
        ensures inside { LiesWithin result.segment buffer.new piece.now }
        ensures read { (stream : List ℕ) → HasRead (reading_at self.old buffer.old) stream → HasRead (reading_at self.new buffer.new) (stream ++ take result.taken piece.now) }
        ensures gives { (stream : List ℕ) → HasRead (reading_at self.old buffer.old) stream → found (length buffer.old) (stream ++ take result.taken piece.now) ≡ found (length buffer.old) stream ++ found_told result.segment buffer.new piece.now }
        ensures first { (stream : List ℕ) → HasRead (reading_at self.old buffer.old) stream → (n : ℕ) → n < result.taken → found (length buffer.old) (stream ++ take n piece.now) ≡ found (length buffer.old) stream }
    {
        self.len = self.len.min(buffer.len());
        let (taken, closed) = self.feed(buffer, piece);
        let segment = self.tell(buffer, piece, closed);
        Told { taken, segment }
    }

    // What the segment carries that has just ended.
    fn tell(&self, buffer: &[u8], piece: &[u8], closed: Closed) -> Option<Segment>
        requires kept { self.now.len ≤ length buffer.now }
        requires within { IsWithin piece.now closed }
        ensures inside { LiesWithin result buffer.now piece.now }
        ensures told { found_told result buffer.now piece.now ≡ closed_found (reading_at self.now buffer.now) piece.now closed }
    {
        let limit = buffer.len();
        match closed {
            Closed::Open => None,
            Closed::Faulty(bad) => Some(Segment::Bad(bad)),
            Closed::Kept => {
                let content = &buffer[..self.len];
                Some(judge_at(content, limit, Place::Buffer, self.len))
            }
            Closed::Whole(from, to) => Some(judge_at(&piece[from..to], limit, Place::Piece, to)),
        }
    }

    // Adds octets to the content, as far as the buffer has room.
    fn keep(&mut self, buffer: &mut [u8], octets: &[u8])
        requires { self.old.len ≤ length buffer.old }
        ensures within { self.new.len ≤ length buffer.new }
        ensures kept { reading_at self.new buffer.new ≡ keeping (reading_at self.old buffer.old) octets.now }
    {
        let room = buffer.len() - self.len;
        let n = octets.len().min(room);
        let end = self.len + n;
        buffer[self.len..end].copy_from_slice(&octets[..n]);
        self.is_long |= octets.len() > room;
        self.len = end;
    }

    // Begins a segment's text.
    fn begin(&mut self)
        ensures empty { self.new.len ≡ 0 }
        ensures begun { (buffer : List ℕ) → reading_at self.new buffer ≡ begun (reading_at self.old buffer) }
    {
        self.len = 0;
        self.is_long = false;
        self.phase = Phase::Plain;
    }

    // Reads octets with no flag and no escape among them.
    #[inline(always)]
    fn read_run(&mut self, buffer: &mut [u8], run: &[u8])
        requires { self.old.len ≤ length buffer.old }
        ensures within { self.new.len ≤ length buffer.new }
        ensures read { reading_at self.new buffer.new ≡ after_run (reading_at self.old buffer.old) run.now }
    {
        if !run.is_empty() {
            self.read_octets(buffer, run);
        }
    }

    fn read_octets(&mut self, buffer: &mut [u8], run: &[u8])
        requires { self.old.len ≤ length buffer.old }
        ensures within { self.new.len ≤ length buffer.new }
        ensures read { reading_at self.new buffer.new ≡ after_run (reading_at self.old buffer.old) run.now }
    {
        let Some((first, rest)) = run.split_first() else {
            return;
        };
        match self.phase {
            Phase::Outside | Phase::Broken => {}
            Phase::Start => {
                self.begin();
                self.keep(buffer, run);
            }
            Phase::Plain => self.keep(buffer, run),
            Phase::Escaped => {
                self.keep(buffer, &[*first ^ ESCAPE_BIT]);
                self.phase = Phase::Plain;
                self.keep(buffer, rest);
            }
        }
    }

    fn is_at_start(&self) -> bool
        ensures { IsTrue result ↔ (self.now.phase ≡ Start) }
    {
        matches!(self.phase, Phase::Start)
    }

    // Reads an escape.
    fn read_escape(&mut self)
        ensures within { self.new.len ≤ self.old.len }
        ensures read { (buffer : List ℕ) → reading_at self.new buffer ≡ after_escape (reading_at self.old buffer) }
    {
        match self.phase {
            Phase::Outside | Phase::Broken => {}
            Phase::Start => {
                self.begin();
                self.phase = Phase::Escaped;
            }
            Phase::Plain => self.phase = Phase::Escaped,
            Phase::Escaped => self.phase = Phase::Broken,
        }
    }

    // Reads a flag. Answers how the segment stands that it ends.
    fn read_flag(&mut self) -> Closed
        ensures after { self.new ≡ record self.old { phase = Start } }
        ensures closed { result ≡ closed_by self.old.phase self.old.is_long }
    {
        let closed = match self.phase {
            Phase::Outside | Phase::Start => Closed::Open,
            Phase::Plain => {
                if self.is_long {
                    Closed::Faulty(Bad::Long)
                } else {
                    Closed::Kept
                }
            }
            Phase::Escaped | Phase::Broken => Closed::Faulty(Bad::Escape),
        };
        self.phase = Phase::Start;
        closed
    }

    fn is_behind_escape(&self) -> bool
        ensures { IsTrue result ↔ ((self.now.phase ≡ Escaped) × (self.now.is_long ≡ false)) }
    {
        matches!(self.phase, Phase::Escaped) && !self.is_long
    }

    // Behind an escape of a content that isn't too long, reads text as far as the buffer has room for as many octets, up to a flag or
    // an escape behind another. Answers how many octets it read.
    #[inline(always)]
    fn read_text(&mut self, buffer: &mut [u8], octets: &[u8]) -> usize
        requires { self.old.len ≤ length buffer.old }
        ensures kept { self.new.len ≤ length buffer.new }
        ensures within { result ≤ length octets.now }
        ensures stop { self.old.phase ≡ Escaped → self.old.is_long ≡ false → self.old.len + result < length buffer.old → result < length octets.now → EndsText (slice_index octets.now result) self.new.phase }
        ensures moves { Moves (reading_at self.old buffer.old) (reading_at self.new buffer.new) (take result octets.now) [] }
    {
        if !self.is_behind_escape() {
            return 0;
        }
        self.read_escaped(buffer, octets)
    }

    fn read_escaped(&mut self, buffer: &mut [u8], octets: &[u8]) -> usize
        requires kept { self.old.len ≤ length buffer.old }
        requires phase { self.old.phase ≡ Escaped }
        requires short { self.old.is_long ≡ false }
        ensures kept { self.new.len ≤ length buffer.new }
        ensures within { result ≤ length octets.now }
        ensures stop { self.old.len + result < length buffer.old → result < length octets.now → EndsText (slice_index octets.now result) self.new.phase }
        ensures moves { Moves (reading_at self.old buffer.old) (reading_at self.new buffer.new) (take result octets.now) [] }
    {
        let room = buffer.len() - self.len;
        let part = &octets[..octets.len().min(room)];
        let (read, end, is_behind) = unescape(buffer, self.len, part);
        self.len = end;
        self.phase = Phase::in_text(is_behind);
        read
    }

    // Reads ordinary octets from `at` on, and the flag or escape behind them. Answers how far it came.
    fn step(&mut self, buffer: &mut [u8], piece: &[u8], at: usize) -> (usize, Closed)
        requires at { at < length piece.now }
        requires room { self.old.len ≤ length buffer.old }
        ensures kept { self.new.len ≤ length buffer.new }
        ensures further { at < result.0 }
        ensures taken { result.0 ≤ length piece.now }
        ensures within { IsWithin piece.now result.1 }
        ensures moves { Moves (reading_at self.old buffer.old) (reading_at self.new buffer.new) (slice_range piece.now at result.0) (closed_found (reading_at self.new buffer.new) piece.now result.1) }
    {
        let rest = &piece[at..];
        let n = ordinary_len(rest);
        let run = &rest[..n];
        if n == rest.len() {
            self.read_run(buffer, run);
            return (piece.len(), Closed::Open);
        }
        let end = at + n + 1;
        if rest[n] == ESCAPE {
            self.read_run(buffer, run);
            self.read_escape();
            return (end + self.read_text(buffer, &piece[end..]), Closed::Open);
        }
        if n > 0 && self.is_at_start() {
            return (end, Closed::Whole(at, at + n));
        }
        self.read_run(buffer, run);
        (end, self.read_flag())
    }

    /// Reads up to the first flag that ends a segment, else the whole piece. Answers how far it came.
    pub(crate) fn feed(&mut self, buffer: &mut [u8], piece: &[u8]) -> (usize, Closed)
        requires { self.old.len ≤ length buffer.old }
        ensures kept { self.new.len ≤ length buffer.new }
        ensures taken { result.0 ≤ length piece.now }
        ensures whole { result.1 ≡ Closed.Open → result.0 ≡ length piece.now }
        ensures progress { 0 < length piece.now → 0 < result.0 }
        ensures within { IsWithin piece.now result.1 }
        ensures moves { Moves (reading_at self.old buffer.old) (reading_at self.new buffer.new) (take result.0 piece.now) (closed_found (reading_at self.new buffer.new) piece.now result.1) }
    {
        let mut at = self.read_text(buffer, piece);
        while at < piece.len() {
            let (end, closed) = self.step(buffer, piece, at);
            match closed {
                Closed::Open => at = end,
                _ => return (end, closed),
            }
        }
        (at, Closed::Open)
    }
}
