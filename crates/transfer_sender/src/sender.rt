ghost use Rattle.std.specs.Prelude.{◌≡◌, ◌+◌, ◌<◌, ◌≤◌, ◌⊎◌, ◌↔◌, IsTrue, IsSome, false, length, None, Some, [], ◌∷◌, IfOk, IfSome, OnOk, OnErr};
ghost use Rattle.transfer_base.specs.Deadline.{deadline_after};
ghost use Rattle.transfer_base.specs.PieceLists.{BeginsAt, end_of};
ghost use Rattle.transfer_sender.specs.Answer.{answer_to, pieces_for, pieces_again, start_of, is_past_end, chunk_size, empty_last_piece};
ghost use Rattle.transfer_sender.specs.Cut.{IsCut};
ghost use Rattle.transfer_sender.specs.Sender.{new_sender, touched, ticked, completed};

use crate::cut::{Cut, cut_window, piece_at};
use crate::pieces::Pieces;
use bytes::Bytes;
use rpc_ids::Status;
use std::alloc::{AllocError, Global};
use std::marker::Model;
use transfer_base::{Ask, MAX_CHUNK, MAX_RESOURCE, TIMEOUT, deadline_after};

/// The timeouts in a row that end a transfer.
pub const MAX_TIMEOUTS: u8 = 5;

/// The sending end of one transfer, after the data phase and the completion of pw_transfer's protocol
/// version 2.
///
/// Contracts see it as a `Sender`: the resource, the next byte that it sends, and how it ended.
#[derive(Debug, Drop)]
pub struct SenderCore {
    bytes: Bytes,
    position: u64,
    active: u64,
    timeouts: u8,
    ended: Option<Status>,
}

impl Model for SenderCore {
    ghost use Rattle.transfer_sender.specs.Sender.{Sender, IsSender};

    ghost Value = { Sender };

    ghost view = { λ s. record { bytes = s.bytes; position = s.position; active = s.active; timeouts = s.timeouts; ended = s.ended } };

    ghost invariant = { λ s. IsSender (record { bytes = s.bytes; position = s.position; active = s.active; timeouts = s.timeouts; ended = s.ended }) };
}

impl Clone for SenderCore {
    ghost is_clone = { λ s copy. copy ≡ s };

    fn clone(&self) -> Result<SenderCore, AllocError> {
        Ok(SenderCore {
            bytes: self.bytes.clone()?,
            position: self.position,
            active: self.active,
            timeouts: self.timeouts,
            ended: self.ended,
        })
    }
}

impl SenderCore {
    /// A sender of all of `bytes` from `offset` on, made at the moment `now`, in milliseconds.
    pub fn new(bytes: Bytes, offset: u64, now: u64) -> SenderCore
        requires size { length bytes ≤ MAX_RESOURCE }
        requires within { offset ≤ length bytes }
        ensures { result ≡ new_sender bytes offset now }
    {
        SenderCore {
            bytes,
            position: offset,
            active: now,
            timeouts: 0,
            ended: None,
        }
    }

    /// Answers an ask that came at the moment `now`: the pieces are to be sent, in order. Where the
    /// ask goes back to an offset past the resource's end, the sender ends with `OutOfRange`.
    pub fn params(&mut self, alloc: Global, ask: Ask, now: u64) -> Result<Pieces, AllocError>
        requires { self.old.ended ≡ None }

        // A retransmission is answered from the offset of the ask, and any other ask from the position.
        ensures again { IfOk result (λ ps. IsTrue ask.again → ask.offset < length self.old.bytes
            → IsCut self.old.bytes (chunk_size ask.max_chunk) ask.window_end ask.offset ps) }
        ensures go_on { IfOk result (λ ps. ask.again ≡ false
            → IsCut self.old.bytes (chunk_size ask.max_chunk) ask.window_end self.old.position ps) }
        ensures again_at_end { IfOk result (λ ps. IsTrue ask.again → ask.offset ≡ length self.old.bytes
            → ps ≡ empty_last_piece self.old.bytes ∷ []) }
        ensures again_past_end { OnOk result (IsTrue ask.again → length self.old.bytes < ask.offset
            → self.new.ended ≡ Some Status.OutOfRange) }
        ensures again_first { IfOk result (λ ps. IsTrue ask.again
            → (ask.offset ≡ length self.old.bytes) ⊎ ((ask.offset < length self.old.bytes) × (ask.offset < ask.window_end))
            → BeginsAt ask.offset ps) }

        // All of it, by the rules of an ask, which is activity too.
        ensures pieces { IfOk result (λ ps. ps ≡ (answer_to (touched self.old now) ask).pieces) }
        ensures after { OnOk result (self.new ≡ (answer_to (touched self.old now) ask).after) }
        ensures err { OnErr result (self.new ≡ self.old) }
    {
        if self.is_past_end(ask) {
            self.touch(now);
            self.ended = Some(Status::OutOfRange);
            return Ok(Pieces::new(alloc));
        }
        let cut = self.cut_for(alloc, ask)?;
        self.touch(now);
        self.position = cut.end;
        Ok(cut.pieces)
    }

    /// Tells the sender of a chunk of its transfer that is neither an ask nor a completion.
    pub fn touch(&mut self, now: u64)
        requires { self.old.ended ≡ None }
        ensures { self.new ≡ touched self.old now }
    {
        self.active = now;
        self.timeouts = 0;
    }

    /// Tells the sender the time. The answer is the end that this makes, if it does. Nothing changes
    /// before a timeout, so a call too many is safe.
    pub fn tick(&mut self, now: u64) -> Option<Status>
        requires { self.old.ended ≡ None }
        ensures early { now < self.old.active + TIMEOUT → self.new ≡ self.old }
        ensures ends { IsSome result ↔ (self.old.active + TIMEOUT ≤ now) × (self.old.timeouts + 1 ≡ MAX_TIMEOUTS) }
        ensures status { IfSome result (λ status. status ≡ Status.DeadlineExceeded) }
        ensures answer { result ≡ self.new.ended }
        ensures after { self.new ≡ ticked self.old now }
    {
        if now.saturating_sub(self.active) < TIMEOUT {
            return None;
        }
        self.active = now;
        self.timeouts += 1;
        if self.timeouts == MAX_TIMEOUTS {
            self.ended = Some(Status::DeadlineExceeded);
        }
        self.ended
    }

    /// Tells the sender how the receiver ended the transfer. The first end stands.
    pub fn completion(&mut self, status: Status)
        ensures { self.new ≡ completed self.old status }
    {
        if self.ended.is_none() {
            self.ended = Some(status);
        }
    }

    /// How the transfer ended, if it did.
    pub fn end(&self) -> Option<Status>
        ensures { result ≡ self.now.ended }
    {
        self.ended
    }

    /// When its next timeout comes, in milliseconds.
    pub fn deadline(&self) -> u64
        ensures { result ≡ deadline_after self.now.active }
    {
        deadline_after(self.active)
    }

    /// The whole resource.
    pub fn bytes(&self) -> &Bytes
        ensures { result.now ≡ self.now.bytes }
    {
        &self.bytes
    }

    /// The next byte that it sends.
    pub fn position(&self) -> u64
        ensures { result ≡ self.now.position }
    {
        self.position
    }

    /// The moment of the last activity, in milliseconds.
    pub fn active(&self) -> u64
        ensures { result ≡ self.now.active }
    {
        self.active
    }

    /// The timeouts since the last chunk came.
    pub fn timeouts(&self) -> u8
        ensures { result ≡ self.now.timeouts }
    {
        self.timeouts
    }

    fn is_past_end(&self, ask: Ask) -> bool
        ensures { result ≡ is_past_end self.now ask }
    {
        ask.again && (self.bytes.len() as u64) < ask.offset
    }

    fn cut_for(&self, alloc: Global, ask: Ask) -> Result<Cut, AllocError>
        requires { is_past_end self.now ask ≡ false }
        ensures pieces { IfOk result (λ c. c.pieces ≡ pieces_for self.now ask) }
        ensures end { IfOk result (λ c. c.end ≡ end_of (start_of self.now ask) (pieces_for self.now ask)) }
        ensures within { IfOk result (λ c. c.end ≤ length self.now.bytes) }
    {
        if ask.again {
            return self.cut_again(alloc, ask);
        }
        let chunk = chunk_size(ask.max_chunk);
        cut_window(alloc, &self.bytes, chunk, ask.window_end, self.position)
    }

    fn cut_again(&self, alloc: Global, ask: Ask) -> Result<Cut, AllocError>
        requires { ask.offset ≤ length self.now.bytes }
        ensures pieces { IfOk result (λ c. c.pieces ≡ pieces_again self.now.bytes ask) }
        ensures end { IfOk result (λ c. c.end ≡ end_of ask.offset (pieces_again self.now.bytes ask)) }
        ensures within { IfOk result (λ c. c.end ≤ length self.now.bytes) }
    {
        if ask.offset == self.bytes.len() as u64 {
            let mut pieces = Pieces::new(alloc);
            pieces.push(piece_at(&self.bytes, ask.offset, 0)?)?;
            return Ok(Cut {
                pieces,
                end: ask.offset,
            });
        }
        let chunk = chunk_size(ask.max_chunk);
        cut_window(alloc, &self.bytes, chunk, ask.window_end, ask.offset)
    }
}

// The bytes of a chunk: as many as the ask says, if it does, and at most the most.
fn chunk_size(asked: u32) -> u64
    ensures { result ≡ chunk_size asked }
{
    if asked == 0 {
        return u64::from(MAX_CHUNK);
    }
    u64::from(asked.min(MAX_CHUNK))
}
