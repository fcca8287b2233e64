ghost use Rattle.std.specs.Prelude.{◌≡◌, ◌+◌, ◌*◌, ◌^◌, ◌<◌, ◌≤◌, ◌↔◌, IsTrue, true, false, length};
ghost use Rattle.transfer_base.specs.Deadline.{deadline_after};
ghost use Rattle.transfer_receiver.specs.Answers.{is_kept, ends_well, is_resend, is_over, AnyAsk, AnyResend, AsksFromNext};
ghost use Rattle.transfer_receiver.specs.Phase.{is_ended, phase_after_ack};
ghost use Rattle.transfer_receiver.specs.PieceRules.{piece_outcome, active_at, asking_again, taking, going_on};
ghost use Rattle.transfer_receiver.specs.Receiver.{new_receiver, first_ask, ask_of, asking, span_of_ask};
ghost use Rattle.transfer_receiver.specs.TickRules.{tick_outcome, resending_ask, resending_end};

use crate::answers::{Received, Ticked};
use crate::phase::Phase;
use rpc_ids::Status;
use std::marker::Model;
use transfer_base::{Ask, MAX_RESOURCE, MAX_WINDOW, TIMEOUT, Tuning, deadline_after};

/// How often in a row a receiver sends its parameters or its end again, before it gives up.
pub const MAX_RESENDS: u8 = 3;

/// The receiving end of one transfer, after the data phase and the completion of pw_transfer's
/// protocol version 2.
///
/// Contracts see it as a `Receiver`: the next byte that it lacks, the window that it has asked for,
/// and its phase.
#[derive(Clone, Copy, Debug)]
pub struct ReceiverCore {
    next: u64,
    window_end: u64,
    span: u32,
    chunk: u32,
    shrunk: bool,
    phase: Phase,
    active: u64,
    resends: u8,
}

impl Model for ReceiverCore {
    ghost use Rattle.transfer_receiver.specs.Receiver.{Receiver, IsReceiver};

    ghost Value = { Receiver };

    ghost view = { λ r. record { next = r.next; window_end = r.window_end; span = r.span; chunk = r.chunk; shrunk = r.shrunk; phase = r.phase; active = r.active; resends = r.resends } };

    ghost invariant = { λ r. IsReceiver (record { next = r.next; window_end = r.window_end; span = r.span; chunk = r.chunk; shrunk = r.shrunk; phase = r.phase; active = r.active; resends = r.resends }) };

    ghost inverse = { λ r. record { next = r.next; window_end = r.window_end; span = r.span; chunk = r.chunk; shrunk = r.shrunk; phase = r.phase; active = r.active; resends = r.resends } };
}

impl ReceiverCore {
    /// A receiver of all from `offset` on, in bytes, made at the moment `now`, in milliseconds.
    pub fn new(offset: u64, tuning: Tuning, now: u64) -> ReceiverCore
        requires { offset ≤ MAX_RESOURCE }
        ensures { result ≡ new_receiver offset tuning.window tuning.chunk now }
    {
        ReceiverCore {
            next: offset,
            window_end: offset + u64::from(tuning.window) * u64::from(tuning.chunk),
            span: tuning.window,
            chunk: tuning.chunk,
            shrunk: false,
            phase: Phase::Receiving,
            active: now,
            resends: 0,
        }
    }

    /// The first parameters, which open the data phase.
    pub fn first(&self) -> Ask
        ensures ask { AsksFromNext self.now true result }
        ensures small { result.window_end < 2 ^ 32 }
        ensures value { result ≡ first_ask self.now }
    {
        Ask {
            again: true,
            offset: self.next,
            window_end: self.next + u64::from(self.span) * u64::from(self.chunk),
            max_chunk: self.chunk,
        }
    }

    /// Takes a piece that came at the moment `now`. Only what is `Kept`, or `Ends` with `Okay`, is to
    /// be appended to what was kept before.
    pub fn piece(&mut self, offset: u64, bytes: &[u8], last: bool, now: u64) -> Received
        requires { is_ended self.old.phase ≡ false }

        // Pieces are kept in order, and the last one that is kept ends the transfer well.
        ensures in_order { IsTrue (is_kept result) → offset ≡ self.old.next }
        ensures kept { IsTrue (is_kept result) → self.new.next ≡ offset + length bytes.now }
        ensures dropped { is_kept result ≡ false → self.new.next ≡ self.old.next }
        ensures last { IsTrue (ends_well result) ↔ IsTrue (is_kept result) × IsTrue last }
        ensures ask { AnyAsk (AsksFromNext self.new) result }
        ensures small { AnyAsk (λ _ ask. ask.window_end < 2 ^ 32) result }
        ensures lives { is_ended self.new.phase ≡ false }
        ensures resends { IsTrue (is_kept result) → self.new.resends ≡ 0 }

        // All of it, by the rules of a piece.
        ensures answer { result ≡ (piece_outcome (active_at now self.old) offset (length bytes.now) last).answer }
        ensures after { self.new ≡ (piece_outcome (active_at now self.old) offset (length bytes.now) last).after }
    {
        self.active = now;
        if !self.phase.is_open() || offset < self.next {
            return Received::Ignored;
        }
        if bytes.is_empty() && !last {
            return Received::Ignored;
        }
        if self.next < offset {
            return self.ask_again();
        }
        self.take(offset + bytes.len() as u64, last)
    }

    /// Tells the receiver the time. Nothing changes before a timeout, so a call too many is safe.
    pub fn tick(&mut self, now: u64) -> Ticked
        requires { is_ended self.old.phase ≡ false }

        // A timeout resends, and the one behind the last resend ends it.
        ensures early { now < self.old.active + TIMEOUT → self.new ≡ self.old }
        ensures next { self.new.next ≡ self.old.next }
        ensures resent { IsTrue (is_resend result) → self.new.resends ≡ self.old.resends + 1 }
        ensures ask { AnyResend (AsksFromNext self.new) result }
        ensures small { AnyResend (λ _ ask. ask.window_end < 2 ^ 32) result }
        ensures over { IsTrue (is_over result) ↔ (self.old.active + TIMEOUT ≤ now) × (self.old.resends ≡ MAX_RESENDS) }
        ensures ended { IsTrue (is_over result) ↔ IsTrue (is_ended self.new.phase) }

        // All of it, by the rules of a tick.
        ensures answer { result ≡ (tick_outcome self.old now).answer }
        ensures after { self.new ≡ (tick_outcome self.old now).after }
    {
        if now.saturating_sub(self.active) < TIMEOUT {
            return Ticked::Quiet;
        }
        self.active = now;
        match self.phase {
            Phase::Receiving | Phase::Recovering => self.resend_ask(),
            Phase::Completing(status) => self.resend_end(status),
            Phase::Ended => Ticked::Quiet,
        }
    }

    /// Tells the receiver that the sender has acknowledged its end. Before an end it changes nothing.
    pub fn ack(&mut self)
        ensures { self.new ≡ record self.old { phase = phase_after_ack self.old.phase } }
    {
        if let Phase::Completing(_) = self.phase {
            self.phase = Phase::Ended;
        }
    }

    /// Whether the transfer is over, so that nothing more is to be handed in.
    pub fn ended(&self) -> bool
        ensures { result ≡ is_ended self.now.phase }
    {
        self.phase.is_ended()
    }

    /// When its next timeout comes, in milliseconds.
    pub fn deadline(&self) -> u64
        ensures { result ≡ deadline_after self.now.active }
    {
        deadline_after(self.active)
    }

    /// The first byte that it lacks.
    pub fn next(&self) -> u64
        ensures { result ≡ self.now.next }
    {
        self.next
    }

    /// The end of the bytes that it has asked for.
    pub fn window_end(&self) -> u64
        ensures { result ≡ self.now.window_end }
    {
        self.window_end
    }

    /// The chunks of its window.
    pub fn span(&self) -> u32
        ensures { result ≡ self.now.span }
    {
        self.span
    }

    /// The bytes of a chunk.
    pub fn chunk(&self) -> u32
        ensures { result ≡ self.now.chunk }
    {
        self.chunk
    }

    /// Whether its last ask, but the first parameters, was a retransmission.
    pub fn shrunk(&self) -> bool
        ensures { result ≡ self.now.shrunk }
    {
        self.shrunk
    }

    /// Where the transfer stands.
    pub fn phase(&self) -> Phase
        ensures { result ≡ self.now.phase }
    {
        self.phase
    }

    /// The moment of the last activity, in milliseconds.
    pub fn active(&self) -> u64
        ensures { result ≡ self.now.active }
    {
        self.active
    }

    /// How often it has sent its parameters or its end again, in a row.
    pub fn resends(&self) -> u8
        ensures { result ≡ self.now.resends }
    {
        self.resends
    }

    // The chunks of the window of the next ask.
    fn span_of_ask(&self, again: bool) -> u32
        ensures value { result ≡ span_of_ask again self.now }
        ensures low { 1 ≤ result }
        ensures high { result ≤ MAX_WINDOW }
    {
        if again {
            return (self.span / 2).max(1);
        }
        if self.shrunk {
            return self.span;
        }
        (2 * self.span).min(MAX_WINDOW)
    }

    fn ask(&mut self, again: bool) -> Ask
        ensures after { self.new ≡ asking again self.old }
        ensures value { result ≡ ask_of again (asking again self.old) }
    {
        self.span = self.span_of_ask(again);
        self.shrunk = again;
        self.window_end = self.next + u64::from(self.span) * u64::from(self.chunk);
        Ask {
            again,
            offset: self.next,
            window_end: self.window_end,
            max_chunk: self.chunk,
        }
    }

    // A piece past the next byte came.
    fn ask_again(&mut self) -> Received
        ensures after { self.new ≡ (asking_again self.old).after }
        ensures answer { result ≡ (asking_again self.old).answer }
    {
        if self.phase.is_recovering() {
            return Received::Ignored;
        }
        let ask = self.ask(true);
        self.phase = Phase::Recovering;
        Received::Again(ask)
    }

    // A piece at the next byte came.
    fn take(&mut self, end: u64, last: bool) -> Received
        requires { self.old.next ≤ end }
        ensures after { self.new ≡ (taking self.old end last).after }
        ensures answer { result ≡ (taking self.old end last).answer }
    {
        if self.window_end < end {
            return self.end(Status::Internal);
        }
        if MAX_RESOURCE < end {
            return self.end(Status::OutOfRange);
        }
        self.next = end;
        self.enter(Phase::Receiving);
        if last {
            return self.end(Status::Okay);
        }
        self.go_on()
    }

    // Asks for more once half the window is used.
    fn go_on(&mut self) -> Received
        ensures after { self.new ≡ (going_on self.old).after }
        ensures answer { result ≡ (going_on self.old).answer }
    {
        let rest = self.window_end - self.next;
        if 2 * rest <= u64::from(self.span) * u64::from(self.chunk) {
            return Received::Kept(Some(self.ask(false)));
        }
        Received::Kept(None)
    }

    fn end(&mut self, status: Status) -> Received
        ensures after { self.new ≡ record self.old { phase = Phase.Completing status; resends = 0 } }
        ensures answer { result ≡ Received.Ends status }
    {
        self.enter(Phase::Completing(status));
        Received::Ends(status)
    }

    // Goes to a phase with all its resends.
    fn enter(&mut self, phase: Phase)
        ensures { self.new ≡ record self.old { phase = phase; resends = 0 } }
    {
        self.phase = phase;
        self.resends = 0;
    }

    fn resend_ask(&mut self) -> Ticked
        ensures after { self.new ≡ (resending_ask self.old).after }
        ensures answer { result ≡ (resending_ask self.old).answer }
    {
        if self.resends < MAX_RESENDS {
            self.resends += 1;
            return Ticked::Resend(self.ask(true));
        }
        self.give_up(Status::DeadlineExceeded)
    }

    fn resend_end(&mut self, status: Status) -> Ticked
        ensures after { self.new ≡ (resending_end self.old status).after }
        ensures answer { result ≡ (resending_end self.old status).answer }
    {
        if self.resends < MAX_RESENDS {
            self.resends += 1;
            return Ticked::ResendEnd(status);
        }
        self.give_up(status)
    }

    fn give_up(&mut self, status: Status) -> Ticked
        ensures after { self.new ≡ record self.old { phase = Phase.Ended } }
        ensures answer { result ≡ Ticked.Over status }
    {
        self.phase = Phase::Ended;
        Ticked::Over(status)
    }
}
