//! A run of a call's handler.
ghost use Rattle.std.specs.Prelude.{◌≡◌, false, IsTrue, Option, Some, None, OnOk, OnErr, IfSome, ◌⊎◌};
ghost use Rattle.rpc_handlers.specs.Limits.{is_past_limits};
ghost use Rattle.rpc_journal.specs.Runs.{IsAnswerOf};

use crate::copies::{Copies, copy_answer};
use rpc_handlers::{Answer, Event, Handler};
use std::alloc::{AllocError, Global};
use std::marker::Model;
use std::snapshot::Snapshot;

/// A run of a call, between its start and its finish. It owns the call's handler and the event that the run took.
/// It must be spent, by `Calls::finish` or by `spill`.
pub struct Running<H: Handler> {
    call: u32,
    seat: u32,
    place: u64,
    event: Event,
    handler: H,
    start: Snapshot<H>,
    answer: Option<Answer>,
    copies: Option<Copies>,
    alloc: Global,
}

/// What is left of a run that was answered.
pub(crate) struct Answered<H: Handler> {
    pub call: u32,
    pub seat: u32,
    pub handler: H,
    pub answer: Answer,
    pub copies: Copies,
}

impl<H: Handler> Model for Running<H> {
    ghost use Rattle.std.specs.Prelude.{◌≡◌};
    ghost use Rattle.rpc_journal.specs.Ran.{Ran};

    ghost Value = { Ran };

    ghost use Rattle.rpc_calls.specs.RunningHolds.{IsAsked, IsCopied, answered};

    ghost view = { λ r. record { run = record { call = r.call; seat = r.seat; place = r.place; event = r.event; state = H.now r.start.value }; gives = H.gives r.start.value r.event; moves = H.moves r.start.value r.event; answer = answered r.answer r.copies } };

    ghost invariant = { λ r. H.can_act r.handler × IsAsked H.now H.gives H.moves r.start.value r.event r.handler r.answer × IsCopied r.answer r.copies };
}

impl<H: Handler> Running<H> {
    // A run that begins.
    pub(crate) fn begin(
        alloc: Global,
        call: u32,
        seat: u32,
        place: u64,
        event: Event,
        handler: H,
    ) -> Running<H>
        requires { H.can_act handler }
        ensures run { result.run ≡ record { call = call; seat = seat; place = place; event = event; state = H.now handler } }
        ensures unasked { result.answer ≡ None }
    {
        let start = Snapshot::of(&handler);
        Running {
            call,
            seat,
            place,
            event,
            handler,
            start,
            answer: None,
            copies: None,
            alloc,
        }
    }

    /// The number of the call.
    pub fn call_number(&self) -> u32
        ensures { result ≡ self.now.run.call }
    {
        self.call
    }

    /// Who runs it.
    pub fn seat(&self) -> u32
        ensures { result ≡ self.now.run.seat }
    {
        self.seat
    }

    /// The place of the run's Start in the journal.
    pub fn place(&self) -> u64
        ensures { result ≡ self.now.run.place }
    {
        self.place
    }

    /// The event that the run took.
    pub fn event(&self) -> &Event
        ensures { result.now ≡ self.now.run.event }
    {
        &self.event
    }

    /// Asks the handler, once, and copies the answer for what goes out. Refused for want of memory it may be called
    /// again; where the handler had answered before, that call only goes on with the copies.
    pub fn call(&mut self) -> Result<(), AllocError>
        requires { self.old.answer ≡ None }
        ensures answer { OnOk result (self.new ≡ record self.old { answer = Some self.old.gives }) }
        ensures fits { OnOk result (IsAnswerOf H.rule self.old.run self.old.gives) }
        ensures err { OnErr result (self.new ≡ self.old) }
    {
        if self.answer.is_none() {
            let answer = self.handler.on(&self.event)?;
            self.answer = Some(answer);
        }
        if let Some(answer) = &self.answer {
            let copies = copy_answer(self.alloc, answer)?;
            self.copies = Some(copies);
        }
        Ok(())
    }

    // What is left of a run that was answered.
    pub(crate) fn into_answered(self) -> Answered<H>
        requires { self.answer ≡ Some self.gives }
        ensures call { result.call ≡ self.run.call }
        ensures seat { result.seat ≡ self.run.seat }
        ensures answer { result.answer ≡ self.gives }
        ensures limits { is_past_limits self.gives ≡ false }
        ensures by_rule { IsTrue H.rule.ruled → self.gives ≡ H.rule.answer self.run.state self.run.event }
        ensures outs { result.copies.outs.items ≡ self.gives.items }
        ensures end { result.copies.end ≡ self.gives.end }
        ensures state { H.now result.handler ≡ self.moves }
        ensures moved { IsTrue H.rule.ruled → self.moves ≡ H.rule.next self.run.state self.run.event }
        ensures able { H.can_act result.handler }
    {
        let Running {
            call,
            seat,
            place: _,
            event: _,
            handler,
            start: _,
            answer,
            copies,
            alloc: _,
        } = self;
        Answered {
            call,
            seat,
            handler,
            answer: answer.unwrap(),
            copies: copies.unwrap(),
        }
    }

    /// Gives the handler back without an answer, as the way out after want of memory. The call stays running for good.
    pub fn spill(self) -> H
        ensures able { H.can_act result }
        ensures answered { IfSome self.answer (λ _. H.now result ≡ self.moves) }
        ensures state { (H.now result ≡ self.run.state) ⊎ (H.now result ≡ self.moves) }
    {
        let Running {
            call: _,
            seat: _,
            place: _,
            event: _,
            handler,
            start: _,
            answer: _,
            copies: _,
            alloc: _,
        } = self;
        handler
    }
}
