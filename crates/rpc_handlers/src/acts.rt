//! What acts on events, and the types of it that have a rule.
ghost use Rattle.std.specs.Prelude.{◌≡◌, false, IsTrue, IfOk, OnOk, OnErr};
ghost use Rattle.rpc_handlers.specs.declared.answer.Answer.{Answer};
ghost use Rattle.rpc_handlers.specs.declared.event.Event.{Event};
ghost use Rattle.rpc_handlers.specs.declared.event.Memo.{Memo};
ghost use Rattle.rpc_handlers.specs.HandlerRule.{HandlerRule};
ghost use Rattle.rpc_handlers.specs.Limits.{is_past_limits};

use crate::answer::Answer;
use crate::event::{Event, Memo};
use std::alloc::AllocError;

/// What acts on events: a state, an answer to each event, and the state after it.
pub trait Acts: Drop {
    /// When it may be asked.
    ghost can_act: { Self → Type 0 };

    /// Its state.
    ghost now: { Self → Memo };

    /// Its answer to an event.
    ghost gives: { Self → Event → Answer };

    /// Its state after an event.
    ghost moves: { Self → Event → Memo };

    /// Answers an event and moves on. Refused for want of memory it stays as it was, and may be asked again.
    fn on(&mut self, ev: &Event) -> Result<Answer, AllocError>
        requires { can_act self.old }
        ensures answer { IfOk result (λ a. a ≡ gives self.old ev.now) }
        ensures limits { IfOk result (λ a. is_past_limits a ≡ false) }
        ensures moved { OnOk result (now self.new ≡ moves self.old ev.now) }
        ensures able { can_act self.new }
        ensures err { OnErr result (self.new ≡ self.old) };

    /// Its state as plain data.
    fn memo(&self) -> Result<Memo, AllocError>
        ensures { IfOk result (λ m. m ≡ now self.now) };
}

/// A type of what acts. Where it is ruled, the state and the event alone determine the answer and the next state.
pub trait Handler: Acts {
    /// Whether the type is ruled, and its rule.
    ghost rule: { HandlerRule };

    /// What a ruled value answers.
    ghost answers_by_rule: { IsTrue rule.ruled → (x : Self) (ev : Event) → Self.gives x ev ≡ rule.answer (Self.now x) ev };

    /// How a ruled value moves.
    ghost moves_by_rule: { IsTrue rule.ruled → (x : Self) (ev : Event) → Self.moves x ev ≡ rule.next (Self.now x) ev };
}
