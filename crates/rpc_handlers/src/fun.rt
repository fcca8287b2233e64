//! A handler made of a stored closure.
ghost use Rattle.std.specs.Prelude.{◌≡◌, true, refl};
ghost use Rattle.rpc_handlers.specs.declared.answer.Answer.{Answer};
ghost use Rattle.rpc_handlers.specs.declared.event.Event.{Event};
ghost use Rattle.rpc_handlers.specs.declared.event.Memo.{Memo};
ghost use Rattle.rpc_handlers.specs.Fun.{IsByRule, KeepsLimits};
ghost use Rattle.std.specs.Prelude.{IfOk};
ghost use Rattle.rpc_ids.specs.declared.method.MethodRef.{MethodRef};

use crate::acts::{Acts, Handler};
use crate::answer::Answer;
use crate::event::{Event, Memo};
use std::alloc::AllocError;
use std::marker::PhantomData;

/// The rule of a stored closure, for proofs alone.
pub trait Rule {
    /// The answer to an event, by the state.
    ghost answer: { Memo → Event → Answer };

    /// The next state, by the state and the event.
    ghost next: { Memo → Event → Memo };

    /// The first state, by the maker's seed and the method.
    ghost first: { Memo → MethodRef → Memo };
}

/// What answers by the rule `R` without a change to itself: each closure that does so, and what `Fun` stores.
pub trait Answers<R: Rule> {
    /// When it may be asked at every state and event.
    ghost can_answer: { Self → Type 0 };

    /// The answer to an event at a state, and the next state.
    fn answer(&self, memo: &Memo, ev: &Event) -> Result<(Answer, Memo), AllocError>
        requires { can_answer self.now }
        ensures { IfOk result (IsByRule R.answer R.next memo.now ev.now) };
}

impl<R: Rule, F: Fn(&Memo, &Event) -> Result<(Answer, Memo), AllocError>> Answers<R> for F {
    ghost can_answer = { λ f. F.IsAlwaysCallable f × ((m : _) (ev : _) (r : _) → F.post f m ev r → IfOk r (IsByRule R.answer R.next m.now ev.now)) };

    fn answer(&self, memo: &Memo, ev: &Event) -> Result<(Answer, Memo), AllocError> {
        self(memo, ev)
    }
}

/// A handler made of a stored closure and a state. The closure is given the state and the event, and gives the answer
/// and the next state by the rule `R`.
#[derive(Drop)]
pub struct Fun<F, R> {
    act: F,
    memo: Memo,
    rule: PhantomData<R>,
}

impl<F: Answers<R> + Drop, R: Rule + Drop> Fun<F, R> {
    /// The closure may be asked at every state and event, and each answer of `R` is within the limits on answers.
    pub fn new(act: F, memo: Memo) -> Fun<F, R>
        requires answers { F.can_answer act }
        requires limits { KeepsLimits R.answer }
        ensures able { ⟦<Fun<F, R> as Acts>⟧.can_act result }
        ensures state { ⟦<Fun<F, R> as Acts>⟧.now result ≡ memo }
    {
        Fun {
            act,
            memo,
            rule: PhantomData,
        }
    }
}

impl<F: Answers<R> + Drop, R: Rule + Drop> Acts for Fun<F, R> {
    ghost can_act = { λ x. F.can_answer x.act × KeepsLimits R.answer };

    ghost now = { λ x. x.memo };

    ghost gives = { λ x ev. R.answer x.memo ev };

    ghost moves = { λ x ev. R.next x.memo ev };

    fn on(&mut self, ev: &Event) -> Result<Answer, AllocError> {
        let (answer, memo) = self.act.answer(&self.memo, ev)?;
        self.memo = memo;
        Ok(answer)
    }

    fn memo(&self) -> Result<Memo, AllocError> {
        self.memo.clone()
    }
}

impl<F: Answers<R> + Drop, R: Rule + Drop> Handler for Fun<F, R> {
    ghost rule = { record { ruled = true; answer = R.answer; next = R.next; first = R.first } };

    ghost answers_by_rule = { λ _ x ev. refl };

    ghost moves_by_rule = { λ _ x ev. refl };
}
