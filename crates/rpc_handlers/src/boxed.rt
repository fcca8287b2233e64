//! A boxed object as a handler: handlers of several types in one table.
ghost use Rattle.std.specs.Prelude.{[], None, false};
ghost use Rattle.std.proofs.lemmas.Bool.{false≢true};

use crate::acts::{Acts, Handler};
use crate::answer::Answer;
use crate::event::{Event, Memo};
use std::alloc::AllocError;

/// The object in the box is asked.
impl Acts for Box<dyn Acts + Send> {
    ghost can_act = { λ b. (Acts-box b).can_act b.value };

    ghost now = { λ b. (Acts-box b).now b.value };

    ghost gives = { λ b ev. (Acts-box b).gives b.value ev };

    ghost moves = { λ b ev. (Acts-box b).moves b.value ev };

    fn on(&mut self, ev: &Event) -> Result<Answer, AllocError> {
        (**self).on(ev)
    }

    fn memo(&self) -> Result<Memo, AllocError> {
        (**self).memo()
    }
}

/// It isn't ruled: the objects of two boxes may answer the same event in two ways.
impl Handler for Box<dyn Acts + Send> {
    ghost rule = { record { ruled = false; answer = λ m ev. record { items = []; end = None }; next = λ m ev. m; first = λ seed m. seed } };

    ghost answers_by_rule = { λ ruled x ev. absurd (false≢true ruled) };

    ghost moves_by_rule = { λ ruled x ev. absurd (false≢true ruled) };
}
