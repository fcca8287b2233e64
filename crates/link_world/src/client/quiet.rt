//! The handler of the client's calls.
ghost use Rattle.std.specs.Prelude.{refl};
ghost use Rattle.demo_services.specs.Answers.{empty_answer};
ghost use Rattle.rpc_handlers.specs.HandlerRule.{empty_memo};
ghost use Rattle.link_laws.specs.world.Setup.{quiet_rule};

use rpc_handlers::{Acts, Answer, Event, Handler, Memo, Outs, Parts, Words};
use std::alloc::{AllocError, Global};

/// Answers nothing, and ends no call: what comes is handed on to the client's owner.
#[derive(Drop)]
pub struct Quiet {
    pub alloc: Global,
}

impl Acts for Quiet {
    ghost can_act = { λ _. Unit {0} };

    ghost now = { λ _. empty_memo };

    ghost gives = { λ _ _. empty_answer };

    ghost moves = { λ _ _. empty_memo };

    fn on(&mut self, ev: &Event) -> Result<Answer, AllocError> {
        let _ = ev;
        Ok(Answer {
            items: Outs::new(self.alloc),
            end: None,
        })
    }

    fn memo(&self) -> Result<Memo, AllocError> {
        Ok(Memo {
            words: Words::new(self.alloc),
            parts: Parts::new(self.alloc),
        })
    }
}

impl Handler for Quiet {
    ghost rule = { quiet_rule };

    ghost answers_by_rule = { λ _ _ _. refl };

    ghost moves_by_rule = { λ _ _ _. refl };
}
