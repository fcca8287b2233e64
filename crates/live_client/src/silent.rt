//! A handler that answers nothing.
ghost use Rattle.std.specs.Prelude.{◌≡◌, refl};
ghost use Rattle.rpc_handlers.specs.HandlerRule.{empty_memo};
ghost use Rattle.live_client.specs.Silent.{no_answer, silent_rule};

use rpc_handlers::{Acts, Answer, Event, Handler, Memo, Outs, Parts, Words};
use std::alloc::{AllocError, Global};

/// Answers nothing, and ends no call.
#[derive(Drop)]
pub struct Silent {
    alloc: Global,
}

impl Silent {
    pub fn new(alloc: Global) -> Silent {
        Silent { alloc }
    }
}

impl Acts for Silent {
    ghost can_act = { λ _. Unit {0} };

    ghost now = { λ _. empty_memo };

    ghost gives = { λ _ _. no_answer };

    ghost moves = { λ _ _. empty_memo };

    fn on(&mut self, ev: &Event) -> Result<Answer, AllocError> {
        let _ = ev;
        Ok(Answer {
            items: Outs::new(self.alloc),
            end: None,
        })
    }

    fn memo(&self) -> Result<Memo, AllocError> {
        Ok(Memo {
            words: Words::new(self.alloc),
            parts: Parts::new(self.alloc),
        })
    }
}

impl Handler for Silent {
    ghost rule = { silent_rule };

    ghost answers_by_rule = { λ _ x ev. refl };

    ghost moves_by_rule = { λ _ x ev. refl };
}
