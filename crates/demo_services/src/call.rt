//! A call of the demo service, the log service or the transfer service.
ghost use Rattle.std.specs.Prelude.{◌≡◌, IfOk};
ghost use Rattle.demo_services.specs.DemoCall.{answer_of, call_after, memo_of, numbers};
ghost use Rattle.demo_services.specs.DemoRule.{demo_rule};
ghost use Rattle.demo_services.specs.ReadBack.{answer-memo_of, next-memo_of};

use crate::chat::Chat;
use crate::count::Count;
use crate::echo::Echo;
use crate::log::Log;
use crate::sum::Sum;
use crate::transfer::Transfer;
use rpc_handlers::{Acts, Answer, Event, Handler, Memo, Parts, Words};
use std::alloc::{AllocError, Global};

const ECHO_STATE: u64 = 0;

const COUNT_STATE: u64 = 1;

const SUM_STATE: u64 = 2;

const CHAT_STATE: u64 = 3;

const LOG_STATE: u64 = 5;

/// A call of the service `demo.Demo` by its method, one of the log service, or one of the transfer service.
///
/// As a `Memo` it has the number of its method as first word: 0 for Echo, 1 for Count, 2 for Sum, 3 for Chat, 4 for Read
/// and for Write, 5 for Text. A Sum has its total as second word. A Read and a Write have all their sessions behind it, and in the
/// parts what they send. There are no other words and no parts.
#[derive(Debug, Drop)]
pub enum DemoCall {
    Echo(Echo),
    Count(Count),
    Sum(Sum),
    Chat(Chat),
    Log(Log),
    Transfer(Transfer),
}

impl Acts for DemoCall {
    ghost can_act = { λ _. Unit {0} };

    ghost now = { memo_of };

    ghost gives = { answer_of };

    ghost moves = { λ call ev. memo_of (call_after call ev) };

    fn on(&mut self, ev: &Event) -> Result<Answer, AllocError> {
        match self {
            DemoCall::Echo(echo) => echo.on(ev),
            DemoCall::Count(count) => count.on(ev),
            DemoCall::Sum(sum) => sum.on(ev),
            DemoCall::Chat(chat) => chat.on(ev),
            DemoCall::Log(log) => log.on(ev),
            DemoCall::Transfer(transfer) => transfer.on(ev),
        }
    }

    fn memo(&self) -> Result<Memo, AllocError> {
        match self {
            DemoCall::Echo(echo) => memo_from(echo.alloc, &[ECHO_STATE]),
            DemoCall::Count(count) => memo_from(count.alloc, &[COUNT_STATE]),
            DemoCall::Sum(sum) => memo_from(sum.alloc, &[SUM_STATE, sum.total()]),
            DemoCall::Chat(chat) => memo_from(chat.alloc, &[CHAT_STATE]),
            DemoCall::Log(log) => memo_from(log.alloc, &[LOG_STATE]),
            DemoCall::Transfer(transfer) => transfer.memo(),
        }
    }
}

impl Handler for DemoCall {
    ghost rule = { demo_rule };

    ghost answers_by_rule = { λ _ call ev. answer-memo_of call ev };

    ghost moves_by_rule = { λ _ call ev. next-memo_of call ev };
}

/// A state of these numbers.
fn memo_from(alloc: Global, words: &[u64]) -> Result<Memo, AllocError>
    ensures { IfOk result (λ m. m ≡ numbers words.now) }
{
    let mut list = Words::new(alloc);
    for word in words {
        list.push(*word)?;
    }
    Ok(Memo {
        words: list,
        parts: Parts::new(alloc),
    })
}
