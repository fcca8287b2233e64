//! Polls that find too little memory.
ghost use Rattle.std.specs.Prelude.{⊤};

use crate::checks::{end_is, is_so};
use crate::tasks::{stop_is, taken};
use rpc_handlers::Out;
use rpc_ids::Status;
use std::alloc::AllocError;
use std::test::Fail;
use task_core::{Cx, Dispatcher, Poll, Stop, Task};

// A task that says its name at each poll. Memory is wanting at its first poll, and it ends at the next.
#[derive(Drop)]
struct Starved {
    was_short: bool,
}

impl Task for Starved {
    ghost polls = { λ _ _ _. ⊤ };

    fn poll(&mut self, cx: &mut Cx) -> Result<Poll, AllocError> {
        cx.say(Out::Commit { session: 0 })?;
        if self.was_short {
            return Ok(Poll::Ready(Status::Okay));
        }
        self.was_short = true;
        Err(AllocError)
    }
}

#[test]
fn a_poll_that_finds_no_memory_is_made_again(rt: HostRuntime) -> Result<(), Fail> {
    let mut tasks = Dispatcher::new(rt.alloc())?;
    let key = taken(tasks.add(Starved { was_short: false }))?;
    is_so(&rt, tasks.run_until_stalled(8).is_err(), 0);
    stop_is(&rt, tasks.run_until_stalled(8), Stop::AllDone, 1);
    end_is(&rt, tasks.result(key), Some(Status::Okay), 2);
    Ok(())
}
