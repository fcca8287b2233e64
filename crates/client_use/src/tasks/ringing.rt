//! Wakes of other threads, as a run of the dispatcher finds them.
ghost use Rattle.task_core.specs.Tasks.{Keeps};

use crate::checks::{count_is, is_so, number_is};
use crate::tasks::{Worker, speaker, stop_is, taken, waits};
use std::test::Fail;
use task_core::{Bells, Dispatcher, Stop};

// How often the only task was polled since this was asked last, up to twice.
fn polls(tasks: &mut Dispatcher<Worker>) -> usize
    ensures { Keeps tasks.old tasks.new }
{
    match (speaker(tasks), speaker(tasks)) {
        (None, _) => 0,
        (Some(_), None) => 1,
        (Some(_), Some(_)) => 2,
    }
}

#[test]
fn bells_of_other_threads_wake_a_task(rt: HostRuntime) -> Result<(), Fail> {
    let alloc = rt.alloc();
    let mut tasks = Dispatcher::new(alloc)?;
    let key = taken(tasks.add(waits(0)))?;
    let (bells, mut ear, mut ringers) = Bells::with(alloc, 1, 2)?;
    stop_is(&rt, tasks.run_with(&bells, &mut ear, 8), Stop::Stalled, 0);
    count_is(&rt, polls(&mut tasks), 1, 1);
    bells.ring(&mut ringers[0], 0);
    bells.ring(&mut ringers[1], 0);
    stop_is(&rt, tasks.run_with(&bells, &mut ear, 8), Stop::Stalled, 2);
    count_is(&rt, polls(&mut tasks), 1, 3);
    bells.ring(&mut ringers[1], 0);
    let mut words = [9];
    bells.close(ear, ringers, &mut words);
    number_is(&rt, words[0], 3, 4);
    is_so(&rt, tasks.due_at(&words, 0), 5);
    Ok(())
}
