//! How the one task of a dispatcher is polled: mail is posted to it, it is polled once, and what it said is taken out.
ghost use Rattle.std.specs.Prelude.{◌≡◌, ℕ, suc, ◌≤◌, true, false, List, [], ◌++◌, Some, None, IfOk, OnOk, length, map};
ghost use Rattle.task_core.specs.Log.{Step, is_added, task_of};
ghost use Rattle.task_core.specs.Tasks.{HasKey, Keeps, StandsFor};
ghost use Rattle.link_world.specs.client.OnePoll.{PollsAlone, with_posts, with_taken};
ghost use Rattle.link_laws.specs.world.Client.{mail_of};
ghost use Rattle.link_world.specs.client.Speaking.{PollsTransfer, mail_among};

use crate::client::transfer_task::TransferTask;
use rpc_handlers::{Event, Out};
use std::alloc::{AllocError, Global};
use task_core::{Dispatcher, Mail};

/// The mail to a call among these events is posted to a task.
pub(crate) fn post_all(
    tasks: &mut Dispatcher<TransferTask>,
    key: usize,
    call: u32,
    events: &[(u32, Event)],
) -> Result<(), AllocError>
    requires { HasKey tasks.old key }
    ensures posts { OnOk result ((log : List (Step TransferTask)) → StandsFor tasks.old log → StandsFor tasks.new (with_posts key (mail_among call events.now) log)) }
    ensures keeps { Keeps tasks.old tasks.new }
{
    'events: for (of, event) in events {
        if *of == call {
            post(tasks, key, event)?;
        }
    }
    Ok(())
}

// An event is posted to a task, where it is mail.
fn post(tasks: &mut Dispatcher<TransferTask>, key: usize, event: &Event) -> Result<(), AllocError>
    requires { HasKey tasks.old key }
    ensures posts { OnOk result ((log : List (Step TransferTask)) → StandsFor tasks.old log → StandsFor tasks.new (with_posts key (mail_of event.now) log)) }
    ensures keeps { Keeps tasks.old tasks.new }
{
    match event {
        Event::Message(text) => tasks.post(key, Mail::Text(text.clone()?)),
        Event::Ended(status) => tasks.post(key, Mail::Closed(*status)),
        Event::Request(_) | Event::Completion | Event::Tick(_) => Ok(()),
    }
}

/// The one task of a dispatcher is polled once, unless it has ended.
pub(crate) fn poll_once(
    tasks: &mut Dispatcher<TransferTask>,
    key: usize,
    now: u64,
) -> Result<(), AllocError>
    requires there { HasKey tasks.old key }
    requires past { tasks.old.moment ≤ now }
    ensures polls { OnOk result ((log : List (Step TransferTask)) → StandsFor tasks.old log → ((k : ℕ) → is_added log k ≡ true → k ≡ key) → PollsAlone PollsTransfer key now log tasks.new) }
    ensures whole { OnOk result ((log : List (Step TransferTask)) (task : TransferTask) → StandsFor tasks.new log → task_of log key ≡ Some task → task.is_short ≡ false) }
    ensures moment { tasks.new.moment ≡ now }
    ensures there { HasKey tasks.new key }
{
    tasks.advance(now);
    tasks.wake(key);
    let _stop = tasks.run_until_stalled(1)?;
    if tasks.task(key).is_short {
        return Err(AllocError);
    }
    Ok(())
}

/// Takes out all that tasks said, in order.
pub(crate) fn take_outs(
    alloc: Global,
    tasks: &mut Dispatcher<TransferTask>,
) -> Result<Vec<Out>, AllocError>
    ensures outs { IfOk result (λ outs. (log : List (Step TransferTask)) → StandsFor tasks.old log → outs.items ≡ map (λ said. said.1) tasks.old.outs) }
    ensures none { OnOk result ((log : List (Step TransferTask)) → StandsFor tasks.old log → tasks.new.outs ≡ []) }
    ensures stands { IfOk result (λ outs. (log : List (Step TransferTask)) → StandsFor tasks.old log → StandsFor tasks.new (with_taken (suc (length outs.items)) log)) }
    ensures keeps { Keeps tasks.old tasks.new }
{
    let mut outs = Vec::new(alloc);
    'outs: while let Some((_, out)) = tasks.take_out() {
        outs.push(out)?;
    }
    Ok(outs)
}
