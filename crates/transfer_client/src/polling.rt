//! One poll of a transfer's task: it begins where it hasn't, takes its mail, and looks at the time.
ghost use Rattle.std.specs.Prelude.{◌≡◌, ◌++◌, Ok, OnOk};
ghost use Rattle.task_core.specs.Visit.{AwaitsSomething, IsFresh, Uses, visit_of};
ghost use Rattle.transfer_client.specs.Polling.{IsPolled, takes, takes_all, WaitsFor};
ghost use Rattle.transfer_words.specs.Saying.{outs_of};

use crate::heard::heard_word;
use crate::machine::Machine;
use rpc_handlers::Outs;
use std::alloc::{AllocError, Global};
use task_core::{Cx, Mail, Poll};

/// Polls the task of a transfer. After an `Err` the transfer is as it was: the mail that was taken is lost, as it can be
/// on a link, and a part of what was to be said may be said.
pub fn poll<M: Machine + Drop>(
    alloc: Global,
    session: u32,
    machine: &mut M,
    cx: &mut Cx,
) -> Result<Poll, AllocError>
    requires { IsFresh cx.old }
    ensures polled { IsPolled M.rules session machine.old (visit_of cx.old cx.new result) machine.new }
    ensures uses { Uses cx.old cx.new }
    ensures waits { result ≡ Ok Poll.Pending → AwaitsSomething cx.new }
{
    let now = cx.now();
    let mut outs = Outs::new(alloc);
    let mut next = machine.copy()?;
    next.open(alloc, session, &mut outs, now)?;
    take_mail(alloc, session, &mut next, &mut outs, cx)?;
    next.tick(alloc, session, &mut outs, now)?;
    say_all(&outs, cx)?;
    *machine = next;
    Ok(wait(machine, cx))
}

// Takes mail until none is left, or the transfer has ended.
fn take_mail<M: Machine>(
    alloc: Global,
    session: u32,
    machine: &mut M,
    outs: &mut Outs,
    cx: &mut Cx,
) -> Result<(), AllocError>
    ensures after { OnOk result (machine.new ≡ (takes_all M.rules session machine.old cx.old.mail cx.old.moment).after) }
    ensures outs { OnOk result (outs.new ≡ outs.old ++ outs_of session (takes_all M.rules session machine.old cx.old.mail cx.old.moment).sayings) }
    ensures left { OnOk result (cx.new.mail ≡ (takes_all M.rules session machine.old cx.old.mail cx.old.moment).left) }
    ensures rest { cx.new ≡ record cx.old { mail = cx.new.mail } }
    ensures uses { Uses cx.old cx.new }
{
    let now = cx.now();
    'mails: while machine.end().is_none() {
        let Some(mail) = cx.mail() else {
            return Ok(());
        };
        take(alloc, session, machine, outs, mail, now)?;
    }
    Ok(())
}

fn take<M: Machine>(
    alloc: Global,
    session: u32,
    machine: &mut M,
    outs: &mut Outs,
    mail: Mail,
    now: u64,
) -> Result<(), AllocError>
    ensures after { OnOk result (machine.new ≡ (takes M.rules session machine.old mail now).after) }
    ensures outs { OnOk result (outs.new ≡ outs.old ++ outs_of session (takes M.rules session machine.old mail now).sayings) }
{
    match mail {
        Mail::Text(text) => match heard_word(session, text.as_slice()) {
            Some(word) => machine.hear(alloc, session, outs, word, now),
            None => Ok(()),
        },
        Mail::Closed(status) => machine.close(session, outs, status),
    }
}

// After an `Err` a part of them may be said.
fn say_all(outs: &Outs, cx: &mut Cx) -> Result<(), AllocError>
    ensures said { OnOk result (cx.new ≡ record cx.old { said = cx.old.said ++ outs.now }) }
    ensures rest { cx.new ≡ record cx.old { said = cx.new.said } }
{
    for out in outs.as_slice() {
        cx.say(out.clone()?)?;
    }
    Ok(())
}

// The task has ended, or it waits for mail and for its deadline.
fn wait<M: Machine>(machine: &M, cx: &mut Cx) -> Poll
    ensures { WaitsFor (M.rules.end_of machine.now) (M.rules.deadline_of machine.now) cx.old result cx.new }
{
    match machine.end() {
        Some(status) => Poll::Ready(status),
        None => {
            cx.wait_mail();
            if let Some(at) = machine.deadline() {
                cx.sleep_until(at);
            }
            Poll::Pending
        }
    }
}
