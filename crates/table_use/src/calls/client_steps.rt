//! A client's table follows steps.
ghost use Rattle.std.specs.Prelude.{◌≡◌, false};
ghost use Rattle.rpc_handlers.specs.HandlerRule.{empty_memo};
ghost use Rattle.rpc_handlers.specs.Limits.{is_long_out};
ghost use Rattle.rpc_ids.specs.declared.method.Role.TheVariants.{Client};

use super::client_desk::{
    Methods, completes, from_server, hears_from, invokes, name_on, open_client,
};
use super::letters::Letter;
use super::steps::{Said, Step};
use super::taking::take;
use bytes::Bytes;
use rpc_calls::Calls;
use rpc_handlers::Out;
use rpc_ids::{Role, Status};
use rpc_journal::SayRefused;
use std::alloc::Global;
use std::process::Abort;
use std::test::Fail;

fn out(said: Said) -> Out
    ensures { is_long_out result ≡ false }
{
    match said {
        Said::Letter => Out::Say(Bytes::from_static(b"a")),
        Said::StoreAction => Out::Leave { session: 1 },
    }
}

// Says this of a call, which must be there.
fn say(rt: &impl Abort, calls: &mut Calls<Letter>, call: u32, said: Said) -> Result<(), SayRefused>
    ensures { calls.new.setting ≡ calls.old.setting }
{
    assert!(rt; call < calls.count());
    calls.say(2, call, out(said))
}

// This is said of a call, with this answer.
fn says(
    rt: &impl Abort,
    calls: &mut Calls<Letter>,
    call: u32,
    said: Said,
    want: Result<(), SayRefused>,
    step: usize,
)
    ensures { calls.new.setting ≡ calls.old.setting }
{
    assert_eq!(rt; say(rt, calls, call, said), want, "step {step}");
}

// What a client makes its calls of.
#[derive(Clone, Copy)]
struct Desk {
    alloc: Global,
    methods: Methods,
    ends: bool,
}

// A step is taken.
fn take_step(rt: &impl Abort, calls: &mut Calls<Letter>, desk: Desk, step: Step, at: usize)
    requires role { calls.old.setting.role ≡ Client }
    requires seed { calls.old.setting.seed ≡ empty_memo }
    ensures { calls.new.setting ≡ calls.old.setting }
{
    let Desk {
        alloc,
        methods,
        ends,
    } = desk;
    match step {
        Step::Asks(channel, method, want) => {
            let name = name_on(channel, methods.of(method), 1);
            invokes(rt, calls, alloc, name, ends, want, at);
        }
        Step::Says(call, said, want) => says(rt, calls, call, said, want, at),
        Step::Completes(call, want) => completes(rt, calls, call, want, at),
        Step::Hears(ptype, method, answer) => {
            let p = from_server(ptype, methods.of(method), 1, Status::Okay);
            hears_from(rt, calls, alloc, &p, Ok(answer), at);
        }
        other => take(rt, alloc, calls, other, at),
    }
}

// The steps are taken, one after another.
fn take_steps(rt: &impl Abort, calls: &mut Calls<Letter>, desk: Desk, steps: &[Step])
    requires role { calls.old.setting.role ≡ Client }
    requires seed { calls.old.setting.seed ≡ empty_memo }
    ensures { calls.new.setting ≡ calls.old.setting }
{
    'steps: for (at, step) in steps.iter().enumerate() {
        take_step(rt, calls, desk, *step, at);
    }
}

/// A client follows these steps. Its handlers say `h` and go on, or end their calls.
pub fn client_follows(
    rt: &impl Abort,
    alloc: Global,
    ends: bool,
    steps: &[Step],
) -> Result<(), Fail> {
    let (mut calls, methods) = open_client(alloc)?;
    let desk = Desk {
        alloc,
        methods,
        ends,
    };
    take_steps(rt, &mut calls, desk, steps);
    Ok(())
}
