//! What a pass does with a call: it runs it, or it cancels it while another runs it.
ghost use Rattle.std.specs.Prelude.{◌≡◌, IfSome};
ghost use Rattle.rpc_shared.specs.Helpers.{IsSeat};
ghost use Rattle.rpc_shared.specs.OwnRuns.{Runs};

use super::claims::letter_is;
use super::letters::Letter;
use rpc_calls::{Cancelled, ReplaceRefused, Running};
use rpc_handlers::Handler;
use rpc_shared::{Busy, Look, Pass, Shared};
use std::process::Abort;
use std::sync::Wait;

/// A look at the table.
pub fn look_at<H: Handler, R: Wait>(rt: &R, shared: &Shared<H>, pass: &mut Pass<H>) -> Look
    requires seat { IsSeat shared.now pass.old }
    ensures seat { IsSeat shared.now pass.new }
    ensures number { pass.new.view.known.number ≡ pass.old.view.known.number }
{
    shared.look(rt, pass)
}

/// A run of the call that is ready first, where one is.
pub fn start<H: Handler, R: Abort + Wait>(
    rt: &R,
    shared: &Shared<H>,
    pass: &mut Pass<H>,
) -> Option<Running<H>>
    requires seat { IsSeat shared.now pass.old }
    ensures seat { IsSeat shared.now pass.new }
    ensures number { pass.new.view.known.number ≡ pass.old.view.known.number }
    ensures runs { IfSome result (Runs H.rule shared.now.base pass.new) }
{
    let Ok(next) = shared.start(rt, pass) else {
        panic!(rt; "refused")
    };
    next
}

/// The same, where one must be.
pub fn begin<H: Handler, R: Abort + Wait>(
    rt: &R,
    shared: &Shared<H>,
    pass: &mut Pass<H>,
) -> Running<H>
    requires seat { IsSeat shared.now pass.old }
    ensures seat { IsSeat shared.now pass.new }
    ensures runs { Runs H.rule shared.now.base pass.new result }
{
    let Some(running) = start(rt, shared, pass) else {
        panic!(rt; "no run")
    };
    running
}

/// The handler of a run is asked, and the run ends. Gives the handler where it comes back.
pub fn end<H: Handler, R: Abort + Wait>(
    rt: &R,
    shared: &Shared<H>,
    pass: &mut Pass<H>,
    mut running: Running<H>,
) -> Option<H>
    requires seat { IsSeat shared.now pass.old }
    requires runs { Runs H.rule shared.now.base pass.old running }
    ensures seat { IsSeat shared.now pass.new }
    ensures number { pass.new.view.known.number ≡ pass.old.view.known.number }
{
    if running.call().is_err() {
        panic!(rt; "no memory");
    }
    shared.finish(rt, pass, running)
}

/// Gives a call this handler.
pub fn replace<H: Handler, R: Wait>(
    rt: &R,
    shared: &Shared<H>,
    pass: &mut Pass<H>,
    call: u32,
    handler: H,
) -> Result<Option<H>, (H, ReplaceRefused)>
    requires seat { IsSeat shared.now pass.old }
    requires able { H.can_act handler }
    ensures seat { IsSeat shared.now pass.new }
    ensures number { pass.new.view.known.number ≡ pass.old.view.known.number }
{
    shared.replace(rt, pass, call, handler)
}

/// Cancels a call, which must be there.
pub fn cancel<H: Handler, R: Abort + Wait>(
    rt: &R,
    shared: &Shared<H>,
    pass: &mut Pass<H>,
    call: u32,
) -> Cancelled
    requires seat { IsSeat shared.now pass.old }
    ensures seat { IsSeat shared.now pass.new }
    ensures number { pass.new.view.known.number ≡ pass.old.view.known.number }
{
    let look = shared.look(rt, pass);
    assert!(rt; call < look.calls);
    shared.cancel(rt, pass, call)
}

/// The same, where no other pass has the lock.
pub fn try_cancel<H: Handler, R: Abort + Wait>(
    rt: &R,
    shared: &Shared<H>,
    pass: &mut Pass<H>,
    call: u32,
) -> Result<Cancelled, Busy>
    requires seat { IsSeat shared.now pass.old }
    ensures seat { IsSeat shared.now pass.new }
{
    let look = shared.look(rt, pass);
    assert!(rt; call < look.calls);
    shared.try_cancel(pass, call)
}

/// A call is cancelled, with this answer.
pub fn cancels<H: Handler, R: Abort + Wait>(
    rt: &R,
    shared: &Shared<H>,
    pass: &mut Pass<H>,
    call: u32,
    want: Cancelled,
)
    requires seat { IsSeat shared.now pass.old }
    ensures seat { IsSeat shared.now pass.new }
{
    assert_eq!(rt; cancel(rt, shared, pass, call), want);
}

/// The same, where no other pass has the lock.
pub fn tries_to_cancel<H: Handler, R: Abort + Wait>(
    rt: &R,
    shared: &Shared<H>,
    pass: &mut Pass<H>,
    call: u32,
    want: Cancelled,
)
    requires seat { IsSeat shared.now pass.old }
    ensures seat { IsSeat shared.now pass.new }
{
    assert_eq!(rt; try_cancel(rt, shared, pass, call), Ok(want));
}

/// A handler that a call didn't take came back with this letter and refusal.
pub fn refused(rt: &impl Abort, back: (Letter, ReplaceRefused), letter: u8, want: ReplaceRefused) {
    let (handler, refusal) = back;
    letter_is(rt, &handler, letter);
    assert_eq!(rt; refusal, want);
}
