//! The driver's steps at the table: a run begins and ends, something is said, the call is cancelled.
ghost use Rattle.std.specs.Prelude.{◌≡◌, true, Some, IfNone, IfOk, IfSome, OnErr, OnOk};
ghost use Rattle.rpc_handlers.specs.Limits.{is_long_out};
ghost use Rattle.rpc_shared.specs.OwnRuns.{Runs};
ghost use Rattle.rpc_journal.specs.Runs.{IsRunning};
ghost use Rattle.rpc_shared.specs.session.Sessions.{is_halted};
ghost use Rattle.live_client.specs.Driving.{Calm, CanDrive, Cuts, EndsRun, Speaks, TakesItem, TakesNone, is_running, is_saying, want_by};
ghost use Rattle.live_client.specs.declared.asks.utterance.Utterance.TheVariants.{Says, Completes};
ghost use Rattle.live_client.specs.Silent.{silent_rule};

use crate::asks::Utterance;
use crate::halting::{Halted, Seat, Table, halt};
use crate::silent::Silent;
use link_io::Why;
use rpc_calls::{Running, SayRefused, StartOfRefused};
use rpc_handlers::{MAX_PAYLOAD, Out};
use rpc_ids::Status;
use rpc_journal::Item;
use std::sync::Wait;

/// Begins a run of the call's handler, where an event waits for it.
pub(crate) fn begin_run<R: Wait>(
    rt: &R,
    table: &Table,
    pass: &mut Seat,
    call: u32,
) -> Result<Option<Running<Silent>>, Halted>
    requires can { CanDrive table.now call pass.old }
    ensures calm { Calm table.now call is_running pass.old pass.new }
    ensures runs { IfOk result (λ o. IfSome o (λ x. Runs silent_rule table.now.base pass.new x × (x.run.call ≡ call))) }
    ensures halted { OnErr result (is_halted table.now.base pass.new.view.known.seen ≡ true) }
{
    match table.start_of(rt, pass, call) {
        Ok(running) => Ok(Some(running)),
        Err(StartOfRefused::NotReady) => Ok(None),
        Err(StartOfRefused::JournalFull) => {
            halt(rt, table, pass, Why::JournalLimit);
            Err(Halted)
        }
        Err(StartOfRefused::Memory) => {
            halt(rt, table, pass, Why::Memory);
            Err(Halted)
        }
    }
}

/// Ends a run that was answered.
pub(crate) fn end_run<R: Wait>(
    rt: &R,
    table: &Table,
    pass: &mut Seat,
    call: u32,
    running: Running<Silent>,
)
    requires can { CanDrive table.now call pass.old }
    requires on { IsRunning silent_rule table.now.base pass.old.view.known.seen running.run }
    requires seat { running.run.seat ≡ pass.old.view.known.number }
    requires call { running.run.call ≡ call }
    requires answered { running.answer ≡ Some running.gives }
    ensures ends { EndsRun table.now call running.run.event pass.old pass.new }
{
    drop(table.finish(rt, pass, running));
}

/// Says this, or ends the client's stream, unless the table refuses it: the call has ended, or no frame takes it.
pub(crate) fn utter<R: Wait>(
    rt: &R,
    table: &Table,
    pass: &mut Seat,
    call: u32,
    utterance: Utterance,
) -> Result<(), Halted>
    requires can { CanDrive table.now call pass.old }
    ensures said { OnOk result (Speaks table.now call utterance pass.old pass.new) }
    ensures unsaid { OnErr result (Calm table.now call is_saying pass.old pass.new) }
    ensures halted { OnErr result (is_halted table.now.base pass.new.view.known.seen ≡ true) }
{
    match utterance {
        Utterance::Says(out) => say(rt, table, pass, call, out),
        Utterance::Completes => complete(rt, table, pass, call),
    }
}

// Says this, unless the table refuses it.
fn say<R: Wait>(rt: &R, table: &Table, pass: &mut Seat, call: u32, out: Out) -> Result<(), Halted>
    requires can { CanDrive table.now call pass.old }
    ensures said { OnOk result (Speaks table.now call (Says out) pass.old pass.new) }
    ensures unsaid { OnErr result (Calm table.now call is_saying pass.old pass.new) }
    ensures halted { OnErr result (is_halted table.now.base pass.new.view.known.seen ≡ true) }
{
    if is_long(&out) {
        return Ok(());
    }
    match table.say(rt, pass, call, out) {
        Ok(()) => Ok(()),
        Err(refused) => match want_of(refused) {
            None => Ok(()),
            Some(why) => {
                halt(rt, table, pass, why);
                Err(Halted)
            }
        },
    }
}

// Ends the client's stream, unless the table refuses that.
fn complete<R: Wait>(rt: &R, table: &Table, pass: &mut Seat, call: u32) -> Result<(), Halted>
    requires can { CanDrive table.now call pass.old }
    ensures said { OnOk result (Speaks table.now call Completes pass.old pass.new) }
    ensures unsaid { OnErr result (Calm table.now call is_saying pass.old pass.new) }
    ensures halted { OnErr result (is_halted table.now.base pass.new.view.known.seen ≡ true) }
{
    match table.done(rt, pass, call) {
        Ok(()) => Ok(()),
        Err(refused) => match want_of(refused) {
            None => Ok(()),
            Some(why) => {
                halt(rt, table, pass, why);
                Err(Halted)
            }
        },
    }
}

// What the table wanted, where it refused for want.
fn want_of(refused: SayRefused) -> Option<Why>
    ensures { result ≡ want_by refused }
{
    match refused {
        SayRefused::JournalFull => Some(Why::JournalLimit),
        SayRefused::Memory => Some(Why::Memory),
        SayRefused::Closed(_) | SayRefused::NoStream | SayRefused::Completed => None,
    }
}

fn is_long(out: &Out) -> bool
    ensures { result ≡ is_long_out out.now }
{
    match out {
        Out::Say(payload) => payload.len() > MAX_PAYLOAD,
        Out::Begin { .. } | Out::Append { .. } | Out::Commit { .. } | Out::Leave { .. } => false,
    }
}

/// Cancels the call, and answers its status: from then on none of its events is run.
pub(crate) fn cancel<R: Wait>(rt: &R, table: &Table, pass: &mut Seat, call: u32) -> Status
    requires can { CanDrive table.now call pass.old }
    ensures cuts { Cuts table.now call result pass.old pass.new }
{
    let status = table.cancel_wait(rt, pass, call);
    table.look(rt, pass);
    status
}

/// Takes the next item that goes out, where one waits.
pub(crate) fn take_item<R: Wait>(rt: &R, table: &Table, pass: &mut Seat, call: u32) -> Option<Item>
    requires can { CanDrive table.now call pass.old }
    ensures item { IfSome result (λ item. TakesItem table.now call item pass.old pass.new) }
    ensures none { IfNone result (TakesNone table.now call pass.old pass.new) }
{
    table.flush_front(rt, pass)
}
