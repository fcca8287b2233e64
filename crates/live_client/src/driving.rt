//! The driver's steps with its errand: it hears an event, goes on, says what it has to say, or has the call cancelled.
ghost use Rattle.std.specs.Prelude.{◌≡◌, ℕ, ◌≤◌, ◌++◌, [], ◌∷◌, List, Option, Ok, Some, None, true, false, Bool, is_ok, is_some, OnOk, OnErr};
ghost use Rattle.rpc_handlers.specs.declared.event.Event.{Event as Heard};
ghost use Rattle.rpc_ids.specs.declared.status.Status.{Status as End};
ghost use Rattle.rpc_journal.specs.declared.entry.EntryKind.{EntryKind};
ghost use Rattle.rpc_journal.specs.declared.item.Item.{Item};
ghost use Rattle.rpc_shared.specs.OwnRuns.{Runs};
ghost use Rattle.rpc_shared.specs.session.Crew.{Adds};
ghost use Rattle.rpc_shared.specs.session.Sessions.{is_halted};
ghost use Rattle.task_core.specs.bells.Bells.{Tower};
ghost use Rattle.live_client.specs.Driving.{CanDrive, Talks, is_cutting, is_running, is_saying};
ghost use Rattle.live_client.specs.Silent.{silent_rule};
ghost use Rattle.live_client.specs.asks.Tasks.{Given};
ghost use Rattle.live_client.specs.asks.Telling.{Progress, gone_on, said_all, unknown, when_over};

use crate::asks::Errand;
use crate::halting::{Halted, Seat, Table, halt};
use crate::silent::Silent;
use crate::stepping::{begin_run, cancel, end_run, utter};
use link_io::{Clock, Why};
use rpc_calls::Running;
use std::alloc::AllocError;
use std::sync::Wait;
use task_core::bells::Bells;

/// Runs the call's handler on its next event, which the errand hears once it has said all. False where there is none.
pub(crate) fn run_one<W: Errand, R: Wait>(
    rt: &R,
    table: &Table,
    pass: &mut Seat,
    call: u32,
    errand: &mut W,
) -> Result<bool, Halted>
    requires can { CanDrive table.now call pass.old }
    requires ready { W.ready errand.old }
    ensures adds { Adds silent_rule table.now is_running pass.old pass.new }
    ensures talks { (opening : EntryKind) (over : Bool) (start upto : ℕ) (items : List Item) → Talks W.watches opening (W.did errand.old said_all start upto) table.now call true over items pass.old → Talks W.watches opening (W.did errand.new (when_over over) start upto) table.now call true over items pass.new }
    ensures none { result ≡ Ok false → (opening : EntryKind) (over : Bool) (start upto : ℕ) (items : List Item) → Talks W.watches opening (W.did errand.old said_all start upto) table.now call true over items pass.old → Talks W.watches opening (W.did errand.new said_all start upto) table.now call true over items pass.new }
    ensures halted { OnErr result (is_halted table.now.base pass.new.view.known.seen ≡ true) }
    ensures uncut { OnErr result (W.cuts errand.old ≡ false → W.cuts errand.new ≡ false) }
    ensures over { (opening : EntryKind) (start upto : ℕ) (items : List Item) → Talks W.watches opening (W.did errand.old said_all start upto) table.now call true true items pass.old → W.cuts errand.old ≡ false → W.cuts errand.new ≡ false }
    ensures ready { W.ready errand.new }
    ensures origin { W.origin errand.new ≡ W.origin errand.old }
    ensures short { W.short errand.new ≡ W.short errand.old }
    ensures moment { W.moment errand.new ≡ W.moment errand.old }
    ensures fits { (tower : Tower) → W.fits errand.old tower → W.fits errand.new tower }
{
    if !errand.listens() {
        return Ok(false);
    }
    match begin_run(rt, table, pass, call) {
        Ok(None) => Ok(false),
        Ok(Some(running)) => hear_one(rt, table, pass, call, errand, running),
        Err(halted) => Err(halted),
    }
}

// The errand hears the event of a run, which ends then.
fn hear_one<W: Errand, R: Wait>(
    rt: &R,
    table: &Table,
    pass: &mut Seat,
    call: u32,
    errand: &mut W,
    mut running: Running<Silent>,
) -> Result<bool, Halted>
    requires can { CanDrive table.now call pass.old }
    requires ready { W.ready errand.old }
    requires runs { Runs silent_rule table.now.base pass.old running }
    requires call { running.run.call ≡ call }
    requires listens { W.listens errand.old ≡ true }
    ensures adds { Adds silent_rule table.now is_running pass.old pass.new }
    ensures talks { (opening : EntryKind) (over : Bool) (start upto : ℕ) (items : List Item) → Talks W.watches opening (W.did errand.old said_all start upto) table.now call true over items pass.old → Talks W.watches opening (W.did errand.new (when_over over) start upto) table.now call true over items pass.new }
    ensures heard { OnOk result (result ≡ Ok true) }
    ensures halted { OnErr result (is_halted table.now.base pass.new.view.known.seen ≡ true) }
    ensures uncut { OnErr result (W.cuts errand.old ≡ false → W.cuts errand.new ≡ false) }
    ensures over { (opening : EntryKind) (start upto : ℕ) (items : List Item) → Talks W.watches opening (W.did errand.old said_all start upto) table.now call true true items pass.old → W.cuts errand.old ≡ false → W.cuts errand.new ≡ false }
    ensures ready { W.ready errand.new }
    ensures origin { W.origin errand.new ≡ W.origin errand.old }
    ensures short { W.short errand.new ≡ W.short errand.old }
    ensures moment { W.moment errand.new ≡ W.moment errand.old }
    ensures fits { (tower : Tower) → W.fits errand.old tower → W.fits errand.new tower }
{
    if answer(&mut running, errand).is_err() {
        drop(running.spill());
        halt(rt, table, pass, Why::Memory);
        return Err(Halted);
    }
    end_run(rt, table, pass, call, running);
    Ok(true)
}

// The handler is asked, and the errand hears the event.
fn answer<W: Errand>(running: &mut Running<Silent>, errand: &mut W) -> Result<(), AllocError>
    requires unasked { running.old.answer ≡ None }
    requires ready { W.ready errand.old }
    requires listens { W.listens errand.old ≡ true }
    ensures run { (running.new.run ≡ running.old.run) × (running.new.gives ≡ running.old.gives) }
    ensures answered { OnOk result (running.new.answer ≡ Some running.new.gives) }
    ensures heard { OnOk result ((start upto : ℕ) (cut : Option End) (events : List Heard) (outs : List Given) (ended : Option End) → W.did errand.old said_all start upto cut events outs ended
        → (next : Option End) × W.did errand.new unknown start upto cut (events ++ running.old.run.event ∷ []) outs next × (is_some ended ≡ true → (next ≡ ended) × (W.cuts errand.new ≡ false) × W.did errand.new said_all start upto cut (events ++ running.old.run.event ∷ []) outs next)) }
    ensures kept { OnErr result ((far : Progress) (start upto : ℕ) (cut : Option End) (events : List Heard) (outs : List Given) (ended : Option End) → W.did errand.old far start upto cut events outs ended → W.did errand.new far start upto cut events outs ended) }
    ensures uncut { OnErr result (W.cuts errand.old ≡ false → W.cuts errand.new ≡ false) }
    ensures ready { W.ready errand.new }
    ensures origin { W.origin errand.new ≡ W.origin errand.old }
    ensures short { W.short errand.new ≡ W.short errand.old }
    ensures moment { W.moment errand.new ≡ W.moment errand.old }
    ensures fits { (tower : Tower) → W.fits errand.old tower → W.fits errand.new tower }
{
    running.call()?;
    let event = running.event().clone()?;
    errand.hear(event)
}

/// The errand goes on, at the moment that the clock gives.
pub(crate) fn go_on<W: Errand, C: Clock, R: Wait>(
    rt: &R,
    table: &Table,
    pass: &mut Seat,
    call: u32,
    errand: &mut W,
    bells: &Bells,
    clock: &mut C,
) -> Result<(), Halted>
    requires can { CanDrive table.now call pass.old }
    requires ready { W.ready errand.old }
    requires fits { W.fits errand.old bells.now }
    requires past { W.moment errand.old ≤ C.last clock.old }
    requires whole { W.short errand.old ≡ false }
    ensures adds { Adds silent_rule table.now is_saying pass.old pass.new }
    ensures talks { (opening : EntryKind) (far : Progress) (over : Bool) (start : ℕ) (items : List Item) → start ≤ C.last clock.old → Talks W.watches opening (W.did errand.old far start (C.last clock.old)) table.now call true over items pass.old → Talks W.watches opening (W.did errand.new gone_on start (C.last clock.new)) table.now call true false items pass.new }
    ensures halted { OnErr result (is_halted table.now.base pass.new.view.known.seen ≡ true) }
    ensures uncut { OnErr result (W.cuts errand.old ≡ false → W.cuts errand.new ≡ false) }
    ensures ready { W.ready errand.new }
    ensures origin { W.origin errand.new ≡ W.origin errand.old }
    ensures whole { OnOk result (W.short errand.new ≡ false) }
    ensures fits { W.fits errand.new bells.now }
    ensures past { W.moment errand.new ≤ C.last clock.new }
    ensures later { C.last clock.old ≤ C.last clock.new }
{
    let now = clock.now();
    if errand.go_on(bells, now).is_err() {
        halt(rt, table, pass, Why::Memory);
        return Err(Halted);
    }
    Ok(())
}

/// Says what the errand has to say next. False where it has nothing.
pub(crate) fn say_one<W: Errand, R: Wait>(
    rt: &R,
    table: &Table,
    pass: &mut Seat,
    call: u32,
    errand: &mut W,
) -> Result<bool, Halted>
    requires can { CanDrive table.now call pass.old }
    requires ready { W.ready errand.old }
    ensures adds { Adds silent_rule table.now is_saying pass.old pass.new }
    ensures talks { (opening : EntryKind) (far : Progress) (start upto : ℕ) (items : List Item) → Talks W.watches opening (W.did errand.old far start upto) table.now call true false items pass.old → Talks W.watches opening (W.did errand.new unknown start upto) table.now call (is_ok result) false items pass.new }
    ensures none { result ≡ Ok false → (opening : EntryKind) (start upto : ℕ) (items : List Item) → Talks W.watches opening (W.did errand.old gone_on start upto) table.now call true false items pass.old → Talks W.watches opening (W.did errand.new said_all start upto) table.now call true false items pass.new }
    ensures halted { OnErr result (is_halted table.now.base pass.new.view.known.seen ≡ true) }
    ensures uncut { W.cuts errand.new ≡ W.cuts errand.old }
    ensures ready { W.ready errand.new }
    ensures origin { W.origin errand.new ≡ W.origin errand.old }
    ensures short { W.short errand.new ≡ W.short errand.old }
    ensures moment { W.moment errand.new ≡ W.moment errand.old }
    ensures fits { (tower : Tower) → W.fits errand.old tower → W.fits errand.new tower }
{
    match errand.next_out() {
        None => Ok(false),
        Some(utterance) => match utter(rt, table, pass, call, utterance) {
            Ok(()) => Ok(true),
            Err(halted) => Err(halted),
        },
    }
}

/// Cancels the call, where the errand has enough of it.
pub(crate) fn cut_one<W: Errand, R: Wait>(
    rt: &R,
    table: &Table,
    pass: &mut Seat,
    call: u32,
    errand: &mut W,
)
    requires can { CanDrive table.now call pass.old }
    requires ready { W.ready errand.old }
    ensures adds { Adds silent_rule table.now is_cutting pass.old pass.new }
    ensures talks { (opening : EntryKind) (far : Progress) (start upto : ℕ) (items : List Item) → Talks W.watches opening (W.did errand.old far start upto) table.now call true false items pass.old → Talks W.watches opening (W.did errand.new far start upto) table.now call true false items pass.new }
    ensures uncut { W.cuts errand.new ≡ false }
    ensures ready { W.ready errand.new }
    ensures origin { W.origin errand.new ≡ W.origin errand.old }
    ensures short { W.short errand.new ≡ W.short errand.old }
    ensures moment { W.moment errand.new ≡ W.moment errand.old }
    ensures fits { (tower : Tower) → W.fits errand.old tower → W.fits errand.new tower }
{
    if errand.cuts() {
        errand.cut(cancel(rt, table, pass, call));
    }
}
