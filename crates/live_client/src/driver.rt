//! The driver: it talks until its errand has ended and all is said, tells the link that nothing more comes, and winds up.
ghost use Rattle.std.specs.Prelude.{◌≡◌, ◌⊎◌, ◌||◌, ℕ, ◌≤◌, List, Option, Ok, true, false, is_ok, Bool, OnErr, OnOk};
ghost use Rattle.std.specs.Io.KnownBytes.{Keeps};
ghost use Rattle.link_io.specs.Causes.{Rose};
ghost use Rattle.link_io.specs.Stored.{Stored};
ghost use Rattle.link_io.specs.declared.why.Why.TheVariants.{Sink as Link, Store as Depot};
ghost use Rattle.turn_cell.specs.Passes.{IsSame};
ghost use Rattle.rpc_journal.specs.declared.entry.EntryKind.{EntryKind};
ghost use Rattle.rpc_journal.specs.declared.item.Item.{Item};
ghost use Rattle.rpc_journal.specs.History.{history};
ghost use Rattle.rpc_journal.specs.Quiet.{is_settled};
ghost use Rattle.rpc_shared.specs.session.Crew.{Adds};
ghost use Rattle.task_core.specs.bells.Bells.{Tower};
ghost use Rattle.rpc_shared.specs.session.Leaving.{HangsUp};
ghost use Rattle.rpc_shared.specs.session.Ring.{HaltsFor};
ghost use Rattle.rpc_shared.specs.session.Sessions.{is_halted};
ghost use Rattle.live_client.specs.Driving.{Calm, CanDrive, Drove, HasWorked, Rests, Talks, Works, is_flushing, is_running, is_saying, is_talking};
ghost use Rattle.live_client.specs.Silent.{silent_rule};
ghost use Rattle.live_client.specs.asks.Telling.{Progress, said_all, unknown};

use crate::asks::Errand;
use crate::driving::{cut_one, go_on, run_one, say_one};
use crate::halting::{Halted, Seat, Table, halt};
use crate::signal::ROUND;
use crate::wakes::Wakes;
use crate::writing::flush_one;
use link_io::{Clock, Sink, Store, Why};
use rpc_shared::session::hanging_up::hang_up;
use std::alloc::Global;
use std::sync::Wait;
use task_core::bells::Bells;

// The errand hears an event, and the call is cancelled where it has enough.
fn listen<W: Errand, R: Wait>(
    rt: &R,
    table: &Table,
    pass: &mut Seat,
    call: u32,
    errand: &mut W,
) -> Result<bool, Halted>
    requires can { CanDrive table.now call pass.old }
    requires ready { W.ready errand.old }
    requires uncut { W.cuts errand.old ≡ false }
    ensures adds { Adds silent_rule table.now is_talking pass.old pass.new }
    ensures talks { (opening : EntryKind) (start upto : ℕ) (items : List Item) → Talks W.watches opening (W.did errand.old said_all start upto) table.now call true false items pass.old → Talks W.watches opening (W.did errand.new unknown start upto) table.now call true false items pass.new }
    ensures none { result ≡ Ok false → (opening : EntryKind) (start upto : ℕ) (items : List Item) → Talks W.watches opening (W.did errand.old said_all start upto) table.now call true false items pass.old → Talks W.watches opening (W.did errand.new said_all start upto) table.now call true false items pass.new }
    ensures halted { OnErr result (is_halted table.now.base pass.new.view.known.seen ≡ true) }
    ensures uncut { W.cuts errand.new ≡ false }
    ensures ready { W.ready errand.new }
    ensures origin { W.origin errand.new ≡ W.origin errand.old }
    ensures short { W.short errand.new ≡ W.short errand.old }
    ensures moment { W.moment errand.new ≡ W.moment errand.old }
    ensures fits { (tower : Tower) → W.fits errand.old tower → W.fits errand.new tower }
{
    match run_one(rt, table, pass, call, errand) {
        Ok(heard) => {
            cut_one(rt, table, pass, call, errand);
            Ok(heard)
        }
        Err(halted) => Err(halted),
    }
}

// The errand goes on, the call is cancelled where its time has passed, and the errand says what it has to say next. False where it
// has nothing.
fn speak<W: Errand, C: Clock, R: Wait>(
    rt: &R,
    table: &Table,
    pass: &mut Seat,
    call: u32,
    errand: &mut W,
    bells: &Bells,
    clock: &mut C,
) -> Result<bool, Halted>
    requires can { CanDrive table.now call pass.old }
    requires ready { W.ready errand.old }
    requires fits { W.fits errand.old bells.now }
    requires past { W.moment errand.old ≤ C.last clock.old }
    requires whole { W.short errand.old ≡ false }
    requires uncut { W.cuts errand.old ≡ false }
    ensures adds { Adds silent_rule table.now is_talking pass.old pass.new }
    ensures talks { OnOk result ((opening : EntryKind) (far : Progress) (start : ℕ) (items : List Item) → start ≤ C.last clock.old → Talks W.watches opening (W.did errand.old far start (C.last clock.old)) table.now call true false items pass.old → Talks W.watches opening (W.did errand.new unknown start (C.last clock.new)) table.now call true false items pass.new) }
    ensures none { result ≡ Ok false → (opening : EntryKind) (far : Progress) (start : ℕ) (items : List Item) → start ≤ C.last clock.old → Talks W.watches opening (W.did errand.old far start (C.last clock.old)) table.now call true false items pass.old → Talks W.watches opening (W.did errand.new said_all start (C.last clock.new)) table.now call true false items pass.new }
    ensures stopped { OnErr result ((opening : EntryKind) (far : Progress) (start : ℕ) (items : List Item) → start ≤ C.last clock.old → Talks W.watches opening (W.did errand.old far start (C.last clock.old)) table.now call true false items pass.old → Talks W.watches opening (W.did errand.new unknown start (C.last clock.new)) table.now call false false items pass.new) }
    ensures halted { OnErr result (is_halted table.now.base pass.new.view.known.seen ≡ true) }
    ensures uncut { W.cuts errand.new ≡ false }
    ensures ready { W.ready errand.new }
    ensures origin { W.origin errand.new ≡ W.origin errand.old }
    ensures whole { OnOk result (W.short errand.new ≡ false) }
    ensures fits { W.fits errand.new bells.now }
    ensures past { W.moment errand.new ≤ C.last clock.new }
    ensures later { C.last clock.old ≤ C.last clock.new }
{
    match go_on(rt, table, pass, call, errand, bells, clock) {
        Ok(()) => {
            cut_one(rt, table, pass, call, errand);
            say_one(rt, table, pass, call, errand)
        }
        Err(halted) => Err(halted),
    }
}

// It goes on, and speaks; where it has nothing to say it listens. False where nothing was said or heard.
fn talk<W: Errand, C: Clock, R: Wait>(
    rt: &R,
    table: &Table,
    pass: &mut Seat,
    call: u32,
    errand: &mut W,
    bells: &Bells,
    clock: &mut C,
) -> Result<bool, Halted>
    requires can { CanDrive table.now call pass.old }
    requires ready { W.ready errand.old }
    requires fits { W.fits errand.old bells.now }
    requires past { W.moment errand.old ≤ C.last clock.old }
    requires whole { W.short errand.old ≡ false }
    requires uncut { W.cuts errand.old ≡ false }
    ensures adds { Adds silent_rule table.now is_talking pass.old pass.new }
    ensures talks { OnOk result ((opening : EntryKind) (far : Progress) (start : ℕ) (items : List Item) → start ≤ C.last clock.old → Talks W.watches opening (W.did errand.old far start (C.last clock.old)) table.now call true false items pass.old → Talks W.watches opening (W.did errand.new unknown start (C.last clock.new)) table.now call true false items pass.new) }
    ensures none { result ≡ Ok false → (opening : EntryKind) (far : Progress) (start : ℕ) (items : List Item) → start ≤ C.last clock.old → Talks W.watches opening (W.did errand.old far start (C.last clock.old)) table.now call true false items pass.old → Talks W.watches opening (W.did errand.new said_all start (C.last clock.new)) table.now call true false items pass.new }
    ensures stopped { OnErr result ((opening : EntryKind) (far : Progress) (start : ℕ) (items : List Item) → start ≤ C.last clock.old → Talks W.watches opening (W.did errand.old far start (C.last clock.old)) table.now call true false items pass.old → (some : Progress) × Talks W.watches opening (W.did errand.new some start (C.last clock.new)) table.now call false false items pass.new) }
    ensures halted { OnErr result (is_halted table.now.base pass.new.view.known.seen ≡ true) }
    ensures uncut { W.cuts errand.new ≡ false }
    ensures ready { W.ready errand.new }
    ensures origin { W.origin errand.new ≡ W.origin errand.old }
    ensures whole { OnOk result (W.short errand.new ≡ false) }
    ensures fits { W.fits errand.new bells.now }
    ensures past { W.moment errand.new ≤ C.last clock.new }
    ensures later { C.last clock.old ≤ C.last clock.new }
{
    match speak(rt, table, pass, call, errand, bells, clock) {
        Ok(true) => Ok(true),
        Ok(false) => listen(rt, table, pass, call, errand),
        Err(halted) => Err(halted),
    }
}

// A round: it talks, and flushes an item. False where nothing was done.
fn round<W: Errand, O: Sink, S: Store, C: Clock, R: Wait>(
    rt: &R,
    alloc: Global,
    table: &Table,
    pass: &mut Seat,
    call: u32,
    errand: &mut W,
    bells: &Bells,
    output: &mut O,
    store: &mut S,
    clock: &mut C,
) -> Result<bool, Halted>
    requires can { CanDrive table.now call pass.old }
    requires ready { W.ready errand.old }
    requires fits { W.fits errand.old bells.now }
    requires past { W.moment errand.old ≤ C.last clock.old }
    requires whole { W.short errand.old ≡ false }
    requires uncut { W.cuts errand.old ≡ false }
    requires open { O.finished output.old ≡ false }
    ensures can { CanDrive table.now call pass.new }
    ensures same { IsSame pass.old pass.new }
    ensures works { OnOk result ((opening : EntryKind) (far : Progress) (start : ℕ) (w0 : Option (List ℕ)) (d0 : Option Stored) (f0 g0 : ℕ) → start ≤ C.last clock.old
        → Works W.watches opening (W.did errand.old far start (C.last clock.old)) table.now call false false w0 (O.written output.old) d0 (S.holds store.old) f0 (O.faults output.old) g0 (S.faults store.old) pass.old
        → Works W.watches opening (W.did errand.new unknown start (C.last clock.new)) table.now call false false w0 (O.written output.new) d0 (S.holds store.new) f0 (O.faults output.new) g0 (S.faults store.new) pass.new) }
    ensures none { result ≡ Ok false → (opening : EntryKind) (far : Progress) (start : ℕ) (w0 : Option (List ℕ)) (d0 : Option Stored) (f0 g0 : ℕ) → start ≤ C.last clock.old
        → Works W.watches opening (W.did errand.old far start (C.last clock.old)) table.now call false false w0 (O.written output.old) d0 (S.holds store.old) f0 (O.faults output.old) g0 (S.faults store.old) pass.old
        → Works W.watches opening (W.did errand.new said_all start (C.last clock.new)) table.now call false false w0 (O.written output.new) d0 (S.holds store.new) f0 (O.faults output.new) g0 (S.faults store.new) pass.new }
    ensures rests { result ≡ Ok false → Rests table.now pass.new }
    ensures worked { OnErr result ((opening : EntryKind) (far : Progress) (start : ℕ) (w0 : Option (List ℕ)) (d0 : Option Stored) (f0 g0 : ℕ) → start ≤ C.last clock.old
        → Works W.watches opening (W.did errand.old far start (C.last clock.old)) table.now call false false w0 (O.written output.old) d0 (S.holds store.old) f0 (O.faults output.old) g0 (S.faults store.old) pass.old
        → HasWorked W.watches opening (λ some. W.did errand.new some start (C.last clock.new)) table.now call w0 (O.written output.new) d0 (S.holds store.new) f0 (O.faults output.new) g0 (S.faults store.new) pass.new) }
    ensures halted { OnErr result (is_halted table.now.base pass.new.view.known.seen ≡ true) }
    ensures uncut { W.cuts errand.new ≡ false }
    ensures ready { W.ready errand.new }
    ensures origin { W.origin errand.new ≡ W.origin errand.old }
    ensures whole { OnOk result (W.short errand.new ≡ false) }
    ensures fits { W.fits errand.new bells.now }
    ensures past { W.moment errand.new ≤ C.last clock.new }
    ensures later { C.last clock.old ≤ C.last clock.new }
    ensures faults { (O.faults output.old ≤ O.faults output.new) × (S.faults store.old ≤ S.faults store.new) }
    ensures open { O.finished output.new ≡ false }
{
    match talk(rt, table, pass, call, errand, bells, clock) {
        Ok(talked) => match flush_one(rt, alloc, table, pass, call, false, output, store) {
            Ok(flushed) => stands(rt, table, pass, call, either(talked, flushed)),
            Err(halted) => Err(halted),
        },
        Err(halted) => Err(halted),
    }
}

// This, where the table isn't halted.
fn stands<R: Wait>(
    rt: &R,
    table: &Table,
    pass: &mut Seat,
    call: u32,
    busy: bool,
) -> Result<bool, Halted>
    requires can { CanDrive table.now call pass.old }
    ensures calm { Calm table.now call is_saying pass.old pass.new }
    ensures mine { pass.new.view.known.mine ≡ pass.old.view.known.mine }
    ensures same { OnOk result (result ≡ Ok busy) }
    ensures unhalted { OnOk result (is_halted table.now.base pass.new.view.known.seen ≡ false) }
    ensures halted { OnErr result (is_halted table.now.base pass.new.view.known.seen ≡ true) }
{
    if table.look(rt, pass).halted.is_some() {
        return Err(Halted);
    }
    Ok(busy)
}

fn either(first: bool, second: bool) -> bool
    ensures { result ≡ (first || second) }
{
    first || second
}

// Rounds, until the errand has ended and all is said and flushed.
fn converse<W: Errand, O: Sink, S: Store, C: Clock, R: Wait>(
    rt: &R,
    alloc: Global,
    table: &Table,
    pass: &mut Seat,
    call: u32,
    errand: &mut W,
    wakes: &Wakes,
    output: &mut O,
    store: &mut S,
    clock: &mut C,
) -> Result<(), Halted>
    requires can { CanDrive table.now call pass.old }
    requires ready { W.ready errand.old }
    requires fits { W.fits errand.old wakes.now.bells }
    requires past { W.moment errand.old ≤ C.last clock.old }
    requires whole { W.short errand.old ≡ false }
    requires uncut { W.cuts errand.old ≡ false }
    requires open { O.finished output.old ≡ false }
    ensures can { CanDrive table.now call pass.new }
    ensures same { IsSame pass.old pass.new }
    ensures works { OnOk result ((opening : EntryKind) (far : Progress) (start : ℕ) (w0 : Option (List ℕ)) (d0 : Option Stored) (f0 g0 : ℕ) → start ≤ C.last clock.old
        → Works W.watches opening (W.did errand.old far start (C.last clock.old)) table.now call false false w0 (O.written output.old) d0 (S.holds store.old) f0 (O.faults output.old) g0 (S.faults store.old) pass.old
        → Works W.watches opening (W.did errand.new said_all start (C.last clock.new)) table.now call true false w0 (O.written output.new) d0 (S.holds store.new) f0 (O.faults output.new) g0 (S.faults store.new) pass.new) }
    ensures rests { OnOk result (Rests table.now pass.new) }
    ensures worked { OnErr result ((opening : EntryKind) (far : Progress) (start : ℕ) (w0 : Option (List ℕ)) (d0 : Option Stored) (f0 g0 : ℕ) → start ≤ C.last clock.old
        → Works W.watches opening (W.did errand.old far start (C.last clock.old)) table.now call false false w0 (O.written output.old) d0 (S.holds store.old) f0 (O.faults output.old) g0 (S.faults store.old) pass.old
        → HasWorked W.watches opening (λ some. W.did errand.new some start (C.last clock.new)) table.now call w0 (O.written output.new) d0 (S.holds store.new) f0 (O.faults output.new) g0 (S.faults store.new) pass.new) }
    ensures halted { OnErr result (is_halted table.now.base pass.new.view.known.seen ≡ true) }
    ensures uncut { W.cuts errand.new ≡ false }
    ensures ready { W.ready errand.new }
    ensures origin { W.origin errand.new ≡ W.origin errand.old }
    ensures whole { OnOk result (W.short errand.new ≡ false) }
    ensures later { C.last clock.old ≤ C.last clock.new }
    ensures faults { (O.faults output.old ≤ O.faults output.new) × (S.faults store.old ≤ S.faults store.new) }
    ensures open { O.finished output.new ≡ false }
{
    for _ in rt.forever() {
        let heard = wakes.signals.driver.rings();
        match round(
            rt,
            alloc,
            table,
            pass,
            call,
            errand,
            &wakes.bells,
            output,
            store,
            clock,
        ) {
            Ok(true) => wakes.signals.reader.ring(),
            Ok(false) => {
                if errand.end().is_some() {
                    return Ok(());
                }
                wakes.signals.driver.wait_for(rt, heard, ROUND);
            }
            Err(halted) => return Err(halted),
        }
    }
    unreachable!()
}

// Tells the link that nothing more comes.
fn end_output<O: Sink, R: Wait>(
    rt: &R,
    table: &Table,
    pass: &mut Seat,
    call: u32,
    output: &mut O,
) -> Result<(), Halted>
    requires can { CanDrive table.now call pass.old }
    requires open { O.finished output.old ≡ false }
    ensures calm { Calm table.now call is_flushing pass.old pass.new }
    ensures kept { OnOk result (pass.new ≡ pass.old) }
    ensures bytes { Keeps (O.written output.old) (O.written output.new) }
    ensures finished { OnOk result (O.finished output.new ≡ true) }
    ensures failed { OnErr result (Rose (O.faults output.old) (O.faults output.new)) }
    ensures sink { HaltsFor Link pass.new.view.known.mine → HaltsFor Link pass.old.view.known.mine ⊎ Rose (O.faults output.old) (O.faults output.new) }
    ensures store { HaltsFor Depot pass.new.view.known.mine → HaltsFor Depot pass.old.view.known.mine }
    ensures halted { OnErr result (is_halted table.now.base pass.new.view.known.seen ≡ true) }
    ensures later { O.faults output.old ≤ O.faults output.new }
{
    match output.finish() {
        Ok(()) => Ok(()),
        Err(_) => {
            halt(rt, table, pass, Why::Sink);
            Err(Halted)
        }
    }
}

// A round behind the end of the output: the errand hears an event, and an item is flushed.
fn wind<W: Errand, O: Sink, S: Store, R: Wait>(
    rt: &R,
    alloc: Global,
    table: &Table,
    pass: &mut Seat,
    call: u32,
    errand: &mut W,
    output: &mut O,
    store: &mut S,
) -> Result<bool, Halted>
    requires can { CanDrive table.now call pass.old }
    requires ready { W.ready errand.old }
    requires closed { O.finished output.old ≡ true }
    ensures can { CanDrive table.now call pass.new }
    ensures same { IsSame pass.old pass.new }
    ensures works { OnOk result ((opening : EntryKind) (start upto : ℕ) (w0 : Option (List ℕ)) (d0 : Option Stored) (f0 g0 : ℕ)
        → Works W.watches opening (W.did errand.old said_all start upto) table.now call true true w0 (O.written output.old) d0 (S.holds store.old) f0 (O.faults output.old) g0 (S.faults store.old) pass.old
        → Works W.watches opening (W.did errand.new said_all start upto) table.now call true true w0 (O.written output.new) d0 (S.holds store.new) f0 (O.faults output.new) g0 (S.faults store.new) pass.new) }
    ensures worked { OnErr result ((opening : EntryKind) (start upto : ℕ) (w0 : Option (List ℕ)) (d0 : Option Stored) (f0 g0 : ℕ)
        → Works W.watches opening (W.did errand.old said_all start upto) table.now call true true w0 (O.written output.old) d0 (S.holds store.old) f0 (O.faults output.old) g0 (S.faults store.old) pass.old
        → HasWorked W.watches opening (λ some. W.did errand.new some start upto) table.now call w0 (O.written output.new) d0 (S.holds store.new) f0 (O.faults output.new) g0 (S.faults store.new) pass.new) }
    ensures uncut { (opening : EntryKind) (start upto : ℕ) (w0 : Option (List ℕ)) (d0 : Option Stored) (f0 g0 : ℕ)
        → Works W.watches opening (W.did errand.old said_all start upto) table.now call true true w0 (O.written output.old) d0 (S.holds store.old) f0 (O.faults output.old) g0 (S.faults store.old) pass.old
        → W.cuts errand.old ≡ false → W.cuts errand.new ≡ false }
    ensures halted { OnErr result (is_halted table.now.base pass.new.view.known.seen ≡ true) }
    ensures ready { W.ready errand.new }
    ensures origin { W.origin errand.new ≡ W.origin errand.old }
    ensures short { W.short errand.new ≡ W.short errand.old }
    ensures faults { (O.faults output.old ≤ O.faults output.new) × (S.faults store.old ≤ S.faults store.new) }
    ensures closed { O.finished output.new ≡ true }
{
    match run_one(rt, table, pass, call, errand) {
        Ok(heard) => match flush_one(rt, alloc, table, pass, call, true, output, store) {
            Ok(flushed) => stands(rt, table, pass, call, either(heard, flushed)),
            Err(halted) => Err(halted),
        },
        Err(halted) => Err(halted),
    }
}

// Rounds behind the end of the output, until the table is settled.
fn wind_up<W: Errand, O: Sink, S: Store, R: Wait>(
    rt: &R,
    alloc: Global,
    table: &Table,
    pass: &mut Seat,
    call: u32,
    errand: &mut W,
    wakes: &Wakes,
    output: &mut O,
    store: &mut S,
) -> Result<(), Halted>
    requires can { CanDrive table.now call pass.old }
    requires ready { W.ready errand.old }
    requires closed { O.finished output.old ≡ true }
    ensures can { CanDrive table.now call pass.new }
    ensures same { IsSame pass.old pass.new }
    ensures works { OnOk result ((opening : EntryKind) (start upto : ℕ) (w0 : Option (List ℕ)) (d0 : Option Stored) (f0 g0 : ℕ)
        → Works W.watches opening (W.did errand.old said_all start upto) table.now call true true w0 (O.written output.old) d0 (S.holds store.old) f0 (O.faults output.old) g0 (S.faults store.old) pass.old
        → Works W.watches opening (W.did errand.new said_all start upto) table.now call true true w0 (O.written output.new) d0 (S.holds store.new) f0 (O.faults output.new) g0 (S.faults store.new) pass.new) }
    ensures worked { OnErr result ((opening : EntryKind) (start upto : ℕ) (w0 : Option (List ℕ)) (d0 : Option Stored) (f0 g0 : ℕ)
        → Works W.watches opening (W.did errand.old said_all start upto) table.now call true true w0 (O.written output.old) d0 (S.holds store.old) f0 (O.faults output.old) g0 (S.faults store.old) pass.old
        → HasWorked W.watches opening (λ some. W.did errand.new some start upto) table.now call w0 (O.written output.new) d0 (S.holds store.new) f0 (O.faults output.new) g0 (S.faults store.new) pass.new) }
    ensures uncut { (opening : EntryKind) (start upto : ℕ) (w0 : Option (List ℕ)) (d0 : Option Stored) (f0 g0 : ℕ)
        → Works W.watches opening (W.did errand.old said_all start upto) table.now call true true w0 (O.written output.old) d0 (S.holds store.old) f0 (O.faults output.old) g0 (S.faults store.old) pass.old
        → W.cuts errand.old ≡ false → W.cuts errand.new ≡ false }
    ensures settled { OnOk result (is_settled (history table.now.base pass.new.view.known.seen) ≡ true) }
    ensures halted { OnErr result (is_halted table.now.base pass.new.view.known.seen ≡ true) }
    ensures ready { W.ready errand.new }
    ensures origin { W.origin errand.new ≡ W.origin errand.old }
    ensures short { W.short errand.new ≡ W.short errand.old }
    ensures closed { O.finished output.new ≡ true }
    ensures faults { (O.faults output.old ≤ O.faults output.new) × (S.faults store.old ≤ S.faults store.new) }
{
    for _ in rt.forever() {
        let heard = wakes.signals.driver.rings();
        match wind(rt, alloc, table, pass, call, errand, output, store) {
            Ok(true) => wakes.signals.reader.ring(),
            Ok(false) => {
                if is_done(rt, table, pass, call) {
                    return Ok(());
                }
                wakes.signals.driver.wait_for(rt, heard, ROUND);
            }
            Err(halted) => return Err(halted),
        }
    }
    unreachable!()
}

// Whether nothing is left to do.
fn is_done<R: Wait>(rt: &R, table: &Table, pass: &mut Seat, call: u32) -> bool
    requires can { CanDrive table.now call pass.old }
    ensures calm { Calm table.now call is_running pass.old pass.new }
    ensures settled { result ≡ true → is_settled (history table.now.base pass.new.view.known.seen) ≡ true }
{
    table.look(rt, pass).settled
}

/// Drives the call until its errand has ended and the table is settled, or halted. At a halt, too, the output is told that nothing
/// more comes, so that the other end doesn't wait for it.
pub(crate) fn drive<W: Errand, O: Sink, S: Store, C: Clock, R: Wait>(
    rt: &R,
    alloc: Global,
    table: &Table,
    pass: &mut Seat,
    call: u32,
    errand: &mut W,
    wakes: &Wakes,
    output: &mut O,
    store: &mut S,
    clock: &mut C,
) -> Result<(), Halted>
    requires can { CanDrive table.now call pass.old }
    requires ready { W.ready errand.old }
    requires fits { W.fits errand.old wakes.now.bells }
    requires past { W.moment errand.old ≤ C.last clock.old }
    requires whole { W.short errand.old ≡ false }
    requires uncut { W.cuts errand.old ≡ false }
    requires open { O.finished output.old ≡ false }
    ensures can { CanDrive table.now call pass.new }
    ensures same { IsSame pass.old pass.new }
    ensures works { OnOk result ((opening : EntryKind) (far : Progress) (start : ℕ) (w0 : Option (List ℕ)) (d0 : Option Stored) (f0 g0 : ℕ) → start ≤ C.last clock.old
        → Works W.watches opening (W.did errand.old far start (C.last clock.old)) table.now call false false w0 (O.written output.old) d0 (S.holds store.old) f0 (O.faults output.old) g0 (S.faults store.old) pass.old
        → Works W.watches opening (W.did errand.new said_all start (C.last clock.new)) table.now call true true w0 (O.written output.new) d0 (S.holds store.new) f0 (O.faults output.new) g0 (S.faults store.new) pass.new) }
    ensures worked { OnErr result ((opening : EntryKind) (far : Progress) (start : ℕ) (w0 : Option (List ℕ)) (d0 : Option Stored) (f0 g0 : ℕ) → start ≤ C.last clock.old
        → Works W.watches opening (W.did errand.old far start (C.last clock.old)) table.now call false false w0 (O.written output.old) d0 (S.holds store.old) f0 (O.faults output.old) g0 (S.faults store.old) pass.old
        → HasWorked W.watches opening (λ some. W.did errand.new some start (C.last clock.new)) table.now call w0 (O.written output.new) d0 (S.holds store.new) f0 (O.faults output.new) g0 (S.faults store.new) pass.new) }
    ensures uncut { (opening : EntryKind) (far : Progress) (start : ℕ) (w0 : Option (List ℕ)) (d0 : Option Stored) (f0 g0 : ℕ) → start ≤ C.last clock.old
        → Works W.watches opening (W.did errand.old far start (C.last clock.old)) table.now call false false w0 (O.written output.old) d0 (S.holds store.old) f0 (O.faults output.old) g0 (S.faults store.old) pass.old
        → W.cuts errand.new ≡ false }
    ensures settled { OnOk result (is_settled (history table.now.base pass.new.view.known.seen) ≡ true) }
    ensures halted { OnErr result (is_halted table.now.base pass.new.view.known.seen ≡ true) }
    ensures ready { W.ready errand.new }
    ensures origin { W.origin errand.new ≡ W.origin errand.old }
    ensures whole { OnOk result (W.short errand.new ≡ false) }
    ensures finished { OnOk result (O.finished output.new ≡ true) }
    ensures hangs_up { HangsUp (O.finished output.new) (O.faults output.old) (O.faults output.new) }
    ensures later { C.last clock.old ≤ C.last clock.new }
    ensures faults { (O.faults output.old ≤ O.faults output.new) × (S.faults store.old ≤ S.faults store.new) }
{
    match converse(
        rt, alloc, table, pass, call, errand, wakes, output, store, clock,
    ) {
        Ok(()) => match end_output(rt, table, pass, call, output) {
            Ok(()) => wind_up(rt, alloc, table, pass, call, errand, wakes, output, store),
            Err(halted) => Err(halted),
        },
        Err(halted) => {
            hang_up(output);
            Err(halted)
        }
    }
}

// Whether the reader begins, within ten seconds.
fn reader_begins<R: Wait>(rt: &R, wakes: &Wakes) -> bool {
    for _ in 0..2_000 {
        if wakes.signals.begun.rings() > 0 {
            return true;
        }
        wakes.signals.begun.wait_for(rt, 0, 5);
    }
    false
}

// Halts the table for want of memory.
fn give_up<R: Wait>(rt: &R, table: &Table, pass: &mut Seat, call: u32)
    requires can { CanDrive table.now call pass.old }
    ensures calm { Calm table.now call is_saying pass.old pass.new }
    ensures halted { is_halted table.now.base pass.new.view.known.seen ≡ true }
{
    let _ = call;
    halt(rt, table, pass, Why::Memory);
}

/// The same, once the reader has begun. Where it doesn't begin the table is halted for want of memory.
pub(crate) fn drive_met<W: Errand, O: Sink, S: Store, C: Clock, R: Wait>(
    rt: &R,
    alloc: Global,
    table: &Table,
    pass: &mut Seat,
    call: u32,
    errand: &mut W,
    wakes: &Wakes,
    output: &mut O,
    store: &mut S,
    clock: &mut C,
) -> Result<(), Halted>
    requires can { CanDrive table.now call pass.old }
    requires ready { W.ready errand.old }
    requires fits { W.fits errand.old wakes.now.bells }
    requires past { W.moment errand.old ≤ C.last clock.old }
    requires whole { W.short errand.old ≡ false }
    requires uncut { W.cuts errand.old ≡ false }
    requires open { O.finished output.old ≡ false }
    ensures can { CanDrive table.now call pass.new }
    ensures same { IsSame pass.old pass.new }
    ensures drove { Drove W.watches (W.did errand.old) (W.did errand.new) (W.cuts errand.new) table.now call (is_ok result) (C.last clock.old) (C.last clock.new) (O.written output.old) (O.written output.new) (S.holds store.old) (S.holds store.new) (O.faults output.old) (O.faults output.new) (S.faults store.old) (S.faults store.new) pass.old pass.new }
    ensures settled { OnOk result (is_settled (history table.now.base pass.new.view.known.seen) ≡ true) }
    ensures halted { OnErr result (is_halted table.now.base pass.new.view.known.seen ≡ true) }
    ensures ready { W.ready errand.new }
    ensures origin { W.origin errand.new ≡ W.origin errand.old }
    ensures whole { OnOk result (W.short errand.new ≡ false) }
    ensures finished { OnOk result (O.finished output.new ≡ true) }
    ensures hangs_up { HangsUp (O.finished output.new) (O.faults output.old) (O.faults output.new) }
    ensures later { C.last clock.old ≤ C.last clock.new }
    ensures faults { (O.faults output.old ≤ O.faults output.new) × (S.faults store.old ≤ S.faults store.new) }
{
    if reader_begins(rt, wakes) {
        return drive(
            rt, alloc, table, pass, call, errand, wakes, output, store, clock,
        );
    }
    give_up(rt, table, pass, call);
    hang_up(output);
    Err(Halted)
}
