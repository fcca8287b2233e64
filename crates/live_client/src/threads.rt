//! The two threads of a live client: the reader in a thread of its own, and the driver on the caller's.
ghost use Rattle.std.specs.Prelude.{◌≡◌, ◌≤◌, Some, [], false, true, is_ok, OnErr, OnOk};
ghost use Rattle.std.specs.Thread.{IsSync};
ghost use Rattle.link_io.specs.Causes.{Rose};
ghost use Rattle.link_io.specs.declared.reading.Ending.TheVariants.{Failed};
ghost use Rattle.turn_cell.specs.Passes.{IsNew, IsSame};
ghost use Rattle.rpc_handlers.specs.HandlerRule.{empty_memo};
ghost use Rattle.rpc_ids.specs.declared.method.Role.TheVariants.{Client};
ghost use Rattle.rpc_journal.specs.History.{history};
ghost use Rattle.rpc_journal.specs.Quiet.{is_settled};
ghost use Rattle.rpc_shared.specs.session.Leaving.{HangsUp};
ghost use Rattle.rpc_shared.specs.session.Sessions.{is_halted};
ghost use Rattle.live_client.specs.Driving.{CanDrive, Drove};
ghost use Rattle.live_client.specs.Feeding.{Fed, HasRead, Reader, is_readers};
ghost use Rattle.live_client.specs.Waking.{CanRing};

use crate::asks::Errand;
use crate::driver::drive_met;
use crate::halting::{Halted, Seat, Table};
use crate::reading::{Reading, read};
use crate::silent::Silent;
use crate::wakes::Wakes;
use link_io::{Clock, Sink, Source, Store};
use rpc_frames::Listener;
use rpc_handlers::Nobody;
use std::alloc::Global;
use std::sync::Wait;
use std::thread::{Threads, join_mut};
use task_core::bells::Bell;

/// Both threads, until each has ended.
pub(crate) fn run_both<
    'a,
    R: Threads + Wait + Sync,
    W: Errand,
    I: Source + Send,
    O: Sink,
    S: Store,
    C: Clock,
>(
    rt: &'a R,
    alloc: Global,
    table: &'a Table,
    reader: &'a mut Seat,
    driver: &'a mut Seat,
    call: u32,
    errand: &'a mut W,
    wakes: &'a Wakes,
    bell: &'a mut Bell,
    listener: &'a mut Listener,
    input: &'a mut I,
    output: &'a mut O,
    store: &'a mut S,
    clock: &'a mut C,
    maker: &'a Nobody<Silent>,
) -> (Reading, Result<(), Halted>)
    requires new { IsNew table.now 0 reader.old }
    requires fed { Fed listener.old reader.old [] }
    requires client { table.now.base.role ≡ Client }
    requires seed { table.now.base.seed ≡ empty_memo }
    requires bell { CanRing wakes.now.bells bell.old }
    requires can { CanDrive table.now call driver.old }
    requires ready { W.ready errand.old }
    requires fits { W.fits errand.old wakes.now.bells }
    requires past { W.moment errand.old ≤ C.last clock.old }
    requires whole { W.short errand.old ≡ false }
    requires uncut { W.cuts errand.old ≡ false }
    requires open { O.finished output.old ≡ false }
    ensures reader { Reader is_readers table.now reader.new × IsSame reader.old reader.new }
    ensures read { HasRead table.now.base (I.left input.old) (I.left input.new) result.0.ending result.0.read listener.new reader.new }
    ensures fault { result.0.ending ≡ Some Failed → Rose (I.faults input.old) (I.faults input.new) }
    ensures source { I.faults input.old ≤ I.faults input.new }
    ensures can { CanDrive table.now call driver.new × IsSame driver.old driver.new }
    ensures drove { Drove W.watches (W.did errand.old) (W.did errand.new) (W.cuts errand.new) table.now call (is_ok result.1) (C.last clock.old) (C.last clock.new) (O.written output.old) (O.written output.new) (S.holds store.old) (S.holds store.new) (O.faults output.old) (O.faults output.new) (S.faults store.old) (S.faults store.new) driver.old driver.new }
    ensures settled { OnOk result.1 (is_settled (history table.now.base driver.new.view.known.seen) ≡ true) }
    ensures halted { OnErr result.1 (is_halted table.now.base driver.new.view.known.seen ≡ true) }
    ensures ready { W.ready errand.new }
    ensures origin { W.origin errand.new ≡ W.origin errand.old }
    ensures whole { OnOk result.1 (W.short errand.new ≡ false) }
    ensures finished { OnOk result.1 (O.finished output.new ≡ true) }
    ensures hangs_up { HangsUp (O.finished output.new) (O.faults output.old) (O.faults output.new) }
    ensures later { C.last clock.old ≤ C.last clock.new }
    ensures faults { (O.faults output.old ≤ O.faults output.new) × (S.faults store.old ≤ S.faults store.new) }
{
    join_mut(
        rt,
        &mut || -> Reading
            requires { IsNew table.now 0 reader.now × Fed listener.now reader.now [] × (table.now.base.role ≡ Client) × (table.now.base.seed ≡ empty_memo) × CanRing wakes.now.bells bell.now }
            ensures { (Reader is_readers table.entry.now reader.exit.now × IsSame reader.entry.now reader.exit.now)
                × HasRead table.entry.now.base (I.left input.entry.now) (I.left input.exit.now) result.ending result.read listener.exit.now reader.exit.now
                × (result.ending ≡ Some Failed → Rose (I.faults input.entry.now) (I.faults input.exit.now))
                × (I.faults input.entry.now ≤ I.faults input.exit.now) }
        { read(rt, table, reader, wakes, bell, listener, input, maker) },
        &mut || -> Result<(), Halted>
            requires { IsSync R.row × CanDrive table.now call driver.now × W.ready errand.now × W.fits errand.now wakes.now.bells × (W.moment errand.now ≤ C.last clock.now) × (W.short errand.now ≡ false) × (W.cuts errand.now ≡ false) × (O.finished output.now ≡ false) }
        {
            drive_met(
                rt, alloc, table, driver, call, errand, wakes, output, store, clock,
            )
        },
    )
}
