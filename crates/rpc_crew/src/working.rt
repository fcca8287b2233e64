//! The workers: each runs ready calls until nothing is left to run and the time is told no more.
ghost use Rattle.std.specs.Prelude.{◌≡◌, vec_capacity};
ghost use Rattle.std.specs.Thread.{IsSync};
ghost use Rattle.turn_cell.specs.Passes.{IsSame};
ghost use Rattle.rpc_shared.specs.Steps.{IsOwn};
ghost use Rattle.rpc_shared.specs.session.Crew.{Adds, AllWorked, AreWorkers, Worker, is_workers};

use crate::Gate;
use crate::halting::halt;
use crate::running::run;
use crate::table::Table;
use link_io::Why;
use rpc_calls::StartRefused;
use rpc_handlers::Handler;
use rpc_shared::{Look, Pass};
use std::alloc::Global;
use std::mem;
use std::sync::Wait;
use std::thread::{Threads, join};

/// The passes of the workers.
pub(crate) struct Workers<H: Handler> {
    pub passes: Vec<Pass<H>>,
}

impl<H: Handler + Send> Workers<H> {
    /// Lets each pass work in a thread of its own, and has them again in order.
    pub fn run<R: Threads + Wait + Sync, G: Gate + Sync>(
        &mut self,
        rt: &R,
        alloc: Global,
        shared: &Table<H>,
        gate: &G,
    )
        requires workers { AreWorkers H.rule shared.now self.old.passes.items }
        ensures worked { AllWorked H.rule shared.now self.old.passes.items self.new.passes.items }
        ensures room { vec_capacity self.new.passes ≡ vec_capacity self.old.passes }
    {
        let passes = mem::replace(&mut self.passes, Vec::new(alloc));
        self.passes = work_all(rt, shared, passes, gate);
    }
}

// All passes work, the last one in this thread.
fn work_all<H: Handler + Send, R: Threads + Wait + Sync, G: Gate + Sync>(
    rt: &R,
    shared: &Table<H>,
    mut passes: Vec<Pass<H>>,
    gate: &G,
) -> Vec<Pass<H>>
    requires { AreWorkers H.rule shared.now passes.items }
    ensures worked { AllWorked H.rule shared.now passes.items result.items }
    ensures room { vec_capacity result ≡ vec_capacity passes }
{
    let Some(pass) = passes.pop() else {
        return passes;
    };
    let (mut all, last) = join(
        rt,
        move || -> Vec<Pass<H>>
            requires { IsSync R.row × AreWorkers H.rule shared.now passes.items }
            ensures { AllWorked H.rule shared.entry.now passes.items result.items × (vec_capacity result ≡ vec_capacity passes) }
        { work_all(rt, shared, passes, gate) },
        move || -> Pass<H>
            requires { Worker H.rule shared.now pass }
            ensures { Worker H.rule shared.entry.now result × IsSame pass result }
        { work(rt, shared, pass, gate) },
    );
    all.push_reserved(last);
    all
}

// One pass works until the table is settled and the time is told no more, or the table is halted.
fn work<H: Handler, R: Wait, G: Gate>(
    rt: &R,
    shared: &Table<H>,
    mut pass: Pass<H>,
    gate: &G,
) -> Pass<H>
    requires { Worker H.rule shared.now pass }
    ensures worker { Worker H.rule shared.now result }
    ensures same { IsSame pass result }
{
    shared.bells().begun.ring();
    for _ in rt.forever() {
        if !work_once(rt, shared, &mut pass, gate) {
            return pass;
        }
    }
    unreachable!()
}

// One run, where a call is ready. False where there is nothing more to do.
fn work_once<H: Handler, R: Wait, G: Gate>(
    rt: &R,
    shared: &Table<H>,
    pass: &mut Pass<H>,
    gate: &G,
) -> bool
    requires { IsOwn shared.now pass.old }
    ensures { Adds H.rule shared.now is_workers pass.old pass.new }
{
    let heard = shared.bells().workers.rings();
    match shared.start(rt, pass) {
        Ok(Some(running)) => run(rt, shared, pass, gate, running).is_ok(),
        Ok(None) => waits(rt, shared, heard, shared.look(rt, pass)),
        Err(StartRefused::JournalFull) => {
            halt(rt, shared, pass, Why::JournalLimit);
            false
        }
        Err(StartRefused::Memory) => {
            halt(rt, shared, pass, Why::Memory);
            false
        }
    }
}

// Waits where a call may yet become ready.
fn waits<H: Handler, R: Wait>(rt: &R, shared: &Table<H>, heard: u32, look: Look) -> bool {
    if look.halted.is_some() || look.idle && shared.is_over() {
        return false;
    }
    shared.bells().workers.wait(rt, heard);
    true
}
