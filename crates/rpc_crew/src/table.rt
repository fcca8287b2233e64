//! The table that the threads share, and the bells of those who wait for what is done at it.
ghost use Rattle.std.specs.Prelude.{◌≡◌, ◌<◌, ◌≤◌, [], IfErr, IfOk, IfSome, OnOk, Some};
ghost use Rattle.turn_cell.specs.Passes.{AllFit, AreAll, IsIdle, IsNew};
ghost use Rattle.rpc_journal.specs.Changes.{ArriveDid, EndInDid, FinishDid, FlushDid, HaltDid, StartDid, StartOfDid, TickDid};
ghost use Rattle.rpc_journal.specs.Conditions.{CanHalt, IsHeard, IsInputOpen};
ghost use Rattle.rpc_journal.specs.Lawful.{IsLegal};
ghost use Rattle.rpc_journal.specs.Laws.{seat_of};
ghost use Rattle.rpc_journal.specs.Ran.{run_in};
ghost use Rattle.rpc_journal.specs.Runs.{IsRunning};
ghost use Rattle.rpc_shared.specs.Looks.{LookDid};
ghost use Rattle.rpc_shared.specs.OwnRuns.{Runs};
ghost use Rattle.rpc_shared.specs.Steps.{IsOwn, Steps, base_of, log_of};

use crate::bell::{Bells, Owed};
use link_io::Why;
use rpc_calls::{ArriveRefused, Arrived, Calls, Running, StartOfRefused, StartRefused};
use rpc_handlers::{Handler, Maker};
use rpc_journal::Item;
use rpc_packet::Packet;
use rpc_shared::{Look, Pass, Shared};
use std::alloc::{AllocError, Global};
use std::marker::Model;
use std::sync::Wait;
use std::sync::atomic::{AtomicU64, Ordering};

// No run begins while 65,536 items wait to go out, so after so many flushes threads that wait for a run are woken.
const FLUSHES: u64 = 1_024;

// How long the reader waits for the other threads to begin: so often, and so many milliseconds each time.
const TURNS: u32 = 2_000;

const TURN: u64 = 5;

/// A table whose steps ring for those who wait for them. Each call does what `Shared`'s call of that name does, and contracts see it
/// as that.
pub(crate) struct Table<H: Handler> {
    shared: Shared<H>,
    bells: Bells,
    flushed: AtomicU64,
    // 1 once the time is told no more.
    over: AtomicU64,
    others: u32,
}

impl<H: Handler> Drop for Table<H> {
    fn drop(self) {
        let Self {
            shared: _,
            bells: _,
            flushed: _,
            over: _,
            others: _,
        } = self;
    }
}

impl<H: Handler> Model for Table<H> {
    ghost use Rattle.turn_cell.specs.Passes.{LockView};
    ghost use Rattle.rpc_journal.specs.declared.setting.Setting.{Setting};

    ghost Value = { LockView Setting };

    ghost view = { λ t. t.shared };
}

impl<H: Handler> Table<H> {
    /// A table for n threads.
    pub fn with(
        alloc: Global,
        calls: Calls<H>,
        n: u32,
    ) -> Result<(Table<H>, Vec<Pass<H>>), AllocError>
        requires count { (0 < n) × (n ≤ 64) }
        requires empty { calls.entries ≡ [] }
        ensures turn { IfOk result (λ made. (made.0.count ≡ n) × (made.0.base ≡ calls.setting)) }
        ensures passes { IfOk result (λ made. AreAll made.0 (IsNew made.0) made.1.items) }
    {
        match Shared::with(alloc, calls, n) {
            Ok((shared, passes)) => Ok((Table::over(shared, n - 1), passes)),
            Err(_) => Err(AllocError),
        }
    }

    // The table of a thread and so many others.
    fn over(shared: Shared<H>, others: u32) -> Table<H>
        ensures { result ≡ shared }
    {
        Table {
            shared,
            bells: Bells::new(),
            flushed: AtomicU64::new(0),
            over: AtomicU64::new(0),
            others,
        }
    }

    pub fn close(self, passes: Vec<Pass<H>>) -> Calls<H>
        requires all { AreAll self (IsIdle self) passes.items }
        ensures fits { AllFit log_of seat_of base_of passes.items result }
        ensures setting { result.setting ≡ self.base }
        ensures legal { IsLegal H.rule result.setting result.entries }
    {
        let Self {
            shared,
            bells: _,
            flushed: _,
            over: _,
            others: _,
        } = self;
        shared.close(passes)
    }

    pub fn bells(&self) -> &Bells {
        &self.bells
    }

    /// Waits until all other threads have begun, 10 seconds at most, and tells whether they have. One that hasn't by then was never
    /// made, for want of memory, and would run only when this one is over.
    pub fn have_begun<R: Wait>(&self, rt: &R) -> bool {
        for _ in 0..TURNS {
            let begun = self.bells.begun.rings();
            if begun >= self.others {
                return true;
            }
            self.bells.begun.wait_for(rt, begun, TURN);
        }
        false
    }

    /// A reply waits for the pump. An event makes a call ready, for one worker; a request that opens a call may also end one of its
    /// name, for another worker. The caller owes their rings, and pays them once a burst.
    pub fn arrive<M: Maker<H = H>, R: Wait>(
        &self,
        rt: &R,
        pass: &mut Pass<H>,
        p: &Packet,
        maker: &M,
        owed: &mut Owed,
    ) -> Result<Arrived, ArriveRefused>
        requires own { IsOwn self.now pass.old }
        requires input { IsInputOpen self.now.base pass.old.view.known.seen pass.old.view.known.number }
        requires heard { IsHeard self.now.base p.now }
        requires seed { M.seed_memo maker.now ≡ self.now.base.seed }
        ensures did { Steps H.rule self.now pass.old pass.new (λ set seat. ArriveDid set seat p.now result) }
        ensures open { IsInputOpen self.now.base pass.new.view.known.seen pass.new.view.known.number }
        ensures owed { OnOk result (0 < owed.new.rings) }
    {
        let answer = self.shared.arrive(rt, pass, p, maker);
        match &answer {
            Ok(Arrived::Opened(_)) => owed.add(2),
            Ok(_) => owed.add(1),
            Err(_) => {}
        }
        answer
    }

    /// Rings for what arrivals left to do, for the pump and for so many workers.
    pub fn pay(&self, owed: &mut Owed)
        ensures { owed.new.rings ≡ 0 }
    {
        if owed.rings > 0 {
            self.bells.pump.ring();
            owed.pay(self.bells.workers.ring_for(owed.rings));
        }
    }

    /// Each open call has an event more, for the workers; where nothing is left to run, they end.
    pub fn end_in<R: Wait>(&self, rt: &R, pass: &mut Pass<H>)
        requires own { IsOwn self.now pass.old }
        requires input { IsInputOpen self.now.base pass.old.view.known.seen pass.old.view.known.number }
        ensures did { Steps H.rule self.now pass.old pass.new (λ _ seat. EndInDid seat) }
    {
        self.shared.end_in(rt, pass);
        self.bells.workers.ring();
        self.bells.pump.ring();
    }

    /// A queue has a place more, for the reader.
    pub fn start<R: Wait>(
        &self,
        rt: &R,
        pass: &mut Pass<H>,
    ) -> Result<Option<Running<H>>, StartRefused>
        requires own { IsOwn self.now pass.old }
        ensures did { Steps H.rule self.now pass.old pass.new (λ set seat. StartDid H.rule run_in set seat result) }
        ensures runs { IfOk result (λ o. IfSome o (Runs H.rule self.now.base pass.new)) }
    {
        let answer = self.shared.start(rt, pass);
        self.bells.reader.ring();
        answer
    }

    /// Only the reader calls this, so nobody needs to be woken for the place that became free in the queue.
    pub fn start_of<R: Wait>(
        &self,
        rt: &R,
        pass: &mut Pass<H>,
        call: u32,
    ) -> Result<Running<H>, StartOfRefused>
        requires own { IsOwn self.now pass.old }
        ensures did { Steps H.rule self.now pass.old pass.new (λ set seat. StartOfDid H.rule run_in set seat call result) }
        ensures runs { IfOk result (Runs H.rule self.now.base pass.new) }
    {
        self.shared.start_of(rt, pass, call)
    }

    /// Items wait for the pump. The call may be ready again, for the reader or a worker: a worker that finished looks for itself, and
    /// rings for the others where it ends.
    pub fn finish<R: Wait>(&self, rt: &R, pass: &mut Pass<H>, running: Running<H>) -> Option<H>
        requires own { IsOwn self.now pass.old }
        requires on { IsRunning H.rule self.now.base pass.old.view.known.seen running.run }
        requires seat { running.run.seat ≡ pass.old.view.known.number }
        requires answered { running.answer ≡ Some running.gives }
        ensures did { (h : H) × (H.now h ≡ running.moves) × Steps H.rule self.now pass.old pass.new (λ set _. FinishDid set running.run running.gives h result) }
        ensures able { IfSome result H.can_act }
    {
        let answer = self.shared.finish(rt, pass, running);
        self.bells.pump.ring();
        self.bells.reader.ring();
        if pass.number() == 0 {
            self.bells.workers.ring_for(1);
        }
        answer
    }

    /// Each open call has an event more, for the workers.
    pub fn tick<R: Wait>(&self, rt: &R, pass: &mut Pass<H>, now: u64) -> Result<(), StartRefused>
        requires own { IsOwn self.now pass.old }
        requires writer { pass.old.view.known.number ≡ 1 }
        ensures did { Steps H.rule self.now pass.old pass.new (λ _ seat. TickDid seat now result) }
    {
        let answer = self.shared.tick(rt, pass, now);
        self.bells.workers.ring();
        answer
    }

    /// Where too many items waited for any run to begin, fewer do by and by.
    pub fn flush_front<R: Wait>(&self, rt: &R, pass: &mut Pass<H>) -> Option<Item>
        requires own { IsOwn self.now pass.old }
        requires writer { pass.old.view.known.number ≡ 1 }
        ensures did { Steps H.rule self.now pass.old pass.new (λ set seat. FlushDid set seat result) }
    {
        let item = self.shared.flush_front(rt, pass);
        if item.is_some() && self.flushed.fetch_add(1, Ordering::SeqCst) % FLUSHES == FLUSHES - 1 {
            self.bells.workers.ring();
            self.bells.reader.ring();
        }
        item
    }

    /// The time is told no more, and the table is settled: the workers end.
    pub fn end_time(&self) {
        self.over.store(1, Ordering::SeqCst);
        self.bells.workers.ring();
    }

    /// Whether the time is told no more. Until then a Tick may give an open call an event, though the input has ended and nothing is
    /// left to run.
    pub fn is_over(&self) -> bool {
        self.over.load(Ordering::SeqCst) != 0
    }

    /// All threads end.
    pub fn halt<R: Wait>(&self, rt: &R, pass: &mut Pass<H>, why: Why)
        requires own { IsOwn self.now pass.old }
        requires can { CanHalt why }
        ensures did { Steps H.rule self.now pass.old pass.new (λ set seat. HaltDid set seat why) }
    {
        self.shared.halt(rt, pass, why);
        self.bells.ring_all();
    }

    /// Nobody waits for a look.
    pub fn look<R: Wait>(&self, rt: &R, pass: &mut Pass<H>) -> Look
        requires own { IsOwn self.now pass.old }
        ensures did { Steps H.rule self.now pass.old pass.new (λ set _. LookDid set result) }
    {
        self.shared.look(rt, pass)
    }
}
