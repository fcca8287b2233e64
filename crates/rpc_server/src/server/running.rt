//! The runs of handlers.
ghost use Rattle.std.specs.Prelude.{◌≡◌, ℕ, List, true, Some, is_some, OnOk, OnErr};
ghost use Rattle.rpc_journal.specs.declared.entry.EntryKind.TheVariants.{Finish};
ghost use Rattle.rpc_journal.specs.History.{adding};
ghost use Rattle.rpc_journal.specs.Lawful.{IsLegal};
ghost use Rattle.rpc_journal.specs.Runs.{IsRunning};
ghost use Rattle.rpc_ids.specs.declared.method.Role.TheVariants.{Server as server_role};
ghost use Rattle.rpc_schedule.specs.Serving.{Ends, HasNoWork, Works};
ghost use Rattle.rpc_schedule.specs.ends.EndState.{WasFed};
ghost use Rattle.rpc_schedule.specs.ends.Working.{TakesRun};

use super::Server;
use rpc_calls::{Calls, Running};
use rpc_handlers::{Handler, Maker};
use rpc_journal::StartRefused;
use rpc_schedule::RUNS;
use std::alloc::AllocError;

impl<M: Maker> Server<M> {
    /// Runs the handler of one call: goes on with the run that is kept, or else begins one of the ready call whose oldest
    /// waiting event was put first. False where no run is kept and no call is ready.
    ///
    /// # Errors
    ///
    /// Where the journal has no room for a run, or memory is wanting. A run that began before memory was wanting is kept,
    /// and the next `work` goes on with it.
    pub fn work(&mut self) -> Result<bool, StartRefused>
        ensures step { Works M.H.rule self.old.serving result self.new.serving }
        ensures listener { self.new.listener ≡ self.old.listener }
        ensures fed { (bytes : List ℕ) → WasFed server_role self.old bytes → WasFed server_role self.new bytes }
    {
        self.work_once()
    }

    // `work`, without what it says of the bytes fed.
    fn work_once(&mut self) -> Result<bool, StartRefused>
        ensures step { Works M.H.rule self.old.serving result self.new.serving }
        ensures listener { self.new.listener ≡ self.old.listener }
    {
        // A frame without a packet leaves nothing to run: this test is the cheap one.
        if self.has_no_work() || !self.take_run()? {
            return Ok(false);
        }
        match self.ask_and_finish() {
            Ok(()) => Ok(true),
            Err(_) => Err(StartRefused::Memory),
        }
    }

    // Whether no run is kept and no event waits for a call.
    fn has_no_work(&self) -> bool
        ensures { result ≡ true → HasNoWork self.now.serving self.now.serving }
    {
        match self.kept {
            Some(_) => false,
            None => self.calls.none_waiting(),
        }
    }

    // Keeps a run, where none is kept and one can begin. Answers whether one is kept.
    fn take_run(&mut self) -> Result<bool, StartRefused>
        ensures takes { TakesRun self.old.serving result self.new.serving }
        ensures listener { self.new.listener ≡ self.old.listener }
    {
        if self.kept.is_some() {
            return Ok(true);
        }
        let Some(run) = self.calls.start(RUNS)? else {
            return Ok(false);
        };
        match self.kept.replace(run) {
            None => Ok(true),
            Some(_other) => unreachable!(),
        }
    }

    // Asks the handler of the run that is kept, and ends the run.
    fn ask_and_finish(&mut self) -> Result<(), AllocError>
        requires kept { is_some self.old.serving.kept ≡ true }
        ensures ends { OnOk result (Ends M.H.rule self.old.serving self.new.serving) }
        ensures err { OnErr result (self.new ≡ self.old) }
        ensures listener { self.new.listener ≡ self.old.listener }
    {
        let Some(run) = &mut self.kept else {
            return Ok(());
        };
        run.call()?;
        if let Some(run) = self.kept.take() {
            end_run(&mut self.calls, run);
        }
        Ok(())
    }
}

// Ends a run, and lets its handler go where the table has no further use for it.
fn end_run<H: Handler>(calls: &mut Calls<H>, run: Running<H>)
    requires on { IsRunning H.rule calls.old.setting calls.old.entries run.run }
    requires answered { run.answer ≡ Some run.gives }
    ensures adds { calls.new.entries ≡ adding calls.old.entries run.run.seat (Finish run.run.call run.gives) }
    ensures setting { calls.new.setting ≡ calls.old.setting }
    ensures legal { IsLegal H.rule calls.new.setting calls.new.entries }
{
    let _ = calls.finish(run);
}
