//! Channels that are closed.
ghost use Rattle.std.specs.Prelude.{◌≡◌, ℕ, List};
ghost use Rattle.rpc_ids.specs.declared.method.Role.TheVariants.{Server as server_role};
ghost use Rattle.rpc_journal.specs.Changes.{CloseDid};
ghost use Rattle.rpc_schedule.specs.ends.EndState.{KeepsAside, WasFed};

use super::Server;
use rpc_calls::CloseRefused;
use rpc_handlers::Maker;
use rpc_schedule::RUNS;

impl<M: Maker> Server<M> {
    /// Closes a channel: its live calls end with `ABORTED`, each client is told so, and the channel is in no longer. A
    /// handler that runs goes on. Answers how many calls ended. It may also be called after `end_in`.
    ///
    /// # Errors
    ///
    /// `NotIn` where the channel isn't in, and else `JournalFull` or `Memory`. Nothing has changed then.
    pub fn close_channel(&mut self, channel: u32) -> Result<u32, CloseRefused>
        ensures did { CloseDid self.old.serving.table.setting 2 channel result self.old.serving.table.entries self.new.serving.table.entries }
        ensures aside { KeepsAside self.old self.new }
        ensures fed { (bytes : List ℕ) → WasFed server_role self.old bytes → WasFed server_role self.new bytes }
    {
        self.calls.close_channel(RUNS, channel)
    }
}
