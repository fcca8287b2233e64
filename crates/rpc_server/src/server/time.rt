//! Time goes on.
ghost use Rattle.std.specs.Prelude.{ℕ, List};
ghost use Rattle.rpc_ids.specs.declared.method.Role.TheVariants.{Server as server_role};
ghost use Rattle.rpc_journal.specs.Changes.{TickDid};
ghost use Rattle.rpc_schedule.specs.ends.EndState.{KeepsAside, WasFed};

use super::Server;
use rpc_handlers::Maker;
use rpc_journal::StartRefused;
use rpc_schedule::FLUSHES;

impl<M: Maker> Server<M> {
    /// The time has come to this moment, in milliseconds: the calls of ticking methods are told so.
    ///
    /// # Errors
    ///
    /// Where the journal has no room, or memory is wanting. Nothing has changed then.
    pub fn tick(&mut self, now: u64) -> Result<(), StartRefused>
        ensures did { TickDid 1 now result self.old.serving.table.entries self.new.serving.table.entries }
        ensures aside { KeepsAside self.old self.new }
        ensures fed { (bytes : List ℕ) → WasFed server_role self.old bytes → WasFed server_role self.new bytes }
    {
        self.calls.tick(FLUSHES, now)
    }
}
