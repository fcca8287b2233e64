//! What goes out of a server.
ghost use Rattle.std.specs.Prelude.{◌≡◌, ℕ, List};
ghost use Rattle.rpc_ids.specs.declared.method.Role.TheVariants.{Server as server_role};
ghost use Rattle.rpc_schedule.specs.Serving.{Gives};
ghost use Rattle.rpc_schedule.specs.ends.EndState.{WasFed};

use super::Server;
use rpc_handlers::Maker;
use rpc_journal::Item;
use rpc_schedule::FLUSHES;

impl<M: Maker> Server<M> {
    /// Takes the oldest item that waits to go out. None where none waits. It is never refused, and takes no memory.
    pub fn next_out(&mut self) -> Option<Item>
        ensures step { Gives self.old.serving result self.new.serving }
        ensures listener { self.new.listener ≡ self.old.listener }
        ensures fed { (bytes : List ℕ) → WasFed server_role self.old bytes → WasFed server_role self.new bytes }
    {
        self.calls.flush_front(FLUSHES)
    }
}
