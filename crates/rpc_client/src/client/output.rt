//! What goes out of a client.
ghost use Rattle.std.specs.Prelude.{◌≡◌, ℕ, List};
ghost use Rattle.rpc_ids.specs.declared.method.Role.TheVariants.{Client as client_role};
ghost use Rattle.rpc_schedule.specs.Serving.{Gives};
ghost use Rattle.rpc_schedule.specs.ends.EndState.{WasFed};

use super::Client;
use rpc_handlers::Handler;
use rpc_journal::Item;
use rpc_schedule::FLUSHES;

impl<H: Handler> Client<H> {
    /// Takes the oldest item that waits to go out. None where none waits. It is never refused, and takes no memory.
    pub fn next_out(&mut self) -> Option<Item>
        ensures step { Gives self.old.serving result self.new.serving }
        ensures listener { self.new.listener ≡ self.old.listener }
        ensures fed { (bytes : List ℕ) → WasFed client_role self.old bytes → WasFed client_role self.new bytes }
    {
        self.calls.flush_front(FLUSHES)
    }
}
