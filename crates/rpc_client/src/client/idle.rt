//! Whether a client has anything to run.
ghost use Rattle.std.specs.Prelude.{◌≡◌, false, None};
ghost use Rattle.rpc_journal.specs.Choice.{SomeReady};
ghost use Rattle.rpc_schedule.specs.Schedule.{NoneWaits};
ghost use Rattle.rpc_schedule.specs.Serving.{deeds, is_idle};

use super::Client;
use rpc_handlers::Handler;

impl<H: Handler> Client<H> {
    /// Whether no run is kept and no event waits for a call.
    pub fn idle(&self) -> bool
        ensures is { result ≡ is_idle self.now.serving }
        ensures ready { result ≡ false → self.now.serving.kept ≡ None → NoneWaits (deeds self.now.serving) → SomeReady (deeds self.now.serving) }
    {
        match self.kept {
            Some(_) => false,
            None => self.calls.none_waiting(),
        }
    }
}
