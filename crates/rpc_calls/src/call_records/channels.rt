//! Channels that are closed.
ghost use Rattle.std.specs.Prelude.{◌≡◌, ◌<◌, ◌++◌, ◌∷◌, [], OnOk, vec_len, vec_capacity};

use super::CallRecords;
use rpc_channel::Channels;
use std::alloc::AllocError;

impl<H> CallRecords<H> {
    ghost use Rattle.std.specs.Prelude.{List};
    ghost use Rattle.rpc_channel.specs.Rising.{has_id};
    ghost use Rattle.rpc_journal.specs.declared.setting.Setting.{Setting};
    ghost use Rattle.rpc_journal.specs.Effect.{Deed};
    ghost use Rattle.rpc_journal.specs.Rows.{channels_in};
    ghost use Rattle.rpc_journal.specs.table.Agrees.{Agrees};
    ghost use Rattle.rpc_calls.specs.Outside.{SameOutside};

    /// Whether this channel is in: it is one of those that the history begins with, and wasn't closed.
    pub fn is_in(&self, channels: &Channels, channel: u32) -> bool
        ensures { (set : Setting) (ds : List Deed) → set.channels ≡ channels.now → Agrees ds self.now.states → result ≡ has_id (channels_in set ds) channel }
    {
        channels.is_in(channel) && !self.closed.contains(&channel)
    }

    /// Makes a place for one more channel that is closed.
    pub fn make_channel_place(&mut self) -> Result<(), AllocError>
        ensures calls { self.new.states.calls ≡ self.old.states.calls }
        ensures outside { SameOutside self.old.states self.new.states }
        ensures handlers { self.new.handlers ≡ self.old.handlers }
        ensures places { self.new.places ≡ self.old.places }
        ensures place { OnOk result (vec_len self.new.states.closed < vec_capacity self.new.states.closed) }
    {
        self.closed.reserve(1)
    }

    /// The channel is closed. There is a place for it.
    pub fn push_channel(&mut self, channel: u32)
        requires { vec_len self.old.states.closed < vec_capacity self.old.states.closed }
        ensures calls { self.new.states.calls ≡ self.old.states.calls }
        ensures newest { self.new.states.newest ≡ self.old.states.newest }
        ensures unflushed { self.new.states.unflushed ≡ self.old.states.unflushed }
        ensures input { self.new.states.input_ended ≡ self.old.states.input_ended }
        ensures halt { self.new.states.halted ≡ self.old.states.halted }
        ensures closed { self.new.states.closed.items ≡ self.old.states.closed.items ++ channel ∷ [] }
        ensures handlers { self.new.handlers ≡ self.old.handlers }
        ensures places { self.new.places ≡ self.old.places }
    {
        self.closed.push_reserved(channel);
    }
}
