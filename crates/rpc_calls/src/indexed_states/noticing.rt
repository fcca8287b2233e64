//! Changes of all calls.
ghost use Rattle.std.specs.Prelude.{◌≡◌, ◌<◌, ◌++◌, ◌∷◌, [], OnOk, true, vec_len, vec_capacity};
ghost use Rattle.rpc_journal.specs.declared.table.notice.Notice.TheVariants.{Time, InputEnded, ChannelClosed};
ghost use Rattle.rpc_journal.specs.table.Agrees.{HasRoomFor};
ghost use Rattle.rpc_calls.specs.Outside.{SameOutside};
ghost use Rattle.rpc_calls.specs.Places.{ChangesAll};
ghost use Rattle.rpc_journal.specs.table.Turns.{IsTold};
ghost use Rattle.rpc_calls.specs.Widened.{IsWider, OpensHaveTwo};

use super::IndexedStates;
use crate::state_change::StateChange;
use rpc_journal::table::Notice;
use std::alloc::AllocError;

impl<H> IndexedStates<H> {
    ghost use Rattle.rpc_calls.specs.Roll.{ChangesEach};

    /// Makes two places for events of each call without an end.
    pub fn widen_all(&mut self) -> Result<(), AllocError>
        ensures same { ChangesAll IsWider self.old.states.calls.items self.new.states.calls.items }
        ensures outside { SameOutside self.old.states self.new.states }
        ensures handlers { self.new.handlers ≡ self.old.handlers }
        ensures room { OnOk result (OpensHaveTwo self.new.states.calls.items) }
    {
        let count = self.calls.len();
        let mut from = 0;
        for step in 0..count {
            let Some(call) = self.next_in_use(from) else {
                return Ok(());
            };
            self.widen(call)?;
            from = call + 1;
        }
        Ok(())
    }

    /// The calls that are to be told of the time are told. There are places for it.
    pub fn tell_time(&mut self, at: u64, now: u64)
        requires { HasRoomFor (Time now) self.old.states.calls.items }
        ensures { ChangesEach (IsTold at (Time now)) self.old self.new }
    {
        self.tell_all(at, Notice::Time(now));
    }

    /// The input has ended: each call without an end is told of it. There are places for it.
    pub fn end_in(&mut self, at: u64)
        requires { HasRoomFor InputEnded self.old.states.calls.items }
        ensures calls { ChangesAll (IsTold at InputEnded) self.old.states.calls.items self.new.states.calls.items }
        ensures newest { self.new.states.newest ≡ self.old.states.newest }
        ensures unflushed { self.new.states.unflushed ≡ self.old.states.unflushed }
        ensures input { self.new.states.input_ended ≡ true }
        ensures halt { self.new.states.halted ≡ self.old.states.halted }
        ensures closed { self.new.states.closed.items ≡ self.old.states.closed.items }
        ensures handlers { self.new.handlers ≡ self.old.handlers }
    {
        self.tell_all(at, Notice::InputEnded);
        self.calls.end_input();
    }

    /// Makes a place for one more channel that is closed.
    pub fn make_channel_place(&mut self) -> Result<(), AllocError>
        ensures calls { self.new.states.calls.items ≡ self.old.states.calls.items }
        ensures outside { SameOutside self.old.states self.new.states }
        ensures handlers { self.new.handlers ≡ self.old.handlers }
        ensures place { OnOk result (vec_len self.new.states.closed < vec_capacity self.new.states.closed) }
    {
        self.calls.make_channel_place()
    }

    /// The channel is closed: each live call on it ends and is told. There are places for it, and for the channel.
    pub fn close_channel(&mut self, at: u64, channel: u32)
        requires room { HasRoomFor (ChannelClosed channel) self.old.states.calls.items }
        requires place { vec_len self.old.states.closed < vec_capacity self.old.states.closed }
        ensures calls { ChangesAll (IsTold at (ChannelClosed channel)) self.old.states.calls.items self.new.states.calls.items }
        ensures newest { self.new.states.newest ≡ self.old.states.newest }
        ensures unflushed { self.new.states.unflushed ≡ self.old.states.unflushed }
        ensures input { self.new.states.input_ended ≡ self.old.states.input_ended }
        ensures halt { self.new.states.halted ≡ self.old.states.halted }
        ensures closed { self.new.states.closed.items ≡ self.old.states.closed.items ++ channel ∷ [] }
        ensures handlers { self.new.handlers ≡ self.old.handlers }
    {
        self.calls.push_channel(channel);
        self.tell_all(at, Notice::ChannelClosed(channel));
    }

    // The calls that are to be told of this are told. There are places for it.
    fn tell_all(&mut self, at: u64, notice: Notice)
        requires { HasRoomFor notice self.old.states.calls.items }
        ensures { ChangesEach (IsTold at notice) self.old self.new }
    {
        let count = self.calls.len();
        let mut from = 0;
        for step in 0..count {
            let Some(call) = self.next_in_use(from) else {
                return;
            };
            let _ = self.change(call, at, StateChange::Tell(notice));
            from = call + 1;
        }
    }
}
