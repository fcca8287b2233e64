//! The plain table of calls, to which the same is done as to a table at work, and which answers as that one should.

use super::letters::Letter;
use link_io::Why;
use rpc_channel::Channels;
use rpc_handlers::{Acts, Answer, Event};
use rpc_ids::{Registry, Role, Status};
use rpc_journal::table::{CallState, CallStates, Move, move_at};
use rpc_journal::{
    ArriveRefused, Arrived, Cancelled, CloseRefused, EntryKind, InvokeRefused, ReplaceRefused,
    SayRefused,
};
use rpc_packet::{CallName, Packet};
use std::alloc::{AllocError, Global};

/// What an entry of a journal is, and of which call.
#[derive(Clone, Copy, Debug, PartialEq, Eq)]
pub enum Made {
    Arrive,
    Invoke,
    Say(u32),
    Done(u32),
    Start(u32),
    Finish(u32),
    Replace(u32),
    Cancel(u32),
    Tick(u64),
    Flush,
    EndIn,
    Halt(Why),
    Close(u32),
}

/// What this entry is.
pub fn made_of(kind: &EntryKind) -> Made {
    match kind {
        EntryKind::Arrive(_) => Made::Arrive,
        EntryKind::Invoke(_, _) => Made::Invoke,
        EntryKind::Say(call, _) => Made::Say(*call),
        EntryKind::Done(call) => Made::Done(*call),
        EntryKind::Start(call) => Made::Start(*call),
        EntryKind::Finish(call, _) => Made::Finish(*call),
        EntryKind::Replace(call, _) => Made::Replace(*call),
        EntryKind::Cancel(call) => Made::Cancel(*call),
        EntryKind::Tick(now) => Made::Tick(*now),
        EntryKind::Flush => Made::Flush,
        EntryKind::EndIn => Made::EndIn,
        EntryKind::Halt(why) => Made::Halt(*why),
        EntryKind::Close(channel) => Made::Close(*channel),
    }
}

/// A plain table, what is fixed with it, and what a journal of the same changes has.
#[derive(Drop)]
pub struct Plain {
    alloc: Global,
    role: Role,
    channels: Channels,
    registry: Registry,
    states: CallStates,
    made: Vec<(u32, Made)>,
}

// What an arrival answers of which this is made, in a table with so many calls.
fn answer_of(arrival: Move, count: usize) -> Arrived {
    match arrival {
        Move::Drop => Arrived::Dropped,
        Move::Reply(_) | Move::Stray => Arrived::Answered,
        Move::Close(call, _) | Move::End(call, _) | Move::Refuse(call) | Move::Answer(call, _) => {
            Arrived::Closed(number(call))
        }
        Move::Open(_) | Move::OpenAnew(_, _) => Arrived::Opened(number(count)),
        Move::Queue(call) | Move::Complete(call) => Arrived::Queued(number(call)),
    }
}

fn number(call: usize) -> u32 {
    u32::try_from(call).unwrap_or(u32::MAX)
}

impl Plain {
    /// Without a call.
    pub fn new(alloc: Global, role: Role, channels: Channels, registry: Registry) -> Plain {
        Plain {
            alloc,
            role,
            channels,
            registry,
            states: CallStates::new(alloc),
            made: Vec::new(alloc),
        }
    }

    /// How many calls were opened.
    pub fn count(&self) -> u32 {
        number(self.states.calls.len())
    }

    /// How this call ended.
    pub fn status(&self, call: u32) -> Option<Status> {
        self.states.state(call)?.status
    }

    /// How many events wait for this call.
    pub fn waiting(&self, call: u32) -> u32 {
        match self.states.state(call) {
            Some(state) => number(state.waiting.len()),
            None => 0,
        }
    }

    /// The entries that a journal has.
    pub fn made(&self) -> &[(u32, Made)] {
        self.made.as_slice()
    }

    /// What is fixed with it.
    pub fn role(&self) -> Role {
        self.role
    }

    /// The channels that are in from the first on.
    pub fn channels(&self) -> &Channels {
        &self.channels
    }

    /// The methods that are known.
    pub fn registry(&self) -> &Registry {
        &self.registry
    }

    fn at(&self) -> u64 {
        self.made.len() as u64
    }

    fn write(&mut self, seat: u32, made: Made) -> Result<(), AllocError> {
        self.made.push((seat, made))?;
        Ok(())
    }

    /// A packet arrives.
    pub fn arrive(&mut self, p: &Packet) -> Result<Result<Arrived, ArriveRefused>, AllocError> {
        let arrival = move_at(self.role, &self.states, p, &self.channels, &self.registry);
        if let Some(call) = self.states.full_queue(arrival) {
            return Ok(Err(ArriveRefused::QueueFull(number(call))));
        }
        let answer = answer_of(arrival, self.states.calls.len());
        let at = self.at();
        self.states.arrive(self.alloc, at, p, arrival)?;
        self.write(0, Made::Arrive)?;
        Ok(Ok(answer))
    }

    // The ready call whose oldest event was put first, the lower number at a tie.
    fn first_ready(&self) -> Option<u32> {
        let mut first: Option<(u64, u32)> = None;
        for call in 0..self.count() {
            if let Some(state) = self.states.state(call)
                && self.states.is_ready(call)
            {
                let place = state.oldest_place();
                first = match first {
                    Some((earlier, _)) if earlier <= place => first,
                    _ => Some((place, call)),
                };
            }
        }
        let (_, call) = first?;
        Some(call)
    }

    /// A run begins of the call that is ready first.
    pub fn start(&mut self, seat: u32) -> Result<Option<u32>, AllocError> {
        let Some(call) = self.first_ready() else {
            return Ok(None);
        };
        let Some(state) = self.states.state(call) else {
            return Ok(None);
        };
        if state.waiting.is_empty() {
            return Ok(None);
        }
        let _ = self.states.start(seat, call);
        self.write(seat, Made::Start(call))?;
        Ok(Some(call))
    }

    // The run of this call ends with this answer.
    fn finish(&mut self, seat: u32, call: u32, a: &Answer) -> Result<(), AllocError> {
        let role = self.role;
        let Some(state) = self.states.state(call) else {
            return Ok(());
        };
        let items = state.items_given(role, a);
        self.states.room_for(items)?;
        self.states.finish(role, call, a);
        self.write(seat, Made::Finish(call))
    }

    /// The call that is ready first runs, with this handler.
    pub fn run(&mut self, seat: u32, handler: &mut Letter) -> Result<Option<u32>, AllocError> {
        let Some(call) = self.start(seat)? else {
            return Ok(None);
        };
        let a = handler.on(&Event::Completion)?;
        self.finish(seat, call, &a)?;
        Ok(Some(call))
    }

    /// A call is cancelled.
    pub fn cancel(&mut self, seat: u32, call: u32) -> Result<Cancelled, AllocError> {
        let status = self.status(call).unwrap_or(Status::Cancelled);
        let answer = match self.states.runner(call) {
            None => Cancelled::Quiet(status),
            Some(runner) => Cancelled::Running(status, runner),
        };
        if (call as usize) < self.states.calls.len() && !self.states.is_cancelled(call) {
            self.states.room_for(2)?;
            self.states.cancel(call);
            self.write(seat, Made::Cancel(call))?;
        }
        Ok(answer)
    }

    /// The time is told.
    pub fn tick(&mut self, now: u64) -> Result<(), AllocError> {
        let at = self.at();
        self.states.make_room_for_all()?;
        self.states.tick(at, now);
        self.write(1, Made::Tick(now))
    }

    /// The input ends.
    pub fn end_in(&mut self) -> Result<(), AllocError> {
        let at = self.at();
        self.states.make_room_for_all()?;
        self.states.end_in(at);
        self.write(0, Made::EndIn)
    }

    /// A channel is closed. Answers how many calls this ended.
    pub fn close_channel(
        &mut self,
        seat: u32,
        channel: u32,
    ) -> Result<Result<u32, CloseRefused>, AllocError> {
        if !self.states.is_in(&self.channels, channel) {
            return Ok(Err(CloseRefused::NotIn));
        }
        let at = self.at();
        self.states.make_room_to_close(channel)?;
        let ended = self.states.close_channel(at, channel) as usize;
        self.write(seat, Made::Close(channel))?;
        Ok(Ok(number(ended)))
    }

    /// Whether a handler is replaced, or why not.
    pub fn replace(
        &mut self,
        seat: u32,
        call: u32,
    ) -> Result<Result<(), ReplaceRefused>, AllocError> {
        if call >= self.count() {
            return Ok(Err(ReplaceRefused::Unknown));
        }
        if let Some(status) = self.status(call) {
            return Ok(Err(ReplaceRefused::Closed(status)));
        }
        self.write(seat, Made::Replace(call))?;
        Ok(Ok(()))
    }

    /// Whether an item goes out.
    pub fn flush(&mut self) -> Result<bool, AllocError> {
        if self.states.unflushed == 0 {
            return Ok(false);
        }
        self.states.flush();
        self.write(1, Made::Flush)?;
        Ok(true)
    }

    /// A client opens a call.
    pub fn invoke(
        &mut self,
        seat: u32,
        name: CallName,
    ) -> Result<Result<u32, InvokeRefused>, AllocError> {
        if !self.states.is_in(&self.channels, name.channel) {
            return Ok(Err(InvokeRefused::NoChannel));
        }
        let Some(method) = self.registry.find(name.service, name.method) else {
            return Ok(Err(InvokeRefused::NoMethod));
        };
        if let Some(call) = self.states.live(name) {
            return Ok(Err(InvokeRefused::Live(number(call))));
        }
        let call = self.count();
        self.states.room_for(1)?;
        let state = CallState::invoked(self.alloc, name, method)?;
        self.states.invoke(state)?;
        self.write(seat, Made::Invoke)?;
        Ok(Ok(call))
    }

    /// A client ends its stream of a call.
    pub fn done(&mut self, seat: u32, call: u32) -> Result<Result<(), SayRefused>, AllocError> {
        if let Some(status) = self.status(call) {
            return Ok(Err(SayRefused::Closed(status)));
        }
        if self.states.is_unary(call) {
            return Ok(Err(SayRefused::NoStream));
        }
        if self.states.is_done(call) {
            return Ok(Err(SayRefused::Completed));
        }
        if (call as usize) < self.states.calls.len() {
            self.states.room_for(1)?;
            self.states.done(call);
            self.write(seat, Made::Done(call))?;
        }
        Ok(Ok(()))
    }
}
