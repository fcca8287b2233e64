//! A call whose messages are kept.
ghost use Rattle.std.specs.Prelude.{◌≡◌, ◌<◌, [], None, true, OnErr, OnOk};
ghost use Rattle.live_client.specs.asks.Calling.{Called, HasHeard, HasKept, HasLooked, Purpose, Stays, called_weaker, has_enough, has_passed, purpose_of, takes_more};

use crate::asks::errand::Errand;
use crate::asks::utterance::Utterance;
use bytes::Bytes;
use rpc_handlers::Event;
use rpc_ids::Status;
use std::alloc::{AllocError, Global};
use std::collections::VecDeque;
use std::snapshot::Snapshot;
use task_core::bells::Bells;

/// Says what a call has to say, and keeps its messages up to a limit or for so long, when the call is to be cancelled.
#[derive(Drop)]
pub struct CallErrand {
    /// The messages that came, in order.
    pub messages: Vec<Bytes>,
    /// How many of them are enough.
    pub limit: u32,
    /// How long they are waited for, in milliseconds.
    pub within: Option<u32>,
    /// What is still to be said, in order.
    pub rest: VecDeque<Utterance>,
    /// All that is to be said.
    pub first: Snapshot<VecDeque<Utterance>>,
    /// How the call ended.
    pub ended: Option<Status>,
    /// The moment of its first step, in milliseconds.
    pub opened: Option<u64>,
    /// The moment of its last step, in milliseconds.
    pub moment: u64,
}

impl CallErrand {
    /// Before anything was said or heard.
    pub fn new(
        alloc: Global,
        says: VecDeque<Utterance>,
        limit: u32,
        within: Option<u32>,
    ) -> CallErrand
        requires { 0 < limit }
        ensures purpose { purpose_of result ≡ record { says = says.items; limit = limit; within = within } }
        ensures none { (result.messages.items ≡ []) × (result.ended ≡ None) × (result.opened ≡ None) × (result.moment ≡ 0) }
        ensures rest { result.rest.items ≡ says.items }
    {
        CallErrand {
            messages: Vec::new(alloc),
            limit,
            within,
            first: Snapshot::of(&says),
            rest: says,
            ended: None,
            opened: None,
            moment: 0,
        }
    }

    // Hears an event.
    fn take(&mut self, event: Event) -> Result<(), AllocError>
        requires { takes_more self.old ≡ true }
        ensures heard { OnOk result (HasHeard event self.old self.new) }
        ensures kept { OnErr result (HasKept self.old self.new) }
        ensures stays { Stays self.old self.new }
    {
        match event {
            Event::Message(payload) => self.messages.push(payload)?,
            Event::Ended(status) => self.ended = Some(status),
            Event::Request(_) | Event::Completion | Event::Tick(_) => {}
        }
        Ok(())
    }

    // Looks at the clock.
    fn look(&mut self, now: u64)
        ensures { HasLooked now self.old self.new }
    {
        self.opened = Some(self.opened.unwrap_or(now));
        self.moment = now;
    }

    // Whether its time has passed.
    fn is_late(&self) -> bool
        ensures { result ≡ has_passed self.now.within self.now.opened self.now.moment }
    {
        match (self.within, self.opened) {
            (Some(within), Some(opened)) => {
                self.moment.saturating_sub(opened) >= u64::from(within)
            }
            _ => false,
        }
    }
}

impl Errand for CallErrand {
    ghost use Rattle.std.specs.Prelude.{ℕ, true, false};

    ghost watches = { true };

    ghost ready = { λ _. Unit {0} };

    ghost fits = { λ _ _. Unit {0} };

    ghost moment = { λ w. w.moment };

    ghost Origin = { Purpose };

    ghost origin = { purpose_of };

    ghost listens = { takes_more };

    ghost short = { λ _. false };

    ghost cuts = { has_enough };

    ghost did = { Called };

    ghost weaker = { called_weaker };

    fn hear(&mut self, event: Event) -> Result<(), AllocError> {
        self.take(event)
    }

    fn go_on(&mut self, bells: &Bells, now: u64) -> Result<(), AllocError> {
        let _ = bells;
        self.look(now);
        Ok(())
    }

    fn next_out(&mut self) -> Option<Utterance> {
        self.rest.pop_front()
    }

    fn listens(&self) -> bool {
        self.ended.is_none() && self.messages.len() < self.limit as usize
    }

    fn cuts(&self) -> bool {
        self.ended.is_none() && (self.messages.len() == self.limit as usize || self.is_late())
    }

    fn cut(&mut self, status: Status) {
        self.ended = Some(status);
    }

    fn end(&self) -> Option<Status> {
        self.ended
    }
}
