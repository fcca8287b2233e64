//! How long each step of a call's work takes.
ghost use Rattle.std.specs.Prelude.{◌≡◌, OnOk};
ghost use Rattle.speed.specs.Fed.{IsFed, bare_seed};

use super::fed::{Sent, arrive, finish, flush, start};
use demo_services::{DemoCall, DemoMaker};
use rpc_calls::Calls;
use rpc_handlers::Maker;
use std::alloc::AllocError;
use std::fmt;
use std::fmt::Write;
use std::time::{Clock, Duration, Instant};

/// What all messages so far have taken.
#[derive(Clone, Copy, Default)]
pub struct Times {
    arrivals: Duration,
    starts: Duration,
    handlers: Duration,
    finishes: Duration,
    readings: Duration,
}

/// The readings of the clock about the steps of one message.
#[derive(Clone, Copy)]
struct Readings {
    before: Instant,
    began: Instant,
    arrived: Instant,
    started: Instant,
    answered: Instant,
    finished: Instant,
}

impl Times {
    fn add(&mut self, r: Readings) {
        self.readings = self
            .readings
            .saturating_add(r.began.duration_since(r.before));
        self.arrivals = self
            .arrivals
            .saturating_add(r.arrived.duration_since(r.began));
        self.starts = self
            .starts
            .saturating_add(r.started.duration_since(r.arrived));
        self.handlers = self
            .handlers
            .saturating_add(r.answered.duration_since(r.started));
        self.finishes = self
            .finishes
            .saturating_add(r.finished.duration_since(r.answered));
    }
}

impl fmt::Display for Times {
    fn fmt<W: Write>(&self, f: &mut fmt::Formatter<W>) -> fmt::Result {
        write!(
            f,
            "arrivals {} starts {} handlers {} finishes {} readings {}",
            self.arrivals.as_nanos(),
            self.starts.as_nanos(),
            self.handlers.as_nanos(),
            self.finishes.as_nanos(),
            self.readings.as_nanos()
        )
    }
}

/// So many calls are opened, and the first run of each takes its request.
pub fn open_calls(calls: &mut Calls<DemoCall>, maker: &DemoMaker, live: u32) -> anyhow::Result<()>
    requires seed { ⟦<DemoMaker as Maker>⟧.seed_memo maker.now ≡ bare_seed }
    requires fed { IsFed calls.old }
    ensures { OnOk result (IsFed calls.new) }
{
    open_each(calls, maker, Sent::Request, live)
}

/// So many calls of Echo are opened, and the run of each answers it.
pub fn close_calls(calls: &mut Calls<DemoCall>, maker: &DemoMaker, count: u32) -> anyhow::Result<()>
    requires seed { ⟦<DemoMaker as Maker>⟧.seed_memo maker.now ≡ bare_seed }
    requires fed { IsFed calls.old }
    ensures { OnOk result (IsFed calls.new) }
{
    open_each(calls, maker, Sent::Echo, count)
}

// So many of these come, each with an id of its own and followed by a run of its call.
fn open_each(
    calls: &mut Calls<DemoCall>,
    maker: &DemoMaker,
    sent: Sent,
    count: u32,
) -> anyhow::Result<()>
    requires seed { ⟦<DemoMaker as Maker>⟧.seed_memo maker.now ≡ bare_seed }
    requires fed { IsFed calls.old }
    ensures { OnOk result (IsFed calls.new) }
{
    for id in 0..count {
        arrive(calls, maker, sent, id)?;
        run(calls)?;
    }
    Ok(())
}

// A run of the call that is ready first, and what it says goes out.
fn run(calls: &mut Calls<DemoCall>) -> anyhow::Result<()>
    ensures { OnOk result (IsFed calls.old → IsFed calls.new) }
{
    let Some(mut running) = start(calls)? else {
        return Ok(());
    };
    if running.call().is_err() {
        let _ = running.spill();
        return Err(AllocError.into());
    }
    finish(calls, running);
    flush(calls);
    Ok(())
}

/// So many messages go to the calls by turns, each followed by a run of its call.
pub fn serve(
    clock: &impl Clock,
    calls: &mut Calls<DemoCall>,
    maker: &DemoMaker,
    live: u32,
    messages: u32,
    times: &mut Times,
) -> anyhow::Result<()>
    requires seed { ⟦<DemoMaker as Maker>⟧.seed_memo maker.now ≡ bare_seed }
    requires fed { IsFed calls.old }
{
    for message in 0..messages {
        let id = message.checked_rem(live).unwrap_or(0);
        serve_one(clock, calls, maker, id, times)?;
    }
    Ok(())
}

// A message to the call with this id, and the run that takes it.
fn serve_one(
    clock: &impl Clock,
    calls: &mut Calls<DemoCall>,
    maker: &DemoMaker,
    id: u32,
    times: &mut Times,
) -> anyhow::Result<()>
    requires seed { ⟦<DemoMaker as Maker>⟧.seed_memo maker.now ≡ bare_seed }
    requires fed { IsFed calls.old }
    ensures { OnOk result (IsFed calls.new) }
{
    let before = Instant::now(clock)?;
    let began = Instant::now(clock)?;
    arrive(calls, maker, Sent::Message, id)?;
    let arrived = Instant::now(clock)?;
    let Some(mut running) = start(calls)? else {
        return Ok(());
    };
    let started = Instant::now(clock);
    if running.call().is_err() {
        let _ = running.spill();
        return Err(AllocError.into());
    }
    let answered = Instant::now(clock);
    finish(calls, running);
    let finished = Instant::now(clock)?;
    flush(calls);
    times.add(Readings {
        before,
        began,
        arrived,
        started: started?,
        answered: answered?,
        finished,
    });
    Ok(())
}
