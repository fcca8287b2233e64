//! One session, and how long it took.
ghost use Rattle.std.specs.Prelude.{◌≡◌, ◌<◌, ◌≤◌, false};

use super::turning::{Turners, turn_alone, turn_calls};
use link_io::{Fulls, MemSink, MemSource, MemStore, Sink, Source, WallClock};
use rpc_channel::Channels;
use rpc_crew::{Free, session};
use rpc_handlers::Maker;
use std::alloc::Global;
use std::sync::Wait;
use std::thread::Threads;
use std::time::{Clock, Duration, Instant};

/// What a session has to do.
#[derive(Clone, Copy, Debug)]
pub struct Work {
    /// How many workers run handlers. A session has 1 to 16 of them: the nearest of these numbers is taken.
    pub workers: u32,
    pub calls: u32,
    /// How often each handler turns its number.
    pub rounds: u32,
}

/// What a session did, and how long it took.
#[derive(Clone, Copy, Debug)]
pub struct Timing {
    pub replies: u64,
    /// How long the replies' frames are in all.
    pub octets: u64,
    pub taken: Duration,
}

/// Serves the calls from memory to memory.
pub fn timed<R: Threads + Wait + Clock + Sync>(
    rt: &R,
    alloc: Global,
    work: Work,
) -> anyhow::Result<Timing> {
    let mut link_in = MemSource::new(turn_calls(alloc, work.calls)?, Vec::new(alloc));
    let mut link_out = MemSink::new(Vec::new(alloc), Vec::new(alloc));
    let maker = Turners {
        alloc,
        rounds: work.rounds,
    };
    let begun = Instant::now(rt)?;
    let replies = serve(
        rt,
        alloc,
        &mut link_in,
        &mut link_out,
        &maker,
        work.workers.clamp(1, 16),
    )?;
    let taken = Instant::now(rt)?.duration_since(begun);
    Ok(Timing {
        replies,
        octets: link_out.bytes().len() as u64,
        taken,
    })
}

// Serves the only method on channel 1, and says how many items were made.
fn serve<R: Threads + Wait + Clock + Sync, I: Source + Send, O: Sink + Send, M: Maker + Sync>(
    rt: &R,
    alloc: Global,
    link_in: &mut I,
    link_out: &mut O,
    maker: &M,
    workers: u32,
) -> anyhow::Result<u64>
where
    M::H: Send,
    requires workers { (0 < workers) × (workers ≤ 16) }
    requires open { O.finished link_out.old ≡ false }
{
    let mut store = MemStore::new(alloc, Fulls::new(alloc), Fulls::new(alloc), Vec::new(alloc))?;
    let mut channels = Channels::new(alloc);
    channels.add(1)?;
    let registry = turn_alone(alloc)?;
    let did = session(
        rt,
        alloc,
        link_in,
        link_out,
        &mut store,
        channels,
        registry,
        maker,
        workers,
        &mut WallClock::new(rt),
        &Free,
    )?;
    Ok(did.done)
}
