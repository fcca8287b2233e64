//! A board that never answers, and one that closes once this end has said that nothing more comes.
ghost use Rattle.std.specs.Prelude.{◌≡◌, None, false};
ghost use Rattle.live_client.specs.Ask.{CanAsk};

use super::calls::stream;
use super::facts::Fact::{self, *};
use super::facts::why_is;
use super::frames::bytes_are;
use super::{FETCHED, does_over, fetch, say_status, told};
use crate::checks::number_is;
use bytes::Bytes;
use demo_services::ids::{DEMO, READ, SUM};
use link_io::{Failed, Fulls, MemSink, MemSource, MemStore, Sink, Source, StepClock, Still, Why};
use live_client::{LiveAsk, live};
use rpc_ids::{Kind, Status};
use rpc_packet::PacketType;
use std::alloc::{AllocError, Global};
use std::process::Abort;
use std::sync::Wait;
use std::sync::atomic::{AtomicU64, Ordering};
use std::test::Fail;
use std::thread::{self, Threads};
use std::time::{self, Duration};

// A turn is a millisecond.
const TURNS: u32 = 10_000;

// Turns until the sink is finished, or for ten seconds.
fn turn_until_finished<R: time::Clock>(rt: &R, finished: &AtomicU64) {
    for _ in 0..TURNS {
        if finished.load(Ordering::SeqCst) > 0 {
            return;
        }
        thread::sleep(rt, Duration::from_millis(1));
    }
}

// A source that meets its end once the sink of the same link is finished.
#[derive(Drop)]
struct Patient<'a, R> {
    rt: &'a R,
    inner: MemSource,
    finished: &'a AtomicU64,
}

impl<'a, R: time::Clock> Source for Patient<'a, R> {
    ghost left = { λ _. None };

    ghost faults = { λ s. s.inner.faults };

    fn read(&mut self, buf: &mut [u8]) -> Result<usize, Failed> {
        let count = self.inner.read(buf)?;
        if count == 0 {
            turn_until_finished(self.rt, self.finished);
        }
        Ok(count)
    }
}

// A sink that tells when it is finished.
#[derive(Drop)]
struct Telling<'a> {
    inner: MemSink,
    finished: &'a AtomicU64,
}

impl<'a> Sink for Telling<'a> {
    ghost written = { λ _. None };

    ghost faults = { λ s. s.inner.faults };

    ghost finished = { λ s. s.inner.finished };

    fn write(&mut self, bytes: &[u8]) -> Result<usize, Failed> {
        self.inner.write(bytes)
    }

    fn flush(&mut self) -> Result<(), Failed> {
        self.inner.flush()
    }

    fn finish(&mut self) -> Result<(), Failed> {
        let done = self.inner.finish();
        self.finished.store(1, Ordering::SeqCst);
        done
    }
}

// The ends of a link over which this comes, of which the source awaits that the sink is finished.
fn ends_of<'a, R>(
    rt: &'a R,
    alloc: Global,
    input: Vec<u8>,
    finished: &'a AtomicU64,
) -> (Patient<'a, R>, Telling<'a>)
    ensures { result.1.inner.finished ≡ false }
{
    let link_in = Patient {
        rt,
        inner: MemSource::new(input, Vec::new(alloc)),
        finished,
    };
    let link_out = Telling {
        inner: MemSink::new(Vec::new(alloc), Vec::new(alloc)),
        finished,
    };
    (link_in, link_out)
}

// Of what a client does whose board never answers, by this clock, these facts hold. What it says.
fn says_unanswered<R: Threads + Wait + Sync + time::Clock + Abort>(
    rt: &R,
    alloc: Global,
    clock: &mut StepClock,
    ask: LiveAsk,
    facts: &[Fact],
) -> Result<Vec<u8>, Fail>
    requires { CanAsk ask }
{
    let finished = AtomicU64::new(0);
    let (mut link_in, mut link_out) = ends_of(rt, alloc, Vec::new(alloc), &finished);
    does_over(rt, alloc, &mut link_in, &mut link_out, clock, ask, facts)?;
    Ok(Vec::from_slice(alloc, link_out.inner.bytes())?)
}

const TOO_LATE: &[Fact] = &[
    Stopped(Why::Settled),
    Ended(Status::DeadlineExceeded),
    Length(0),
];

#[test]
fn a_board_that_never_answers_meets_the_deadline(rt: HostRuntime) -> Result<(), Fail> {
    let alloc = rt.alloc();
    let moments = [0, 2_000, 4_000, 6_000, 8_000, 10_000];
    let mut clock = StepClock::new(Vec::from_slice(alloc, &moments)?);
    says_unanswered(&rt, alloc, &mut clock, fetch(0), TOO_LATE)?;
    Ok(())
}

// The first call of the store fails, in the middle of a fetch. The board waits for more to be asked, and closes once it hears that
// nothing more comes.
#[test]
fn a_board_hears_that_a_store_failed(rt: HostRuntime) -> Result<(), Fail> {
    let alloc = rt.alloc();
    let finished = AtomicU64::new(0);
    fails_to_store(&rt, alloc, told(alloc, READ, FETCHED)?, &finished)?;
    number_is(&rt, finished.load(Ordering::SeqCst), 1, 0);
    Ok(())
}

// A fetch over this input, for which the store fails at once.
fn fails_to_store<R: Threads + Wait + Sync + time::Clock + Abort>(
    rt: &R,
    alloc: Global,
    input: Vec<u8>,
    finished: &AtomicU64,
) -> Result<(), Fail> {
    let (mut link_in, mut link_out) = ends_of(rt, alloc, input, finished);
    let fails = Vec::from_slice(alloc, &[1])?;
    let mut store = MemStore::new(alloc, Fulls::new(alloc), Fulls::new(alloc), fails)?;
    let did = live(
        rt,
        alloc,
        &mut link_in,
        &mut link_out,
        &mut store,
        &mut Still::new(),
        fetch(0),
    )?;
    why_is(rt, did.why, Why::Store, 0);
    Ok(())
}

// What a call of Sum says that streams two messages and is cancelled then.
const SAID: &[(PacketType, &[u8], u32)] = &[
    (PacketType::Request, b"", 0),
    (PacketType::ClientStream, b"\x01\x02", 0),
    (PacketType::ClientStream, b"\xFF", 0),
    (PacketType::Completion, b"", 0),
    (PacketType::ClientError, b"", 1),
];

fn said(alloc: Global) -> Result<Vec<u8>, AllocError> {
    let mut stream = Vec::new(alloc);
    for &(ptype, payload, status) in SAID {
        let payload = Bytes::copy_from_slice(alloc, payload)?;
        say_status(alloc, DEMO, SUM, ptype, payload, status, &mut stream)?;
    }
    Ok(stream)
}

const CANCELLED: &[Fact] = &[Stopped(Why::Settled), Ended(Status::Cancelled)];

// The board never answers. The call says all in order, and is cancelled once its time has passed, and not before.
#[test]
fn a_call_is_cancelled_when_its_time_has_passed(rt: HostRuntime) -> Result<(), Fail> {
    let alloc = rt.alloc();
    let moments = [5, 5, 5, 5, 5, 5, 5, 5, 1_004, 1_005];
    let mut clock = StepClock::new(Vec::from_slice(alloc, &moments)?);
    let ask = stream(alloc, SUM, Kind::ClientStream, Some(1_000))?;
    let says = says_unanswered(&rt, alloc, &mut clock, ask, CANCELLED)?;
    bytes_are(&rt, &says, &said(alloc)?);
    Ok(())
}
