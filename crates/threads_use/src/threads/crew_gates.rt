//! Handlers of a crew that run in a chosen order, and many at a time.

use super::cases::{CALM, Ran, ask_all};
use super::checks::{status_is, word_is, wrote};
use super::crews::{BOTH, BOTH_REPORTED};
use super::{joined, run_over, turn_until};
use bytes::Bytes;
use link_io::{Fulls, MemSink, MemSource, MemStore};
use pw_run::run_recorded;
use rpc_crew::Gate;
use rpc_frames::write_frame;
use rpc_packet::{CallName, Packet, PacketType};
use std::alloc::{AllocError, Global};
use std::process::Abort;
use std::sync::Wait;
use std::sync::atomic::{AtomicU64, Ordering};
use std::thread::Threads;
use std::time::Clock;

// How many runs a gate saw begin and end, and how often it turned in vain.
#[derive(Drop)]
struct Counts {
    before: AtomicU64,
    after: AtomicU64,
    late: AtomicU64,
}

impl Counts {
    fn new() -> Counts {
        Counts {
            before: AtomicU64::new(0),
            after: AtomicU64::new(0),
            late: AtomicU64::new(0),
        }
    }
}

// So many runs began and ended, and none was held in vain.
fn saw(rt: &impl Abort, counts: &Counts, runs: u64) {
    word_is(rt, "before", &counts.before, runs);
    word_is(rt, "after", &counts.after, runs);
    word_is(rt, "late", &counts.late, 0);
}

// Holds the run of call 0 until that of call 1 is over.
#[derive(Drop)]
struct SecondFirst<'a, R> {
    rt: &'a R,
    counts: &'a Counts,
    over: AtomicU64,
}

impl<'a, R: Clock> Gate for SecondFirst<'a, R> {
    fn before(&self, call: u32) {
        self.counts.before.fetch_add(1, Ordering::SeqCst);
        if call == 0 {
            turn_until(self.rt, &self.over, 1, &self.counts.late);
        }
    }

    fn after(&self, call: u32) {
        self.counts.after.fetch_add(1, Ordering::SeqCst);
        if call == 1 {
            self.over.store(1, Ordering::SeqCst);
        }
    }
}

#[test]
fn a_second_call_is_over_while_the_first_runs(rt: HostRuntime) -> Result<(), AllocError> {
    let alloc = rt.alloc();
    let counts = Counts::new();
    let gate = SecondFirst {
        rt: &rt,
        counts: &counts,
        over: AtomicU64::new(0),
    };
    let mut input = MemSource::new(joined(alloc, BOTH)?, Vec::new(alloc));
    let ran = run_over(&rt, alloc, "crew 2", &mut input, &CALM, &gate)?;
    ask_all(&rt, 0, &ran, BOTH_REPORTED);
    saw(&rt, &counts, 2);
    Ok(())
}

// Holds each run until all sixteen have begun.
#[derive(Drop)]
struct AllAtOnce<'a, R> {
    rt: &'a R,
    counts: &'a Counts,
}

impl<'a, R: Clock> Gate for AllAtOnce<'a, R> {
    fn before(&self, _call: u32) {
        self.counts.before.fetch_add(1, Ordering::SeqCst);
        turn_until(self.rt, &self.counts.before, 16, &self.counts.late);
    }

    fn after(&self, _call: u32) {
        self.counts.after.fetch_add(1, Ordering::SeqCst);
    }
}

// Appends the frame of a call of Echo with payload `abc` on channel 1.
fn write_call(alloc: Global, call: u32, stream: &mut Vec<u8>) -> Result<(), AllocError> {
    let packet = Packet {
        ptype: PacketType::Request,
        name: CallName {
            channel: 1,
            service: 0x70F4_5CFB,
            method: 0x8B47_0EE9,
            call,
        },
        payload: Bytes::copy_from_slice(alloc, b"abc")?,
        status: 0,
    };
    write_frame(alloc, &packet, stream)
}

// Sixteen calls, each with a call id of its own, from 1.
fn sixteen_calls(alloc: Global) -> Result<MemSource, AllocError> {
    let mut stream = Vec::new(alloc);
    for call in 1..=16 {
        write_call(alloc, call, &mut stream)?;
    }
    Ok(MemSource::new(stream, Vec::new(alloc)))
}

// What one thread writes of them.
fn report_alone(alloc: Global) -> Result<String, AllocError> {
    let mut words = Vec::new(alloc);
    words.push(String::from_str(alloc, "replay")?)?;
    let mut output = MemSink::new(Vec::new(alloc), Vec::new(alloc));
    let mut store = MemStore::new(alloc, Fulls::new(alloc), Fulls::new(alloc), Vec::new(alloc))?;
    let _ = run_recorded(
        alloc,
        &words,
        &mut sixteen_calls(alloc)?,
        &mut output,
        &mut store,
    );
    String::from_utf8(Vec::from_slice(alloc, output.bytes())?).map_err(|_| AllocError)
}

// A report of calls that one thread answered one after another, each with one packet, as a crew tells it: with the number of
// its call before each packet.
fn by_call(alloc: Global, report: &str) -> Result<String, AllocError> {
    let mut text = String::new(alloc);
    let mut call: u32 = 0;
    for line in report.lines() {
        match line.strip_prefix("out ") {
            None => writeln!(&mut text, "{line}")?,
            Some(frame) => {
                writeln!(&mut text, "out {call} {frame}")?;
                call = call.saturating_add(1);
            }
        }
    }
    Ok(text)
}

// What a crew writes of them.
fn wanted_report(alloc: Global) -> Result<String, AllocError> {
    let alone = report_alone(alloc)?;
    by_call(alloc, alone.as_str())
}

// A crew of sixteen, with this gate at its handlers.
fn run_sixteen<R: Threads + Wait + Sync, G: Gate + Sync>(
    rt: &R,
    alloc: Global,
    gate: &G,
) -> Result<Ran, AllocError> {
    let mut input = sixteen_calls(alloc)?;
    run_over(rt, alloc, "crew 16", &mut input, &CALM, gate)
}

#[test]
fn sixteen_handlers_run_at_a_time(rt: HostRuntime) -> Result<(), AllocError> {
    let alloc = rt.alloc();
    let counts = Counts::new();
    let gate = AllAtOnce {
        rt: &rt,
        counts: &counts,
    };
    let ran = run_sixteen(&rt, alloc, &gate)?;
    let report = wanted_report(alloc)?;
    status_is(&rt, 0, 0, ran.status, 0);
    wrote(&rt, 0, 1, ran.output.bytes(), report.as_bytes());
    saw(&rt, &counts, 16);
    Ok(())
}
