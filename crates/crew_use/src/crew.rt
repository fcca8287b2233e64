//! Sessions over links in memory, with handlers and gates of their own.
ghost use mathlib.Core.Bool.{false≢true};
ghost use Rattle.std.specs.Prelude.{◌≡◌, ◌<◌, ◌≤◌, if◌then◌else◌, [], IfOk, None, Some, false};
ghost use Rattle.rpc_handlers.specs.HandlerRule.{empty_memo};
ghost use Rattle.rpc_ids.specs.declared.status.Status.TheVariants.{Okay};

use bytes::Bytes;
use link_io::{Clock, Fulls, MemSink, MemSource, MemStore, Sink, Source, Still, Why};
use rpc_channel::Channels;
use rpc_crew::{Free, Gate, session};
use rpc_frames::write_frame;
use rpc_handlers::{Acts, Answer, End, Event, Handler, Maker, Memo, Outs, Parts, Words};
use rpc_ids::{Kind, MethodRef, Registry, Status, hash_name};
use rpc_packet::{CallName, Packet, PacketType};
use std::alloc::{AllocError, Global};
use std::process::Abort;
use std::sync::Wait;
use std::sync::atomic::{AtomicU64, Ordering};
use std::test::Fail;
use std::thread::Threads;
use std::time::Duration;
use std::{thread, time};

mod clocks;
mod gates;
mod hanging;
mod moments;
mod one_frame;
mod queues;

// A gate or a device turns at most so often, a millisecond each time.
const TURNS: u32 = 10_000;

// Turns until the word is as large, and counts as late where it never was.
fn turn_until<R: time::Clock>(rt: &R, word: &AtomicU64, least: u64, late: &AtomicU64) {
    for _ in 0..TURNS {
        if word.load(Ordering::SeqCst) >= least {
            return;
        }
        thread::sleep(rt, Duration::from_millis(1));
    }
    late.fetch_add(1, Ordering::SeqCst);
}

// The method whose calls end at their first event, and the one whose calls stay open.
const ECHO: &[u8] = b"Echo";

const STAY: &[u8] = b"Stay";

// Ends its call at the first event, unless it stays.
#[derive(Drop)]
struct Echo {
    alloc: Global,
    stays: bool,
}

fn no_memo(alloc: Global) -> Memo
    ensures { result ≡ empty_memo }
{
    Memo {
        words: Words::new(alloc),
        parts: Parts::new(alloc),
    }
}

impl Acts for Echo {
    ghost can_act = { λ _. Unit {0} };

    ghost now = { λ _. empty_memo };

    ghost gives = { λ e _. record { items = []; end = if e.stays then None else Some (record { status = Okay; payload = [] }) } };

    ghost moves = { λ _ _. empty_memo };

    fn on(&mut self, ev: &Event) -> Result<Answer, AllocError> {
        let _ = ev;
        let end = if self.stays {
            None
        } else {
            Some(End {
                status: Status::Okay,
                payload: Bytes::new(),
            })
        };
        Ok(Answer {
            items: Outs::new(self.alloc),
            end,
        })
    }

    fn memo(&self) -> Result<Memo, AllocError> {
        Ok(no_memo(self.alloc))
    }
}

impl Handler for Echo {
    ghost rule = { record { ruled = false; answer = λ _ _. record { items = []; end = Some (record { status = Okay; payload = [] }) }; next = λ _ _. empty_memo; first = λ _ _. empty_memo } };

    ghost answers_by_rule = { λ ruled. absurd (false≢true ruled) };

    ghost moves_by_rule = { λ ruled. absurd (false≢true ruled) };
}

// Makes them.
#[derive(Drop)]
struct Echoes {
    alloc: Global,
}

impl Maker for Echoes {
    type H = Echo;

    ghost seed_memo = { λ _. empty_memo };

    fn seed(&self) -> Result<Memo, AllocError> {
        Ok(no_memo(self.alloc))
    }

    fn make(&self, m: MethodRef) -> Result<Echo, AllocError> {
        Ok(Echo {
            alloc: self.alloc,
            stays: m.method == hash_name(STAY),
        })
    }
}

fn channel_one(alloc: Global) -> Result<Channels, Fail> {
    let mut channels = Channels::new(alloc);
    channels.add(1)?;
    Ok(channels)
}

fn both_methods(alloc: Global) -> Result<Registry, Fail> {
    let mut registry = Registry::new(alloc);
    registry.add(b"demo.Demo", ECHO, Kind::Unary, false)?;
    registry.add(b"demo.Demo", STAY, Kind::Bidi, true)?;
    Ok(registry)
}

// So many Echo calls, each with a call id of its own, from 1.
fn echo_calls(alloc: Global, count: u32) -> Result<Vec<u8>, AllocError> {
    calls_of(alloc, ECHO, count)
}

// The same, of another method.
fn calls_of(alloc: Global, method: &[u8], count: u32) -> Result<Vec<u8>, AllocError> {
    let mut stream = Vec::new(alloc);
    for call in 0..count {
        let request = Packet {
            ptype: PacketType::Request,
            name: CallName {
                channel: 1,
                service: hash_name(b"demo.Demo"),
                method: hash_name(method),
                call: call + 1,
            },
            payload: Bytes::new(),
            status: 0,
        };
        write_frame(alloc, &request, &mut stream)?;
    }
    Ok(stream)
}

// How many frames stand one after another: each has two flags, and no other octet of it is one.
fn frames(written: &[u8]) -> u32 {
    let mut flags: u32 = 0;
    for octet in written {
        if *octet == 0x7E {
            flags = flags.saturating_add(1);
        }
    }
    flags / 2
}

// What a session told.
#[derive(Clone, Copy)]
struct Told {
    why: Why,
    // How many items were written, how many frames came, and how many entries its journal has.
    done: u64,
    heard: u64,
    entries: u64,
    // The first moment of its clock.
    began: u64,
}

// A sink in memory whose writes of these numbers fail.
fn sink(alloc: Global, fails: &[u64]) -> Result<MemSink, AllocError>
    ensures { IfOk result (λ s. s.finished ≡ false) }
{
    Ok(MemSink::new(Vec::new(alloc), Vec::from_slice(alloc, fails)?))
}

// A source in memory that never fails.
fn source(alloc: Global, stream: Vec<u8>) -> MemSource {
    MemSource::new(stream, Vec::new(alloc))
}

// Serves a link by these handlers, on channel 1, with an empty store.
fn serve_echoes<
    R: Threads + Wait + Sync,
    I: Source + Send,
    O: Sink + Send,
    C: Clock + Send,
    G: Gate + Sync,
>(
    rt: &R,
    alloc: Global,
    link_in: &mut I,
    link_out: &mut O,
    workers: u32,
    clock: &mut C,
    gate: &G,
) -> Result<Told, Fail>
    requires workers { (0 < workers) × (workers ≤ 16) }
    requires open { O.finished link_out.old ≡ false }
{
    let registry = both_methods(alloc)?;
    serve_by(
        rt,
        alloc,
        link_in,
        link_out,
        registry,
        &Echoes { alloc },
        workers,
        clock,
        gate,
    )
}

// Serves a link on channel 1, with an empty store.
fn serve_by<
    R: Threads + Wait + Sync,
    I: Source + Send,
    O: Sink + Send,
    M: Maker + Sync,
    C: Clock + Send,
    G: Gate + Sync,
>(
    rt: &R,
    alloc: Global,
    link_in: &mut I,
    link_out: &mut O,
    registry: Registry,
    maker: &M,
    workers: u32,
    clock: &mut C,
    gate: &G,
) -> Result<Told, Fail>
where
    M::H: Send,
    requires workers { (0 < workers) × (workers ≤ 16) }
    requires open { O.finished link_out.old ≡ false }
{
    let mut store = MemStore::new(alloc, Fulls::new(alloc), Fulls::new(alloc), Vec::new(alloc))?;
    let channels = channel_one(alloc)?;
    let did = session(
        rt, alloc, link_in, link_out, &mut store, channels, registry, maker, workers, clock, gate,
    )?;
    Ok(Told {
        why: did.why,
        done: did.done,
        heard: did.counts.valid,
        entries: did.journal.len(),
        began: did.began,
    })
}

// Serves a link that brings so many Echo calls, and whose reads of these numbers fail.
fn serve_calls<R: Threads + Wait + Sync, O: Sink + Send, G: Gate + Sync>(
    rt: &R,
    alloc: Global,
    count: u32,
    fails: &[u64],
    link_out: &mut O,
    workers: u32,
    gate: &G,
) -> Result<Told, Fail>
    requires workers { (0 < workers) × (workers ≤ 16) }
    requires open { O.finished link_out.old ≡ false }
{
    let stream = echo_calls(alloc, count)?;
    let mut link_in = MemSource::new(stream, Vec::from_slice(alloc, fails)?);
    serve_echoes(
        rt,
        alloc,
        &mut link_in,
        link_out,
        workers,
        &mut Still::new(),
        gate,
    )
}

// The session ended so, and so many items were written.
fn ended(rt: &impl Abort, did: Told, why: Why, done: u64) {
    why_is(rt, did, why);
    number_is(rt, did.done, done);
}

fn why_is(rt: &impl Abort, did: Told, why: Why) {
    assert_eq!(rt; did.why, why);
}

// So many frames came.
fn heard(rt: &impl Abort, did: Told, frames: u64) {
    number_is(rt, did.heard, frames);
}

// So many frames were written.
fn wrote(rt: &impl Abort, link_out: &MemSink, count: u32) {
    assert_eq!(rt; frames(link_out.bytes()), count);
}

fn some_came(rt: &impl Abort, count: u32) {
    assert!(rt; count > 0);
}

fn number_is(rt: &impl Abort, number: u64, want: u64) {
    assert_eq!(rt; number, want);
}

fn word_is(rt: &impl Abort, word: &AtomicU64, want: u64) {
    number_is(rt, word.load(Ordering::SeqCst), want);
}

#[test]
fn four_hundred_calls_settle(rt: HostRuntime) -> Result<(), Fail> {
    let alloc = rt.alloc();
    let mut link_out = sink(alloc, &[])?;
    let did = serve_calls(&rt, alloc, 400, &[], &mut link_out, 1, &Free)?;
    ended(&rt, did, Why::Settled, 400);
    heard(&rt, did, 400);
    wrote(&rt, &link_out, 400);
    Ok(())
}

// A write takes at most the 256 items that the ring has room for, so that there is a second one.
#[test]
fn the_second_write_fails(rt: HostRuntime) -> Result<(), Fail> {
    let alloc = rt.alloc();
    let mut link_out = sink(alloc, &[2])?;
    let did = serve_calls(&rt, alloc, 400, &[], &mut link_out, 1, &Free)?;
    let written = frames(link_out.bytes());
    ended(&rt, did, Why::Sink, u64::from(written));
    some_came(&rt, written);
    Ok(())
}

#[test]
fn what_came_before_a_fault_of_the_source_is_served(rt: HostRuntime) -> Result<(), Fail> {
    let alloc = rt.alloc();
    let mut link_out = sink(alloc, &[])?;
    let did = serve_calls(&rt, alloc, 1, &[2], &mut link_out, 4, &Free)?;
    ended(&rt, did, Why::Source, 1);
    wrote(&rt, &link_out, 1);
    Ok(())
}
