//! Six passes in threads of their own over one table: a reader, a writer, and four workers that cancel and replace.
ghost use Rattle.std.specs.Prelude.{◌≡◌, length, vec_capacity};
ghost use Rattle.std.specs.Thread.{IsSync};
ghost use Rattle.turn_cell.specs.Passes.{IsIdle, IsNew};
ghost use Rattle.rpc_ids.specs.declared.method.Role.TheVariants.{Server};
ghost use Rattle.rpc_shared.specs.Helpers.{AreEach, IsSeat};

use super::claims::runs_none_behind;
use super::desk::{arrive, next_item, open_table, packet_on, served};
use super::jobs::{cancel, end, look_at, replace, start};
use super::journals::cancels_in;
use super::letters::{Letter, Letters};
use rpc_calls::Calls;
use rpc_handlers::{Handler, Maker};
use rpc_ids::{MethodRef, Role};
use rpc_journal::check;
use rpc_packet::PacketType;
use rpc_shared::{Pass, Shared};
use std::alloc::Global;
use std::process::Abort;
use std::sync::Wait;
use std::test::Fail;
use std::thread::{Threads, join};

/// How many calls arrive.
const CALLS: u32 = 10_000;

/// How many passes run what is ready.
const WORKERS: u32 = 4;

// The calls arrive, and then the input ends.
fn feed<M: Maker, R: Abort + Wait>(
    rt: &R,
    shared: &Shared<M::H>,
    maker: &M,
    method: MethodRef,
    mut pass: Pass<M::H>,
) -> Pass<M::H>
    requires role { shared.now.base.role ≡ Server }
    requires seed { M.seed_memo maker.now ≡ shared.now.base.seed }
    requires new { IsNew shared.now pass.view.known.number pass }
    requires first { pass.view.known.number ≡ 0 }
    ensures seat { IsSeat shared.now result }
    ensures number { result.view.known.number ≡ pass.view.known.number }
{
    for call in 0..CALLS {
        let request = packet_on(1, PacketType::Request, method, call);
        let arrived = arrive(rt, shared, &mut pass, maker, &request);
        assert!(rt; arrived.is_ok());
    }
    shared.end_in(rt, &mut pass);
    pass
}

// What waits goes out, until nothing is left to do.
fn flush<H: Handler, R: Abort + Wait>(rt: &R, shared: &Shared<H>, mut pass: Pass<H>) -> Pass<H>
    requires seat { IsSeat shared.now pass }
    ensures seat { IsSeat shared.now result }
    ensures number { result.view.known.number ≡ pass.view.known.number }
{
    'rounds: for _ in rt.forever() {
        let item = next_item(rt, shared, &mut pass);
        let look = look_at(rt, shared, &mut pass);
        if item.is_none() && look.settled {
            return pass;
        }
    }
    unreachable!()
}

// The next run, from its start to its finish. Gives the call.
fn run_next<H: Handler, R: Abort + Wait>(
    rt: &R,
    shared: &Shared<H>,
    pass: &mut Pass<H>,
) -> Option<u32>
    requires seat { IsSeat shared.now pass.old }
    ensures seat { IsSeat shared.now pass.new }
    ensures number { pass.new.view.known.number ≡ pass.old.view.known.number }
{
    let running = match start(rt, shared, pass) {
        Some(running) => running,
        None => return None,
    };
    let call = running.call_number();
    let _handler = end(rt, shared, pass, running);
    Some(call)
}

// Gives the call another handler, where its number is a multiple of 5.
fn replace_fifth<M: Maker, R: Abort + Wait>(
    rt: &R,
    shared: &Shared<M::H>,
    maker: &M,
    method: MethodRef,
    pass: &mut Pass<M::H>,
    call: u32,
)
    requires seat { IsSeat shared.now pass.old }
    ensures seat { IsSeat shared.now pass.new }
    ensures number { pass.new.view.known.number ≡ pass.old.view.known.number }
{
    if call % 5 != 0 {
        return;
    }
    let Ok(handler) = maker.make(method) else {
        panic!(rt; "no memory")
    };
    let _handler = replace(rt, shared, pass, call, handler);
}

// Cancels the call, where it is there and its number is a multiple of 3.
fn cancel_third<H: Handler, R: Abort + Wait>(
    rt: &R,
    shared: &Shared<H>,
    pass: &mut Pass<H>,
    call: u32,
)
    requires seat { IsSeat shared.now pass.old }
    ensures seat { IsSeat shared.now pass.new }
    ensures number { pass.new.view.known.number ≡ pass.old.view.known.number }
{
    let look = look_at(rt, shared, pass);
    if look.calls <= call || call % 3 != 0 {
        return;
    }
    let _told = cancel(rt, shared, pass, call);
}

// Runs what is ready, and meddles with the call behind each that ran, until the input has ended and no call is left.
fn run_all<M: Maker, R: Abort + Wait>(
    rt: &R,
    shared: &Shared<M::H>,
    maker: &M,
    method: MethodRef,
    mut pass: Pass<M::H>,
) -> Pass<M::H>
    requires seat { IsSeat shared.now pass }
    ensures seat { IsSeat shared.now result }
    ensures number { result.view.known.number ≡ pass.view.known.number }
{
    'rounds: for _ in rt.forever() {
        match run_next(rt, shared, &mut pass) {
            Some(call) => {
                let next = call.wrapping_add(1);
                replace_fifth(rt, shared, maker, method, &mut pass, next);
                cancel_third(rt, shared, &mut pass, next);
            }
            None => {
                if look_at(rt, shared, &mut pass).idle {
                    return pass;
                }
            }
        }
    }
    unreachable!()
}

// What the pass of a number does.
fn work<M: Maker, R: Abort + Wait>(
    rt: &R,
    shared: &Shared<M::H>,
    maker: &M,
    method: MethodRef,
    pass: Pass<M::H>,
) -> Pass<M::H>
    requires role { shared.now.base.role ≡ Server }
    requires seed { M.seed_memo maker.now ≡ shared.now.base.seed }
    requires new { IsNew shared.now pass.view.known.number pass }
    ensures seat { IsSeat shared.now result }
    ensures number { result.view.known.number ≡ pass.view.known.number }
{
    match pass.number() {
        0 => feed(rt, shared, maker, method, pass),
        1 => flush(rt, shared, pass),
        _ => run_all(rt, shared, maker, method, pass),
    }
}

// The same for all passes, each in a thread of its own.
fn crew<M: Maker + Sync, R: Abort + Threads + Wait + Sync>(
    rt: &R,
    shared: &Shared<M::H>,
    maker: &M,
    method: MethodRef,
    mut passes: Vec<Pass<M::H>>,
) -> Vec<Pass<M::H>>
where
    M::H: Send,
    requires role { shared.now.base.role ≡ Server }
    requires seed { M.seed_memo maker.now ≡ shared.now.base.seed }
    requires new { AreEach (IsNew shared.now) passes.items }
    ensures idle { AreEach (IsIdle shared.now) result.items }
    ensures count { length result.items ≡ length passes.items }
    ensures room { vec_capacity result ≡ vec_capacity passes }
{
    let Some(pass) = passes.pop() else {
        return passes;
    };
    let (mut all, last) = join(
        rt,
        move || -> Vec<Pass<M::H>>
            requires { IsSync R.row × (shared.now.base.role ≡ Server) × (M.seed_memo maker.now ≡ shared.now.base.seed) × AreEach (IsNew shared.now) passes.items }
            ensures { AreEach (IsIdle shared.entry.now) result.items × (length result.items ≡ length passes.items) × (vec_capacity result ≡ vec_capacity passes) }
        { crew(rt, shared, maker, method, passes) },
        move || -> Pass<M::H>
            requires { (shared.now.base.role ≡ Server) × (M.seed_memo maker.now ≡ shared.now.base.seed) × IsNew shared.now pass.view.known.number pass }
            ensures { IsSeat shared.entry.now result × (result.view.known.number ≡ pass.view.known.number) }
        { work(rt, shared, maker, method, pass) },
    );
    all.push_reserved(last);
    all
}

// Each call came, some were cancelled, and the journal is one that a server may have.
fn all_were_served(rt: &impl Abort, alloc: Global, calls: Calls<Letter>) -> Result<(), Fail> {
    assert!(rt; calls.settled());
    is_lawful(rt, alloc, &calls)?;
    assert_eq!(rt; calls.count(), CALLS);
    let journal = calls.into_journal();
    assert!(rt; 1_000 < cancels_in(&journal));
    runs_none_behind(rt, alloc, &journal);
    Ok(())
}

fn is_lawful(rt: &impl Abort, alloc: Global, calls: &Calls<Letter>) -> Result<(), Fail> {
    let (channels, registry, _) = served(alloc)?;
    let fault = check(alloc, calls.journal(), Role::Server, &channels, &registry)?;
    assert_eq!(rt; fault, None);
    Ok(())
}

// Each handler was dropped.
fn all_were_dropped(rt: &impl Abort, maker: &Letters) {
    let (made, dropped) = maker.counts.told();
    assert!(rt; 10_000 < made);
    assert_eq!(rt; dropped, made);
}

#[test]
fn four_workers_run_ten_thousand_calls(rt: HostRuntime) -> Result<(), Fail> {
    let maker = Letters::new(rt.alloc(), b'a', true)?;
    let (calls, methods) = open_table(rt.alloc(), &maker)?;
    let Ok((shared, passes)) = Shared::with(rt.alloc(), calls, 6) else {
        panic!(rt; "no memory")
    };
    let passes = crew(&rt, &shared, &maker, methods.chat, passes);
    let mut calls = shared.close(passes);
    // A worker may have cut a call once more after the pass that flushes saw all settled: one item each, at most.
    for _ in 0..WORKERS {
        let _item = calls.flush_front(1);
    }
    all_were_served(&rt, rt.alloc(), calls)?;
    all_were_dropped(&rt, &maker);
    Ok(())
}
