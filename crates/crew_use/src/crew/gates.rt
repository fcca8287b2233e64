//! Runs in a chosen order, and many at a time.
ghost use Rattle.std.specs.Prelude.{◌<◌, ◌≤◌};

use super::{ended, serve_calls, sink, turn_until, word_is};
use link_io::Why;
use rpc_crew::Gate;
use std::alloc::Global;
use std::process::Abort;
use std::sync::Wait;
use std::sync::atomic::{AtomicU64, Ordering};
use std::test::Fail;
use std::thread::Threads;
use std::time::Clock;

// So many Echo calls are served by as many workers, and each comes through the gate.
fn all_pass<R: Abort + Threads + Wait + Sync, G: Gate + Sync>(
    rt: &R,
    alloc: Global,
    count: u32,
    gate: &G,
) -> Result<(), Fail>
    requires { (0 < count) × (count ≤ 16) }
{
    let mut link_out = sink(alloc, &[])?;
    let did = serve_calls(rt, alloc, count, &[], &mut link_out, count, gate)?;
    ended(rt, did, Why::Settled, u64::from(count));
    Ok(())
}

// Holds the run of call 0 until that of call 1 is over.
struct SecondFirst<'a, R> {
    rt: &'a R,
    over: AtomicU64,
    before: AtomicU64,
    after: AtomicU64,
    late: AtomicU64,
}

impl<'a, R> Drop for SecondFirst<'a, R> {
    fn drop(self) {
        let Self {
            rt: _,
            over: _,
            before: _,
            after: _,
            late: _,
        } = self;
    }
}

impl<'a, R: Clock> Gate for SecondFirst<'a, R> {
    fn before(&self, call: u32) {
        self.before.fetch_add(1, Ordering::SeqCst);
        if call == 0 {
            turn_until(self.rt, &self.over, 1, &self.late);
        }
    }

    fn after(&self, call: u32) {
        self.after.fetch_add(1, Ordering::SeqCst);
        if call == 1 {
            self.over.store(1, Ordering::SeqCst);
        }
    }
}

#[test]
fn a_second_call_is_over_while_the_first_runs(rt: HostRuntime) -> Result<(), Fail> {
    let gate = SecondFirst {
        rt: &rt,
        over: AtomicU64::new(0),
        before: AtomicU64::new(0),
        after: AtomicU64::new(0),
        late: AtomicU64::new(0),
    };
    all_pass(&rt, rt.alloc(), 2, &gate)?;
    word_is(&rt, &gate.before, 2);
    word_is(&rt, &gate.after, 2);
    word_is(&rt, &gate.late, 0);
    Ok(())
}

// Holds each run until all sixteen have begun.
struct AllAtOnce<'a, R> {
    rt: &'a R,
    before: AtomicU64,
    after: AtomicU64,
    late: AtomicU64,
}

impl<'a, R> Drop for AllAtOnce<'a, R> {
    fn drop(self) {
        let Self {
            rt: _,
            before: _,
            after: _,
            late: _,
        } = self;
    }
}

impl<'a, R: Clock> Gate for AllAtOnce<'a, R> {
    fn before(&self, _call: u32) {
        self.before.fetch_add(1, Ordering::SeqCst);
        turn_until(self.rt, &self.before, 16, &self.late);
    }

    fn after(&self, _call: u32) {
        self.after.fetch_add(1, Ordering::SeqCst);
    }
}

#[test]
fn sixteen_handlers_run_at_a_time(rt: HostRuntime) -> Result<(), Fail> {
    let gate = AllAtOnce {
        rt: &rt,
        before: AtomicU64::new(0),
        after: AtomicU64::new(0),
        late: AtomicU64::new(0),
    };
    all_pass(&rt, rt.alloc(), 16, &gate)?;
    word_is(&rt, &gate.before, 16);
    word_is(&rt, &gate.after, 16);
    word_is(&rt, &gate.late, 0);
    Ok(())
}
