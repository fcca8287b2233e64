//! A stream that isn't calm, over which a crew may report otherwise than one thread: two REQUESTs of one name. One thread has
//! answered the first before the second comes. A crew may be in the first's run then, and the second cancels it.

use super::checks::{is_so, status_is, told};
use super::{FIRST, run_on, run_over};
use link_io::MemSource;
use rpc_crew::Gate;
use std::alloc::{AllocError, Global};
use std::process::Abort;
use std::sync::Wait;
use std::sync::atomic::{AtomicU64, Ordering};
use std::thread::{self, Threads};
use std::time::{Clock, Duration};

/// What a crew reports where each run is over before the next call comes: the same as of the history of one thread.
const IN_TURN: &str = "frames 2 bad 0 other 0 dropped 0
call 0 1 70f45cfb 8b470ee9 1 unary OK
call 1 1 70f45cfb 8b470ee9 1 unary OK
out 0 7ea503080110011dfb5cf47025e90e478b2a0361626338019794283c7e
out 1 7ea503080110011dfb5cf47025e90e478b2a0361626338019794283c7e
done
";

/// What it reports where the second call comes first.
const TOGETHER: &str = "frames 2 bad 0 other 0 dropped 0
call 0 1 70f45cfb 8b470ee9 1 unary CANCELLED
call 1 1 70f45cfb 8b470ee9 1 unary OK
out 1 7ea503080110011dfb5cf47025e90e478b2a0361626338019794283c7e
done
";

/// What one thread reports.
const ONE_THREAD: &str = "frames 2 bad 0 other 0 dropped 0
call 0 1 70f45cfb 8b470ee9 1 unary OK
call 1 1 70f45cfb 8b470ee9 1 unary OK
out 7ea503080110011dfb5cf47025e90e478b2a0361626338019794283c7e
out 7ea503080110011dfb5cf47025e90e478b2a0361626338019794283c7e
done
";

// A gate turns at most so often, a millisecond each time.
const TURNS: u32 = 10_000;

// Holds the run of call 0 until that of call 1 begins.
#[derive(Drop)]
struct FirstHeld<'a, R> {
    rt: &'a R,
    begun: AtomicU64,
}

impl<'a, R: Clock> Gate for FirstHeld<'a, R> {
    fn before(&self, call: u32) {
        if call > 0 {
            self.begun.store(1, Ordering::SeqCst);
            return;
        }
        for _ in 0..TURNS {
            if self.begun.load(Ordering::SeqCst) > 0 {
                return;
            }
            thread::sleep(self.rt, Duration::from_millis(1));
        }
    }

    fn after(&self, _call: u32) {}
}

// A report without the gate is either of the two.
fn reports_either<R: Threads + Wait + Sync + Abort>(
    rt: &R,
    alloc: Global,
    line: &str,
    stream: &[u8],
) -> Result<(), AllocError> {
    let ran = run_over(rt, alloc, line, stream)?;
    let output = ran.output.as_slice();
    status_is(rt, line, ran.status, 0);
    is_so(
        rt,
        line,
        output == IN_TURN.as_bytes() || output == TOGETHER.as_bytes(),
    );
    Ok(())
}

#[test]
fn a_second_request_of_a_name_may_come_before_the_first_is_answered(
    rt: HostRuntime,
) -> Result<(), AllocError> {
    let alloc = rt.alloc();
    let mut stream = Vec::from_slice(alloc, FIRST)?;
    stream.extend_from_slice(FIRST)?;
    let gate = FirstHeld {
        rt: &rt,
        begun: AtomicU64::new(0),
    };
    let mut input = MemSource::new(Vec::from_slice(alloc, &stream)?, Vec::new(alloc));
    let held = run_on(&rt, alloc, "crew 2", &mut input, &gate)?;
    told(&rt, "held", &held, 0, TOGETHER.as_bytes());
    let alone = run_over(&rt, alloc, "replay", &stream)?;
    told(&rt, "alone", &alone, 0, ONE_THREAD.as_bytes());
    reports_either(&rt, alloc, "crew 1", &stream)?;
    reports_either(&rt, alloc, "crew 2", &stream)?;
    reports_either(&rt, alloc, "crew 4", &stream)
}
