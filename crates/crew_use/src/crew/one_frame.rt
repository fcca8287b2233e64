//! A sink that takes one frame at a call, so that a write can fail between any two frames.
ghost use Rattle.std.specs.Prelude.{◌≡◌, ◌<◌, ◌≤◌, None, length};

use super::{ended, serve_calls, sink, wrote};
use link_io::{Failed, MemSink, Sink, Why};
use rpc_crew::Free;
use std::test::Fail;

// Each frame has two flags, and no other octet of it is one.
const FLAG: u8 = 0x7E;

// How long the first of these frames is.
fn first_frame(bytes: &[u8]) -> usize
    requires { 0 < length bytes.now }
    ensures { (0 < result) × (result ≤ length bytes.now) }
{
    match bytes.iter().skip(1).position(|octet| *octet == FLAG) {
        Some(place) => place.saturating_add(2).min(bytes.len()),
        None => bytes.len(),
    }
}

#[derive(Drop)]
struct OneFrame {
    inner: MemSink,
}

impl Sink for OneFrame {
    ghost written = { λ _. None };

    ghost faults = { λ s. s.inner.faults };

    ghost finished = { λ s. s.inner.finished };

    fn write(&mut self, bytes: &[u8]) -> Result<usize, Failed> {
        self.inner.write(&bytes[..first_frame(bytes)])
    }

    fn flush(&mut self) -> Result<(), Failed> {
        self.inner.flush()
    }

    fn finish(&mut self) -> Result<(), Failed> {
        self.inner.finish()
    }
}

#[test]
fn two_frames_are_written_where_the_third_write_fails(rt: HostRuntime) -> Result<(), Fail> {
    let alloc = rt.alloc();
    let mut link_out = OneFrame {
        inner: sink(alloc, &[3])?,
    };
    let did = serve_calls(&rt, alloc, 400, &[], &mut link_out, 1, &Free)?;
    ended(&rt, did, Why::Sink, 2);
    wrote(&rt, &link_out.inner, 2);
    Ok(())
}
