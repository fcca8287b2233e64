//! What `bench/frames` measures: a decoder of frames.

use hdlc_frame::{Decoder, Got};
use std::alloc::{AllocError, Global};
use std::fs;

#[derive(Clone, Copy, Default)]
struct Counts {
    frames: u64,
    faults: u64,
    payload: u64,
}

impl Counts {
    fn add(&mut self, got: Got<'_>) {
        match got {
            Got::Frame(frame) => {
                self.frames = self.frames.saturating_add(1);
                self.payload = self.payload.saturating_add(frame.payload.len() as u64);
            }
            Got::Bad(_) => self.faults = self.faults.saturating_add(1),
        }
    }
}

fn decode(alloc: Global, stream: &[u8]) -> Result<Counts, AllocError> {
    let mut decoder = Decoder::new(alloc, 8192)?;
    let mut counts = Counts::default();
    let mut rest = stream;
    while !rest.is_empty() {
        let pushed = decoder.push(rest);
        if let Some(got) = pushed.got {
            counts.add(got);
        }
        rest = &rest[pushed.taken..];
    }
    Ok(counts)
}

/// Decodes the stream in the file so many times, and prints how many frames and faults it has, and the octets of payload in all.
pub fn measure(rt: &HostRuntime, file: &str, times: u32) -> anyhow::Result<()> {
    let stream = fs::read(rt, file)?;
    let mut counts = Counts::default();
    for _ in 0..times {
        counts = decode(rt.alloc(), &stream)?;
    }
    println!(rt;
        "frames {} faults {} payload {}",
        counts.frames, counts.faults, counts.payload
    )?;
    Ok(())
}
