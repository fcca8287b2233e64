//! Links in memory whose sinks take one frame at a call, so that a write can fail between any two frames.
ghost use Rattle.std.specs.Prelude.{◌≡◌, ◌<◌, ◌≤◌, None, length};

use link_io::{Failed, Linker, MemLinker, MemSink, MemSource, Sink};

// Each frame has two flags, and no other octet of it is one.
const FLAG: u8 = 0x7E;

/// How many frames stand one after another.
pub(super) fn frames_in(bytes: &[u8]) -> u64 {
    let flags = bytes.iter().filter(|octet| **octet == FLAG).count();
    (flags / 2) as u64
}

// How long the first of these frames is.
fn first_frame(bytes: &[u8]) -> usize
    requires { 0 < length bytes.now }
    ensures { (0 < result) × (result ≤ length bytes.now) }
{
    match bytes.iter().skip(1).position(|octet| *octet == FLAG) {
        Some(place) => place.saturating_add(2).min(bytes.len()),
        None => bytes.len(),
    }
}

#[derive(Drop)]
pub(super) struct OneFrame {
    inner: MemSink,
}

impl Sink for OneFrame {
    ghost written = { λ _. None };

    ghost faults = { λ s. s.inner.faults };

    ghost finished = { λ s. s.inner.finished };

    fn write(&mut self, bytes: &[u8]) -> Result<usize, Failed> {
        self.inner.write(&bytes[..first_frame(bytes)])
    }

    fn flush(&mut self) -> Result<(), Failed> {
        self.inner.flush()
    }

    fn finish(&mut self) -> Result<(), Failed> {
        self.inner.finish()
    }
}

/// The linker of such links.
#[derive(Drop)]
pub(super) struct OneFrames {
    pub net: MemLinker,
}

impl Linker for OneFrames {
    type In = MemSource;

    type Out = OneFrame;

    ghost links = { λ s. record { coming = None; gone = None; listens = s.net.listens; out = s.net.out; faults = s.net.faults; in_faults = s.net.in_faults; out_faults = s.net.out_faults } };

    fn listen(&mut self, path: &str) -> Result<(), Failed> {
        self.net.listen(path)
    }

    fn accept(&mut self) -> Result<(MemSource, OneFrame), Failed> {
        let (link_in, inner) = self.net.accept()?;
        Ok((link_in, OneFrame { inner }))
    }

    fn connect(&mut self, path: &str) -> Result<(MemSource, OneFrame), Failed> {
        let (link_in, inner) = self.net.connect(path)?;
        Ok((link_in, OneFrame { inner }))
    }

    fn back(&mut self, link_in: MemSource, link_out: OneFrame) {
        self.net.back(link_in, link_out.inner);
    }
}
