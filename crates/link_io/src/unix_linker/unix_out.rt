ghost use Rattle.std.specs.Prelude.{◌≡◌, None};
ghost use Rattle.link_io.specs.LinkDevice.{EndCounts, fresh_end};

use crate::{Failed, Sink};
use std::io::Write;
use std::marker::Model;
use std::net::Shutdown;
use std::os::unix::net::UnixStream;

/// The end of a Unix socket that is written. A call that fails is counted, and so is a write that took nothing. To
/// finish shuts the writing side, so that the other end meets the end of its input.
#[derive(Drop)]
pub struct UnixOut {
    stream: UnixStream,
    faults: u64,
    finished: bool,
}

impl Model for UnixOut {
    ghost use Rattle.link_io.specs.LinkDevice.{EndCounts};

    ghost Value = { EndCounts };

    ghost view = { λ s. record { faults = s.faults; finished = s.finished } };
}

impl UnixOut {
    /// The writing end of a stream, with no fault counted.
    pub(crate) fn new(stream: UnixStream) -> UnixOut
        ensures { result ≡ fresh_end }
    {
        UnixOut {
            stream,
            faults: 0,
            finished: false,
        }
    }

    /// How many calls failed.
    pub(crate) fn faults(&self) -> u64
        ensures { result ≡ self.now.faults }
    {
        self.faults
    }
}

impl Sink for UnixOut {
    ghost written = { λ _. None };

    ghost faults = { λ s. s.faults };

    ghost finished = { λ s. s.finished };

    fn write(&mut self, bytes: &[u8]) -> Result<usize, Failed> {
        match self.stream.write(bytes) {
            Ok(0) | Err(_) => {
                self.faults = self.faults.saturating_add(1);
                Err(Failed)
            }
            Ok(count) => Ok(count),
        }
    }

    fn flush(&mut self) -> Result<(), Failed> {
        Ok(())
    }

    fn finish(&mut self) -> Result<(), Failed> {
        match self.stream.shutdown(Shutdown::Write) {
            Ok(()) => {
                self.finished = true;
                Ok(())
            }
            Err(_) => {
                self.faults = self.faults.saturating_add(1);
                Err(Failed)
            }
        }
    }
}
