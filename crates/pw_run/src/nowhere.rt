//! A link's end for commands whose packets go nowhere.
ghost use Rattle.std.specs.Prelude.{◌≡◌, None, false};

use link_io::{Failed, Sink};

/// Takes all bytes, keeps none, and never fails.
#[derive(Drop)]
pub(crate) struct Nowhere {
    finished: bool,
}

impl Nowhere {
    pub(crate) fn new() -> Nowhere
        ensures { result.finished ≡ false }
    {
        Nowhere { finished: false }
    }
}

impl Sink for Nowhere {
    ghost written = { λ _. None };

    ghost faults = { λ _. 0 };

    ghost finished = { λ s. s.finished };

    fn write(&mut self, bytes: &[u8]) -> Result<usize, Failed> {
        Ok(bytes.len())
    }

    fn flush(&mut self) -> Result<(), Failed> {
        Ok(())
    }

    fn finish(&mut self) -> Result<(), Failed> {
        self.finished = true;
        Ok(())
    }
}
