ghost use Rattle.std.specs.Prelude.{◌≡◌, ℕ, ◌<◌, Bool, false, List, Option, length, is_ok};
ghost use Rattle.std.specs.Io.KnownBytes.{WriteAppends, Keeps};
ghost use Rattle.link_io.specs.Causes.{HasCause};
ghost use Rattle.link_io.specs.Device.{TakesSome};

use crate::Failed;

/// Where bytes go.
pub trait Sink {
    // The bytes written so far, or None where the sink doesn't tell.
    ghost written: { Self → Option (List ℕ) };

    // How many calls failed, up to the last number of 64 bits. It never falls.
    ghost faults: { Self → ℕ };

    // It was told that nothing more comes. No call follows then.
    ghost finished: { Self → Bool };

    /// Takes bytes from the front of a piece that isn't empty, and gives how many it took: at least one.
    ///
    /// # Errors
    ///
    /// `Failed` where the device failed, also where it took nothing; nothing was written then.
    fn write(&mut self, bytes: &[u8]) -> Result<usize, Failed>
        requires open { finished self.old ≡ false }
        requires some { 0 < length bytes.now }
        ensures bound { TakesSome result bytes.now }
        ensures bytes { WriteAppends (written self.old) (written self.new) result bytes.now }
        ensures cause { HasCause (faults self.old) (faults self.new) result }
        ensures open { finished self.new ≡ false };

    /// Hands on what a sink with a buffer still keeps.
    ///
    /// # Errors
    ///
    /// `Failed` where the device failed.
    fn flush(&mut self) -> Result<(), Failed>
        requires { finished self.old ≡ false }
        ensures bytes { Keeps (written self.old) (written self.new) }
        ensures cause { HasCause (faults self.old) (faults self.new) result }
        ensures open { finished self.new ≡ false };

    /// Says that nothing more comes, so that the other end meets the end of its input. What a buffer still keeps is
    /// handed on first.
    ///
    /// # Errors
    ///
    /// `Failed` where the device failed. The sink isn't finished then.
    fn finish(&mut self) -> Result<(), Failed>
        requires { finished self.old ≡ false }
        ensures bytes { Keeps (written self.old) (written self.new) }
        ensures cause { HasCause (faults self.old) (faults self.new) result }
        ensures finished { finished self.new ≡ is_ok result };
}
