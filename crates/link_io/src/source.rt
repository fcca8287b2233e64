ghost use Rattle.std.specs.Prelude.{ℕ, ◌<◌, List, Option, length};
ghost use Rattle.std.specs.Io.{ReadsAtMost};
ghost use Rattle.std.specs.Io.KnownBytes.{ReadConsumes};
ghost use Rattle.link_io.specs.Causes.{HasCause};

use crate::Failed;

/// Where bytes come from.
pub trait Source {
    // The bytes that reads will give from here on, or None where the source doesn't tell.
    ghost left: { Self → Option (List ℕ) };

    // How many reads failed, up to the last number of 64 bits. It never falls.
    ghost faults: { Self → ℕ };

    /// Reads into the front of `buf` and gives how many bytes it took: 0 only at the end of the input.
    ///
    /// # Errors
    ///
    /// `Failed` where the device failed; nothing was taken then.
    fn read(&mut self, buf: &mut [u8]) -> Result<usize, Failed>
        requires { 0 < length buf.old }
        ensures bound { ReadsAtMost result buf.new }
        ensures bytes { ReadConsumes (left self.old) (left self.new) result buf.new }
        ensures cause { HasCause (faults self.old) (faults self.new) result };
}
