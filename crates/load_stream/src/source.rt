ghost use Rattle.std.specs.Prelude.{◌≡◌, ◌<◌, ℕ, length, min, IfOk, IsOkAnd, Some};
ghost use Rattle.std.specs.Io.{ReadsAtMost};
ghost use Rattle.std.specs.Io.KnownBytes.{ReadConsumes};
ghost use Rattle.link_io.specs.Causes.{HasCause};
ghost use Rattle.load_stream.specs.Load.{load_stream};

use crate::calls::write_call;
use link_io::{Failed, MemSource, Source};
use link_script::next_number;
use std::alloc::{AllocError, Global};
use std::marker::Model;

/// A source over the stream of N calls. It is made whole at once, about 2.4 million bytes for 30,000 calls, so that
/// no read takes memory, and none fails.
#[derive(Drop)]
pub struct LoadSource {
    stream: MemSource,
}

impl Model for LoadSource {
    ghost use Rattle.std.specs.Prelude.{◌≡◌, ℕ, List, []};

    ghost Value = { List ℕ };

    ghost view = { λ s. s.stream.bytes };

    ghost invariant = { λ s. s.stream.fails ≡ [] };
}

impl LoadSource {
    /// A source over the stream of so many calls from this seed.
    pub fn new(alloc: Global, calls: u32, seed: u64) -> Result<LoadSource, AllocError>
        ensures { IfOk result (λ source. source ≡ load_stream calls seed) }
    {
        let mut stream = Vec::new(alloc);
        let mut x = seed;
        for number in 0..calls {
            x = next_number(x);
            write_call(alloc, number, x, &mut stream)?;
        }
        Ok(LoadSource {
            stream: MemSource::new(stream, Vec::new(alloc)),
        })
    }
}

impl Source for LoadSource {
    ghost left = { λ s. Some s };

    ghost faults = { λ _. 0 };

    fn read(&mut self, buf: &mut [u8]) -> Result<usize, Failed>
        requires { 0 < length buf.old }
        ensures bound { ReadsAtMost result buf.new }
        ensures bytes { ReadConsumes (Some self.old) (Some self.new) result buf.new }
        ensures cause { HasCause 0 0 result }
        ensures count { IsOkAnd result (λ n. n ≡ min (length buf.old) (length self.old)) }
    {
        self.stream.read(buf)
    }
}
