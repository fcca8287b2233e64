ghost use Rattle.std.specs.Prelude.{◌≡◌, ◌<◌, false, length, is_ok};
ghost use Rattle.std.specs.Io.{ReadsAtMost};
ghost use Rattle.std.specs.Io.KnownBytes.{ReadConsumes, WriteAppends, Keeps};
ghost use Rattle.link_io.specs.Causes.{HasCause, Counts};
ghost use Rattle.link_io.specs.Counted.{Counted, CountedSink, uncounted, uncounted_sink};
ghost use Rattle.link_io.specs.Device.{TakesSome};

use crate::{Failed, Sink, Source};
use std::io::{Read, Write};
use std::marker::Model;

/// A source over a reader, as standard input. A read that fails is counted.
#[derive(Drop)]
pub struct StdIn<R: Drop> {
    reader: R,
    faults: u64,
}

impl<R: Drop> Model for StdIn<R> {
    ghost Value = { Counted R };

    ghost view = { λ s. record { device = s.reader; faults = s.faults } };
}

impl<R: Drop> StdIn<R> {
    /// A source over `reader`, with no fault counted.
    pub fn new(reader: R) -> StdIn<R>
        ensures { result ≡ uncounted reader }
    {
        StdIn { reader, faults: 0 }
    }

    /// How many reads failed.
    pub(crate) fn faults(&self) -> u64
        ensures { result ≡ self.now.faults }
    {
        self.faults
    }
}

impl<R: Read + Drop> Source for StdIn<R> {
    ghost left = { λ s. R.remaining s.device };

    ghost faults = { λ s. s.faults };

    fn read(&mut self, buf: &mut [u8]) -> Result<usize, Failed>
        requires { 0 < length buf.old }
        ensures bound { ReadsAtMost result buf.new }
        ensures bytes { ReadConsumes (R.remaining self.old.device) (R.remaining self.new.device) result buf.new }
        ensures cause { HasCause self.old.faults self.new.faults result }
        ensures counts { Counts self.old.faults self.new.faults result }
    {
        match self.reader.read(buf) {
            Ok(count) => Ok(count),
            Err(_) => {
                self.faults = self.faults.saturating_add(1);
                Err(Failed)
            }
        }
    }
}

/// A sink over a writer, as standard output. A call that fails is counted, and so is a write that took nothing.
#[derive(Drop)]
pub struct StdOut<W: Drop> {
    writer: W,
    faults: u64,
    finished: bool,
}

impl<W: Drop> Model for StdOut<W> {
    ghost Value = { CountedSink W };

    ghost view = { λ s. record { device = s.writer; faults = s.faults; finished = s.finished } };
}

impl<W: Drop> StdOut<W> {
    /// A sink over `writer`, with no fault counted.
    pub fn new(writer: W) -> StdOut<W>
        ensures { result ≡ uncounted_sink writer }
    {
        StdOut {
            writer,
            faults: 0,
            finished: false,
        }
    }
}

impl<W: Write + Drop> Sink for StdOut<W> {
    ghost written = { λ s. W.contents s.device };

    ghost faults = { λ s. s.faults };

    ghost finished = { λ s. s.finished };

    fn write(&mut self, bytes: &[u8]) -> Result<usize, Failed>
        requires open { self.old.finished ≡ false }
        requires some { 0 < length bytes.now }
        ensures bound { TakesSome result bytes.now }
        ensures bytes { WriteAppends (W.contents self.old.device) (W.contents self.new.device) result bytes.now }
        ensures cause { HasCause self.old.faults self.new.faults result }
        ensures open { self.new.finished ≡ false }
        ensures counts { Counts self.old.faults self.new.faults result }
    {
        match self.writer.write(bytes) {
            Ok(0) | Err(_) => {
                self.faults = self.faults.saturating_add(1);
                Err(Failed)
            }
            Ok(count) => Ok(count),
        }
    }

    fn flush(&mut self) -> Result<(), Failed>
        requires { self.old.finished ≡ false }
        ensures bytes { Keeps (W.contents self.old.device) (W.contents self.new.device) }
        ensures cause { HasCause self.old.faults self.new.faults result }
        ensures open { self.new.finished ≡ false }
        ensures counts { Counts self.old.faults self.new.faults result }
    {
        match self.writer.flush() {
            Ok(()) => Ok(()),
            Err(_) => {
                self.faults = self.faults.saturating_add(1);
                Err(Failed)
            }
        }
    }

    fn finish(&mut self) -> Result<(), Failed>
        requires { self.old.finished ≡ false }
        ensures bytes { Keeps (W.contents self.old.device) (W.contents self.new.device) }
        ensures cause { HasCause self.old.faults self.new.faults result }
        ensures finished { self.new.finished ≡ is_ok result }
        ensures counts { Counts self.old.faults self.new.faults result }
    {
        self.flush()?;
        self.finished = true;
        Ok(())
    }
}
