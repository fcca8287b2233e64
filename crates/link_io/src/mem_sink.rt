ghost use Rattle.std.specs.Prelude.{◌≡◌, ◌<◌, ◌↔◌, false, length, Some, IsErr, IfOk, is_ok, Contains};
ghost use Rattle.std.specs.Io.KnownBytes.{WriteAppends, Keeps};
ghost use Rattle.link_io.specs.Causes.{HasCause, Counts, counted};
ghost use Rattle.link_io.specs.Device.{SinkDevice, fresh_sink, TakesSome};

use crate::{Failed, Sink};
use std::marker::Model;

/// A sink that keeps what is written in memory, and whose chosen calls fail.
pub struct MemSink {
    content: Vec<u8>,
    fails: Vec<u64>,
    calls: u64,
    faults: u64,
    finished: bool,
}

impl Drop for MemSink {
    fn drop(self) {
        let Self {
            content: _,
            fails: _,
            calls: _,
            faults: _,
            finished: _,
        } = self;
    }
}

impl Model for MemSink {
    ghost use Rattle.link_io.specs.Device.{SinkDevice};

    ghost Value = { SinkDevice };

    ghost view = { λ s. record {
      bytes = s.content.items;
      fails = s.fails.items;
      calls = s.calls;
      faults = s.faults;
      finished = s.finished;
    } };
}

impl MemSink {
    /// A sink that holds `content` already. `fails` has the numbers of its calls that fail, counted from 1 over
    /// all of them. A write that memory is refused for fails too.
    pub fn new(content: Vec<u8>, fails: Vec<u64>) -> MemSink
        ensures { result ≡ fresh_sink content.items fails.items }
    {
        MemSink {
            content,
            fails,
            calls: 0,
            faults: 0,
            finished: false,
        }
    }

    /// What was written so far, behind the content that it was made with.
    pub fn bytes(&self) -> &[u8]
        ensures { result.now ≡ self.now.bytes }
    {
        self.content.as_slice()
    }

    /// How many calls failed.
    pub(crate) fn faults(&self) -> u64
        ensures { result ≡ self.now.faults }
    {
        self.faults
    }

    // Counts a call, and fails where it is one of those that fail.
    fn begin_call(&mut self) -> Result<(), Failed>
        ensures bytes { self.new.bytes ≡ self.old.bytes }
        ensures finished { self.new.finished ≡ self.old.finished }
        ensures cause { HasCause self.old.faults self.new.faults result }
        ensures counts { Counts self.old.faults self.new.faults result }
        ensures fails { IsErr result ↔ Contains self.old.fails (counted self.old.calls) }
        ensures calls { self.new.calls ≡ counted self.old.calls }
        ensures same { self.new.fails ≡ self.old.fails }
    {
        self.calls = self.calls.saturating_add(1);
        if self.fails.contains(&self.calls) {
            self.faults = self.faults.saturating_add(1);
            return Err(Failed);
        }
        Ok(())
    }
}

impl Sink for MemSink {
    ghost written = { λ s. Some s.bytes };

    ghost faults = { λ s. s.faults };

    ghost finished = { λ s. s.finished };

    fn write(&mut self, bytes: &[u8]) -> Result<usize, Failed>
        requires open { self.old.finished ≡ false }
        requires some { 0 < length bytes.now }
        ensures bound { TakesSome result bytes.now }
        ensures bytes { WriteAppends (Some self.old.bytes) (Some self.new.bytes) result bytes.now }
        ensures cause { HasCause self.old.faults self.new.faults result }
        ensures open { self.new.finished ≡ false }
        ensures counts { Counts self.old.faults self.new.faults result }
        ensures fails { Contains self.old.fails (counted self.old.calls) → IsErr result }
        ensures whole { IfOk result (λ n. n ≡ length bytes.now) }
        ensures calls { self.new.calls ≡ counted self.old.calls }
        ensures same { self.new.fails ≡ self.old.fails }
    {
        self.begin_call()?;
        match self.content.extend_from_slice(bytes) {
            Ok(()) => Ok(bytes.len()),
            Err(_) => {
                self.faults = self.faults.saturating_add(1);
                Err(Failed)
            }
        }
    }

    fn flush(&mut self) -> Result<(), Failed>
        requires { self.old.finished ≡ false }
        ensures bytes { Keeps (Some self.old.bytes) (Some self.new.bytes) }
        ensures cause { HasCause self.old.faults self.new.faults result }
        ensures open { self.new.finished ≡ false }
        ensures counts { Counts self.old.faults self.new.faults result }
        ensures fails { IsErr result ↔ Contains self.old.fails (counted self.old.calls) }
        ensures calls { self.new.calls ≡ counted self.old.calls }
        ensures same { self.new.fails ≡ self.old.fails }
    {
        self.begin_call()
    }

    fn finish(&mut self) -> Result<(), Failed>
        requires { self.old.finished ≡ false }
        ensures bytes { Keeps (Some self.old.bytes) (Some self.new.bytes) }
        ensures cause { HasCause self.old.faults self.new.faults result }
        ensures finished { self.new.finished ≡ is_ok result }
        ensures counts { Counts self.old.faults self.new.faults result }
        ensures fails { IsErr result ↔ Contains self.old.fails (counted self.old.calls) }
        ensures calls { self.new.calls ≡ counted self.old.calls }
        ensures same { self.new.fails ≡ self.old.fails }
    {
        self.begin_call()?;
        self.finished = true;
        Ok(())
    }
}
