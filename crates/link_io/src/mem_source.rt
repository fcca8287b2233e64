ghost use Rattle.std.specs.Prelude.{◌≡◌, ◌<◌, ◌↔◌, length, min, Some, IsErr, IfOk, Contains};
ghost use Rattle.std.specs.Io.{ReadsAtMost};
ghost use Rattle.std.specs.Io.KnownBytes.{ReadConsumes};
ghost use Rattle.link_io.specs.Causes.{HasCause, Counts, counted};
ghost use Rattle.link_io.specs.Device.{Device, fresh};

use crate::{Failed, Source};
use std::marker::Model;

/// A source over bytes in memory, whose chosen calls fail.
pub struct MemSource {
    content: Vec<u8>,
    at: usize,
    fails: Vec<u64>,
    calls: u64,
    faults: u64,
}

impl Drop for MemSource {
    fn drop(self) {
        let Self {
            content: _,
            at: _,
            fails: _,
            calls: _,
            faults: _,
        } = self;
    }
}

impl Model for MemSource {
    ghost use Rattle.std.specs.Prelude.{◌≤◌, drop, vec_len};
    ghost use Rattle.link_io.specs.Device.{Device};

    ghost Value = { Device };

    ghost view = { λ s. record {
      bytes = drop s.at s.content.items;
      fails = s.fails.items;
      calls = s.calls;
      faults = s.faults;
    } };

    ghost invariant = { λ s. s.at ≤ vec_len s.content };
}

impl MemSource {
    /// A source that gives `content`. `fails` has the numbers of its calls that fail, counted from 1.
    pub fn new(content: Vec<u8>, fails: Vec<u64>) -> MemSource
        ensures { result ≡ fresh content.items fails.items }
    {
        MemSource {
            content,
            at: 0,
            fails,
            calls: 0,
            faults: 0,
        }
    }

    /// How many reads failed.
    pub(crate) fn faults(&self) -> u64
        ensures { result ≡ self.now.faults }
    {
        self.faults
    }
}

impl Source for MemSource {
    ghost left = { λ s. Some s.bytes };

    ghost faults = { λ s. s.faults };

    fn read(&mut self, buf: &mut [u8]) -> Result<usize, Failed>
        requires { 0 < length buf.old }
        ensures bound { ReadsAtMost result buf.new }
        ensures bytes { ReadConsumes (Some self.old.bytes) (Some self.new.bytes) result buf.new }
        ensures cause { HasCause self.old.faults self.new.faults result }
        ensures counts { Counts self.old.faults self.new.faults result }
        ensures fails { IsErr result ↔ Contains self.old.fails (counted self.old.calls) }
        ensures count { IfOk result (λ n. n ≡ min (length buf.old) (length self.old.bytes)) }
        ensures calls { self.new.calls ≡ counted self.old.calls }
        ensures same { self.new.fails ≡ self.old.fails }
    {
        self.calls = self.calls.saturating_add(1);
        if self.fails.contains(&self.calls) {
            self.faults = self.faults.saturating_add(1);
            return Err(Failed);
        }
        let rest = &self.content[self.at..];
        let count = rest.len().min(buf.len());
        buf[..count].copy_from_slice(&rest[..count]);
        self.at += count;
        Ok(count)
    }
}
