ghost use Rattle.std.specs.Prelude.{◌≡◌, ◌+◌, ◌≤◌, OnOk, OnErr, IfOk, IfSome};
ghost use Rattle.link_io.specs.Causes.{HasCause, Rose};
ghost use Rattle.link_io.specs.LinkDevice.{no_sockets, untold_links, fresh_end};

mod bound;
mod probe;
mod unix_out;

use crate::{Failed, Linker, StdIn};
use bound::Bound;
use std::alloc::Global;
use std::fs::Files;
use std::io;
use std::marker::Model;
use std::net::Net;
use std::os::unix::net::UnixStream;
pub use unix_out::UnixOut;

/// A linker over Unix stream sockets. It counts the calls that fail, and tells nothing of the bytes.
///
/// To listen makes a file at the path, which is removed when the linker is let go. A socket there that nobody listens at
/// makes way for it. Where somebody listens, or another file stands there, the call fails and leaves it alone.
#[derive(Drop)]
pub struct UnixLinker<'a, R: Net + Files> {
    alloc: Global,
    rt: &'a R,
    bound: Option<Bound<'a, R>>,
    out: u64,
    faults: u64,
    in_faults: u64,
    out_faults: u64,
}

impl<'a, R: Net + Files> Model for UnixLinker<'a, R> {
    ghost use Rattle.std.specs.Prelude.{is_some};
    ghost use Rattle.link_io.specs.LinkDevice.{SocketCounts};

    ghost Value = { SocketCounts };

    ghost view = { λ s. record {
      listens = is_some s.bound;
      out = s.out;
      faults = s.faults;
      in_faults = s.in_faults;
      out_faults = s.out_faults;
    } };
}

impl<'a, R: Net + Files> UnixLinker<'a, R> {
    /// A linker that doesn't listen yet.
    pub fn new(alloc: Global, rt: &'a R) -> UnixLinker<'a, R>
        ensures { result ≡ no_sockets }
    {
        UnixLinker {
            alloc,
            rt,
            bound: None,
            out: 0,
            faults: 0,
            in_faults: 0,
            out_faults: 0,
        }
    }

    // Counts a call that failed.
    fn fail(&mut self) -> Failed
        ensures later { self.old.faults ≤ self.new.faults }
        ensures rose { Rose self.old.faults self.new.faults }
        ensures same { self.new ≡ record self.old { faults = self.new.faults } }
    {
        self.faults = self.faults.saturating_add(1);
        Failed
    }

    // Hands out the ends of a connection that was made.
    fn hand_out(
        &mut self,
        made: io::Result<UnixStream>,
    ) -> Result<(StdIn<UnixStream>, UnixOut), Failed>
        ensures ok { OnOk result (self.new ≡ record self.old { out = self.old.out + 1 }) }
        ensures err { OnErr result (self.new ≡ record self.old { faults = self.new.faults }) }
        ensures cause { HasCause self.old.faults self.new.faults result }
        ensures unused { IfOk result (λ ends. (ends.0.faults ≡ 0) × (ends.1 ≡ fresh_end)) }
    {
        let Some(ends) = ends_of(made) else {
            return Err(self.fail());
        };
        if self.out == u64::MAX {
            return Err(self.fail());
        }
        self.out += 1;
        Ok(ends)
    }
}

impl<'a, R: Net + Files> Linker for UnixLinker<'a, R> {
    type In = StdIn<UnixStream>;

    type Out = UnixOut;

    ghost links = { untold_links };

    fn listen(&mut self, path: &str) -> Result<(), Failed> {
        match Bound::new(self.alloc, self.rt, path) {
            Ok(bound) => {
                self.bound = Some(bound);
                Ok(())
            }
            Err(_) => Err(self.fail()),
        }
    }

    fn accept(&mut self) -> Result<(StdIn<UnixStream>, UnixOut), Failed> {
        let made = match &self.bound {
            Some(bound) => bound.accept(),
            None => unreachable!(),
        };
        self.hand_out(made)
    }

    fn connect(&mut self, path: &str) -> Result<(StdIn<UnixStream>, UnixOut), Failed> {
        let made = UnixStream::connect(self.rt, path);
        self.hand_out(made)
    }

    fn back(&mut self, link_in: StdIn<UnixStream>, link_out: UnixOut) {
        self.in_faults = self.in_faults.saturating_add(link_in.faults());
        self.out_faults = self.out_faults.saturating_add(link_out.faults());
        self.out -= 1;
    }
}

// The two ends of a connection, if it was made and can be held twice.
fn ends_of(made: io::Result<UnixStream>) -> Option<(StdIn<UnixStream>, UnixOut)>
    ensures { IfSome result (λ ends. (ends.0.faults ≡ 0) × (ends.1 ≡ fresh_end)) }
{
    let stream = made.ok()?;
    let second = stream.try_clone().ok()?;
    Some((StdIn::new(second), UnixOut::new(stream)))
}
