ghost use Rattle.std.specs.Prelude.{◌≡◌, ℕ, ◌<◌, ◌↔◌, true, false, [], ◌∷◌, ◌++◌, ◌⊎◌, Some, IsErr, IfOk, OnErr, MatchResult, Contains};
ghost use Rattle.std.specs.List.{AllByRecursion};
ghost use Rattle.link_io.specs.Causes.{HasCause, Counts, counted};
ghost use Rattle.link_io.specs.Links.{KeepsLinks, HandsOut, TakesBack};
ghost use Rattle.link_io.specs.LinkDevice.{LinkDevice, IsUnused, fresh_linker, links_of};

use crate::{Failed, Linker, MemSink, MemSource};
use std::alloc::{AllocError, Global};
use std::marker::Model;

/// A linker over ends in memory, whose chosen calls fail.
pub struct MemLinker {
    coming: Vec<(MemSource, MemSink)>,
    gone: Vec<(MemSource, MemSink)>,
    listens: bool,
    out: usize,
    fails: Vec<u64>,
    calls: u64,
    faults: u64,
    in_faults: u64,
    out_faults: u64,
}

impl Drop for MemLinker {
    fn drop(self) {
        let Self {
            coming: _,
            gone: _,
            listens: _,
            out: _,
            fails: _,
            calls: _,
            faults: _,
            in_faults: _,
            out_faults: _,
        } = self;
    }
}

impl Model for MemLinker {
    ghost use Rattle.std.specs.Prelude.{◌+◌, ◌≤◌, vec_len, vec_capacity};
    ghost use Rattle.std.specs.List.{AllByRecursion};
    ghost use Rattle.link_io.specs.LinkDevice.{LinkDevice, IsUnused};

    ghost Value = { LinkDevice };

    ghost view = { λ s. record {
      coming = s.coming.items;
      gone = s.gone.items;
      listens = s.listens;
      out = s.out;
      fails = s.fails.items;
      calls = s.calls;
      faults = s.faults;
      in_faults = s.in_faults;
      out_faults = s.out_faults;
    } };

    ghost invariant = { λ s. (vec_len s.coming + s.out + vec_len s.gone ≤ vec_capacity s.gone) × AllByRecursion IsUnused s.coming.items };
}

impl MemLinker {
    /// A linker that hands these ends out, in order, and has room to keep all of them when they are back. `fails` has
    /// the numbers of its calls that fail, counted from 1 over those that can.
    pub fn new(
        alloc: Global,
        ends: Vec<(MemSource, MemSink)>,
        fails: Vec<u64>,
    ) -> Result<MemLinker, AllocError>
        requires { AllByRecursion IsUnused ends.items }
        ensures { IfOk result (λ linker. linker ≡ fresh_linker ends.items fails.items) }
    {
        Ok(MemLinker {
            gone: Vec::with_capacity(alloc, ends.len())?,
            coming: ends,
            listens: false,
            out: 0,
            fails,
            calls: 0,
            faults: 0,
            in_faults: 0,
            out_faults: 0,
        })
    }

    /// The ends that were handed back, in order.
    pub fn gone(&self) -> &[(MemSource, MemSink)]
        ensures { result.now ≡ self.now.gone }
    {
        self.gone.as_slice()
    }

    // Counts a call, and fails where it is one of those that fail.
    fn begin_call(&mut self) -> Result<(), Failed>
        ensures same { self.new ≡ record self.old { calls = self.new.calls; faults = self.new.faults } }
        ensures cause { HasCause self.old.faults self.new.faults result }
        ensures counts { Counts self.old.faults self.new.faults result }
        ensures fails { IsErr result ↔ Contains self.old.fails (counted self.old.calls) }
        ensures calls { self.new.calls ≡ counted self.old.calls }
    {
        self.calls = self.calls.saturating_add(1);
        if self.fails.contains(&self.calls) {
            self.faults = self.faults.saturating_add(1);
            return Err(Failed);
        }
        Ok(())
    }

    // Hands the next ends out, as a call.
    fn hand_out(&mut self) -> Result<(MemSource, MemSink), Failed>
        ensures ends { IfOk result (λ ends. self.old.coming ≡ ends ∷ self.new.coming) }
        ensures handed { IfOk result (λ ends. HandsOut (links_of self.old) (links_of self.new) (Some ends.0.bytes) (Some ends.1.bytes)) }
        ensures unused { IfOk result IsUnused }
        ensures kept { OnErr result (KeepsLinks (links_of self.old) (links_of self.new)) }
        ensures listens { self.new.listens ≡ self.old.listens }
        ensures cause { HasCause self.old.faults self.new.faults result }
        ensures counts { Counts self.old.faults self.new.faults result }
        ensures fails { IsErr result ↔ (Contains self.old.fails (counted self.old.calls) ⊎ (self.old.coming ≡ [])) }
        ensures calls { self.new.calls ≡ counted self.old.calls }
        ensures same { self.new.fails ≡ self.old.fails }
    {
        self.begin_call()?;
        if self.coming.is_empty() {
            self.faults = self.faults.saturating_add(1);
            return Err(Failed);
        }
        self.out += 1;
        Ok(self.coming.remove(0))
    }
}

impl Linker for MemLinker {
    type In = MemSource;

    type Out = MemSink;

    ghost links = { links_of };

    fn listen(&mut self, _path: &str) -> Result<(), Failed>
        ensures listens { MatchResult result (λ _. self.new.listens ≡ true) (λ _. self.new.listens ≡ self.old.listens) }
        ensures kept { KeepsLinks (links_of self.old) (links_of self.new) }
        ensures cause { HasCause self.old.faults self.new.faults result }
        ensures counts { Counts self.old.faults self.new.faults result }
        ensures fails { IsErr result ↔ Contains self.old.fails (counted self.old.calls) }
        ensures calls { self.new.calls ≡ counted self.old.calls }
        ensures same { self.new.fails ≡ self.old.fails }
    {
        self.begin_call()?;
        self.listens = true;
        Ok(())
    }

    fn accept(&mut self) -> Result<(MemSource, MemSink), Failed>
        requires { self.old.listens ≡ true }
        ensures ends { IfOk result (λ ends. self.old.coming ≡ ends ∷ self.new.coming) }
        ensures handed { IfOk result (λ ends. HandsOut (links_of self.old) (links_of self.new) (Some ends.0.bytes) (Some ends.1.bytes)) }
        ensures counts { IfOk result (λ ends. (ends.0.faults ≡ 0) × (ends.1.faults ≡ 0)) }
        ensures open { IfOk result (λ ends. ends.1.finished ≡ false) }
        ensures listens { self.new.listens ≡ true }
        ensures kept { OnErr result (KeepsLinks (links_of self.old) (links_of self.new)) }
        ensures cause { HasCause self.old.faults self.new.faults result }
        ensures counted { Counts self.old.faults self.new.faults result }
        ensures fails { IsErr result ↔ (Contains self.old.fails (counted self.old.calls) ⊎ (self.old.coming ≡ [])) }
        ensures calls { self.new.calls ≡ counted self.old.calls }
        ensures same { self.new.fails ≡ self.old.fails }
    {
        self.hand_out()
    }

    fn connect(&mut self, _path: &str) -> Result<(MemSource, MemSink), Failed>
        ensures ends { IfOk result (λ ends. self.old.coming ≡ ends ∷ self.new.coming) }
        ensures handed { IfOk result (λ ends. HandsOut (links_of self.old) (links_of self.new) (Some ends.0.bytes) (Some ends.1.bytes)) }
        ensures counts { IfOk result (λ ends. (ends.0.faults ≡ 0) × (ends.1.faults ≡ 0)) }
        ensures open { IfOk result (λ ends. ends.1.finished ≡ false) }
        ensures listens { self.new.listens ≡ self.old.listens }
        ensures kept { OnErr result (KeepsLinks (links_of self.old) (links_of self.new)) }
        ensures cause { HasCause self.old.faults self.new.faults result }
        ensures counted { Counts self.old.faults self.new.faults result }
        ensures fails { IsErr result ↔ (Contains self.old.fails (counted self.old.calls) ⊎ (self.old.coming ≡ [])) }
        ensures calls { self.new.calls ≡ counted self.old.calls }
        ensures same { self.new.fails ≡ self.old.fails }
    {
        self.hand_out()
    }

    fn back(&mut self, link_in: MemSource, link_out: MemSink)
        requires { 0 < self.old.out }
        ensures back { TakesBack (links_of self.old) (links_of self.new) (Some link_in.bytes) (Some link_out.bytes) link_in.faults link_out.faults }
        ensures gone { self.new.gone ≡ self.old.gone ++ (link_in, link_out) ∷ [] }
    {
        self.in_faults = self.in_faults.saturating_add(link_in.faults());
        self.out_faults = self.out_faults.saturating_add(link_out.faults());
        self.out -= 1;
        self.gone.push_reserved((link_in, link_out));
    }
}
