ghost use Rattle.std.specs.Prelude.{◌≡◌, ℕ, ◌<◌, true, false, OnOk, OnErr, IfOk, MatchResult};
ghost use Rattle.link_io.specs.Causes.{HasCause};
ghost use Rattle.link_io.specs.Links.{Links, KeepsLinks, HandsOut, TakesBack};

use crate::{Failed, Sink, Source};

/// What makes connections: it hands out the two ends of each, and takes them back.
pub trait Linker {
    /// The end that is read.
    type In: Source + Send;

    /// The end that is written.
    type Out: Sink + Send;

    // The ends that it hands out and took back, and its counts.
    ghost links: { Self → Links };

    /// Listens for connections at a path.
    ///
    /// # Errors
    ///
    /// `Failed` where it couldn't. It listens where it did before then.
    fn listen(&mut self, path: &str) -> Result<(), Failed>
        ensures listens { MatchResult result (λ _. (links self.new).listens ≡ true) (λ _. (links self.new).listens ≡ (links self.old).listens) }
        ensures kept { KeepsLinks (links self.old) (links self.new) }
        ensures cause { HasCause (links self.old).faults (links self.new).faults result };

    /// Waits for a connection and hands out its ends.
    ///
    /// # Errors
    ///
    /// `Failed` where it couldn't; no connection is lost then by this call.
    fn accept(&mut self) -> Result<(Self::In, Self::Out), Failed>
        requires { (links self.old).listens ≡ true }
        ensures handed { IfOk result (λ ends. HandsOut (links self.old) (links self.new) (Self.In.left ends.0) (Self.Out.written ends.1)) }
        ensures counts { IfOk result (λ ends. (Self.In.faults ends.0 ≡ 0) × (Self.Out.faults ends.1 ≡ 0)) }
        ensures open { IfOk result (λ ends. Self.Out.finished ends.1 ≡ false) }
        ensures listens { (links self.new).listens ≡ true }
        ensures kept { OnErr result (KeepsLinks (links self.old) (links self.new)) }
        ensures cause { HasCause (links self.old).faults (links self.new).faults result };

    /// Connects to a path and hands out the ends.
    ///
    /// # Errors
    ///
    /// `Failed` where it couldn't.
    fn connect(&mut self, path: &str) -> Result<(Self::In, Self::Out), Failed>
        ensures handed { IfOk result (λ ends. HandsOut (links self.old) (links self.new) (Self.In.left ends.0) (Self.Out.written ends.1)) }
        ensures counts { IfOk result (λ ends. (Self.In.faults ends.0 ≡ 0) × (Self.Out.faults ends.1 ≡ 0)) }
        ensures open { IfOk result (λ ends. Self.Out.finished ends.1 ≡ false) }
        ensures listens { (links self.new).listens ≡ (links self.old).listens }
        ensures kept { OnErr result (KeepsLinks (links self.old) (links self.new)) }
        ensures cause { HasCause (links self.old).faults (links self.new).faults result };

    /// Takes the ends of a connection back, which closes it.
    fn back(&mut self, link_in: Self::In, link_out: Self::Out)
        requires { 0 < (links self.old).out }
        ensures { TakesBack (links self.old) (links self.new) (Self.In.left link_in) (Self.Out.written link_out) (Self.In.faults link_in) (Self.Out.faults link_out) };
}
