//! The two commands that serve connections in turn.
ghost use Rattle.std.specs.Prelude.{◌≡◌, ◌≢◌};
ghost use Rattle.link_io.specs.declared.why.Why.TheVariants.{Source as Read, Sink as Link, Store as Depot, Memory};
ghost use Rattle.pw_run.specs.declared.outcome.Outcome.TheVariants.{BadWords, LinkFault, SinkFault, SourceFault, StoreFault};
ghost use Rattle.pw_run.specs.Outcome.{IsSilent};
ghost use Rattle.pw_run.specs.Serve.{outcome_by};

use crate::Outcome;
use link_io::Why;

/// The command by which connections are served.
#[derive(Clone, Copy, Debug, PartialEq, Eq)]
pub enum Way {
    /// `serve`: the first connection that doesn't end well is the last one.
    Serve,
    /// `host`: what ends a connection for its own link, its input's limit or its journal's doesn't end the run. Each session has a
    /// clock of its own, and what it has under way is left behind it.
    Host,
}

impl Way {
    /// The outcome of a run whose connection ended for this reason, and whose lines were written. With `Done` it goes on.
    pub(crate) fn outcome(self, why: Why) -> Outcome
        ensures value { result ≡ outcome_by self why }
        ensures words { result ≢ BadWords }
        ensures link { result ≢ LinkFault }
        ensures source { result ≡ SourceFault → why ≡ Read }
        ensures sink { result ≡ SinkFault → why ≡ Link }
        ensures store { result ≡ StoreFault → why ≡ Depot }
        ensures silent { IsSilent result → why ≡ Memory }
    {
        match self {
            Way::Serve => Outcome::of_session(why),
            Way::Host => Outcome::of_hosted(why),
        }
    }
}
