//! What follows from the definitions. Each function does nothing: what counts is its contract.
ghost use Rattle.link_laws.specs.plain_calls.Commands.{LackingWritesPass, PlainCommandsPass};
ghost use Rattle.link_laws.specs.plain_calls.Rests.{EndsAreQuiet, EndsRest};

/// Between the turns of a run both ends are at rest: all that came was handled, and all that was said went out. So it is for
/// any commands, and whatever frames are lost, repeated and kept back, as long as none is damaged.
pub fn ends_rest()
    ensures { EndsRest }
{}

/// As a run ends the handlers of calls are told of it, and no frame is sent.
pub fn ends_are_quiet()
    ensures { EndsAreQuiet }
{}

/// Over links that spare what carries no chunk a call of demo.Demo comes to an end: its line is told, the ends are at rest with
/// nothing on the links, no chunk was sent, no time has passed, and the calls of transfers stay open at both ends.
pub fn plain_commands_pass()
    ensures { PlainCommandsPass }
{}

/// So does a write of a resource that the client doesn't have.
pub fn lacking_writes_pass()
    ensures { LackingWritesPass }
{}
