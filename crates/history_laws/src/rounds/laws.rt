//! What follows from the definitions. Each function does nothing: what counts is its contract.
ghost use Rattle.history_laws.specs.rounds.Rest.{SettledIsAtRest, SettlingLeavesStreams};
ghost use Rattle.history_laws.specs.rounds.Rounds.{MessagesSettle, RequestsSettle, RoundsAreThere};

/// Whatever came to it, a lawful table that has settled is at rest, if no run was on and nothing was halted before.
pub fn settled_is_at_rest()
    ensures { SettledIsAtRest }
{}

/// A message to a call with an open stream settles in one round, at a server and at a client: its call runs once and
/// answers by its rule, just the items of the answer go out, and the table is at rest again, with all streams still open.
pub fn messages_settle()
    ensures { MessagesSettle }
{}

/// A request settles in one round at a server, where it opens a call whose client may send messages: and that is an open
/// stream then.
pub fn requests_settle()
    ensures { RequestsSettle }
{}

/// Such packets do settle, in these rounds.
pub fn rounds_are_there()
    ensures { RoundsAreThere }
{}

/// A call whose stream is open and for which no event waits keeps its stream while the table settles, whatever other calls do,
/// end and are answered.
pub fn settling_leaves_streams()
    ensures { SettlingLeavesStreams }
{}
