//! What follows from the definitions. Each function does nothing: what counts is its contract.
ghost use Rattle.link_laws.specs.rounds.Polls.{CallsOpen, MessagesArePolled, StreamsStay, TasksBegin};

/// A message to the call of the task that speaks is mail of one poll of that task: what it says then goes out, and nothing else.
pub fn messages_are_polled()
    ensures { MessagesArePolled }
{}

/// A task that speaks through a call that is open already is polled without mail, and what it says goes out.
pub fn tasks_begin()
    ensures { TasksBegin }
{}

/// A task that speaks through a call that is opened for it is polled without mail, and what it says goes out after the packet
/// that opens the call.
pub fn calls_open()
    ensures { CallsOpen }
{}

/// A call whose stream is open and for which no event waits keeps its stream while the client does its work, whatever other calls
/// and a task do.
pub fn streams_stay()
    ensures { StreamsStay }
{}
