//! What follows from the definitions. Each function does nothing: what counts is its contract.
ghost use Rattle.history_laws.specs.messages.Messages.{CallsHaveTheirMethods, ItemsAreOfCalls, MessagesArrived};

/// A message that a call took in one of its runs came in a packet with the call's name.
pub fn messages_arrived()
    ensures { MessagesArrived }
{}

/// A packet of a stream goes out for a call of its name, and all works of a call are left only where it was cancelled.
pub fn items_are_of_calls()
    ensures { ItemsAreOfCalls }
{}

/// A call is of the method that its name asks for.
pub fn calls_have_their_methods()
    ensures { CallsHaveTheirMethods }
{}
