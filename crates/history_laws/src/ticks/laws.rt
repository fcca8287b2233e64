//! What follows from the definitions. Each function does nothing: what counts is its contract.
ghost use Rattle.history_laws.specs.ticks.Ticks.{LiveCallsAreUncut, OneSpeaks, TicksArePut, TicksAreThere, TicksSettle};

/// At a table at rest a Tick waits for each live call of a ticking method, and for no other.
pub fn ticks_are_put()
    ensures { TicksArePut }
{}

/// A Tick at a server at rest settles in one way: each live call of a ticking method runs once, by rising number, and answers
/// by its rule; just the items of those answers go out, in that order, and the table is at rest again. Each stream stays open,
/// and the state of its handler has moved on where its method ticks.
pub fn ticks_settle()
    ensures { TicksSettle }
{}

/// A Tick does settle in this way.
pub fn ticks_are_there()
    ensures { TicksAreThere }
{}

/// In a lawful history no live call was cancelled.
pub fn live_calls_are_uncut()
    ensures { LiveCallsAreUncut }
{}

/// Where one ticking call alone says anything, all that is said at a Tick is what it says.
pub fn one_speaks()
    ensures { OneSpeaks }
{}
