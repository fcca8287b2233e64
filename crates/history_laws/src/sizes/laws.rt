//! What follows from the definitions. Each function does nothing: what counts is its contract.
ghost use Rattle.history_laws.specs.sizes.Size.{EntriesWithin};

/// How many entries the history of one thread has at most, and how many a full beginning of one.
pub fn entries()
    ensures { EntriesWithin }
{}
