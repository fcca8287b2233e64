//! What follows from the definitions. Each function does nothing: what counts is its contract.
ghost use Rattle.link_laws.specs.dropped_transfer.Survives.{ReadsSurviveDrops, RefusalsSurviveDrops, WritesSurviveDrops};
ghost use Rattle.link_laws.specs.dropped_transfer.InTime.{ReadsEndOverDrops, WritesEndOverDrops};

/// A read of a resource that the server has is told with OK, in a run whose link drops chunks, but no confirmation of a read, where one
/// of its first four rounds loses none of its chunks, or it loses three at most. At most three turns of time pass on the way.
pub fn reads_survive_drops()
    ensures { ReadsSurviveDrops }
{}

/// So is a write.
pub fn writes_survive_drops()
    ensures { WritesSurviveDrops }
{}

/// A read that the service can't serve is told with the service's reason.
pub fn refusals_survive_drops()
    ensures { RefusalsSurviveDrops }
{}

/// A read of so many pieces of a resource that the server has comes to its line within `3 * pieces + 7` turns of time, whatever chunks
/// are dropped: with OK, or with DEADLINE_EXCEEDED.
pub fn reads_end_over_drops()
    ensures { ReadsEndOverDrops }
{}

/// So does a write, within `3 * pieces + 11`.
pub fn writes_end_over_drops()
    ensures { WritesEndOverDrops }
{}
