//! What follows from the definitions. Each function does nothing: what counts is its contract.
ghost use Rattle.link_laws.specs.lossless_scripts.Lossless.{LosslessRunsArrive, LosslessRunsEndWell};
ghost use Rattle.link_laws.specs.lossless_scripts.Within.{RowsAreWithin};

/// Over a link that loses nothing each command of a script that closes no channel comes to its line. A read whose resource
/// the server has, from an offset in it, and a write whose resource the client has end with OK, and no more chunks are sent for
/// them than their bound.
pub fn lossless_runs_end_well()
    ensures { LosslessRunsEndWell }
{}

/// When such a run ends, what has arrived at each end are the packets that the other end flushed, in order.
pub fn lossless_runs_arrive()
    ensures { LosslessRunsArrive }
{}

/// So it is told of the computed runs of whole transfers.
pub fn rows_are_within()
    ensures { RowsAreWithin }
{}
