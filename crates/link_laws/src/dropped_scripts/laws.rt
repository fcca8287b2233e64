//! What follows from the definitions. Each function does nothing: what counts is its contract.
ghost use Rattle.link_laws.specs.dropped_scripts.Losses.{FewLossesSpareEach, LossyRunsEndInTime, LossyRunsEndWell, NextEndsInTime};

/// Over a link that drops chunks, as many as it likes but for the confirmation of a read, each command of a script that closes no
/// channel comes to its line, within three turns of time, where each transfer up to it is spared: one of its first four rounds loses
/// none of its chunks, or it loses three at most. A read whose resource the server has, from an offset in it, and a write whose resource the
/// client has end with OK.
pub fn lossy_runs_end_well()
    ensures { LossyRunsEndWell }
{}

/// A run in which each transfer is spared takes at most three turns of time for each command.
pub fn lossy_runs_end_in_time()
    ensures { LossyRunsEndInTime }
{}

/// A transfer behind others that were spared comes to its line in time, however many of its own chunks are dropped: with OK or
/// DEADLINE_EXCEEDED, a read of so many pieces within `3 * pieces + 7` turns of time, a write within `3 * pieces + 11`.
pub fn next_ends_in_time()
    ensures { NextEndsInTime }
{}

/// A link with three losses at most spares each transfer.
pub fn few_losses_spare_each()
    ensures { FewLossesSpareEach }
{}
