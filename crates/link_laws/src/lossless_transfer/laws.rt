//! What follows from the definitions. Each function does nothing: what counts is its contract.
ghost use Rattle.link_laws.specs.lossless_transfer.Finishes.{ReadsAreRefused, ReadsEnd, ReadsFinish, WritesEnd, WritesFinish};

/// Over a link that loses nothing a read that has begun comes, without a turn of time, to where its line is told with OK, both
/// ends are at rest and no frame is on its way. It says no more words than its bound, each in a frame of its own.
pub fn reads_finish()
    ensures { ReadsFinish }
{}

/// So does a write.
pub fn writes_finish()
    ensures { WritesFinish }
{}

/// A read that the service can't serve comes to where its line is told with the service's reason, after three words.
pub fn reads_are_refused()
    ensures { ReadsAreRefused }
{}

/// Whatever end the two ends of a transfer come to by themselves, the world comes to it, and its line tells that.
pub fn transfers_end()
    ensures reads { ReadsEnd }
    ensures writes { WritesEnd }
{}
