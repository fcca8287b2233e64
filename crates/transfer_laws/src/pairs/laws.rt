//! What follows from the definitions. Each function does nothing: what counts is its contract.
ghost use Rattle.transfer_laws.specs.pairs.EndsWell.{ReadsAreRefused, ReadsEndWell, WritesEndWell};

/// Over a link that loses nothing a read of a resource that is there, from an offset in it, ends OK at both ends. On the way
/// some word is always there to be delivered, and no more words are said than the bound.
pub fn reads_end_well()
    ensures { ReadsEndWell }
{}

/// So does a write, from the offset that the service agrees to.
pub fn writes_end_well()
    ensures { WritesEndWell }
{}

/// A read that the service can't serve ends with three words: the service tells why, and the client acknowledges that.
pub fn reads_are_refused()
    ensures { ReadsAreRefused }
{}
