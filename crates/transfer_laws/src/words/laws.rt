//! What follows from the definitions. Each function does nothing: what counts is its contract.
ghost use Rattle.transfer_laws.specs.words.Service.{ReadsAreHonest, ReadsEndAsTold, ServiceFits, WritesBeginAsAsked};
ghost use Rattle.transfer_laws.specs.words.Tasks.{ReadsMakeWhole, WritesAreHonest};

/// All that the service says fits chunks.
pub fn service_fits()
    ensures { ServiceFits }
{}

/// A session of Write begins where it was asked to, or at what is left, and tells the client so.
pub fn writes_begin_as_asked()
    ensures { WritesBeginAsAsked }
{}

/// A session of Read says data of the resource that it was asked for, and of no other.
pub fn reads_are_honest()
    ensures { ReadsAreHonest }
{}

/// A session of Read says the end OK only where the client told it.
pub fn reads_end_as_told()
    ensures { ReadsEndAsTold }
{}

/// What a write of the client has said over its polls, and when it has ended OK.
pub fn writes_are_honest()
    ensures { WritesAreHonest }
{}

/// What a read of the client has said over its polls; and where it has ended OK it has made the whole content whole in its
/// store, from the offset that was agreed.
pub fn reads_make_whole()
    ensures { ReadsMakeWhole }
{}
