//! What follows from the definitions. Each function does nothing: what counts is its contract.
ghost use Rattle.link_laws.specs.uploads.CallItems.{CallsAreAnswered};
ghost use Rattle.link_laws.specs.uploads.Okay.{OkayFollowsCommit, OkayOfHistory};
ghost use Rattle.link_laws.specs.uploads.Uploads.{OthersStoreNothing, UploadsOfHistory};

/// What a call says and does in a legal history is what the rule of its handler answers to the events of its runs.
pub fn calls_are_answered()
    ensures { CallsAreAnswered }
{}

/// Of a session of any call each Commit that went out has one Begin before it, and what was added between them joins, from
/// the offset of that Begin on, of the data chunks in the messages of the call's runs; of an honest client's data it is
/// the resource from there.
pub fn uploads_join()
    ensures { UploadsOfHistory }
{}

/// A call of a method other than Write has no store action among what went out.
pub fn others_store_nothing()
    ensures { OthersStoreNothing }
{}

/// A call of Write tells the end OK of a session only after the Commit of that session, but where the client itself has
/// told it: whatever comes to its sessions, and so in each legal history.
pub fn okay_follows_commit()
    ensures sessions { OkayFollowsCommit }
    ensures history { OkayOfHistory }
{}
