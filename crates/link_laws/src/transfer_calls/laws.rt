//! What follows from the definitions. Each function does nothing: what counts is its contract.
ghost use Rattle.link_laws.specs.transfer_calls.Transfers.{EndsFollowCommits, OffsetsAreAgreed, ReadsTellTheTruth, UploadsAreWhole};

/// What a client hears of a call of Read is data of the resource that it asked for, and the end OK only where it told that
/// itself.
pub fn reads_tell_the_truth()
    ensures { ReadsTellTheTruth }
{}

/// The offset that a client hears of a call of Write is that at which the work on the resource begins.
pub fn offsets_are_agreed()
    ensures { OffsetsAreAgreed }
{}

/// The end OK that a client hears of a call of Write stands after the session's Commit, among all that has gone out at any
/// moment.
pub fn ends_follow_commits()
    ensures { EndsFollowCommits }
{}

/// A session of Write that is committed has made the client's resource whole, from the offset that was agreed.
pub fn uploads_are_whole()
    ensures { UploadsAreWhole }
{}
