//! What follows from what `live` tells. Each function does nothing: what counts is its contract.
ghost use Rattle.live_client.specs.Fetched.{DeadlinesTakeTime, FetchesAreStored, FetchesAreWhole};

/// A transfer ends for its own deadline only where the clock's last moment went on by 8,000 ms in the call.
pub fn deadlines_take_time()
    ensures { DeadlinesTakeTime }
{}

/// A fetch that no halt ended, and that ended with OK, has made the resource whole in the store: from the offset that it tells, of
/// bytes that join over the messages that were run; or the board told OK.
pub fn fetches_are_whole()
    ensures { FetchesAreWhole }
{}

/// Over a board that sends pieces of one content, and tells no OK of its own, such a fetch leaves all of the content from the
/// offset on in a store that tells what it holds.
pub fn fetches_are_stored()
    ensures { FetchesAreStored }
{}
