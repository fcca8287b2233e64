//! What a user of the table can rest on between its calls. Each function does nothing: what counts is its contract.
ghost use Rattle.rpc_shared.specs.Laws.{RunStandsUntilFinish};

/// A run stands until its own seat finishes it: whatever entries come after it, of its own seat or of others, as long as
/// none is a Finish of its call by that seat.
pub fn runs()
    ensures { RunStandsUntilFinish }
{}
