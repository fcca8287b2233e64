//! What follows from the definitions. Each function does nothing: what counts is its contract.
ghost use Rattle.std.specs.Prelude.{◌≡◌};
ghost use Rattle.rpc_schedule.specs.OneThread.{ArrivalsOfOneThread, HistoryIsThere, OneHistory, OnlyOneThreads, StopsBegin};

use crate::INPUT_LIMIT;
use rpc_journal::MAX_ENTRIES;

/// The limits of an input and of a journal.
pub fn numbers_of_a_replay()
    ensures input { INPUT_LIMIT ≡ 67108864 }
    ensures journal { MAX_ENTRIES ≡ 1000000 }
{}

/// Packets have one history of one thread, where the handlers' type is ruled.
pub fn one_history()
    ensures { OneHistory }
{}

/// Each list of packets has one.
pub fn history_is_there()
    ensures { HistoryIsThere }
{}

/// What a table has where the journal was full, or the store failed, is a beginning of that history.
pub fn stops_begin()
    ensures { StopsBegin }
{}

/// Which entries such a history has, by which seats.
pub fn entries()
    ensures { OnlyOneThreads }
{}

/// What arrived in such a history.
pub fn arrivals()
    ensures { ArrivalsOfOneThread }
{}
