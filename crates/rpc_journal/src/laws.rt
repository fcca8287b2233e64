//! What follows from the definitions for every history. Each function does nothing: what counts is its contract.
ghost use Rattle.rpc_journal.specs.Laws.{BeginningIsLawful, BeginningIsLegal, EndsOnce, NoPacketAfterEnd, QuietForGood, RunStands, ItemsBegin, FlushedBegin, ArrivalsOfSeat, FlushesOfSeat, FlushesCount, CallStays, MomentsOfSeat, EndInOfSeat, HaltStays, NoneWaitsForCancelled, FullQueueIsKnown, SettledNext, SettledEnds, FewAlwaysWait};
ghost use Rattle.rpc_journal.specs.ChangeLaws.{AddsBySeat, BecomesQuiet, BegunRuns, InputStaysOpen, KeepsLegal};

/// A beginning of a lawful or legal history is one itself.
pub fn beginnings()
    ensures lawful { BeginningIsLawful }
    ensures legal { BeginningIsLegal }
{}

/// Each call has at most one end, and no packet of it is added after the entry that closes it.
pub fn ends()
    ensures once { EndsOnce }
    ensures no_packet_after { NoPacketAfterEnd }
{}

/// From a history in which a call is quiet no lawful history goes on with a Start or a Finish of it.
pub fn quiet_calls()
    ensures { QuietForGood }
{}

/// A run that begins is on; no entry of another seat ends it, and its event and the state before it stay.
pub fn runs()
    ensures begun { BegunRuns }
    ensures stand { RunStands }
{}

/// The items sent and the items flushed of a beginning are beginnings of those of the whole.
pub fn items()
    ensures sent { ItemsBegin }
    ensures flushed { FlushedBegin }
{}

/// The arrivals of a history and its EndIn are those of seat 0's entries, its flushes and moments those of seat 1's.
pub fn seats()
    ensures arrivals { ArrivalsOfSeat }
    ensures flushes { FlushesOfSeat }
    ensures count { FlushesCount }
    ensures moments { MomentsOfSeat }
    ensures end_in { EndInOfSeat }
{}

/// What a caller has seen stays true: a call is there, the input is open to who feeds it, and the table is halted. The
/// call of a full queue is one that was seen.
pub fn seen()
    ensures call { CallStays }
    ensures input { InputStaysOpen }
    ensures halt { HaltStays }
    ensures full { FullQueueIsKnown }
{}

/// From a settled history only a halt and seat 1 go on, where nothing of the table's own is added.
pub fn settled()
    ensures next { SettledNext }
    ensures ends { SettledEnds }
{}

/// At most 64 events other than `Ended`, and one `Ended`, wait for a call, and none for a cancelled one.
pub fn waiting()
    ensures few { FewAlwaysWait }
    ensures cancelled { NoneWaitsForCancelled }
{}

/// What a method of the table adds is by its seat, and keeps a legal history legal. `H` is a type of handlers, and `R`
/// one of runs.
pub fn changes<H, R>()
    ensures by_seat { AddsBySeat H R }
    ensures legal { KeepsLegal H R }
{}

/// A cancel that answers `Quiet`, and the end of a cancelled call's run, leave the call quiet. `H` is a type of
/// handlers.
pub fn quieting<H>()
    ensures { BecomesQuiet H }
{}
