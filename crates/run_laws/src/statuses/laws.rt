//! What follows from the definitions. Each function does nothing: what counts is its contract.
ghost use Rattle.run_laws.specs.statuses.CalmCrews.{CrewsWriteAlike, LoadsAreWrittenAlike, NoCrewSizeMatters};
ghost use Rattle.run_laws.specs.statuses.ClientEnds.{CalledMeansOkay, NotOkayIsOther, OkayIsOkay, OtherMeansOther};
ghost use Rattle.run_laws.specs.statuses.Statuses.{BridgeHadRoom, ClientHadRoom, CrewHadRoom, LiveEndWell, RecordedEndWell, RecordedHadRoom, ServeHadRoom};

/// A run of `crew` over a calm input that ends with status 0 writes the report of the history of one thread.
pub fn calm_crews_write_alike()
    ensures { CrewsWriteAlike }
{}

/// So two such runs write the same, however many workers each has; the stream of a load is such an input.
pub fn no_crew_size_matters()
    ensures calm { NoCrewSizeMatters }
    ensures loads { LoadsAreWrittenAlike }
{}

/// Where no device fails, a recorded command ends with status 0, or 1 for want of memory, but where a line of its text is bad or a limit
/// is met. What ended with 0 met no limit. What a command doesn't use need not be known.
pub fn recorded_commands_end_well()
    ensures well { RecordedEndWell }
    ensures room { RecordedHadRoom }
{}

/// So it is of the commands on threads, where the inputs that they may read are known: where the journal of this very run was full, it
/// has its own status. Of `host` they need not be known, since no limit of a connection ends it. A crew that ended with 0 read its input
/// to the end, below the limit, a run of `serve` that of each connection, a bridge those of its two links, and a client that of its one
/// link.
pub fn commands_on_threads_end_well()
    ensures well { LiveEndWell }
    ensures room { CrewHadRoom }
    ensures links { ServeHadRoom }
    ensures bridge { BridgeHadRoom }
    ensures client { ClientHadRoom }
{}

/// By what the store of this run listed a client is asked something, or has nothing to send. With status 0 what it was asked ended OK,
/// and with 9 it ended otherwise, or there was nothing to send; its link was read to the end.
pub fn clients_tell_how_they_ended()
    ensures okay { OkayIsOkay }
    ensures other { NotOkayIsOther }
{}

/// A call that ended with status 0 ended OK, and one with 9 otherwise; its link was read to the end.
pub fn calls_tell_how_they_ended()
    ensures okay { CalledMeansOkay }
    ensures other { OtherMeansOther }
{}
