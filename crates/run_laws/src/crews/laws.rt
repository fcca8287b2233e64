//! What follows from the definitions. Each function does nothing: what counts is its contract.
ghost use Rattle.run_laws.specs.crews.CalmLoads.{LoadsAreCalm};
ghost use Rattle.run_laws.specs.crews.CalmSessions.{NoWorkersMatter, SessionsReportAlike};

/// The journal of a session over a calm stream that wasn't halted reports, call by call, what one thread does. So two such
/// sessions over the same bytes report the same.
pub fn calm_sessions_report_alike()
    ensures one_thread { SessionsReportAlike }
    ensures any_workers { NoWorkersMatter }
{}

/// Each stream of a load is calm to a server of the demo service.
pub fn loads_are_calm()
    ensures { LoadsAreCalm }
{}
