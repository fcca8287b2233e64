//! What follows from the definitions. Each function does nothing: what counts is its contract.
ghost use Rattle.run_laws.specs.calm.Alike.{SettlesAlike};
ghost use Rattle.run_laws.specs.calm.Alone.{ToldByPackets};
ghost use Rattle.run_laws.specs.calm.Reports.{ReportsAlike};
ghost use Rattle.run_laws.specs.calm.Taken.{RunsBeginAlike};

/// Over a calm stream the runs of a call take, on any schedule, a beginning of what they take on one thread.
pub fn calm_runs_begin_alike()
    ensures { RunsBeginAlike }
{}

/// Once all is settled, each call then has the same end and the same items in order as on one thread, and the replies are
/// the same.
pub fn calm_histories_are_alike()
    ensures { SettlesAlike }
{}

/// So what is reported of it, call by call, is what is reported of one thread.
pub fn calm_reports_are_alike()
    ensures { ReportsAlike }
{}

/// Whether a stream is calm is told by its packets, with no schedule in sight.
pub fn calm_is_told_by_packets()
    ensures { ToldByPackets }
{}
