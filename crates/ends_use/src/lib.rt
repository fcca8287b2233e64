//! Tests of rpc_schedule, rpc_server, rpc_client, load_stream, run_report, through their public names.
#![tactic(auto)]

#[cfg(test)]
mod checks;
#[cfg(test)]
mod client;
#[cfg(test)]
mod loads;
#[cfg(test)]
mod reports;
#[cfg(test)]
mod schedule;
#[cfg(test)]
mod server;
