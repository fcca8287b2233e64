//! Tests of rpc_journal, through its public names.
#![tactic(auto)]

#[cfg(test)]
mod client_side;
#[cfg(test)]
mod closing;
#[cfg(test)]
mod journals;
#[cfg(test)]
mod server_side;
#[cfg(test)]
mod world;
