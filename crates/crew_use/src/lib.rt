//! Tests of turn_cell, rpc_shared, rpc_crew, through their public names.
#![tactic(auto)]

#[cfg(test)]
mod crew;
#[cfg(test)]
mod shared;
#[cfg(test)]
mod turns;
