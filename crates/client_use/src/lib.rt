//! Tests of task_core, transfer_client and live_client, through their public names.
#![tactic(auto)]

#[cfg(test)]
mod asks;
#[cfg(test)]
mod bells;
#[cfg(test)]
mod checks;
#[cfg(test)]
mod live;
#[cfg(test)]
mod tasks;
#[cfg(test)]
mod transfers;
