//! Tests of pw_run, through its public names: recorded commands over stores that are filled, devices that fail, and inputs at their limits.
#![tactic(auto)]

#[cfg(test)]
mod stores;
