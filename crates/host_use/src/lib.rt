//! Tests of the command `host` of pw_run, through public names.
#![tactic(auto)]

#[cfg(test)]
mod hosts;
