//! Tests of pw_run, through its public names: what a client does over a link.
#![tactic(auto)]

#[cfg(test)]
mod errands;
