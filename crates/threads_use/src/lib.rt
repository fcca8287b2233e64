//! Tests of pw_run, through its public names: crews, connections and bridges on threads.
#![tactic(auto)]

#[cfg(test)]
mod threads;
