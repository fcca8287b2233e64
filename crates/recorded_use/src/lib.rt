//! Tests of pw_run, through its public names: what each recorded command writes.
#![tactic(auto)]

#[cfg(test)]
mod recorded;
