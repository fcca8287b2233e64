//! Hostile use of the program, row by row: damaged streams, devices of which one call fails, and reports that the number of workers
//! must not change. All goes through [`pw_run::run`]. It has tests alone, apart from those of `pw_run`, since its rows are many.
#![tactic(auto)]

#[cfg(test)]
mod tests;
