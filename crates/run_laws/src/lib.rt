//! Laws of whole runs: streams over which no schedule changes what a server tells (`calm`), the reports of sessions over them
//! (`crews`), and what each exit status of a command says (`statuses`).
//! Each law is a function that does nothing and promises something of the definitions.
#![tactic(auto)]

pub mod calm;
pub mod crews;
pub mod statuses;
