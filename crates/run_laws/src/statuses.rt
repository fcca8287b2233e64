//! What is known of the command `crew` besides what each run does: over a calm input it writes what one thread makes of it, so the
//! same for every number of workers. It has laws, which are functions that do nothing and promise something of the definitions.
//! Enter at [`laws::no_crew_size_matters`].
pub mod laws;
