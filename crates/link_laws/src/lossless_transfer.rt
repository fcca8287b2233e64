//! A transfer of a script in the world of `link`, where nothing is lost: from its start to where both ends are at rest. It has
//! laws, which are functions that do nothing and promise something of the definitions. Enter at [`laws::reads_finish`].
pub mod laws;
