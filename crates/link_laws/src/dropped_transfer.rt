//! A transfer over links that drop frames: a run of the world follows the two ends of the transfer, whatever words are lost, as
//! the time passes and older sessions tell their ends again. It has laws, which are functions that do nothing and promise
//! something of the definitions. Enter at [`laws::reads_survive_drops`].
pub mod laws;
