//! Both ends of one transfer by themselves, over a link that loses nothing. It has laws, which are functions that do nothing
//! and promise something of the definitions. Enter at [`laws::reads_end_well`].
pub mod laws;
