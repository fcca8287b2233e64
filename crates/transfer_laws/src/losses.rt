//! Both ends of a transfer, over links that lose words. It has laws, which are functions that do nothing and promise
//! something of the definitions. Enter at [`laws::reads_survive`].
pub mod laws;
