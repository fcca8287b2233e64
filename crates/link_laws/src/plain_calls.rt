//! Between the commands of a world: both ends at rest, and what a command leads to that needs no transfer. It has laws, which
//! are functions that do nothing and promise something of the definitions. Enter at [`laws::plain_commands_pass`].
pub mod laws;
