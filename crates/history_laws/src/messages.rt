//! Where the messages of a history come from: the events that calls take, and the packets that go out. It has laws, which
//! are functions that do nothing and promise something of the definitions. Enter at [`laws::messages_arrived`].
pub mod laws;
