//! Laws of call histories: where messages come from, what is heard of what goes out, how long a journal becomes, and what
//! follows once all is done where a message or the time comes to an end at rest.
//! Each law is a function that does nothing and promises something of the definitions. Each module begins with its `laws`.
#![tactic(auto)]

pub mod messages;
pub mod rounds;
pub mod sends;
pub mod sizes;
pub mod ticks;
