//! What acts on the events of a call: the events, the answers to them, and the traits of handlers and their makers.
//!
//! A handler is a state that answers one event at a time. Enter at `Acts`; `Fun` makes a handler of a stored closure.
#![tactic(auto)]

mod acts;
mod answer;
mod boxed;
mod event;
mod fun;
mod lists;
mod maker;

pub use acts::{Acts, Handler};
pub use answer::{Answer, End, MAX_ANSWER_ITEMS, MAX_PAYLOAD, Out};
pub use event::{Event, Memo};
pub use fun::{Fun, Rule};
pub use lists::{Outs, Parts, Words};
pub use maker::{Maker, Nobody};
