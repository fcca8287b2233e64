//! Both ends of a link on one thread: a server of the demo services and a client whose transfers are tasks, over a link
//! that loses, repeats, holds back and damages frames as a script says. Time moves on only where nothing else is left to do.
//! Enter at [`World`]; `link_laws::world` defines what a run is. [`server`] and [`client`] are its two ends.
#![tactic(auto)]

pub mod client;
mod course;
mod ending;
pub mod laws;
mod line;
mod making;
mod outcome;
mod over;
mod running;
pub mod server;
mod starting;
mod turn;
mod turns;
mod world;

pub use outcome::{Outcome, WorldRefused};
pub use world::World;
