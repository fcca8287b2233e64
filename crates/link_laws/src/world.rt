//! The world in which both ends of the endpoint stand, over a link that loses, repeats, keeps back and damages frames by
//! a script: what is fixed with it, where it stands between two turns, which turn comes next, what each turn does, and a
//! run as a list of turns. It runs nothing: it is what a body that runs a script is held to.
//!
//! Begin with `specs/Turns.antt`: `next_kind` says which turn comes, `TurnOf` what it does, and `Turned` what a run is.
pub mod laws;
mod limits;

pub use limits::{MAX_DELIVERIES, TURN_OF_TIME};
