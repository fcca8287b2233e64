use crate::side::Side;
use link_io::Shelf;
use std::alloc::Global;
use std::marker::Model;
use transfer_base::Tuning;

/// What all sessions of a call share.
#[derive(Debug, Drop)]
pub struct Service {
    pub alloc: Global,
    pub side: Side,
    pub shelf: Shelf,
    pub tuning: Tuning,
    /// The moment of the last tick, in milliseconds.
    pub time: u64,
}

impl Model for Service {
    ghost use Rattle.transfer_resume.specs.Session.{Service};

    ghost Value = { Service };

    ghost view = { λ s. record { side = s.side; shelf = s.shelf; window = s.tuning.window; chunk = s.tuning.chunk; time = s.time } };
}
