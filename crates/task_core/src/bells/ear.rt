//! The right to load the words, which the dispatcher's thread has.

use crate::bells::view::View;
use atomic_table::Seat;
use std::marker::Model;

/// The ear. Contracts see whose it is, which loads it made, and how many bells there are.
#[derive(Drop)]
pub struct Ear {
    pub(crate) seat: Seat<u8, View>,
}

impl Model for Ear {
    ghost use Rattle.task_core.specs.bells.Bells.{Heard, IsEarSeat};

    ghost Value = { Heard };

    ghost view = { λ e. record { table = e.seat.table_id; looks = e.seat.me.0.looks; bells = e.seat.me.0.made } };

    ghost invariant = { λ e. IsEarSeat e.seat };
}
