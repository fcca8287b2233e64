//! The right to wake tasks, which one thread has at a time.

use crate::bells::view::View;
use atomic_table::Seat;
use std::marker::Model;

/// One bell. Contracts see whose it is, and which keys it rang.
#[derive(Drop)]
pub struct Bell {
    pub(crate) seat: Seat<u8, View>,
}

impl Model for Bell {
    ghost use Rattle.task_core.specs.bells.Bells.{Rung, IsBellSeat};

    ghost Value = { Rung };

    ghost view = { λ b. record { table = b.seat.table_id; rings = b.seat.me.0.rings } };

    ghost invariant = { λ b. IsBellSeat b.seat };
}
