//! The guarded value, in the hands of the pass that took the lock.
ghost use Rattle.std.specs.Prelude.{◌≡◌};
ghost use Rattle.std.specs.Borrow.{Lends, sem};

use crate::kept::Kept;
use std::marker::Model;

/// The value, until `Turn::give` takes it back. It can't be dropped.
pub struct Held<T> {
    pub(crate) value: Kept<T>,
}

impl<T> Model for Held<T> {
    ghost Value = { T };

    ghost view = { λ h. h.value };
}

impl<T> Held<T> {
    ghost use Rattle.turn_cell.specs.contracts.held.Held.{the_row};

    /// The value, to read and to change. What is left behind it is what the hands then hold.
    pub fn value(&mut self) -> &mut T
        ensures* writes_back { sem 𝓛 (Lends (the_row T.row) T.row self.entry result (λ w. w)) }
        ensures value { result.now ≡ self.old }
    {
        self.value.get_mut()
    }
}
