//! The rule of the table, and what each step on it tells.
ghost use Rattle.task_core.specs.bells.Views.{making, taking, new_bell, gone};
ghost use Rattle.task_core.specs.bells.Steps.{rang, heard};

use crate::bells::view::View;
use atomic_table::{Join, Play, Shared, Split, TableRule};

/// Each word is how often its key was rung. The table's key is the number of tasks.
pub struct Law;

impl TableRule<u8, View, u64> for Law {
    ghost use Rattle.task_core.specs.bells.Rule.{Ruled};
    ghost use Rattle.task_core.specs.bells.Views.{new_ear};

    ghost holds = { Ruled };

    ghost first = { λ _. new_ear };
}

/// The table as its steps see it.
pub(crate) type Top = Shared<u8, View, u64, Law>;

/// A ring.
pub(crate) struct Ring;

impl Play<u8, View> for Ring {
    ghost then = { rang };
}

/// A load by the ear.
pub(crate) struct Hear;

impl Play<u8, View> for Hear {
    ghost then = { heard };
}

/// The ear gives out bells, and takes them back.
pub(crate) struct Hand;

impl Split<View> for Hand {
    ghost left = { making };

    ghost right = { λ _. new_bell };
}

impl Join<View> for Hand {
    ghost both = { taking };

    ghost spent = { gone };
}
