//! Laws of the numbers, for callers' proofs. Nothing runs here.

ghost use Rattle.std.specs.Prelude.{◌≡◌};

use crate::bells::bells::{MAX_BELLS, MAX_WOKEN};
use crate::dispatcher::MAX_TASKS;

/// The numbers of tasks and their bells: each task of a dispatcher can have a word.
pub fn numbers_of_tasks()
    ensures tasks { MAX_TASKS ≡ 1024 }
    ensures woken { MAX_WOKEN ≡ 1024 }
    ensures bells { MAX_BELLS ≡ 64 }
{}
