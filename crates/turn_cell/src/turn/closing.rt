//! How a lock ends, when all its passes are back.
ghost use Rattle.std.specs.Prelude.{◌≡◌, ◌<◌, false};
ghost use Rattle.turn_cell.specs.Helpers.{AreFree, AreEnded};

use crate::logged::Logged;
use crate::pass::{Pass, Top};
use crate::turn::Turn;

// Pass 0 takes in all others.
fn gather<T: Logged>(top: &Top<T>, first: &mut Pass<T>, mut others: Vec<Pass<T>>)
    requires table { (first.old.table ≡ top.now.table_id) × (0 < top.now.table_id.words) }
    requires zero { (first.old.view.known.number ≡ 0) × (first.old.view.holds ≡ false) }
    requires free { AreFree top.now.table_id others.items }
    ensures first { first.new ≡ record first.old { view = record first.old.view { ended = first.new.view.ended } } }
    ensures ended { AreEnded first.new.view.ended others.items }
{
    while let Some(other) = others.pop() {
        first.absorb(top, other);
    }
}

impl<T: Logged> Turn<T> {
    ghost use Rattle.turn_cell.specs.Passes.{AreAll, IsIdle, AllFit};

    /// The value, once all passes are back, in the order of their numbers, and none holds. It waits for nobody.
    pub fn close(self, mut passes: Vec<Pass<T>>) -> T
        requires all { AreAll self (IsIdle self) passes.items }
        ensures fits { AllFit T.log T.maker T.base passes.items result }
    {
        let shared = &self.table.shared;
        let mut first = passes.remove(0);
        gather(shared, &mut first, passes);
        let Turn {
            table,
            count: _,
            sleepers: _,
        } = self;
        let mut closed = table.close_with(first.into_seat());
        let slot = closed.take(0);
        closed.free();
        let Some(value) = slot else { unreachable!() };
        value.into_inner()
    }
}
