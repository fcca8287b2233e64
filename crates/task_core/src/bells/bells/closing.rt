//! How the words end, when the ear and all bells are back.
ghost use Rattle.std.specs.Prelude.{◌≡◌, ◌<◌, true, [], length};
ghost use Rattle.task_core.specs.bells.Bells.{AreOf, HasSums, NoneLost, IsGathered};

use crate::bells::bell::Bell;
use crate::bells::bells::Bells;
use crate::bells::ear::Ear;
use crate::bells::rule::{Hand, Top};
use crate::bells::view::View;
use atomic_table::Seat;

// The ear takes all bells in.
fn gather(top: &Top, seat: &mut Seat<u8, View>, mut bells: Vec<Bell>)
    requires table { (seat.old.table_id ≡ top.now.table_id) × (0 < top.now.table_id.words) × (top.now.key ≡ top.now.table_id.words) }
    requires ear { (seat.old.me.0.is_ear ≡ true) × (seat.old.me.1 ≡ []) }
    requires bells { AreOf top.now.table_id bells.items }
    ensures table { (seat.new.table_id ≡ seat.old.table_id) × (seat.new.me.1 ≡ []) }
    ensures gathered { IsGathered seat.old.me.0 bells.items seat.new.me.0 }
{
    while let Some(bell) = bells.pop() {
        top.join_seat::<Hand>(seat, bell.seat);
    }
}

impl Bells {
    /// The words, once the ear and all bells are back. It waits for nobody.
    pub fn close(self, ear: Ear, bells: Vec<Bell>, words: &mut [u64])
        requires ear { (ear.table ≡ self.table) × (ear.bells ≡ self.bells) }
        requires bells { AreOf self.table bells.items × (length bells.items ≡ self.bells) }
        requires words { length words.old ≡ self.table.words }
        ensures sums { HasSums bells.items words.new }
        ensures none_lost { NoneLost ear.looks bells.items words.new }
    {
        let Ear { mut seat } = ear;
        gather(&self.table.shared, &mut seat, bells);
        let Bells { table, count: _ } = self;
        let closed = table.close_with(seat);
        for (key, word) in words.iter_mut().enumerate() {
            *word = closed.word(key);
        }
        closed.free();
    }
}
