//! How the words and all bells are made.
ghost use Rattle.std.specs.Prelude.{◌≡◌, ◌<◌, ◌≤◌, [], length, IfOk, vec_capacity};
ghost use Rattle.task_core.specs.bells.Bells.{AreNew, AreOf, IsEarSeat};

use crate::bells::bell::Bell;
use crate::bells::bells::{Bells, MAX_BELLS, MAX_WOKEN};
use crate::bells::ear::Ear;
use crate::bells::rule::{Hand, Top};
use crate::bells::view::View;
use atomic_table::{Seat, Table};
use std::alloc::{AllocError, Global};

// The ear gives out so many bells.
fn make_bells(top: &Top, seat: &mut Seat<u8, View>, count: u32, bells: &mut Vec<Bell>)
    requires table { (seat.old.table_id ≡ top.now.table_id) × (0 < top.now.table_id.words) }
    requires ear { IsEarSeat seat.old }
    requires none { seat.old.me.0.made ≡ 0 }
    requires room { (bells.old.items ≡ []) × (count ≤ vec_capacity bells.old) }
    ensures table { seat.new.table_id ≡ seat.old.table_id }
    ensures ear { seat.new.me ≡ (record seat.old.me.0 { made = count }, seat.old.me.1) }
    ensures bells { AreNew top.now.table_id bells.new.items }
    ensures of { AreOf top.now.table_id bells.new.items }
    ensures count { length bells.new.items ≡ count }
{
    for _made in 0..count {
        let fresh = top.split_seat::<Hand>(seat);
        bells.push_reserved(Bell { seat: fresh });
    }
}

impl Bells {
    /// Words for the tasks with the keys below `tasks`, 1 to 1,024 of them, and 1 to 64 bells.
    pub fn with(
        alloc: Global,
        tasks: u32,
        bells: u32,
    ) -> Result<(Bells, Ear, Vec<Bell>), AllocError>
        requires tasks { (0 < tasks) × (tasks ≤ MAX_WOKEN) }
        requires bells { (0 < bells) × (bells ≤ MAX_BELLS) }
        ensures made { IfOk result (λ made. (made.0.table.words ≡ tasks) × (made.0.bells ≡ bells)) }
        ensures ear { IfOk result (λ made. made.1 ≡ record { table = made.0.table; looks = []; bells = bells }) }
        ensures bells { IfOk result (λ made. AreNew made.0.table made.2.items × (length made.2.items ≡ bells)) }
        ensures of { IfOk result (λ made. AreOf made.0.table made.2.items) }
    {
        let words = vec![in alloc; 0; tasks as usize]?;
        let mut out = Vec::with_capacity(alloc, bells as usize)?;
        let (table, mut seat) = Table::of_words(alloc, words.as_slice(), &u64::from(tasks))?;
        make_bells(&table.shared, &mut seat, bells, &mut out);
        Ok((
            Bells {
                table,
                count: bells,
            },
            Ear { seat },
            out,
        ))
    }
}
