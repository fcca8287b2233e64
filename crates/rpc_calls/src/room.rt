//! The room that a table takes for what is never refused.
ghost use Rattle.std.specs.Prelude.{◌≡◌, ◌+◌, ◌<◌, ◌≤◌, ◌^◌, length, OnOk};
ghost use Rattle.std.specs.VecDeque.{deque_len, deque_capacity};
ghost use Rattle.rpc_calls.specs.Owed.{items_of};

use crate::answer_items::MAX_RUN_ITEMS;
use crate::owed::Owed;
use rpc_journal::{Item, Journal};
use std::alloc::AllocError;
use std::collections::VecDeque;

/// Takes the room for the items and entries that these calls owe, for the items that wait, for a halt and the end of
/// the input, and for this many more.
pub fn take_room(
    journal: &mut Journal,
    items: &mut VecDeque<Item>,
    calls: Owed,
    more_items: u32,
    more_entries: u16,
) -> Result<(), AllocError>
    requires uncancelled { calls.uncancelled < 2 ^ 32 }
    requires running { calls.running < 2 ^ 32 }
    ensures items { items.new.items ≡ items.old.items }
    ensures capacity { deque_capacity items.old ≤ deque_capacity items.new }
    ensures entries { journal.new.entries ≡ journal.old.entries }
    ensures spare { journal.old.spare ≤ journal.new.spare }
    ensures places { OnOk result (length items.old.items + items_of calls + more_items ≤ deque_capacity items.new) }
    ensures records { OnOk result (length items.old.items + items_of calls + more_items + (calls.uncancelled + calls.running + 2) + more_entries ≤ journal.new.spare) }
{
    let in_runs = u64::from(MAX_RUN_ITEMS) * calls.running;
    let owed = 2 * calls.uncancelled + in_runs + u64::from(more_items);
    make_places(items, owed as usize)?;
    let entries = owed + calls.uncancelled + calls.running + 2 + u64::from(more_entries);
    match entries.checked_add(items.len() as u64) {
        Some(entries) => journal.reserve(entries),
        None => Err(AllocError),
    }
}

// Makes places for so many more items. Where it has to grow, it grows to at least twice as many places.
fn make_places(items: &mut VecDeque<Item>, more: usize) -> Result<(), AllocError>
    ensures items { items.new.items ≡ items.old.items }
    ensures capacity { deque_capacity items.old ≤ deque_capacity items.new }
    ensures places { OnOk result (deque_len items.old + more ≤ deque_capacity items.new) }
{
    let free = items.capacity() - items.len();
    if more <= free {
        return Ok(());
    }
    let doubled = free.saturating_add(items.capacity());
    items.reserve(more.max(doubled))
}
