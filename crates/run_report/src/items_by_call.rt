//! Items sorted by their calls.

ghost use Rattle.std.specs.Prelude.{◌≡◌, ◌∷◌, ◌++◌, [], IfOk, OnOk, Option, Some, None};
ghost use Rattle.run_report.specs.ItemsByCall.{IsByCall, behind, behind_each, items_by_call, with_item};

use rpc_journal::Item;
use std::alloc::{AllocError, Global};

/// Items without a call, and those of each call, each list in the order in which its items stood among all.
#[derive(Drop)]
pub(crate) struct ItemsByCall<'a> {
    pub(crate) replies: Vec<&'a Item>,
    /// By number.
    pub(crate) calls: Vec<Vec<&'a Item>>,
}

/// Sorts the items of so many calls. One pass over the items does it, however many calls there are. An item of a later call is
/// left out.
pub(crate) fn sorted_by_call<'a>(
    alloc: Global,
    count: u32,
    items: &'a [Item],
) -> Result<ItemsByCall<'a>, AllocError>
    ensures { IfOk result (IsByCall count items.now) }
{
    let mut replies = Vec::new(alloc);
    let mut calls = empty_lists(alloc, count)?;
    for item in items {
        match item.call {
            None => replies.push(item)?,
            Some(call) => add(&mut calls, call, item)?,
        }
    }
    Ok(ItemsByCall { replies, calls })
}

fn empty_lists<'a>(alloc: Global, count: u32) -> Result<Vec<Vec<&'a Item>>, AllocError>
    ensures { IfOk result (λ lists. behind_each lists.items ≡ items_by_call count ([])) }
{
    let mut lists = Vec::new(alloc);
    for _number in 0..count {
        lists.push(Vec::new(alloc))?;
    }
    Ok(lists)
}

// Adds an item to the list of its call, where there is one.
fn add<'a>(lists: &mut Vec<Vec<&'a Item>>, call: u32, item: &'a Item) -> Result<(), AllocError>
    ensures { OnOk result (behind_each lists.new.items ≡ with_item call item.now (behind_each lists.old.items)) }
{
    if let Some(list) = lists.get_mut(call as usize) {
        list.push(item)?;
    }
    Ok(())
}
