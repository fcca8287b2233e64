//! Where the items of a server go: each is kept, and the store action that it may be is made.
ghost use Rattle.std.specs.Prelude.{◌≡◌, ◌≤◌, true, [], ◌∷◌, ◌++◌, Err, Option, OnErr, OnOk, Some};
ghost use Rattle.link_io.specs.Causes.{Rose};
ghost use Rattle.link_io.specs.declared.store.StoreRefused.TheVariants.{Failed};
ghost use Rattle.link_io.specs.Causes.{HasStoreCause};
ghost use Rattle.link_io.specs.Stored.{Makes, Stored};
ghost use Rattle.rpc_journal.specs.declared.item.Act.TheVariants.{Keep};
ghost use Rattle.rpc_schedule.specs.Kept.{Holds, change_by, change_of, is_store_action, key};

use link_io::{Store, StoreKey, StoreRefused};
use rpc_handlers::Out;
use rpc_journal::{Act, Item};

/// Makes the store action of an item, where it is one, and adds the item to those that went out.
///
/// # Errors
///
/// Where the store failed, or memory is wanting. The item didn't go out then.
pub(crate) fn take<S: Store>(
    store: &mut S,
    items: &mut Vec<Item>,
    item: Item,
) -> Result<(), StoreRefused>
    ensures ok { OnOk result (items.new.items ≡ items.old.items ++ item ∷ []) }
    ensures err { OnErr result (items.new.items ≡ items.old.items) }
    ensures action { result ≡ Err Failed → is_store_action item.call item.act ≡ true }
    ensures later { S.faults store.old ≤ S.faults store.new }
    ensures rose { result ≡ Err Failed → Rose (S.faults store.old) (S.faults store.new) }
    ensures holds { (st : Option Stored) → Holds items.old.items st (S.holds store.old) → Holds items.new.items st (S.holds store.new) }
{
    if items.reserve(1).is_err() {
        return Err(StoreRefused::Memory);
    }
    make_action(store, item.call, &item.act)?;
    match items.push(item) {
        Ok(()) => Ok(()),
        Err(_) => unreachable!(),
    }
}

/// Makes the store action of an item of this call, where it is one.
///
/// # Errors
///
/// Where the store failed, or memory is wanting. The store is as it was then.
pub fn make_action<S: Store>(
    store: &mut S,
    call: Option<u32>,
    act: &Act,
) -> Result<(), StoreRefused>
    ensures change { Makes (change_of call act.now) (S.holds store.old) (S.holds store.new) result }
    ensures cause { HasStoreCause (S.faults store.old) (S.faults store.new) result }
    ensures action { result ≡ Err Failed → is_store_action call act.now ≡ true }
{
    let Some(call) = call else {
        return Ok(());
    };
    match act {
        Act::Send(_) => Ok(()),
        Act::Keep(out) => keep(store, call, out),
        Act::LeaveCall => store.leave_call(call),
    }
}

// Makes the store action of a call, where it is one.
fn keep<S: Store>(store: &mut S, call: u32, out: &Out) -> Result<(), StoreRefused>
    ensures change { Makes (change_by call out.now) (S.holds store.old) (S.holds store.new) result }
    ensures cause { HasStoreCause (S.faults store.old) (S.faults store.new) result }
    ensures action { result ≡ Err Failed → is_store_action (Some call) (Keep out.now) ≡ true }
{
    match out {
        Out::Say(_) => Ok(()),
        Out::Begin {
            session,
            resource,
            offset,
        } => store.begin(key(call, *session), *resource, *offset),
        Out::Append { session, bytes } => store.append(key(call, *session), bytes),
        Out::Commit { session } => store.commit(key(call, *session)),
        Out::Leave { session } => store.leave(key(call, *session)),
    }
}

fn key(call: u32, session: u32) -> StoreKey
    ensures { result ≡ key call session }
{
    StoreKey { call, session }
}
