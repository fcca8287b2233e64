//! What a connection has under way when its session has ended is left, so that it can go on.
ghost use Rattle.std.specs.Prelude.{◌≡◌, IfOk, OnOk, OnErr};
ghost use Rattle.std.specs.Map.{keys_of};
ghost use Rattle.link_io.specs.Causes.{HasStoreCause};
ghost use Rattle.link_io.specs.Stored.{Stored};
ghost use Rattle.rpc_schedule.specs.Kept.{Holds, change_by, change_of};
ghost use Rattle.pw_run.specs.UnderWay.{LeavesSome, leaves, under_way};

use link_io::{Store, StoreKey, StoreRefused};
use rpc_handlers::Out;
use rpc_journal::{Act, Item};
use std::alloc::{AllocError, Global};
use std::collections::BTreeSet;

/// Leaves the uploads that these items begin and don't end, by rising key.
///
/// # Errors
///
/// Where the store failed, or memory is wanting. Those before were left then.
pub(crate) fn leave_under_way<S: Store>(
    alloc: Global,
    items: &[Item],
    store: &mut S,
) -> Result<(), StoreRefused>
    ensures all { OnOk result (Holds (leaves (under_way items.now)) (S.holds store.old) (S.holds store.new)) }
    ensures some { OnErr result (LeavesSome (under_way items.now) (S.holds store.old) (S.holds store.new)) }
    ensures cause { HasStoreCause (S.faults store.old) (S.faults store.new) result }
{
    let uploads = open_uploads(alloc, items)?;
    leave_each(&uploads, store)
}

// Leaves these uploads, by rising key.
fn leave_each<S: Store>(uploads: &BTreeSet<StoreKey>, store: &mut S) -> Result<(), StoreRefused>
    ensures all { OnOk result (Holds (leaves uploads.now.keys) (S.holds store.old) (S.holds store.new)) }
    ensures some { OnErr result (LeavesSome uploads.now.keys (S.holds store.old) (S.holds store.new)) }
    ensures cause { HasStoreCause (S.faults store.old) (S.faults store.new) result }
{
    'uploads: for key in uploads {
        store.leave(*key)?;
    }
    Ok(())
}

// The uploads that these items begin and don't end.
fn open_uploads(alloc: Global, items: &[Item]) -> Result<BTreeSet<StoreKey>, AllocError>
    ensures { IfOk result (λ uploads. uploads.keys ≡ under_way items.now) }
{
    let mut uploads = BTreeSet::new(alloc);
    for item in items {
        note(&mut uploads, item)?;
    }
    Ok(uploads)
}

// Notes what an item does to the uploads that are open.
fn note(uploads: &mut BTreeSet<StoreKey>, item: &Item) -> Result<(), AllocError>
    ensures { OnOk result ((s : Stored) → uploads.old.keys ≡ keys_of s.work → uploads.new.keys ≡ keys_of (change_of item.now.call item.now.act s).work) }
{
    let Some(call) = item.call else {
        return Ok(());
    };
    match &item.act {
        Act::Send(_) => Ok(()),
        Act::Keep(out) => note_out(uploads, call, out),
        Act::LeaveCall => {
            uploads.retain(|key| key.call != call);
            Ok(())
        }
    }
}

// Notes what a store action of a call does to them.
fn note_out(uploads: &mut BTreeSet<StoreKey>, call: u32, out: &Out) -> Result<(), AllocError>
    ensures { OnOk result ((s : Stored) → uploads.old.keys ≡ keys_of s.work → uploads.new.keys ≡ keys_of (change_by call out.now s).work) }
{
    match out {
        Out::Say(_) => {}
        Out::Begin { session, .. } => {
            uploads.insert(StoreKey {
                call,
                session: *session,
            })?;
        }
        Out::Append { .. } => {}
        Out::Commit { session } => {
            uploads.remove(&StoreKey {
                call,
                session: *session,
            });
        }
        Out::Leave { session } => {
            uploads.remove(&StoreKey {
                call,
                session: *session,
            });
        }
    }
    Ok(())
}
