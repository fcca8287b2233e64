//! What stands in a journal.

use rpc_journal::{EntryKind, Journal};
use std::alloc::{AllocError, Global};
use std::collections::BTreeSet;

/// How many Cancel entries it has.
pub fn cancels_in(journal: &Journal) -> u64 {
    let mut count: u64 = 0;
    for at in 0..journal.len() {
        if let Some(entry) = journal.get(at)
            && matches!(entry.kind, EntryKind::Cancel(_))
        {
            count = count.wrapping_add(1);
        }
    }
    count
}

/// Whether a run begins behind a Cancel of its call.
pub fn runs_behind_cancel(alloc: Global, journal: &Journal) -> Result<bool, AllocError> {
    let mut cancelled: BTreeSet<u32> = BTreeSet::new(alloc);
    for at in 0..journal.len() {
        let Some(entry) = journal.get(at) else {
            return Ok(false);
        };
        match &entry.kind {
            EntryKind::Cancel(call) => {
                cancelled.insert(*call)?;
            }
            EntryKind::Start(call) if cancelled.contains(call) => return Ok(true),
            _ => {}
        }
    }
    Ok(false)
}
