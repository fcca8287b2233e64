//! A journal at work, here and on another thread.

use rpc_journal::*;
use std::process::Abort;
use std::test::Fail;
use std::thread::join;

fn flush_by(seat: u32) -> Entry {
    Entry {
        seat,
        kind: EntryKind::Flush,
    }
}

fn length_is(rt: &impl Abort, journal: &Journal, want: u64) {
    assert_eq!(rt; journal.len(), want);
}

fn seat_is(rt: &impl Abort, journal: &Journal, at: u64, want: Option<u32>) {
    assert_eq!(rt; journal.get(at).map(|e| e.seat), want);
}

fn refuses(rt: &impl Abort, journal: &mut Journal, count: u64) {
    assert!(rt; journal.reserve(count).is_err());
}

#[test]
fn a_journal_keeps_its_entries_in_order(rt: HostRuntime) -> Result<(), Fail> {
    let mut journal = Journal::new(rt.alloc());
    length_is(&rt, &journal, 0);
    seat_is(&rt, &journal, 0, None);
    journal.reserve(2)?;
    journal.push(flush_by(1));
    journal.push(flush_by(7));
    length_is(&rt, &journal, 2);
    seat_is(&rt, &journal, 0, Some(1));
    seat_is(&rt, &journal, 1, Some(7));
    seat_is(&rt, &journal, 2, None);
    Ok(())
}

#[test]
fn a_journal_refuses_more_than_can_be_counted(rt: HostRuntime) -> Result<(), Fail> {
    let mut journal = Journal::new(rt.alloc());
    refuses(&rt, &mut journal, 1 << 62);
    refuses(&rt, &mut journal, u64::MAX);
    journal.reserve(1)?;
    Ok(())
}

#[test]
fn a_journal_goes_to_another_thread(rt: HostRuntime) -> Result<(), Fail> {
    let mut journal = Journal::new(rt.alloc());
    journal.reserve(1)?;
    journal.push(flush_by(1));
    let (moved, _) = join(&rt, move || journal, || ());
    length_is(&rt, &moved, 1);
    Ok(())
}
