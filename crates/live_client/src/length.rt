//! How long a resource is that the journal of a transfer made whole.
ghost use Rattle.std.specs.Prelude.{◌≡◌, ℕ, List, length, unwrap_or};
ghost use Rattle.live_client.specs.Histories.{said_by, says_of};
ghost use Rattle.live_client.specs.Lengths.{committed_by, grown_by, length_put, work_after, work_over};

use rpc_handlers::Out;
use rpc_ids::Status;
use rpc_journal::{EntryKind, Journal};
use std::marker::Model;

// The end so far of the work of a session, where it is under way, and the end of the work that was made whole. In bytes.
#[derive(Drop)]
struct Work {
    end: Option<u64>,
    whole: Option<u64>,
}

impl Model for Work {
    ghost use Rattle.live_client.specs.Lengths.{Work as Worked};

    ghost Value = { Worked };

    ghost view = { λ w. record { end = w.end; whole = w.whole } };
}

impl Work {
    // What an entry of the journal does to it.
    fn see(&mut self, kind: &EntryKind)
        ensures { self.new ≡ work_over self.old (said_by kind.now) }
    {
        match kind {
            EntryKind::Say(_, out) => self.take(out),
            EntryKind::Arrive(_)
            | EntryKind::Invoke(_, _)
            | EntryKind::Done(_)
            | EntryKind::Start(_)
            | EntryKind::Finish(_, _)
            | EntryKind::Replace(_, _)
            | EntryKind::Cancel(_)
            | EntryKind::Tick(_)
            | EntryKind::Flush
            | EntryKind::EndIn
            | EntryKind::Halt(_)
            | EntryKind::Close(_) => {}
        }
    }

    fn take(&mut self, out: &Out)
        ensures { self.new ≡ work_after self.old out.now }
    {
        match out {
            Out::Say(_) => {}
            Out::Begin { offset, .. } => self.end = Some(*offset),
            Out::Append { bytes, .. } => self.grow(bytes.len()),
            Out::Commit { .. } => {
                self.whole = self.end;
                self.end = None;
            }
            Out::Leave { .. } => self.end = None,
        }
    }

    fn length(&self) -> u64
        ensures { result ≡ unwrap_or self.now.whole 0 }
    {
        self.whole.unwrap_or(0)
    }

    fn grow(&mut self, count: usize)
        ensures { self.new ≡ grown_by count self.old }
    {
        self.end = match self.end {
            Some(end) => Some(end.saturating_add(count as u64)),
            None => None,
        };
    }
}

/// How long the resource is that the journal tells to be made whole; 0 where it tells of none.
pub(crate) fn committed(journal: &Journal) -> u64
    ensures { result ≡ committed_by (says_of journal.now.entries) }
{
    let mut work = Work {
        end: None,
        whole: None,
    };
    for at in 0..journal.len() {
        let entry = journal.get(at).unwrap();
        work.see(&entry.kind);
    }
    work.length()
}

/// How long the resource is at the board that was put there so; 0 where the board hasn't told that it has it.
pub(crate) fn put_length(whole: u64, ended: Option<Status>) -> u64
    ensures { (bytes : List ℕ) → whole ≡ length bytes → result ≡ length_put bytes ended }
{
    match ended {
        Some(Status::Okay) => whole,
        Some(_) | None => 0,
    }
}
