//! What is said of handlers, runs and journals, a claim at a time.
ghost use Rattle.std.specs.Prelude.{◌≡◌};

use super::journals::{cancels_in, runs_behind_cancel};
use super::letters::{Letter, Letters};
use rpc_calls::Running;
use rpc_handlers::Event;
use rpc_ids::Status;
use rpc_journal::Journal;
use std::alloc::Global;
use std::process::Abort;

/// The handler is one of this letter.
pub fn letter_is(rt: &impl Abort, letter: &Letter, want: u8) {
    assert_eq!(rt; letter.letter, want);
}

/// The handler came back with this letter, or didn't.
pub fn came_back(rt: &impl Abort, back: Option<Letter>, want: Option<u8>) {
    let letter = match back {
        Some(letter) => Some(letter.letter),
        None => None,
    };
    assert_eq!(rt; letter, want);
}

/// It is a run of this call.
pub fn runs(rt: &impl Abort, running: &Running<Letter>, call: u32) {
    assert_eq!(rt; running.call_number(), call);
}

/// The handler is to hear that its call ended so.
pub fn hears_end(rt: &impl Abort, running: &Running<Letter>, want: Status) {
    assert!(rt; matches!(running.event(), Event::Ended(status) if *status == want));
}

/// The journal has so many entries.
pub fn length_is(rt: &impl Abort, journal: &Journal, want: u64) {
    assert_eq!(rt; journal.len(), want);
}

/// It has so many Cancel entries.
pub fn counts_cancels(rt: &impl Abort, journal: &Journal, want: u64) {
    assert_eq!(rt; cancels_in(journal), want);
}

/// No run begins in it behind a Cancel of its call.
pub fn runs_none_behind(rt: &impl Abort, alloc: Global, journal: &Journal) {
    assert_eq!(rt; runs_behind_cancel(alloc, journal), Ok(false));
}

/// So many handlers were made, and so many dropped.
pub fn told(rt: &impl Abort, maker: &Letters, want: (u64, u64)) {
    assert_eq!(rt; maker.counts.told(), want);
}
