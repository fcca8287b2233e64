//! What a table takes and refuses when its journal is full.

use super::server_steps::server_follows;
use super::steps::Method::*;
use super::steps::Step::*;
use super::steps::{GOES_ON, Step};
use rpc_ids::Status;
use rpc_journal::{ArriveRefused, Cancelled, ReplaceRefused, StartOfRefused, StartRefused};
use rpc_packet::PacketType::*;
use std::test::Fail;

const A_FULL_JOURNAL: &[Step] = &[
    Opens(Chat, 0),
    TicksOften(999_999),
    LengthIs(1_000_000),
    Refuses(ClientStream, Chat, ArriveRefused::JournalFull),
    Ticks(5, Err(StartRefused::JournalFull)),
    Starts(Err(StartRefused::JournalFull)),
    StartsCall(0, Err(StartOfRefused::JournalFull)),
    RefusesHandler(0, b'n', ReplaceRefused::JournalFull),
    Counts(1),
    Cancels(2, 0, Cancelled::Quiet(Status::Cancelled)),
    Starts(Ok(None)),
    LengthIs(1_000_001),
];

#[test]
fn a_full_journal_takes_only_what_is_never_refused(rt: HostRuntime) -> Result<(), Fail> {
    server_follows(&rt, rt.alloc(), GOES_ON, A_FULL_JOURNAL)
}
