//! A read of resource 7, `0123456789`, in chunks of 4 bytes and windows of 4 chunks at first.
ghost use Rattle.std.specs.Prelude.{◌≤◌};

use crate::checks::end_is;
use crate::transfers::desk::{Desk, Phase, Row, SESSION, Step};
use rpc_ids::Status;
use std::alloc::Global;
use std::process::Abort;
use std::test::Fail;
use transfer_base::Tuning;
use transfer_client::ReadTask;

const START: Step = Step::Start { offset: 0 };

const AGREED: Step = Step::StartAck { offset: 0 };

const BEGUN: Step = Step::Begin { offset: 0 };

const KNOWN: Step = Step::CompletionAck;

const CONFIRMS: Step = Step::Confirmation(0, 16, 4);

const OPENING: &[Row] = &[(0, None, &[START]), (0, Some(AGREED), &[BEGUN, CONFIRMS])];

fn read_from(alloc: Global, offset: u64, chunk: u32) -> Result<Desk<ReadTask>, Fail>
    requires offset { offset ≤ 16777216 }
    requires chunk { (1 ≤ chunk) × (chunk ≤ 1024) }
{
    let tuning = Tuning { window: 4, chunk };
    Desk::open(alloc, ReadTask::new(alloc, SESSION, 7, offset, tuning))
}

// A read from this offset goes through these phases.
fn goes(rt: &impl Abort, alloc: Global, offset: u64, phases: &[Phase]) -> Result<(), Fail>
    requires { offset ≤ 16777216 }
{
    let mut desk = read_from(alloc, offset, 4)?;
    desk.goes_through(rt, phases)
}

// The same of each of these reads from the start.
fn each_goes(rt: &impl Abort, alloc: Global, reads: &[&[Phase]]) -> Result<(), Fail> {
    for phases in reads {
        goes(rt, alloc, 0, phases)?;
    }
    Ok(())
}

const WHOLE: &[Row] = &[
    (10, Some(Step::Piece(0, b"0123")), &[Step::Append(b"0123")]),
    (
        10,
        Some(Step::Piece(4, b"4567")),
        &[Step::Append(b"4567"), Step::Continue(8, 40, 4)],
    ),
    (
        20,
        Some(Step::LastPiece(8, b"89")),
        &[
            Step::Append(b"89"),
            Step::Commit,
            Step::Completion(Status::Okay),
        ],
    ),
    (20, Some(Step::Completion(Status::NotFound)), &[KNOWN]),
    (2_019, None, &[]),
    (2_020, None, &[Step::Completion(Status::Okay)]),
];

const ACKNOWLEDGED: &[Row] = &[(2_020, Some(Step::CompletionAck), &[])];

const CUT: &[Row] = &[(2_020, Some(Step::Closed(Status::Unavailable)), &[])];

const A_READ: &[Phase] = &[
    (OPENING, None),
    (WHOLE, None),
    (ACKNOWLEDGED, Some(Status::Okay)),
];

#[test]
fn a_read(rt: HostRuntime) -> Result<(), Fail> {
    goes(&rt, rt.alloc(), 0, A_READ)
}

const A_READ_CUT_OFF: &[Phase] = &[
    (OPENING, None),
    (WHOLE, None),
    (CUT, Some(Status::Unavailable)),
];

#[test]
fn the_call_ends_behind_the_commit(rt: HostRuntime) -> Result<(), Fail> {
    goes(&rt, rt.alloc(), 0, A_READ_CUT_OFF)
}

const SPANS: &[Row] = &[
    (0, None, &[START]),
    (0, Some(AGREED), &[BEGUN, Step::Confirmation(0, 4, 1)]),
    (0, Some(Step::Piece(0, b"0")), &[Step::Append(b"0")]),
    (
        0,
        Some(Step::Piece(1, b"1")),
        &[Step::Append(b"1"), Step::Continue(2, 10, 1)],
    ),
    (0, Some(Step::Piece(3, b"3")), &[Step::Retransmit(2, 6, 1)]),
    (0, Some(Step::Piece(4, b"4")), &[]),
    (0, Some(Step::Piece(2, b"2")), &[Step::Append(b"2")]),
    (
        0,
        Some(Step::Piece(3, b"3")),
        &[Step::Append(b"3"), Step::Continue(4, 8, 1)],
    ),
    (0, Some(Step::Piece(4, b"4")), &[Step::Append(b"4")]),
    (
        0,
        Some(Step::Piece(5, b"5")),
        &[Step::Append(b"5"), Step::Continue(6, 14, 1)],
    ),
];

#[test]
fn a_window_grows_and_shrinks(rt: HostRuntime) -> Result<(), Fail> {
    let mut desk = read_from(rt.alloc(), 0, 1)?;
    desk.follow(SPANS)
}

const UNANSWERED: &[Row] = &[
    (0, None, &[START]),
    (1_999, None, &[]),
    (2_000, None, &[START]),
    (4_000, None, &[START]),
    (6_000, None, &[START]),
    (7_999, None, &[]),
    (8_000, None, &[]),
];

// Malformed, of no session, of another one, and of a type that no chunk has; then parameters.
const FOREIGN: &[Row] = &[
    (0, None, &[START]),
    (1_500, Some(Step::Text(b"\x60\x01\x50")), &[]),
    (1_500, Some(Step::Text(b"\x50\x04")), &[]),
    (1_500, Some(Step::Text(b"\x50\x04\x60\x02")), &[]),
    (1_500, Some(Step::Text(b"\x50\x08\x60\x01")), &[]),
    (2_000, None, &[START]),
    (3_500, Some(Step::Retransmit(0, 16, 4)), &[]),
    (5_499, None, &[]),
    (5_500, None, &[START]),
];

const ACTIVITY: &[&[Phase]] = &[
    &[(UNANSWERED, Some(Status::DeadlineExceeded))],
    &[(FOREIGN, None)],
];

#[test]
fn only_chunks_of_the_session_are_activity(rt: HostRuntime) -> Result<(), Fail> {
    each_goes(&rt, rt.alloc(), ACTIVITY)
}

const BEFORE: &[Row] = &[
    (0, None, &[Step::Start { offset: 8 }]),
    (
        0,
        Some(Step::StartAck { offset: 4 }),
        &[Step::Begin { offset: 4 }, Step::Confirmation(4, 20, 4)],
    ),
    (0, Some(Step::StartAck { offset: 8 }), &[]),
];

const BEHIND: &[Row] = &[
    (0, None, &[Step::Start { offset: 8 }]),
    (
        0,
        Some(Step::StartAck { offset: 9 }),
        &[Step::Completion(Status::OutOfRange)],
    ),
];

const FROM_BEFORE: &[Phase] = &[(BEFORE, None)];

const FROM_BEHIND: &[Phase] = &[(BEHIND, Some(Status::OutOfRange))];

#[test]
fn an_offset_is_agreed(rt: HostRuntime) -> Result<(), Fail> {
    goes(&rt, rt.alloc(), 8, FROM_BEFORE)?;
    goes(&rt, rt.alloc(), 8, FROM_BEHIND)
}

const MISSING: &[Row] = &[
    (0, None, &[START]),
    (0, Some(Step::Completion(Status::NotFound)), &[KNOWN]),
];

const CUT_OFF: &[Row] = &[
    (0, None, &[START]),
    (0, Some(Step::Closed(Status::Okay)), &[]),
];

const ENDS_OF_AN_OPENING: &[&[Phase]] = &[
    &[(MISSING, Some(Status::NotFound))],
    &[(CUT_OFF, Some(Status::Aborted))],
];

#[test]
fn an_opening_ends(rt: HostRuntime) -> Result<(), Fail> {
    each_goes(&rt, rt.alloc(), ENDS_OF_AN_OPENING)
}

// A COMPLETION without a status.
const COMPLETED: &[Row] = &[(
    0,
    Some(Step::Text(b"\x50\x04\x60\x01")),
    &[Step::Leave, KNOWN],
)];

const CLOSED: &[Row] = &[(0, Some(Step::Closed(Status::Cancelled)), &[Step::Leave])];

const SILENT: &[Row] = &[
    (1_999, None, &[]),
    (2_000, None, &[Step::Retransmit(0, 8, 4)]),
    (4_000, None, &[Step::Retransmit(0, 4, 4)]),
    (6_000, None, &[Step::Retransmit(0, 4, 4)]),
    (
        8_000,
        None,
        &[Step::Leave, Step::Completion(Status::DeadlineExceeded)],
    ),
];

// Seventeen bytes, of which the window has sixteen; the end is told four times.
const TOO_MUCH: &[Row] = &[
    (
        0,
        Some(Step::Piece(0, b"0123456789abcdefg")),
        &[Step::Leave, Step::Completion(Status::Internal)],
    ),
    (2_000, None, &[Step::Completion(Status::Internal)]),
    (4_000, None, &[Step::Completion(Status::Internal)]),
    (6_000, None, &[Step::Completion(Status::Internal)]),
    (8_000, None, &[]),
];

const ENDS_OF_A_DATA_PHASE: &[&[Phase]] = &[
    &[(OPENING, None), (COMPLETED, Some(Status::Unknown))],
    &[(OPENING, None), (CLOSED, Some(Status::Cancelled))],
    &[(OPENING, None), (SILENT, Some(Status::DeadlineExceeded))],
    &[(OPENING, None), (TOO_MUCH, Some(Status::Internal))],
];

#[test]
fn a_data_phase_ends(rt: HostRuntime) -> Result<(), Fail> {
    each_goes(&rt, rt.alloc(), ENDS_OF_A_DATA_PHASE)
}

// A piece behind the end isn't taken.
const ALL_AT_ONCE: &[Row] = &[(
    5_000,
    Some(Step::Piece(4, b"4567")),
    &[
        START,
        BEGUN,
        CONFIRMS,
        Step::Append(b"0123"),
        Step::Leave,
        KNOWN,
    ],
)];

#[test]
fn all_mail_is_taken_up_to_the_end(rt: HostRuntime) -> Result<(), Fail> {
    let mut desk = read_from(rt.alloc(), 0, 4)?;
    desk.post(AGREED)?;
    desk.post(Step::Piece(0, b"0123"))?;
    desk.post(Step::Completion(Status::Cancelled))?;
    desk.follow(ALL_AT_ONCE)?;
    end_is(&rt, desk.result(), Some(Status::Cancelled), 0);
    Ok(())
}
