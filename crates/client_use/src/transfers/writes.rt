//! A write of resource 7, `0123456789`, which the service asks for in chunks of 4 bytes.
ghost use Rattle.std.specs.Prelude.{◌≤◌};

use crate::transfers::desk::{Desk, Phase, Row, SESSION, Step};
use bytes::Bytes;
use rpc_ids::Status;
use std::alloc::Global;
use std::process::Abort;
use std::test::Fail;
use transfer_client::WriteTask;

const START: Step = Step::Start { offset: 0 };

const AGREED: Step = Step::StartAck { offset: 0 };

const KNOWN: Step = Step::CompletionAck;

// The confirmation of a write asks for nothing.
const CONFIRMS: Step = Step::Confirmation(0, 0, 0);

const SENT: &[Row] = &[
    (0, None, &[START]),
    (0, Some(AGREED), &[CONFIRMS]),
    (
        0,
        Some(Step::Retransmit(0, 16, 4)),
        &[
            Step::Piece(0, b"0123"),
            Step::Piece(4, b"4567"),
            Step::LastPiece(8, b"89"),
        ],
    ),
];

// A write from this offset goes through these phases.
fn goes(rt: &impl Abort, alloc: Global, offset: u64, phases: &[Phase]) -> Result<(), Fail>
    requires { offset ≤ 10 }
{
    let bytes = Bytes::from_static(b"0123456789");
    let mut desk = Desk::open(alloc, WriteTask::new(alloc, SESSION, 7, bytes, offset))?;
    desk.goes_through(rt, phases)
}

// The same of each of these writes from the start.
fn each_goes(rt: &impl Abort, alloc: Global, writes: &[&[Phase]]) -> Result<(), Fail> {
    for phases in writes {
        goes(rt, alloc, 0, phases)?;
    }
    Ok(())
}

// A lost piece is sent again.
const WHOLE: &[Row] = &[
    (0, Some(Step::Continue(8, 40, 4)), &[]),
    (
        2_000,
        Some(Step::Retransmit(8, 24, 4)),
        &[Step::LastPiece(8, b"89")],
    ),
    (2_000, Some(Step::Completion(Status::Okay)), &[KNOWN]),
];

const CUT: &[Row] = &[(0, Some(Step::Closed(Status::Okay)), &[])];

const SILENT: &[Row] = &[
    (2_000, None, &[]),
    (4_000, None, &[]),
    (6_000, None, &[]),
    (8_000, None, &[]),
    (9_999, None, &[]),
    (10_000, None, &[Step::Completion(Status::DeadlineExceeded)]),
];

const PAST_THE_END: &[Row] = &[(
    0,
    Some(Step::Retransmit(11, 27, 4)),
    &[Step::Completion(Status::OutOfRange)],
)];

const ENDS_OF_A_DATA_PHASE: &[&[Phase]] = &[
    &[(SENT, None), (WHOLE, Some(Status::Okay))],
    &[(SENT, None), (CUT, Some(Status::Aborted))],
    &[(SENT, None), (SILENT, Some(Status::DeadlineExceeded))],
    &[(SENT, None), (PAST_THE_END, Some(Status::OutOfRange))],
];

#[test]
fn a_data_phase_ends(rt: HostRuntime) -> Result<(), Fail> {
    each_goes(&rt, rt.alloc(), ENDS_OF_A_DATA_PHASE)
}

const RESUMED: &[Row] = &[
    (0, None, &[Step::Start { offset: 8 }]),
    (0, Some(Step::StartAck { offset: 4 }), &[CONFIRMS]),
    (
        0,
        Some(Step::Retransmit(4, 20, 4)),
        &[Step::Piece(4, b"4567"), Step::LastPiece(8, b"89")],
    ),
];

const NOTHING_MORE: &[Row] = &[
    (0, None, &[Step::Start { offset: 10 }]),
    (0, Some(Step::StartAck { offset: 10 }), &[CONFIRMS]),
    (
        0,
        Some(Step::Retransmit(10, 26, 4)),
        &[Step::LastPiece(10, b"")],
    ),
];

const FROM_BEFORE: &[Phase] = &[(RESUMED, None)];

const FROM_THE_END: &[Phase] = &[(NOTHING_MORE, None)];

#[test]
fn an_offset_is_agreed(rt: HostRuntime) -> Result<(), Fail> {
    goes(&rt, rt.alloc(), 8, FROM_BEFORE)?;
    goes(&rt, rt.alloc(), 10, FROM_THE_END)
}

const UNANSWERED: &[Row] = &[
    (0, None, &[START]),
    (1_999, None, &[]),
    (2_000, None, &[START]),
    (4_000, None, &[START]),
    (6_000, None, &[START]),
    (7_999, None, &[]),
    (8_000, None, &[]),
];

// A second START_ACK is activity, and lets it confirm no more often.
const UNASKED: &[Row] = &[
    (0, None, &[START]),
    (2_000, None, &[START]),
    (3_500, Some(AGREED), &[CONFIRMS]),
    (5_499, None, &[]),
    (5_500, None, &[CONFIRMS]),
    (7_500, None, &[CONFIRMS]),
    (8_000, Some(AGREED), &[]),
    (10_000, None, &[CONFIRMS]),
    (12_000, None, &[]),
];

// Parameters before an offset is agreed are activity alone.
const ASKED_EARLY: &[Row] = &[
    (0, None, &[START]),
    (1_500, Some(Step::Retransmit(0, 16, 4)), &[]),
    (3_499, None, &[]),
    (3_500, None, &[START]),
    (3_500, Some(AGREED), &[CONFIRMS]),
];

const OPENINGS: &[&[Phase]] = &[
    &[(UNANSWERED, Some(Status::DeadlineExceeded))],
    &[(UNASKED, Some(Status::DeadlineExceeded))],
    &[(ASKED_EARLY, None)],
];

#[test]
fn an_opening_asks_and_confirms_four_times(rt: HostRuntime) -> Result<(), Fail> {
    each_goes(&rt, rt.alloc(), OPENINGS)
}

const BEHIND: &[Row] = &[
    (0, None, &[START]),
    (
        0,
        Some(Step::StartAck { offset: 1 }),
        &[Step::Completion(Status::OutOfRange)],
    ),
];

const FULL: &[Row] = &[
    (0, None, &[START]),
    (0, Some(AGREED), &[CONFIRMS]),
    (
        0,
        Some(Step::Completion(Status::ResourceExhausted)),
        &[KNOWN],
    ),
];

const CUT_OFF: &[Row] = &[
    (0, None, &[START]),
    (0, Some(Step::Closed(Status::Unavailable)), &[]),
];

const ENDS_OF_AN_OPENING: &[&[Phase]] = &[
    &[(BEHIND, Some(Status::OutOfRange))],
    &[(FULL, Some(Status::ResourceExhausted))],
    &[(CUT_OFF, Some(Status::Unavailable))],
];

#[test]
fn an_opening_ends(rt: HostRuntime) -> Result<(), Fail> {
    each_goes(&rt, rt.alloc(), ENDS_OF_AN_OPENING)
}
