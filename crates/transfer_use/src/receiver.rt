// What comes to a receiver and what it answers, step by step.
use rpc_ids::Status;
use std::process::Abort;
use transfer_base::{Ask, Tuning};
use transfer_receiver::{Received, ReceiverCore, Ticked};

static DATA: [u8; 2048] = [7; 2048];

#[derive(Clone, Copy, Debug)]
enum Come {
    /// A piece at an offset, of so many bytes, that says that it is the last.
    Piece(u64, usize, bool),
    Tick(u64),
    Ack,
}

#[derive(Clone, Copy, Debug, PartialEq, Eq)]
enum Answer {
    Piece(Received),
    Tick(Ticked),
    /// Whether it has ended.
    Ack(bool),
    /// It had ended before, or the piece is longer than the data.
    NotHandedIn,
}

// Pieces come at the moment 0.
fn answer_to(receiver: &mut ReceiverCore, come: Come) -> Answer {
    if receiver.ended() {
        return Answer::NotHandedIn;
    }
    match come {
        Come::Piece(offset, size, last) => match DATA.get(..size) {
            Some(bytes) => Answer::Piece(receiver.piece(offset, bytes, last, 0)),
            None => Answer::NotHandedIn,
        },
        Come::Tick(now) => Answer::Tick(receiver.tick(now)),
        Come::Ack => {
            receiver.ack();
            Answer::Ack(receiver.ended())
        }
    }
}

fn ask(again: bool, offset: u64, window_end: u64, max_chunk: u32) -> Ask {
    Ask {
        again,
        offset,
        window_end,
        max_chunk,
    }
}

/// An answer, as a table of constants has it. An ask is an offset, a window's end and a chunk's size.
#[derive(Clone, Copy)]
enum Told {
    Kept,
    KeptAsking(u64, u64, u32),
    Again(u64, u64, u32),
    Ignored,
    Ends(Status),
    Quiet,
    Resend(u64, u64, u32),
    ResendEnd(Status),
    Over(Status),
    Acknowledged(bool),
    NotHandedIn,
}

fn received(told: Received) -> Answer {
    Answer::Piece(told)
}

fn answer_of(told: Told) -> Answer {
    match told {
        Told::Kept => received(Received::Kept(None)),
        Told::KeptAsking(at, to, size) => received(Received::Kept(Some(ask(false, at, to, size)))),
        Told::Again(at, to, size) => received(Received::Again(ask(true, at, to, size))),
        Told::Ignored => received(Received::Ignored),
        Told::Ends(status) => received(Received::Ends(status)),
        Told::Quiet => Answer::Tick(Ticked::Quiet),
        Told::Resend(at, to, size) => Answer::Tick(Ticked::Resend(ask(true, at, to, size))),
        Told::ResendEnd(status) => Answer::Tick(Ticked::ResendEnd(status)),
        Told::Over(status) => Answer::Tick(Ticked::Over(status)),
        Told::Acknowledged(ended) => Answer::Ack(ended),
        Told::NotHandedIn => Answer::NotHandedIn,
    }
}

// What comes, and its answer.
type Step = (Come, Told);

fn answers(rt: &impl Abort, receiver: &mut ReceiverCore, step: &Step, at: usize) {
    let (come, told) = *step;
    assert_eq!(rt; answer_to(receiver, come), answer_of(told), "step {at}");
}

fn follow(rt: &impl Abort, receiver: &mut ReceiverCore, steps: &[Step]) {
    for (at, step) in steps.iter().enumerate() {
        answers(rt, receiver, step, at);
    }
}

fn asks_first(rt: &impl Abort, receiver: &ReceiverCore, want: Ask) {
    assert_eq!(rt; receiver.first(), want);
}

// A receiver of windows of 4 chunks of 256 bytes, from the beginning.
fn four_by_256() -> ReceiverCore {
    ReceiverCore::new(
        0,
        Tuning {
            window: 4,
            chunk: 256,
        },
        0,
    )
}

#[test]
fn first_parameters(rt: HostRuntime) {
    asks_first(&rt, &four_by_256(), ask(true, 0, 1024, 256));
    let last = ReceiverCore::new(
        16_777_216,
        Tuning {
            window: 64,
            chunk: 1024,
        },
        0,
    );
    asks_first(&rt, &last, ask(true, 16_777_216, 16_842_752, 1024));
}

const ORDERS: &[Step] = &[
    (Come::Piece(0, 256, false), Told::Kept),
    (
        Come::Piece(256, 256, false),
        Told::KeptAsking(512, 2560, 256),
    ),
    (Come::Piece(768, 256, false), Told::Again(512, 1536, 256)),
    (Come::Piece(1024, 256, false), Told::Ignored),
    (Come::Piece(511, 256, false), Told::Ignored),
    (Come::Piece(512, 0, false), Told::Ignored),
    (Come::Piece(512, 1, false), Told::Kept),
    (Come::Piece(514, 1, false), Told::Again(513, 1025, 256)),
    (Come::Piece(513, 0, true), Told::Ends(Status::Okay)),
    (Come::Piece(513, 1, false), Told::Ignored),
];

#[test]
fn pieces_in_and_out_of_order(rt: HostRuntime) {
    follow(&rt, &mut four_by_256(), ORDERS);
}

const EMPTY_LAST: &[Step] = &[
    (Come::Piece(0, 256, false), Told::Kept),
    (
        Come::Piece(256, 256, false),
        Told::KeptAsking(512, 2560, 256),
    ),
    (Come::Piece(768, 256, false), Told::Again(512, 1536, 256)),
    (Come::Piece(1024, 256, false), Told::Ignored),
    (Come::Piece(512, 0, true), Told::Ends(Status::Okay)),
];

#[test]
fn an_empty_last_piece_ends_it(rt: HostRuntime) {
    follow(&rt, &mut four_by_256(), EMPTY_LAST);
}

// A name, where the receiver begins, how many chunks of which size its windows have, and the first step.
type Bound = (&'static str, u64, u32, u32, Step);

const BOUNDS: &[Bound] = &[
    (
        "up to the window's end",
        0,
        1,
        256,
        (Come::Piece(0, 256, false), Told::KeptAsking(256, 768, 256)),
    ),
    (
        "past the window's end",
        0,
        1,
        256,
        (Come::Piece(0, 257, false), Told::Ends(Status::Internal)),
    ),
    (
        "last, up to the window's end",
        0,
        1,
        256,
        (Come::Piece(0, 256, true), Told::Ends(Status::Okay)),
    ),
    (
        "up to the last offset",
        16_777_206,
        1,
        1024,
        (Come::Piece(16_777_206, 10, false), Told::Kept),
    ),
    (
        "past the last offset",
        16_777_206,
        1,
        1024,
        (
            Come::Piece(16_777_206, 11, false),
            Told::Ends(Status::OutOfRange),
        ),
    ),
    (
        "one byte before",
        10,
        1,
        256,
        (Come::Piece(9, 1, true), Told::Ignored),
    ),
    (
        "one byte behind",
        10,
        1,
        256,
        (Come::Piece(11, 1, true), Told::Again(10, 266, 256)),
    ),
    (
        "less than half",
        0,
        4,
        1,
        (Come::Piece(0, 1, false), Told::Kept),
    ),
    (
        "half",
        0,
        4,
        1,
        (Come::Piece(0, 2, false), Told::KeptAsking(2, 10, 1)),
    ),
];

fn bound_holds(rt: &impl Abort, bound: &Bound) {
    let (name, offset, window, chunk, (come, told)) = *bound;
    assert!(rt; offset <= 16_777_216, "{name}");
    assert!(rt; 1 <= window && window <= 64, "{name}");
    assert!(rt; 1 <= chunk && chunk <= 1_024, "{name}");
    let mut receiver = ReceiverCore::new(offset, Tuning { window, chunk }, 0);
    assert_eq!(rt; answer_to(&mut receiver, come), answer_of(told), "{name}");
}

#[test]
fn bounds_of_a_piece(rt: HostRuntime) {
    for bound in BOUNDS {
        bound_holds(&rt, bound);
    }
}

const SILENCE: &[Step] = &[
    (Come::Tick(2_000), Told::Resend(0, 512, 256)),
    (Come::Tick(4_000), Told::Resend(0, 256, 256)),
    (Come::Tick(6_000), Told::Resend(0, 256, 256)),
    (Come::Tick(8_000), Told::Over(Status::DeadlineExceeded)),
];

// Nothing comes at all.
#[test]
fn gives_up_without_a_piece(rt: HostRuntime) {
    follow(&rt, &mut four_by_256(), SILENCE);
}

const WINDOWS: &[Step] = &[
    (Come::Piece(0, 256, false), Told::Kept),
    (
        Come::Piece(256, 256, false),
        Told::KeptAsking(512, 2560, 256),
    ),
    (Come::Piece(768, 256, false), Told::Again(512, 1536, 256)),
    (Come::Piece(1024, 256, false), Told::Ignored),
    (Come::Piece(512, 256, false), Told::Kept),
    (
        Come::Piece(768, 256, false),
        Told::KeptAsking(1024, 2048, 256),
    ),
    (Come::Piece(1024, 256, false), Told::Kept),
    (
        Come::Piece(1280, 256, false),
        Told::KeptAsking(1536, 3584, 256),
    ),
];

// Of 2,560 bytes the piece at 512 is lost at first. The spans asked are 4, 8, 4, 4 and 8.
#[test]
fn a_window_grows_and_shrinks(rt: HostRuntime) {
    let mut receiver = four_by_256();
    asks_first(&rt, &receiver, ask(true, 0, 1024, 256));
    follow(&rt, &mut receiver, WINDOWS);
}

const WIDE: &[Step] = &[
    (Come::Piece(0, 20, false), Told::KeptAsking(20, 84, 1)),
    (Come::Piece(20, 32, false), Told::KeptAsking(52, 116, 1)),
];

#[test]
fn a_window_has_at_most_64_chunks(rt: HostRuntime) {
    let tuning = Tuning {
        window: 40,
        chunk: 1,
    };
    let mut receiver = ReceiverCore::new(0, tuning, 0);
    follow(&rt, &mut receiver, WIDE);
    assert_eq!(rt; receiver.deadline(), 2_000);
}

const RESENDS: &[Step] = &[
    (Come::Tick(1_999), Told::Quiet),
    (Come::Tick(2_000), Told::Resend(0, 512, 256)),
    (Come::Tick(3_999), Told::Quiet),
    (Come::Tick(4_000), Told::Resend(0, 256, 256)),
    (Come::Tick(6_000), Told::Resend(0, 256, 256)),
    // A kept piece gives all resends back, and a shrunk window stays. It came at the moment 0.
    (Come::Piece(0, 256, false), Told::KeptAsking(256, 512, 256)),
    (Come::Tick(2_000), Told::Resend(256, 512, 256)),
    (Come::Tick(4_000), Told::Resend(256, 512, 256)),
    (Come::Tick(6_000), Told::Resend(256, 512, 256)),
    (Come::Tick(8_000), Told::Over(Status::DeadlineExceeded)),
    (Come::Tick(10_000), Told::NotHandedIn),
];

#[test]
fn resends_of_parameters(rt: HostRuntime) {
    follow(&rt, &mut four_by_256(), RESENDS);
}

const RESENDS_OF_AN_END: &[Step] = &[
    (Come::Ack, Told::Acknowledged(false)),
    (Come::Tick(2_000), Told::Resend(0, 512, 256)),
    (Come::Piece(0, 3, true), Told::Ends(Status::Okay)),
    (Come::Tick(2_000), Told::ResendEnd(Status::Okay)),
    (Come::Tick(4_000), Told::ResendEnd(Status::Okay)),
    (Come::Tick(6_000), Told::ResendEnd(Status::Okay)),
    (Come::Tick(8_000), Told::Over(Status::Okay)),
    (Come::Tick(8_000), Told::NotHandedIn),
];

const AN_ACKNOWLEDGED_END: &[Step] = &[
    (Come::Piece(0, 1025, false), Told::Ends(Status::Internal)),
    (Come::Ack, Told::Acknowledged(true)),
];

#[test]
fn resends_of_an_end(rt: HostRuntime) {
    follow(&rt, &mut four_by_256(), RESENDS_OF_AN_END);
    follow(&rt, &mut four_by_256(), AN_ACKNOWLEDGED_END);
}
