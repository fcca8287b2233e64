// The sessions of one call: what each chunk, tick and end is answered with.
use bytes::Bytes;
use link_io::{Fulls, Lefts, Shelf};
use rpc_handlers::{Out, Outs};
use rpc_ids::Status;
use std::alloc::{AllocError, Global};
use std::process::Abort;
use std::test::Fail;
use transfer_chunk::{Ask, ChunkRef, Tuning};
use transfer_resume::{Sessions, Side};
use transfer_words::WordRef;

// Byte i is i modulo 251.
const DATA: &[u8] = &[
    0, 1, 2, 3, 4, 5, 6, 7, 8, 9, 10, 11, 12, 13, 14, 15, 16, 17, 18, 19, 20, 21, 22, 23, 24, 25,
    26, 27, 28, 29, 30, 31, 32, 33, 34, 35, 36, 37, 38, 39, 40, 41, 42, 43, 44, 45, 46, 47, 48, 49,
    50, 51, 52, 53, 54, 55, 56, 57, 58, 59, 60, 61, 62, 63, 64, 65, 66, 67, 68, 69, 70, 71, 72, 73,
    74, 75, 76, 77, 78, 79, 80, 81, 82, 83, 84, 85, 86, 87, 88, 89, 90, 91, 92, 93, 94, 95, 96, 97,
    98, 99, 100, 101, 102, 103, 104, 105, 106, 107, 108, 109, 110, 111, 112, 113, 114, 115, 116,
    117, 118, 119, 120, 121, 122, 123, 124, 125, 126, 127, 128, 129, 130, 131, 132, 133, 134, 135,
    136, 137, 138, 139, 140, 141, 142, 143, 144, 145, 146, 147, 148, 149, 150, 151, 152, 153, 154,
    155, 156, 157, 158, 159, 160, 161, 162, 163, 164, 165, 166, 167, 168, 169, 170, 171, 172, 173,
    174, 175, 176, 177, 178, 179, 180, 181, 182, 183, 184, 185, 186, 187, 188, 189, 190, 191, 192,
    193, 194, 195, 196, 197, 198, 199, 200, 201, 202, 203, 204, 205, 206, 207, 208, 209, 210, 211,
    212, 213, 214, 215, 216, 217, 218, 219, 220, 221, 222, 223, 224, 225, 226, 227, 228, 229, 230,
    231, 232, 233, 234, 235, 236, 237, 238, 239, 240, 241, 242, 243, 244, 245, 246, 247, 248, 249,
    250, 0, 1, 2, 3, 4,
];

// So many bytes of this kind. Byte 768 is the one that stands at 15 in `DATA`.
fn resource(alloc: Global, size: u16) -> Result<Bytes, AllocError> {
    let mut data = Vec::new(alloc);
    for i in 0..size {
        data.push((i % 251) as u8)?;
    }
    Bytes::copy_from_slice(alloc, data.as_slice())
}

// So many bytes from there on.
fn bytes_from(at: usize, size: usize) -> &'static [u8] {
    DATA.get(at..at.saturating_add(size)).unwrap_or(&[])
}

// What is to come out.
#[derive(Clone, Copy, Debug, PartialEq, Eq)]
enum Want {
    /// The session is agreed to, from this offset.
    Agreed(u64),
    /// It has ended so.
    Ended(Status),
    /// Its end is known.
    Known,
    /// What a receiver asks for: again or not, from an offset to a window's end.
    Asks(bool, u64, u64),
    /// The last part of the resource: its offset, which byte of `DATA` is the first, and how many bytes.
    Last(u64, usize, usize),
    Begin(u32, u64),
    /// So many bytes, the first of `DATA`.
    Append(usize),
    Commit,
    Leave,
}

// The word that is to come out, where it is one.
fn word_of(want: Want) -> Option<WordRef<'static>> {
    match want {
        Want::Agreed(offset) => Some(WordRef::StartAck { offset }),
        Want::Ended(status) => Some(WordRef::Completion(status)),
        Want::Known => Some(WordRef::CompletionAck),
        Want::Asks(again, offset, window_end) => Some(WordRef::Parameters(Ask {
            again,
            offset,
            window_end,
            max_chunk: 256,
        })),
        Want::Last(offset, at, size) => Some(WordRef::Data {
            offset,
            bytes: bytes_from(at, size),
            last: true,
        }),
        Want::Begin(..) | Want::Append(_) | Want::Commit | Want::Leave => None,
    }
}

// Whether the text says this of a session.
fn says(text: &[u8], session: u32, want: Want) -> bool {
    match ChunkRef::read(text) {
        Ok(chunk) => {
            let said = WordRef::of(&chunk);
            chunk.session == Some(session) && said.is_some() && said == word_of(want)
        }
        Err(_) => false,
    }
}

fn appends(bytes: &[u8], want: Want) -> bool {
    match want {
        Want::Append(size) => bytes.len() == size && bytes == bytes_from(0, size),
        _ => false,
    }
}

fn is_so(out: &Out, session: u32, want: Want) -> bool {
    match out {
        Out::Say(text) => says(text.as_slice(), session, want),
        Out::Begin {
            session: id,
            resource,
            offset,
        } => *id == session && want == Want::Begin(*resource, *offset),
        Out::Append { session: id, bytes } => *id == session && appends(bytes.as_slice(), want),
        Out::Commit { session: id } => *id == session && want == Want::Commit,
        Out::Leave { session: id } => *id == session && want == Want::Leave,
    }
}

fn are_so(answer: &Result<Outs, AllocError>, session: u32, wants: &[Want]) -> bool {
    let Ok(outs) = answer else {
        return false;
    };
    if outs.as_slice().len() != wants.len() {
        return false;
    }
    for (out, want) in outs.as_slice().iter().zip(wants) {
        if !is_so(out, session, *want) {
            return false;
        }
    }
    true
}

// A chunk that comes, by its session.
#[derive(Clone, Copy)]
enum Come {
    /// A start of a resource, from an offset.
    Start(u32, u32, u64),
    /// A start in an older version.
    OldStart(u32, u32),
    /// A chunk of this type that has its session alone.
    Plain(u64, u32),
    /// A part of a resource: its offset, how many bytes, and whether it is the last.
    Data(u32, u64, usize, bool),
    Completed(u32, Status),
    /// A confirmation that asks, from an offset to a window's end.
    Confirms(u32, u64, u32),
}

fn chunk_of(come: Come) -> ChunkRef<'static> {
    match come {
        Come::Start(id, resource, offset) => start(id, resource, offset),
        Come::OldStart(id, resource) => ChunkRef {
            version: Some(1),
            ..start(id, resource, 0)
        },
        Come::Plain(ctype, id) => plain(ctype, id),
        Come::Data(id, offset, size, last) => data(id, offset, size, last),
        Come::Completed(id, status) => completed(id, status),
        Come::Confirms(id, offset, window_end) => ChunkRef {
            offset,
            window_end,
            max_chunk: Some(256),
            ..plain(7, id)
        },
    }
}

fn start(id: u32, resource: u32, offset: u64) -> ChunkRef<'static> {
    ChunkRef {
        ctype: Some(1),
        resource: Some(resource),
        version: Some(2),
        desired: Some(id),
        initial: offset,
        ..ChunkRef::empty()
    }
}

// A chunk of this type that has its session alone.
fn plain(ctype: u64, id: u32) -> ChunkRef<'static> {
    ChunkRef {
        ctype: Some(ctype),
        session: Some(id),
        ..ChunkRef::empty()
    }
}

fn data(id: u32, offset: u64, size: usize, last: bool) -> ChunkRef<'static> {
    ChunkRef {
        offset,
        bytes: bytes_from(0, size),
        remaining: last.then_some(0),
        ..plain(0, id)
    }
}

fn completed(id: u32, status: Status) -> ChunkRef<'static> {
    ChunkRef {
        status: Some(status.number()),
        ..plain(4, id)
    }
}

// The session, what comes, and what comes out.
type Step = (u32, Come, &'static [Want]);

fn answers(rt: &impl Abort, sessions: &mut Sessions, step: &Step, at: usize) {
    let (id, come, wants) = *step;
    let answer = sessions.on_chunk(&chunk_of(come));
    assert!(rt; are_so(&answer, id, wants), "step {at}");
}

fn follow(rt: &impl Abort, sessions: &mut Sessions, steps: &[Step]) {
    for (at, step) in steps.iter().enumerate() {
        answers(rt, sessions, step, at);
    }
}

// A shelf with resource 7 of 1,000 bytes, and 300 bytes left of resource 5.
fn sessions_on(alloc: Global, side: Side) -> Result<Sessions, AllocError> {
    let mut full = Fulls::new(alloc);
    full.push((7, resource(alloc, 1_000)?))?;
    let mut left = Lefts::new(alloc);
    left.push((5, 300))?;
    let tuning = Tuning {
        window: 4,
        chunk: 256,
    };
    Sessions::new(alloc, side, Shelf { full, left }, tuning)
}

const OPENS_NOTHING: &[(&str, Step)] = &[
    (
        "past the end",
        (
            1,
            Come::Start(1, 7, 1_001),
            &[Want::Ended(Status::OutOfRange)],
        ),
    ),
    (
        "no such resource",
        (1, Come::Start(1, 8, 0), &[Want::Ended(Status::NotFound)]),
    ),
    (
        "an older version",
        (
            1,
            Come::OldStart(1, 7),
            &[Want::Ended(Status::Unimplemented)],
        ),
    ),
    ("no id", (1, Come::Start(0, 7, 0), &[])),
    ("an unknown type", (1, Come::Plain(8, 1), &[])),
    (
        "an unknown session",
        (
            1,
            Come::Data(1, 0, 1, true),
            &[Want::Ended(Status::FailedPrecondition)],
        ),
    ),
    (
        "parameters of an unknown session",
        (
            1,
            Come::Plain(2, 1),
            &[Want::Ended(Status::FailedPrecondition)],
        ),
    ),
    (
        "a START_ACK of an unknown session",
        (
            1,
            Come::Plain(6, 1),
            &[Want::Ended(Status::FailedPrecondition)],
        ),
    ),
    (
        "a confirmation of an unknown session",
        (
            1,
            Come::Plain(7, 1),
            &[Want::Ended(Status::FailedPrecondition)],
        ),
    ),
    (
        "the end of an unknown session is known",
        (1, Come::Plain(5, 1), &[]),
    ),
    (
        "an end of an unknown session",
        (1, Come::Completed(1, Status::Okay), &[Want::Known]),
    ),
];

fn opens_nothing(rt: &impl Abort, alloc: Global, name: &str, step: &Step) -> Result<(), Fail> {
    let mut sessions = sessions_on(alloc, Side::Read)?;
    let (id, come, wants) = *step;
    let answer = sessions.on_chunk(&chunk_of(come));
    assert!(rt; are_so(&answer, id, wants), "{name}");
    Ok(())
}

#[test]
fn starts_that_open_nothing(rt: HostRuntime) -> Result<(), Fail> {
    for (name, step) in OPENS_NOTHING {
        opens_nothing(&rt, rt.alloc(), name, step)?;
    }
    Ok(())
}

// A START of an older version: its version, the ids that it wants and of its session and of its transfer, and the id that is
// told of the end.
const OLDER: &[(Option<u32>, Option<u32>, Option<u32>, u32, u32)] = &[
    (Some(0), Some(5), Some(6), 9, 5),
    (Some(1), Some(0), Some(6), 9, 0),
    (Some(1), None, Some(6), 9, 6),
    (Some(1), None, None, 9, 9),
    (None, None, None, 9, 9),
    (None, Some(5), None, 0, 5),
];

fn is_unimplemented(
    rt: &impl Abort,
    sessions: &mut Sessions,
    row: &(Option<u32>, Option<u32>, Option<u32>, u32, u32),
) {
    let (version, desired, session, transfer_id, told) = *row;
    let chunk = ChunkRef {
        version,
        desired,
        session,
        transfer_id,
        ..start(0, 7, 0)
    };
    let answer = sessions.on_chunk(&chunk);
    assert!(rt; are_so(&answer, told, UNIMPLEMENTED), "told {told}");
}

const UNIMPLEMENTED: &[Want] = &[Want::Ended(Status::Unimplemented)];

#[test]
fn older_versions_are_refused_and_nothing_is_kept(rt: HostRuntime) -> Result<(), Fail> {
    let mut sessions = sessions_on(rt.alloc(), Side::Read)?;
    for row in OLDER {
        is_unimplemented(&rt, &mut sessions, row);
    }
    starts(&rt, &mut sessions, 5, OPENED);
    starts(&rt, &mut sessions, 6, OPENED);
    starts(&rt, &mut sessions, 9, OPENED);
    Ok(())
}

// The text that comes out, where it is one alone.
fn only_text(answer: &Result<Outs, AllocError>) -> Option<&[u8]> {
    match answer {
        Ok(outs) => match outs.as_slice() {
            [Out::Say(text)] => Some(text.as_slice()),
            _ => None,
        },
        Err(_) => None,
    }
}

fn says_bytes(rt: &impl Abort, answer: &Result<Outs, AllocError>, wanted: &[u8]) {
    assert!(rt; only_text(answer) == Some(wanted));
}

#[test]
fn a_later_version_is_answered_with_2(rt: HostRuntime) -> Result<(), Fail> {
    let mut sessions = sessions_on(rt.alloc(), Side::Read)?;
    let chunk = ChunkRef {
        version: Some(3),
        ..start(1, 7, 300)
    };
    let answer = sessions.on_chunk(&chunk);
    says_bytes(
        &rt,
        &answer,
        &[0x50, 0x06, 0x60, 0x01, 0x68, 0x02, 0x78, 0xac, 0x02],
    );
    Ok(())
}

const OF_RESOURCE_0: &[Want] = &[Want::Begin(0, 0), Want::Agreed(0)];

fn starts_without_a_resource(rt: &impl Abort, sessions: &mut Sessions) {
    let chunk = ChunkRef {
        resource: None,
        ..start(1, 0, 0)
    };
    let answer = sessions.on_chunk(&chunk);
    assert!(rt; are_so(&answer, 1, OF_RESOURCE_0));
}

#[test]
fn a_start_without_a_resource_is_of_resource_0(rt: HostRuntime) -> Result<(), Fail> {
    let mut sessions = sessions_on(rt.alloc(), Side::Write)?;
    starts_without_a_resource(&rt, &mut sessions);
    starts_from(&rt, &mut sessions, (1, 0, 0), OPENED);
    Ok(())
}

// So many zeros. The number stays out of what is known of them.
fn zeros(alloc: Global, length: usize) -> Result<Vec<u8>, AllocError> {
    vec![in alloc; 0; length]
}

// A shelf with resource 7 of so many bytes, and so many left of resource 5.
fn large_shelf(
    alloc: Global,
    side: Side,
    length: usize,
    left: u64,
) -> Result<Sessions, AllocError> {
    let mut full = Fulls::new(alloc);
    full.push((7, Bytes::copy_from_slice(alloc, &zeros(alloc, length)?)?))?;
    let mut lefts = Lefts::new(alloc);
    lefts.push((5, left))?;
    let tuning = Tuning {
        window: 4,
        chunk: 256,
    };
    Sessions::new(alloc, side, Shelf { full, left: lefts }, tuning)
}

const OUT_OF_RANGE: &[Want] = &[Want::Ended(Status::OutOfRange)];

#[test]
fn a_read_is_of_at_most_16_777_216_bytes(rt: HostRuntime) -> Result<(), Fail> {
    let mut most = large_shelf(rt.alloc(), Side::Read, 16_777_216, 0)?;
    starts(&rt, &mut most, 1, OPENED);
    let mut more = large_shelf(rt.alloc(), Side::Read, 16_777_217, 0)?;
    starts(&rt, &mut more, 1, OUT_OF_RANGE);
    Ok(())
}

const FROM_THE_MOST: &[Want] = &[Want::Begin(5, 16_777_216), Want::Agreed(16_777_216)];

#[test]
fn a_write_goes_on_from_at_most_16_777_216(rt: HostRuntime) -> Result<(), Fail> {
    let mut sessions = large_shelf(rt.alloc(), Side::Write, 0, 16_777_217)?;
    starts_from(
        &rt,
        &mut sessions,
        (1, 5, 9_223_372_036_854_775_808),
        FROM_THE_MOST,
    );
    Ok(())
}

const AFTER_AN_END: &[Step] = &[
    (1, Come::Start(1, 8, 0), &[Want::Ended(Status::NotFound)]),
    (1, Come::Plain(0, 1), &[Want::Ended(Status::NotFound)]),
    (1, Come::Plain(2, 1), &[Want::Ended(Status::NotFound)]),
    (1, Come::Plain(3, 1), &[Want::Ended(Status::NotFound)]),
    (1, Come::Plain(6, 1), &[Want::Ended(Status::NotFound)]),
    (1, Come::Plain(7, 1), &[Want::Ended(Status::NotFound)]),
    (1, Come::Plain(5, 1), &[]),
    (1, Come::Plain(8, 1), &[]),
    (1, Come::Completed(1, Status::Okay), &[Want::Known]),
    (
        1,
        Come::OldStart(1, 8),
        &[Want::Ended(Status::Unimplemented)],
    ),
    (1, Come::Start(1, 7, 0), &[Want::Ended(Status::NotFound)]),
];

#[test]
fn a_session_that_has_ended_tells_its_end(rt: HostRuntime) -> Result<(), Fail> {
    let mut sessions = sessions_on(rt.alloc(), Side::Read)?;
    follow(&rt, &mut sessions, AFTER_AN_END);
    Ok(())
}

const A_READ_THAT_OPENS: &[Step] = &[
    (1, Come::Start(1, 7, 0), &[Want::Agreed(0)]),
    (1, Come::Plain(0, 1), &[]),
    (1, Come::Plain(2, 1), &[]),
    (1, Come::Plain(3, 1), &[]),
    (1, Come::Plain(5, 1), &[]),
    (1, Come::Plain(6, 1), &[]),
    (1, Come::Plain(4, 1), &[Want::Known]),
    (1, Come::Start(1, 7, 0), &[Want::Ended(Status::Unknown)]),
];

const A_WRITE_THAT_OPENS: &[Step] = &[
    (
        1,
        Come::Start(1, 8, 0),
        &[Want::Begin(8, 0), Want::Agreed(0)],
    ),
    (1, Come::Data(1, 0, 3, true), &[]),
    (1, Come::Plain(2, 1), &[]),
    (1, Come::Plain(3, 1), &[]),
    (1, Come::Plain(5, 1), &[]),
    (1, Come::Plain(6, 1), &[]),
    (1, Come::Plain(7, 1), &[Want::Asks(true, 0, 1_024)]),
    (1, Come::Plain(7, 1), &[]),
    (1, Come::Plain(5, 1), &[]),
    (1, Come::Plain(4, 1), &[Want::Leave, Want::Known]),
    (1, Come::Start(1, 8, 0), &[Want::Ended(Status::Unknown)]),
];

#[test]
fn an_opening_waits_for_its_confirmation(rt: HostRuntime) -> Result<(), Fail> {
    let mut read = sessions_on(rt.alloc(), Side::Read)?;
    follow(&rt, &mut read, A_READ_THAT_OPENS);
    let mut write = sessions_on(rt.alloc(), Side::Write)?;
    follow(&rt, &mut write, A_WRITE_THAT_OPENS);
    Ok(())
}

const A_READ: &[Step] = &[
    (1, Come::Start(1, 7, 0), &[Want::Agreed(0)]),
    (1, Come::Start(1, 7, 0), &[Want::Agreed(0)]),
    (1, Come::Start(1, 8, 0), &[]),
    (
        1,
        Come::Confirms(1, 768, 1_792),
        &[Want::Last(768, 15, 232)],
    ),
    (1, Come::Start(1, 7, 0), &[]),
    (1, Come::Completed(1, Status::Okay), &[Want::Known]),
    (1, Come::Start(1, 7, 0), &[Want::Ended(Status::Okay)]),
];

#[test]
fn a_read(rt: HostRuntime) -> Result<(), Fail> {
    let mut sessions = sessions_on(rt.alloc(), Side::Read)?;
    follow(&rt, &mut sessions, A_READ);
    Ok(())
}

const A_WRITE: &[Step] = &[
    (
        1,
        Come::Start(1, 5, 400),
        &[Want::Begin(5, 300), Want::Agreed(300)],
    ),
    (1, Come::Plain(7, 1), &[Want::Asks(true, 300, 1_324)]),
    (1, Come::Data(1, 300, 256, false), &[Want::Append(256)]),
    (
        1,
        Come::Data(1, 556, 256, false),
        &[Want::Append(256), Want::Asks(false, 812, 2_860)],
    ),
    (
        1,
        Come::Data(1, 812, 100, true),
        &[Want::Append(100), Want::Commit, Want::Ended(Status::Okay)],
    ),
    (1, Come::Completed(1, Status::Cancelled), &[Want::Known]),
    (1, Come::Plain(5, 1), &[]),
    (1, Come::Start(1, 5, 400), &[Want::Ended(Status::Okay)]),
];

#[test]
fn a_write_that_is_resumed(rt: HostRuntime) -> Result<(), Fail> {
    let mut sessions = sessions_on(rt.alloc(), Side::Write)?;
    follow(&rt, &mut sessions, A_WRITE);
    Ok(())
}

const AN_OPENING: &[Step] = &[(
    1,
    Come::Start(1, 5, 400),
    &[Want::Begin(5, 300), Want::Agreed(300)],
)];

const AN_OPENING_AT_AN_END: &[Step] = &[(
    1,
    Come::Start(1, 5, 400),
    &[Want::Ended(Status::Cancelled)],
)];

const GIVES_UP: &[Want] = &[Want::Leave, Want::Ended(Status::DeadlineExceeded)];

const LEAVES: &[Want] = &[Want::Leave];

fn ticks(rt: &impl Abort, sessions: &mut Sessions, now: u64, wants: &[Want]) {
    assert!(rt; are_so(&sessions.on_tick(now), 1, wants), "at {now}");
}

#[test]
fn an_opening_gives_up_and_ends_with_its_call(rt: HostRuntime) -> Result<(), Fail> {
    let mut late = sessions_on(rt.alloc(), Side::Write)?;
    follow(&rt, &mut late, AN_OPENING);
    ticks(&rt, &mut late, 2_000, &[]);
    ticks(&rt, &mut late, 4_000, &[]);
    ticks(&rt, &mut late, 6_000, &[]);
    ticks(&rt, &mut late, 8_000, &[]);
    ticks(&rt, &mut late, 10_000, GIVES_UP);
    let mut cut = sessions_on(rt.alloc(), Side::Write)?;
    follow(&rt, &mut cut, AN_OPENING);
    assert!(rt; are_so(&cut.on_end(), 1, LEAVES));
    follow(&rt, &mut cut, AN_OPENING_AT_AN_END);
    Ok(())
}

const OPENED: &[Want] = &[Want::Agreed(0)];

const FULL: &[Want] = &[Want::Ended(Status::ResourceExhausted)];

fn starts(rt: &impl Abort, sessions: &mut Sessions, id: u32, wants: &'static [Want]) {
    answers(
        rt,
        sessions,
        &(id, Come::Start(id, 7, 0), wants),
        id as usize,
    );
}

// The session, its resource, and the offset that is asked.
fn starts_from(
    rt: &impl Abort,
    sessions: &mut Sessions,
    asked: (u32, u32, u64),
    wants: &'static [Want],
) {
    let (id, resource, offset) = asked;
    answers(
        rt,
        sessions,
        &(id, Come::Start(id, resource, offset), wants),
        0,
    );
}

#[test]
fn at_most_256_sessions(rt: HostRuntime) -> Result<(), Fail> {
    let mut sessions = sessions_on(rt.alloc(), Side::Read)?;
    for id in 1..257 {
        starts(&rt, &mut sessions, id, OPENED);
    }
    starts(&rt, &mut sessions, 257, FULL);
    starts(&rt, &mut sessions, 256, OPENED);
    Ok(())
}

const A_WRITE_THAT_HAS_ALL: &[Step] = &[
    (
        1,
        Come::Start(1, 8, 0),
        &[Want::Begin(8, 0), Want::Agreed(0)],
    ),
    (1, Come::Plain(7, 1), &[Want::Asks(true, 0, 1_024)]),
    (
        1,
        Come::Data(1, 0, 3, true),
        &[Want::Append(3), Want::Commit, Want::Ended(Status::Okay)],
    ),
];

const AFTER_A_WRITE: &[Step] = &[(1, Come::Start(1, 8, 0), &[Want::Ended(Status::Okay)])];

// One read that opens, and one whose pieces go out.
const TWO_READS: &[Step] = &[
    (1, Come::Start(1, 7, 0), &[Want::Agreed(0)]),
    (2, Come::Start(2, 7, 768), &[Want::Agreed(768)]),
    (
        2,
        Come::Confirms(2, 768, 1_792),
        &[Want::Last(768, 15, 232)],
    ),
];

const AFTER_TWO_READS: &[Step] = &[
    (1, Come::Start(1, 7, 0), &[Want::Ended(Status::Cancelled)]),
    (2, Come::Start(2, 7, 768), &[Want::Ended(Status::Cancelled)]),
];

fn ends_its_call(rt: &impl Abort, sessions: &mut Sessions, wants: &[Want]) {
    assert!(rt; are_so(&sessions.on_end(), 1, wants));
}

#[test]
fn a_write_that_has_all_ends_so_with_its_call(rt: HostRuntime) -> Result<(), Fail> {
    let mut sessions = sessions_on(rt.alloc(), Side::Write)?;
    follow(&rt, &mut sessions, A_WRITE_THAT_HAS_ALL);
    ends_its_call(&rt, &mut sessions, &[]);
    follow(&rt, &mut sessions, AFTER_A_WRITE);
    Ok(())
}

#[test]
fn reads_end_with_their_call(rt: HostRuntime) -> Result<(), Fail> {
    let mut sessions = sessions_on(rt.alloc(), Side::Read)?;
    follow(&rt, &mut sessions, TWO_READS);
    ends_its_call(&rt, &mut sessions, &[]);
    follow(&rt, &mut sessions, AFTER_TWO_READS);
    Ok(())
}

const OPENED_2_THEN_1: &[Step] = &[
    (
        2,
        Come::Start(2, 8, 0),
        &[Want::Begin(8, 0), Want::Agreed(0)],
    ),
    (
        1,
        Come::Start(1, 9, 0),
        &[Want::Begin(9, 0), Want::Agreed(0)],
    ),
    (2, Come::Plain(7, 2), &[Want::Asks(true, 0, 1_024)]),
    (1, Come::Plain(7, 1), &[Want::Asks(true, 0, 1_024)]),
];

// Whether session 1 says this alone, and session 2 the same behind it.
fn first_and_second(answer: &Result<Outs, AllocError>, want: Want) -> bool {
    match answer {
        Ok(outs) => match outs.as_slice() {
            [first, second] => is_so(first, 1, want) && is_so(second, 2, want),
            _ => false,
        },
        Err(_) => false,
    }
}

fn both_say(rt: &impl Abort, answer: &Result<Outs, AllocError>, want: Want) {
    assert!(rt; first_and_second(answer, want));
}

#[test]
fn sessions_are_told_by_rising_id(rt: HostRuntime) -> Result<(), Fail> {
    let mut sessions = sessions_on(rt.alloc(), Side::Write)?;
    follow(&rt, &mut sessions, OPENED_2_THEN_1);
    let answer = sessions.on_tick(2_000);
    both_say(&rt, &answer, Want::Asks(true, 0, 512));
    let answer = sessions.on_end();
    both_say(&rt, &answer, Want::Leave);
    Ok(())
}

const A_READ_THAT_SENDS: &[Step] = &[
    (1, Come::Start(1, 7, 768), &[Want::Agreed(768)]),
    (
        1,
        Come::Confirms(1, 768, 1_792),
        &[Want::Last(768, 15, 232)],
    ),
];

const LATE: &[Want] = &[Want::Ended(Status::DeadlineExceeded)];

#[test]
fn a_read_that_hears_nothing_gives_up(rt: HostRuntime) -> Result<(), Fail> {
    let mut sessions = sessions_on(rt.alloc(), Side::Read)?;
    follow(&rt, &mut sessions, A_READ_THAT_SENDS);
    ticks(&rt, &mut sessions, 2_000, &[]);
    ticks(&rt, &mut sessions, 4_000, &[]);
    ticks(&rt, &mut sessions, 6_000, &[]);
    ticks(&rt, &mut sessions, 8_000, &[]);
    ticks(&rt, &mut sessions, 10_000, LATE);
    Ok(())
}

const TWO: &[Step] = &[
    (
        2,
        Come::Start(2, 8, 0),
        &[Want::Begin(8, 0), Want::Agreed(0)],
    ),
    (
        1,
        Come::Start(1, 9, 0),
        &[Want::Begin(9, 0), Want::Agreed(0)],
    ),
    (1, Come::Plain(7, 1), &[Want::Asks(true, 0, 1_024)]),
    (2, Come::Plain(7, 2), &[Want::Asks(true, 0, 1_024)]),
    (1, Come::Data(1, 0, 3, false), &[Want::Append(3)]),
    (
        2,
        Come::Data(2, 0, 5, true),
        &[Want::Append(5), Want::Commit, Want::Ended(Status::Okay)],
    ),
    (
        1,
        Come::Completed(1, Status::Cancelled),
        &[Want::Leave, Want::Known],
    ),
];

#[test]
fn two_sessions_at_once(rt: HostRuntime) -> Result<(), Fail> {
    let mut sessions = sessions_on(rt.alloc(), Side::Write)?;
    follow(&rt, &mut sessions, TWO);
    Ok(())
}
