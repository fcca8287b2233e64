// What a sender sends for the asks that come to it, and when it ends.
use bytes::Bytes;
use rpc_ids::Status;
use std::alloc::{AllocError, Global};
use std::process::Abort;
use std::test::Fail;
use transfer_base::Ask;
use transfer_sender::{Pieces, SenderCore};

// Where a piece begins, how many bytes it has, and whether it is the last.
type Part = (u64, usize, bool);

fn resource(alloc: Global, size: u16) -> Result<Bytes, AllocError> {
    let mut data = Vec::new(alloc);
    for i in 0..size {
        data.push((i % 251) as u8)?;
    }
    Bytes::copy_from_slice(alloc, data.as_slice())
}

fn sender_of(rt: &impl Abort, resource: &Bytes) -> Result<SenderCore, AllocError> {
    assert!(rt; resource.len() <= 16_777_216);
    Ok(SenderCore::new(resource.clone()?, 0, 0))
}

fn again(offset: u64, window_end: u64, max_chunk: u32) -> Ask {
    Ask {
        again: true,
        offset,
        window_end,
        max_chunk,
    }
}

fn go_on(window_end: u64, max_chunk: u32) -> Ask {
    Ask {
        again: false,
        offset: 0,
        window_end,
        max_chunk,
    }
}

// The answer at the moment 0, or none if the sender has ended.
fn answer(alloc: Global, sender: &mut SenderCore, ask: Ask) -> Result<Option<Pieces>, AllocError> {
    if sender.end().is_some() {
        return Ok(None);
    }
    Ok(Some(sender.params(alloc, ask, 0)?))
}

fn tick(sender: &mut SenderCore, now: u64) -> Option<Status> {
    if sender.end().is_some() {
        return None;
    }
    sender.tick(now)
}

// What a piece is: its offset, whether it is the last, and its bytes.
type Cut<'a> = (u64, bool, Option<&'a [u8]>);

fn is_piece(rt: &impl Abort, data: &[u8], piece: Cut<'_>, part: &Part, name: &str) {
    let (offset, size, last) = *part;
    let bytes = data
        .get(offset as usize..)
        .and_then(|rest| rest.get(..size));
    assert_eq!(rt; piece, (offset, last, bytes), "{name}, at {offset}");
}

fn are_parts(rt: &impl Abort, data: &[u8], pieces: &Pieces, parts: &[Part], name: &str) {
    assert_eq!(rt; pieces.as_slice().len(), parts.len(), "{name}");
    for (piece, part) in pieces.as_slice().iter().zip(parts) {
        let cut = (piece.offset, piece.last, Some(piece.bytes.as_slice()));
        is_piece(rt, data, cut, part, name);
    }
}

/// An ask: from an offset on, or from where the sender is, up to a window's end, in chunks of at most a size.
#[derive(Clone, Copy)]
enum Asked {
    Again(u64, u64, u32),
    GoOn(u64, u32),
}

fn ask_of(asked: Asked) -> Ask {
    match asked {
        Asked::Again(offset, window_end, max_chunk) => again(offset, window_end, max_chunk),
        Asked::GoOn(window_end, max_chunk) => go_on(window_end, max_chunk),
    }
}

// A name, an ask, and the parts that answer it.
type Row = (&'static str, Asked, &'static [Part]);

fn answers(
    rt: &impl Abort,
    alloc: Global,
    data: &[u8],
    sender: &mut SenderCore,
    row: &Row,
) -> Result<(), Fail> {
    let (name, asked, parts) = *row;
    let pieces = answer(alloc, sender, ask_of(asked))?.expect(rt, name);
    are_parts(rt, data, &pieces, parts, name);
    Ok(())
}

fn end_is(rt: &impl Abort, sender: &SenderCore, want: Option<Status>) {
    assert_eq!(rt; sender.end(), want);
}

const WHOLE: &[Part] = &[(0, 1024, false), (1024, 1024, false), (2048, 952, true)];

const WINDOWS: &[Row] = &[
    ("no chunk size", Asked::Again(0, 3_000, 0), WHOLE),
    ("the largest chunk", Asked::Again(0, 3_000, 1_024), WHOLE),
    ("a larger chunk", Asked::Again(0, 3_000, 1_025), WHOLE),
    (
        "a window past the end",
        Asked::Again(0, 9_000, 1_024),
        WHOLE,
    ),
    (
        "two chunks",
        Asked::Again(0, 512, 256),
        &[(0, 256, false), (256, 256, false)],
    ),
    (
        "part of a chunk",
        Asked::Again(0, 300, 256),
        &[(0, 256, false), (256, 44, false)],
    ),
    (
        "up to one byte before the end",
        Asked::Again(2_000, 2_999, 1_024),
        &[(2_000, 999, false)],
    ),
    (
        "up to the end",
        Asked::Again(2_000, 3_000, 1_000),
        &[(2_000, 1_000, true)],
    ),
    (
        "the last byte",
        Asked::Again(2_999, 9_000, 256),
        &[(2_999, 1, true)],
    ),
    (
        "at the end",
        Asked::Again(3_000, 9_000, 256),
        &[(3_000, 0, true)],
    ),
    ("no window", Asked::Again(500, 500, 256), &[]),
    ("a window behind", Asked::Again(500, 400, 256), &[]),
];

fn window_holds(rt: &impl Abort, alloc: Global, resource: &Bytes, row: &Row) -> Result<(), Fail> {
    let mut sender = sender_of(rt, resource)?;
    answers(rt, alloc, resource.as_slice(), &mut sender, row)?;
    end_is(rt, &sender, None);
    Ok(())
}

#[test]
fn parts_of_a_window(rt: HostRuntime) -> Result<(), Fail> {
    let resource = resource(rt.alloc(), 3_000)?;
    for row in WINDOWS {
        window_holds(&rt, rt.alloc(), &resource, row)?;
    }
    Ok(())
}

const COURSE: &[Row] = &[
    (
        "from the beginning",
        Asked::Again(0, 512, 256),
        &[(0, 256, false), (256, 256, false)],
    ),
    ("nothing new", Asked::GoOn(512, 256), &[]),
    (
        "the rest",
        Asked::GoOn(1_536, 256),
        &[(512, 256, false), (768, 232, true)],
    ),
    ("nothing behind the end", Asked::GoOn(2_048, 256), &[]),
    ("back", Asked::Again(768, 1_792, 256), &[(768, 232, true)]),
    (
        "back to the end",
        Asked::Again(1_000, 2_024, 256),
        &[(1_000, 0, true)],
    ),
];

const BEHIND_64: &[Row] = &[
    ("behind 64 pieces", Asked::GoOn(65, 1), &[(64, 1, false)]),
    ("past the end", Asked::Again(1_001, 2_025, 256), &[]),
];

#[test]
fn going_on_and_going_back(rt: HostRuntime) -> Result<(), Fail> {
    let resource = resource(rt.alloc(), 1_000)?;
    let mut sender = sender_of(&rt, &resource)?;
    for row in COURSE {
        answers(&rt, rt.alloc(), resource.as_slice(), &mut sender, row)?;
    }
    let many = answer(rt.alloc(), &mut sender, again(0, 1_000, 1))?.expect(&rt, "many");
    assert_eq!(rt; many.as_slice().len(), 64);
    for row in BEHIND_64 {
        answers(&rt, rt.alloc(), resource.as_slice(), &mut sender, row)?;
    }
    end_is(&rt, &sender, Some(Status::OutOfRange));
    Ok(())
}

fn ticks(rt: &impl Abort, sender: &mut SenderCore, now: u64, want: Option<Status>) {
    assert_eq!(rt; tick(sender, now), want, "at {now}");
}

// Nothing is over at these moments.
fn stays(rt: &impl Abort, sender: &mut SenderCore, moments: &[u64]) {
    for now in moments {
        ticks(rt, sender, *now, None);
    }
}

const UNTOUCHED: &[u64] = &[1_999, 2_000, 3_999, 4_000, 6_000, 8_000, 9_999];

const BEFORE_THE_TOUCH: &[u64] = &[2_000, 4_000, 6_000, 8_000];

const BEHIND_THE_TOUCH: &[u64] = &[10_999, 11_000, 13_000, 15_000, 17_000];

#[test]
fn ends_of_a_sender(rt: HostRuntime) -> Result<(), Fail> {
    let mut sender = SenderCore::new(Bytes::new(), 0, 0);
    let late = Some(Status::DeadlineExceeded);
    stays(&rt, &mut sender, UNTOUCHED);
    ticks(&rt, &mut sender, 10_000, late);
    sender.completion(Status::Okay);
    end_is(&rt, &sender, late);

    let mut touched = SenderCore::new(Bytes::new(), 0, 0);
    stays(&rt, &mut touched, BEFORE_THE_TOUCH);
    if touched.end().is_none() {
        touched.touch(9_000);
    }
    stays(&rt, &mut touched, BEHIND_THE_TOUCH);
    ticks(&rt, &mut touched.clone()?, 19_000, late);
    touched.completion(Status::Aborted);
    end_is(&rt, &touched, Some(Status::Aborted));
    Ok(())
}

fn deadline_is(rt: &impl Abort, sender: &SenderCore, want: u64) {
    assert_eq!(rt; sender.deadline(), want);
}

#[test]
fn a_deadline_is_two_seconds_behind_the_last_activity(rt: HostRuntime) {
    let mut sender = SenderCore::new(Bytes::new(), 0, 10);
    deadline_is(&rt, &sender, 2_010);
    sender.touch(u64::MAX - 1_999);
    deadline_is(&rt, &sender, u64::MAX);
}
