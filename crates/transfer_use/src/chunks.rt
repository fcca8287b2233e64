use proto_wire::Malformed;
use std::alloc::Global;
use std::process::Abort;
use transfer_chunk::{ChunkRef, ChunkType};

fn starting() -> ChunkRef<'static> {
    ChunkRef {
        ctype: Some(1),
        resource: Some(7),
        version: Some(2),
        desired: Some(1),
        ..ChunkRef::empty()
    }
}

fn last() -> ChunkRef<'static> {
    ChunkRef {
        bytes: b"hi",
        remaining: Some(0),
        ctype: Some(0),
        session: Some(1),
        ..ChunkRef::empty()
    }
}

fn retransmit() -> ChunkRef<'static> {
    ChunkRef {
        max_chunk: Some(256),
        offset: 768,
        window_end: 1_792,
        ctype: Some(2),
        session: Some(1),
        ..ChunkRef::empty()
    }
}

fn reads(rt: &impl Abort, bytes: &[u8], want: Result<ChunkRef<'_>, Malformed>) {
    assert_eq!(rt; ChunkRef::read(bytes), want, "{bytes:?}");
}

fn is_written(rt: &impl Abort, alloc: Global, chunk: ChunkRef<'_>, bytes: &[u8]) {
    let mut out = Vec::new(alloc);
    if chunk.write(&mut out).is_err() {
        panic!(rt; "no memory");
    }
    assert_eq!(rt; out.as_slice(), bytes);
    reads(rt, bytes, Ok(chunk));
}

const STARTING: &[u8] = &[0x50, 0x01, 0x58, 0x07, 0x68, 0x02, 0x70, 0x01];

const LAST: &[u8] = &[0x32, 0x02, 0x68, 0x69, 0x38, 0x00, 0x50, 0x00, 0x60, 0x01];

const RETRANSMIT: &[u8] = &[
    0x18, 0x80, 0x02, 0x28, 0x80, 0x06, 0x48, 0x80, 0x0e, 0x50, 0x02, 0x60, 0x01,
];

#[test]
fn chunks_are_written_and_read(rt: HostRuntime) {
    is_written(&rt, rt.alloc(), starting(), STARTING);
    is_written(&rt, rt.alloc(), last(), LAST);
    is_written(&rt, rt.alloc(), retransmit(), RETRANSMIT);
    is_written(&rt, rt.alloc(), ChunkRef::empty(), b"");
}

fn is_malformed(rt: &impl Abort, number: u8) {
    let wire = if number == 6 { 0 } else { 2 };
    let bytes = [0x50, 0x00, number.wrapping_mul(8).wrapping_add(wire), 0x00];
    reads(rt, &bytes, Err(Malformed { at: 2 }));
}

#[test]
fn a_field_of_a_wrong_wire_type_is_malformed(rt: HostRuntime) {
    for number in 1..16u8 {
        is_malformed(&rt, number);
    }
}

fn is_wide(rt: &impl Abort, number: u8) {
    // A varint of 2^32.
    let bytes = [number.wrapping_mul(8), 0x80, 0x80, 0x80, 0x80, 0x10];
    let wide = matches!(number, 5 | 7 | 10 | 15);
    // Field 6 is no number.
    assert_eq!(rt; ChunkRef::read(&bytes).is_ok(), wide, "field {number}");
}

#[test]
fn a_uint32_is_below_its_bound(rt: HostRuntime) {
    for number in 1..16u8 {
        is_wide(&rt, number);
    }
}

const TWICE: &[u8] = &[0x60, 0x01, 0x82, 0x01, 0x00, 0x60, 0x02];

const TWO_FAULTS: &[(&[u8], usize)] = &[
    (&[0x60, 0x01, 0x32, 0x05], 2),
    (&[0x62, 0x00, 0x32, 0x05], 0),
];

#[test]
fn the_last_of_a_field_counts_and_others_are_skipped(rt: HostRuntime) {
    let twice = ChunkRef {
        session: Some(2),
        ..ChunkRef::empty()
    };
    reads(&rt, TWICE, Ok(twice));
    // The first fault is told, also before one of the grammar.
    for (bytes, at) in TWO_FAULTS {
        reads(&rt, bytes, Err(Malformed { at: *at }));
    }
}

fn type_is(rt: &impl Abort, found: Option<ChunkType>, want: Option<ChunkType>) {
    assert_eq!(rt; found, want);
}

#[test]
fn types_have_their_numbers(rt: HostRuntime) {
    type_is(&rt, ChunkType::of(4), Some(ChunkType::Completion));
    type_is(&rt, ChunkType::of(8), None);
    assert_eq!(rt; ChunkType::StartAckConfirmation.number(), 7);
    type_is(&rt, ChunkRef::empty().chunk_type(), Some(ChunkType::Data));
    let unknown = ChunkRef {
        ctype: Some(9),
        ..ChunkRef::empty()
    };
    type_is(&rt, unknown.chunk_type(), None);
}
