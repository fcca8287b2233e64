use crate::checks::{are_bytes, number_is};
use link_io::{Ending, Source, Taken, read_to_limit};
use link_script::next_number;
use load_stream::LoadSource;
use std::alloc::{AllocError, Global};
use std::process::Abort;

// More than any stream here.
const LIMIT: usize = 1 << 23;

fn taken(alloc: Global, calls: u32, seed: u64) -> Result<Taken, AllocError> {
    let mut source = LoadSource::new(alloc, calls, seed)?;
    read_to_limit(alloc, &mut source, LIMIT)
}

fn stream(alloc: Global, calls: u32, seed: u64) -> Result<Vec<u8>, AllocError> {
    Ok(taken(alloc, calls, seed)?.bytes)
}

// A number, and the one behind it.
const NEXT: &[(u64, u64)] = &[
    (0, 1_442_695_040_888_963_407),
    (1, 7_806_831_264_735_756_412),
    (7_806_831_264_735_756_412, 9_396_908_728_118_811_419),
    (u64::MAX, 13_525_302_890_751_722_018),
];

#[test]
fn the_generator_gives_the_numbers_of_its_law(rt: HostRuntime) {
    for &(x, next) in NEXT {
        number_is(&rt, next_number(x), next);
    }
}

#[test]
fn no_call_gives_no_byte(rt: HostRuntime) -> Result<(), AllocError> {
    let taken = taken(rt.alloc(), 0, 1)?;
    assert!(rt; taken.bytes.is_empty());
    assert_eq!(rt; taken.ending, Ending::AtEnd);
    Ok(())
}

// The expected bytes below are from a program in another language.

#[test]
fn one_call_is_one_echo_of_three_bytes(rt: HostRuntime) -> Result<(), AllocError> {
    let echo: &[u8] =
        b"\x7e\xa5\x03\x10\x01\x1d\xfb\x5c\xf4\x70\x25\xe9\x0e\x47\x8b\x2a\x03\x6c\x57\x6f\x38\x01\x45\xd8\xb1\x55\x7e";
    are_bytes(&rt, stream(rt.alloc(), 1, 1)?.as_slice(), echo);
    Ok(())
}

const FOUR_CALLS: &[&[u8]] = &[
    // Echo, whose first byte is escaped
    b"\x7e\xa5\x03\x10\x01\x1d\xfb\x5c\xf4\x70\x25\xe9\x0e\x47\x8b\x2a\x03\x7d\x5e\x43\x28\x38\x01\x2a\x47\x3f\xe5\x7e",
    // Count, to 64
    b"\x7e\xa5\x03\x10\x01\x1d\xfb\x5c\xf4\x70\x25\xb6\x13\x36\xb6\x2a\x01\x40\x38\x02\x98\x9b\xa1\x62\x7e",
    // Sum: REQUEST, three messages, the completion
    b"\x7e\xa5\x03\x10\x01\x1d\xfb\x5c\xf4\x70\x25\xb8\x0b\x57\x09\x38\x03\x47\xb1\x1f\x40\x7e",
    b"\x7e\xa5\x03\x08\x02\x10\x01\x1d\xfb\x5c\xf4\x70\x25\xb8\x0b\x57\x09\x2a\x01\xe8\x38\x03\xc1\x46\x1d\x1b\x7e",
    b"\x7e\xa5\x03\x08\x02\x10\x01\x1d\xfb\x5c\xf4\x70\x25\xb8\x0b\x57\x09\x2a\x01\x15\x38\x03\x42\xa6\x01\xa6\x7e",
    b"\x7e\xa5\x03\x08\x02\x10\x01\x1d\xfb\x5c\xf4\x70\x25\xb8\x0b\x57\x09\x2a\x01\x5a\x38\x03\xbf\x6c\xc7\xdd\x7e",
    b"\x7e\xa5\x03\x08\x08\x10\x01\x1d\xfb\x5c\xf4\x70\x25\xb8\x0b\x57\x09\x38\x03\xa3\x23\x8e\x13\x7e",
    // Chat, where an octet of a check sequence is escaped
    b"\x7e\xa5\x03\x10\x01\x1d\xfb\x5c\xf4\x70\x25\xbc\x81\xa9\x9b\x38\x04\xcb\xc3\x92\x26\x7e",
    b"\x7e\xa5\x03\x08\x02\x10\x01\x1d\xfb\x5c\xf4\x70\x25\xbc\x81\xa9\x9b\x2a\x01\x45\x38\x04\x83\x23\x21\xaf\x7e",
    b"\x7e\xa5\x03\x08\x02\x10\x01\x1d\xfb\x5c\xf4\x70\x25\xbc\x81\xa9\x9b\x2a\x01\xd2\x38\x04\xf6\x8d\x7d\x5d\x57\x7e",
    b"\x7e\xa5\x03\x08\x02\x10\x01\x1d\xfb\x5c\xf4\x70\x25\xbc\x81\xa9\x9b\x2a\x01\xb7\x38\x04\x3d\x84\x61\x19\x7e",
    b"\x7e\xa5\x03\x08\x08\x10\x01\x1d\xfb\x5c\xf4\x70\x25\xbc\x81\xa9\x9b\x38\x04\x2f\x51\x03\x75\x7e",
];

fn joined(alloc: Global, frames: &[&[u8]]) -> Result<Vec<u8>, AllocError> {
    let mut all = Vec::new(alloc);
    for frame in frames {
        all.extend_from_slice(frame)?;
    }
    Ok(all)
}

#[test]
fn the_four_methods_come_by_turns(rt: HostRuntime) -> Result<(), AllocError> {
    let expected = joined(rt.alloc(), FOUR_CALLS)?;
    are_bytes(
        &rt,
        stream(rt.alloc(), 4, 7)?.as_slice(),
        expected.as_slice(),
    );
    Ok(())
}

// One call more gives a longer stream that begins alike.
fn goes_on(rt: &impl Abort, alloc: Global, calls: u32) -> Result<(), AllocError> {
    let shorter = stream(alloc, calls, 3)?;
    let longer = stream(alloc, calls.saturating_add(1), 3)?;
    assert!(rt; longer.starts_with(&shorter), "{calls} calls");
    assert!(rt; shorter.len() < longer.len(), "{calls} calls");
    Ok(())
}

#[test]
fn streams_of_one_seed_begin_alike(rt: HostRuntime) -> Result<(), AllocError> {
    for calls in 0..9 {
        goes_on(&rt, rt.alloc(), calls)?;
    }
    Ok(())
}

// What so many reads of at most so many bytes give, 1 to 64.
fn read_by(alloc: Global, size: usize, reads: usize) -> Result<Vec<u8>, AllocError> {
    let mut source = LoadSource::new(alloc, 8, 7)?;
    let mut buffer = [0; 64];
    let mut joined = Vec::new(alloc);
    for _ in 0..reads {
        if let Ok(count) = source.read(&mut buffer[..size.clamp(1, 64)]) {
            joined.extend_from_slice(&buffer[..count])?;
        }
    }
    Ok(joined)
}

fn reads_alike(
    rt: &impl Abort,
    alloc: Global,
    whole: &[u8],
    size: usize,
) -> Result<(), AllocError> {
    let read = read_by(alloc, size, whole.len().saturating_add(1))?;
    assert_eq!(rt; read.as_slice(), whole, "{size} bytes a read");
    Ok(())
}

const SIZES: &[usize] = &[1, 2, 7, 27, 64];

#[test]
fn reads_of_any_size_give_the_same_bytes(rt: HostRuntime) -> Result<(), AllocError> {
    let whole = stream(rt.alloc(), 8, 7)?;
    for size in SIZES {
        reads_alike(&rt, rt.alloc(), &whole, *size)?;
    }
    Ok(())
}

#[test]
fn the_largest_stream_is_far_below_the_limit_of_an_input(
    rt: HostRuntime,
) -> Result<(), AllocError> {
    let bytes = stream(rt.alloc(), 30_000, 7)?;
    number_is(&rt, bytes.len() as u64, 2_429_646);
    Ok(())
}
