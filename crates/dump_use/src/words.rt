//! Words that name methods, and what is told by them.
use super::rows::tells;
use std::alloc::{AllocError, Global};
use std::process::Abort;
use stream_dump::MethodNames;

// A REQUEST of Reboot of dev.Board.
const REBOOT: &[u8] =
    b"\x7E\xA5\x03\x10\x01\x1D\x5C\xD3\xDA\x7D\x5D\x25\x6B\x89\xD9\x1D\x2A\x01\x10\x38\x01\x2F\x55\x7B\xDC\x7E";

// Words, with a stroke between each two, and what they tell of the request.
const ROWS: &[(&str, &str)] = &[
    (
        "dev.Board/Reboot",
        "1 frame 82 24 request 1 dev.Board Reboot 1 payload 1 10\nframes 1 bad 0 other 0 dropped 0\n",
    ),
    (
        "demo.Demo/Reboot|dev.Board/Reboot|dev.Board/Halt",
        "1 frame 82 24 request 1 dev.Board Reboot 1 payload 1 10\nframes 1 bad 0 other 0 dropped 0\n",
    ),
    (
        "dev.Board/Halt",
        "1 frame 82 24 request 1 dev.Board 1dd9896b 1 payload 1 10\nframes 1 bad 0 other 0 dropped 0\n",
    ),
    (
        "dev.board/Reboot",
        "1 frame 82 24 request 1 7ddad35c 1dd9896b 1 payload 1 10\nframes 1 bad 0 other 0 dropped 0\n",
    ),
    (
        "B/_.9|z/Z",
        "1 frame 82 24 request 1 7ddad35c 1dd9896b 1 payload 1 10\nframes 1 bad 0 other 0 dropped 0\n",
    ),
];

// Words of which one names no method.
const OTHERS: &[&str] = &[
    "",
    "/",
    "dev.Board",
    "dev.Board/",
    "/Reboot",
    "dev.Board//Reboot",
    "dev.Board/Reboot/",
    "dev.Board/Re boot",
    "dev.Board /Reboot",
    "dev.Board/Reboot\n",
    "dev-Board/Reboot",
    "dev.Board/Réboot",
    "dev.Board/Reboot|",
    "|dev.Board/Reboot",
    "dev.Board/Reboot|Halt|dev.Board/Halt",
];

#[test]
fn words_name_methods(rt: HostRuntime) -> Result<(), AllocError> {
    for (row, text) in ROWS {
        row_tells(&rt, rt.alloc(), row, text)?;
    }
    Ok(())
}

fn row_tells(rt: &impl Abort, alloc: Global, row: &str, text: &str) -> Result<(), AllocError> {
    let words = words_of(alloc, row)?;
    let Some(names) = MethodNames::of(&words) else {
        is_so(rt, row, false);
        return Ok(());
    };
    tells(rt, alloc, names.as_slice(), REBOOT, text)
}

#[test]
fn other_words_name_none(rt: HostRuntime) -> Result<(), AllocError> {
    for row in OTHERS {
        names_none(&rt, rt.alloc(), row)?;
    }
    Ok(())
}

fn names_none(rt: &impl Abort, alloc: Global, row: &str) -> Result<(), AllocError> {
    let words = words_of(alloc, row)?;
    is_so(rt, row, MethodNames::of(&words).is_none());
    Ok(())
}

#[test]
fn at_most_64_words_name_methods(rt: HostRuntime) -> Result<(), AllocError> {
    counts(&rt, rt.alloc(), 0, true)?;
    counts(&rt, rt.alloc(), 64, true)?;
    counts(&rt, rt.alloc(), 65, false)
}

// Whether so many words name methods.
fn counts(rt: &impl Abort, alloc: Global, count: usize, wanted: bool) -> Result<(), AllocError> {
    let words = repeated(alloc, "dev.Board/Reboot", count)?;
    is_so(rt, "count", MethodNames::of(&words).is_some() == wanted);
    Ok(())
}

fn repeated(alloc: Global, word: &str, count: usize) -> Result<Vec<String>, AllocError> {
    let mut words = Vec::new(alloc);
    for _ in 0..count {
        words.push(String::from_str(alloc, word)?)?;
    }
    Ok(words)
}

// The words, with a stroke between each two.
fn words_of(alloc: Global, row: &str) -> Result<Vec<String>, AllocError> {
    let mut words = Vec::new(alloc);
    for word in row.split('|') {
        words.push(String::from_str(alloc, word)?)?;
    }
    Ok(words)
}

fn is_so(rt: &impl Abort, row: &str, fact: bool) {
    assert!(rt; fact, "{row}");
}
