//! Dumps of a frame of another service, with words that name its method, and of one of the demo service.

use super::checks::{status_is, told};
use super::{FIRST, Ran, run, run_on, unhex};
use link_io::MemSource;
use std::alloc::{AllocError, Global};
use std::process::Abort;

// A REQUEST of Reboot of dev.Board.
const REBOOT: &str = "7EA50310011D5CD3DA7D5D256B89D91D2A011038012F557BDC7E";

// The words, and what they tell of the two frames.
const ROWS: &[(&str, &str)] = &[
    (
        "dump",
        "1 frame 82 24 request 1 7ddad35c 1dd9896b 1 payload 1 10
27 frame 82 25 request 1 demo.Demo Echo 1 payload 3 616263
frames 2 bad 0 other 0 dropped 0
",
    ),
    (
        "dump dev.Board/Halt dev.Board/Reboot",
        "1 frame 82 24 request 1 dev.Board Reboot 1 payload 1 10
27 frame 82 25 request 1 demo.Demo Echo 1 payload 3 616263
frames 2 bad 0 other 0 dropped 0
",
    ),
];

fn two_frames(alloc: Global) -> Result<Vec<u8>, AllocError> {
    let mut content = unhex(alloc, REBOOT)?;
    content.extend_from_slice(&unhex(alloc, FIRST)?)?;
    Ok(content)
}

#[test]
fn words_name_methods(rt: HostRuntime) -> Result<(), AllocError> {
    for (row, text) in ROWS {
        row_tells(&rt, rt.alloc(), row, text)?;
    }
    Ok(())
}

fn row_tells(rt: &impl Abort, alloc: Global, row: &str, text: &str) -> Result<(), AllocError> {
    let ran = run(alloc, row, two_frames(alloc)?)?;
    told(rt, row, &ran, 0, text.as_bytes());
    Ok(())
}

#[test]
fn at_most_64_words_name_methods(rt: HostRuntime) -> Result<(), AllocError> {
    let most = named(rt.alloc(), 64)?;
    status_is(&rt, "64 words", most.status, 0);
    let more = named(rt.alloc(), 65)?;
    told(&rt, "65 words", &more, 2, b"");
    Ok(())
}

// A dump with so many words.
fn named(alloc: Global, count: usize) -> Result<Ran, AllocError> {
    let mut line = String::from_str(alloc, "dump")?;
    for _ in 0..count {
        line.push_str(" dev.Board/Reboot")?;
    }
    run(alloc, &line, two_frames(alloc)?)
}

#[test]
fn a_recording_that_fails_is_told_to_there(rt: HostRuntime) -> Result<(), AllocError> {
    let fails = Vec::from_slice(rt.alloc(), &[2])?;
    let mut input = MemSource::new(unhex(rt.alloc(), FIRST)?, fails);
    let ran = run_on(rt.alloc(), "dump", &mut input)?;
    let text = "1 frame 82 25 request 1 demo.Demo Echo 1 payload 3 616263
frames 1 bad 0 other 0 dropped 0
";
    told(&rt, "a fault", &ran, 3, text.as_bytes());
    Ok(())
}
