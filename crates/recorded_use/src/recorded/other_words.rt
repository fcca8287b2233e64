//! Words that are no command.

use super::checks::is_so;
use super::{FIRST_REPORT, no_store, unhex};
use link_io::{MemSink, MemSource, Source};
use pw_run::{Command, run_recorded};
use std::alloc::{AllocError, Global};
use std::process::Abort;

// The words, with a stroke between each two.
const OTHERS: &[&str] = &[
    "",
    "replays",
    "Replay",
    "replay ",
    "raw",
    "journal",
    "replay|",
    "replay|loud",
    "replay|report",
    "replay|Raw",
    "replay|raw|raw",
    "replay|journal|journal",
    "raw|replay",
    "check|check",
    "Check",
    "detoken|detoken",
    "Detoken",
    "route|route",
    "Route",
    "link|link",
    "Link",
    "load",
    "load|1",
    "load|1|1|1",
    "loads|1|1",
    "load|01|1",
    "load|1|01",
    "load|+1|1",
    "load|1|-1",
    "load||1",
    "load|30001|1",
    "load|1|18446744073709551616",
    "Dump",
    "dump|",
    "dump|demo.Foo",
    "dump|demo.Foo/",
    "dump|/Bar",
    "dump|demo.Foo/Bar/",
    "dump|demo.Foo/B ar",
    "dump|demo.Foo/Bar|Bar",
];

#[test]
fn other_words_are_refused(rt: HostRuntime) -> Result<(), AllocError> {
    let alloc = rt.alloc();
    is_so(&rt, "no words", is_refused(alloc, &Vec::new(alloc))?);
    for &row in OTHERS {
        refuses(&rt, alloc, row)?;
    }
    Ok(())
}

fn refuses(rt: &impl Abort, alloc: Global, row: &str) -> Result<(), AllocError> {
    is_so(rt, row, is_refused(alloc, &words_of(alloc, row)?)?);
    Ok(())
}

// The words, with a stroke between each two.
fn words_of(alloc: Global, row: &str) -> Result<Vec<String>, AllocError> {
    let mut words = Vec::new(alloc);
    for word in row.split('|') {
        words.push(String::from_str(alloc, word)?)?;
    }
    Ok(words)
}

// Whether a run with these words ends with status 2, with nothing read and nothing written.
fn is_refused(alloc: Global, words: &[String]) -> Result<bool, AllocError> {
    let mut input = MemSource::new(unhex(alloc, "7E")?, Vec::new(alloc));
    let mut output = MemSink::new(
        Vec::from_slice(alloc, FIRST_REPORT.as_bytes())?,
        Vec::from_slice(alloc, &[1])?,
    );
    let status = run_recorded(alloc, words, &mut input, &mut output, &mut no_store(alloc)?);
    let is_unread = matches!(input.read(&mut [0]), Ok(1));
    Ok(status == 2 && is_unread && output.bytes() == FIRST_REPORT.as_bytes())
}

#[test]
fn the_longest_load_is_a_command(rt: HostRuntime) -> Result<(), AllocError> {
    let words = words_of(rt.alloc(), "load|30000|1")?;
    let is_longest = matches!(
        Command::of(&words),
        Some(Command::Load {
            calls: 30_000,
            seed: 1
        })
    );
    is_so(&rt, "load|30000|1", is_longest);
    Ok(())
}
