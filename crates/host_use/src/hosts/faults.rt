//! What ends a connection, and what ends the run.

use super::checks::{count_is, hosted, is_so, status_is, wrote};
use super::{REQUEST, RESPONSE, link, serve, words};
use link_io::{MemLinker, MemSink, MemSource};
use pw_run::LiveCommand;
use std::alloc::{AllocError, Global};
use std::process::Abort;
use std::sync::Wait;
use std::thread::Threads;

const THREE: &str = "conn 1
frames 1 bad 0 other 0 dropped 0
call 0 1 70f45cfb 8b470ee9 1 unary OK
source fault
conn 2
frames 1 bad 0 other 0 dropped 0
call 0 1 70f45cfb 8b470ee9 1 unary OK
sink fault
conn 3
frames 1 bad 0 other 0 dropped 0
call 0 1 70f45cfb 8b470ee9 1 unary OK
done
";

const SOURCE: &str = "conn 1
frames 1 bad 0 other 0 dropped 0
call 0 1 70f45cfb 8b470ee9 1 unary OK
source fault
";

const UNLISTED: &str = "conn 1
frames 1 bad 0 other 0 dropped 0
call 0 1 70f45cfb 8b470ee9 1 unary OK
source fault
conn 2
frames 0 bad 0 other 0 dropped 0
store fault
";

// A link whose second read fails, one whose first write fails, and one that is well; the linker's call with this number fails.
fn three_links(alloc: Global, failing_call: u64) -> Result<MemLinker, AllocError> {
    let mut links = Vec::new(alloc);
    links.push(link(alloc, REQUEST, 2, 0)?)?;
    links.push(link(alloc, REQUEST, 0, 1)?)?;
    links.push(link(alloc, REQUEST, 0, 0)?)?;
    MemLinker::new(alloc, links, Vec::from_slice(alloc, &[failing_call])?)
}

// The name of a run, the numbers of the calls of the linker, the output and the store that fail, the status, the lines that are
// written, and how many links are given back.
type Row = (&'static str, u64, u64, u64, u8, &'static str, usize);

const ROWS: &[Row] = &[
    ("no link is left", 0, 0, 0, 6, THREE, 3),
    ("no place to listen at", 1, 0, 0, 6, "", 0),
    ("the first accept fails", 2, 0, 0, 6, "", 0),
    ("the second accept fails", 3, 0, 0, 6, SOURCE, 1),
    ("the first write of the output fails", 0, 1, 0, 4, "", 1),
    (
        "the second write of the output fails",
        0,
        3,
        0,
        4,
        SOURCE,
        2,
    ),
    ("the store can't be listed again", 0, 0, 2, 5, UNLISTED, 2),
];

fn ends_so<R: Threads + Wait + Sync + Abort>(
    rt: &R,
    alloc: Global,
    row: &Row,
) -> Result<(), AllocError> {
    let &(name, linker, output, store, status, lines, back) = row;
    let net = three_links(alloc, linker)?;
    let run = serve(rt, alloc, "host p 1", net, output, store)?;
    hosted(rt, name, &run, status, lines, back);
    Ok(())
}

#[test]
fn the_linker_the_output_and_the_store_end_the_run(rt: HostRuntime) -> Result<(), AllocError> {
    for row in ROWS {
        ends_so(&rt, rt.alloc(), row)?;
    }
    Ok(())
}

#[test]
fn each_link_gets_its_answers(rt: HostRuntime) -> Result<(), AllocError> {
    let alloc = rt.alloc();
    let run = serve(&rt, alloc, "host p 3", three_links(alloc, 0)?, 0, 0)?;
    let gone = run.net.gone();
    count_is(&rt, "links", gone.len(), 3);
    is_answered(&rt, "the link whose read fails", gone.first(), RESPONSE);
    is_answered(&rt, "the link whose write fails", gone.get(1), b"");
    is_answered(&rt, "the link that is well", gone.get(2), RESPONSE);
    Ok(())
}

// A link that was given back has got this.
fn is_answered(rt: &impl Abort, row: &str, ends: Option<&(MemSource, MemSink)>, wanted: &[u8]) {
    match ends {
        Some((_, link_out)) => wrote(rt, row, link_out.bytes(), wanted),
        None => is_so(rt, row, false),
    }
}

#[test]
fn a_link_that_fails_ends_a_run_of_serve(rt: HostRuntime) -> Result<(), AllocError> {
    let alloc = rt.alloc();
    let run = serve(&rt, alloc, "serve p 1 3", three_links(alloc, 0)?, 0, 0)?;
    hosted(&rt, "serve", &run, 3, SOURCE, 1);
    Ok(())
}

const GOOD: &[(&str, u32)] = &[("host p 1", 1), ("host / 16", 16)];

const BAD: &[&str] = &[
    "host",
    "host p",
    "host p 0",
    "host p 17",
    "host p 01",
    "host p 4294967297",
    "host  1",
    "host p 1 1",
    "Host p 1",
    "hosts p 1",
];

#[test]
fn words_name_it(rt: HostRuntime) -> Result<(), AllocError> {
    for (line, workers) in GOOD {
        let words = words(rt.alloc(), line)?;
        let command = LiveCommand::of(&words);
        is_so(
            &rt,
            line,
            command == Some(LiveCommand::Host { workers: *workers }),
        );
    }
    Ok(())
}

#[test]
fn other_words_name_nothing(rt: HostRuntime) -> Result<(), AllocError> {
    for line in BAD {
        let net = three_links(rt.alloc(), 0)?;
        let run = serve(&rt, rt.alloc(), line, net, 0, 0)?;
        status_is(&rt, line, run.status, 2);
    }
    Ok(())
}
