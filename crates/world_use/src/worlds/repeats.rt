//! Transfers of one resource that a script has more than once: each is told of its own session, with the bytes of its own time.

ghost use Rattle.std.specs.Prelude.{◌<◌, ◌^◌, length};

use super::desk::tells;
use link_io::MemStore;
use link_script::text::read_script;
use link_world::{Outcome, World};
use rpc_handlers::Out;
use rpc_journal::{EntryKind, Journal};
use std::alloc::{AllocError, Global};
use std::process::Abort;
use std::test::Fail;

// No script here is longer.
const TEXT_LIMIT: usize = 1_048_576;

/// The bytes of ten from the seeds 1 and 2.
const OF_SEED_1: &[u8] = &[108, 130, 165, 98, 203, 128, 141, 16, 214, 50];

const OF_SEED_2: &[u8] = &[196, 234, 176, 93, 53, 112, 7, 198, 50, 243];

/// What stands at both ends behind a run: the bytes of resource 7, and the sessions that made a resource whole, in order.
#[derive(Drop)]
struct Kept {
    server: Vec<u8>,
    client: Vec<u8>,
    server_commits: Vec<u32>,
    client_commits: Vec<u32>,
}

fn nothing(alloc: Global) -> Kept {
    Kept {
        server: Vec::new(alloc),
        client: Vec::new(alloc),
        server_commits: Vec::new(alloc),
        client_commits: Vec::new(alloc),
    }
}

// What stands behind the run of a script's text; nothing, where it has none.
fn left_by(alloc: Global, text: &str) -> Result<Kept, AllocError> {
    let text = text.as_bytes();
    if text.len() < TEXT_LIMIT {
        left_of(alloc, text)
    } else {
        Ok(nothing(alloc))
    }
}

fn left_of(alloc: Global, text: &[u8]) -> Result<Kept, AllocError>
    requires { length text.now < 2 ^ 20 }
{
    match read_script(alloc, text)? {
        Ok(script) => match World::new(alloc, script)?.run() {
            Ok(outcome) => found_in(alloc, &outcome),
            Err(_) => Ok(nothing(alloc)),
        },
        Err(_) => Ok(nothing(alloc)),
    }
}

fn found_in(alloc: Global, outcome: &Outcome) -> Result<Kept, AllocError> {
    Ok(Kept {
        server: resource(alloc, &outcome.server_store)?,
        client: resource(alloc, &outcome.client_store)?,
        server_commits: commits(alloc, &outcome.server)?,
        client_commits: commits(alloc, &outcome.client)?,
    })
}

// The bytes of resource 7.
fn resource(alloc: Global, store: &MemStore) -> Result<Vec<u8>, AllocError> {
    match store.full(7) {
        Some(bytes) => Vec::from_slice(alloc, bytes.as_slice()),
        None => Ok(Vec::new(alloc)),
    }
}

// The sessions of the Commits in a history.
fn commits(alloc: Global, journal: &Journal) -> Result<Vec<u32>, AllocError> {
    let mut sessions = Vec::new(alloc);
    for place in 0..journal.len() {
        if let Some(entry) = journal.get(place) {
            push_commits(&entry.kind, &mut sessions)?;
        }
    }
    Ok(sessions)
}

fn push_commits(kind: &EntryKind, sessions: &mut Vec<u32>) -> Result<(), AllocError> {
    match kind {
        EntryKind::Say(_, out) => push_commit(out, sessions),
        EntryKind::Finish(_, answer) => {
            for out in answer.items.as_slice() {
                push_commit(out, sessions)?;
            }
            Ok(())
        }
        _ => Ok(()),
    }
}

fn push_commit(out: &Out, sessions: &mut Vec<u32>) -> Result<(), AllocError> {
    if let Out::Commit { session } = out {
        sessions.push(*session)?;
    }
    Ok(())
}

fn bytes_are(rt: &impl Abort, script: &str, bytes: &Vec<u8>, wanted: &[u8]) {
    assert_eq!(rt; bytes.as_slice(), wanted, "{script}");
}

fn sessions_are(rt: &impl Abort, sessions: &Vec<u32>, wanted: &[u32]) {
    assert_eq!(rt; sessions.as_slice(), wanted);
}

// A script, and the bytes of resource 7 at the server and at the client behind it. The server reads out what it had at first.
const WRITES: &[(&str, &[u8], &[u8])] = &[
    (
        "server 7 10 2\nclient 7 10 1\nwrite 7 0\n",
        OF_SEED_1,
        OF_SEED_1,
    ),
    (
        "server 7 10 2\nclient 7 10 1\nwrite 7 0\nread 7 0\n",
        OF_SEED_1,
        OF_SEED_2,
    ),
    (
        "server 7 10 2\nclient 7 10 1\nwrite 7 0\nread 7 0\nwrite 7 0\n",
        OF_SEED_2,
        OF_SEED_2,
    ),
];

#[test]
fn each_write_has_the_bytes_of_its_start(rt: HostRuntime) -> Result<(), Fail> {
    for (script, server, client) in WRITES {
        let kept = left_by(rt.alloc(), script)?;
        bytes_are(&rt, script, &kept.server, server);
        bytes_are(&rt, script, &kept.client, client);
    }
    Ok(())
}

#[test]
fn two_writes_with_a_read_between(rt: HostRuntime) -> Result<(), Fail> {
    let script = "server 7 10 2\nclient 7 10 1\nwrite 7 0\nread 7 0\nwrite 7 0\n";
    let report =
        "write 7 0 OK 10\nread 7 0 OK 10\nwrite 7 0 OK 10\nframes 22 delivered 22\nchunks 20\nserver 7 10\nclient 7 10\n";
    tells(&rt, rt.alloc(), script, report)?;
    let kept = left_by(rt.alloc(), script)?;
    sessions_are(&rt, &kept.server_commits, &[1, 3]);
    sessions_are(&rt, &kept.client_commits, &[2]);
    Ok(())
}

#[test]
fn a_read_is_told_twice(rt: HostRuntime) -> Result<(), Fail> {
    let script = "server 7 10 1\nread 7 0\nread 7 0\n";
    let report =
        "read 7 0 OK 10\nread 7 0 OK 10\nframes 13 delivered 13\nchunks 12\nserver 7 10\nclient 7 10\n";
    tells(&rt, rt.alloc(), script, report)?;
    let kept = left_by(rt.alloc(), script)?;
    sessions_are(&rt, &kept.server_commits, &[]);
    sessions_are(&rt, &kept.client_commits, &[1, 2]);
    Ok(())
}

// A read over a link with one loss: it is stored once, as its first session.
fn is_read_once(rt: &impl Abort, alloc: Global, script: &str) -> Result<(), AllocError> {
    let kept = left_by(alloc, script)?;
    sessions_are(rt, &kept.server_commits, &[]);
    sessions_are(rt, &kept.client_commits, &[1]);
    Ok(())
}

#[test]
fn a_frame_that_comes_twice_or_late_is_stored_once(rt: HostRuntime) -> Result<(), Fail> {
    is_read_once(&rt, rt.alloc(), "server 7 1000 1\nrepeat 2\nread 7 0\n")?;
    is_read_once(&rt, rt.alloc(), "server 7 1000 1\nswap 5\nread 7 0\n")?;
    Ok(())
}
