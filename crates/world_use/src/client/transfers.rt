//! Reads and writes.

ghost use Rattle.link_world.specs.client.ClientSide.{Attends, ClientRests};
ghost use Rattle.link_world.specs.server.ServerSide.{ServerRests};

use super::desk::Begins::{Empty, Filled};
use super::desk::{Pair, begin, exchange};
use crate::checks::{count_is, end_is, is_so};
use link_script::{Command, Loss, ReportLine};
use link_world::client::{Speaker, Under};
use rpc_ids::Status;
use std::process::Abort;
use std::test::Fail;

// The transfer under way.
fn speaker(pair: &Pair) -> Option<&Speaker> {
    match &pair.under {
        Some(Under::Transferring(speaker)) => Some(speaker),
        _ => None,
    }
}

// The resource and the offset that a line tells of.
fn told(line: &ReportLine) -> Option<(u32, u64)> {
    match line {
        ReportLine::Read { resource, from, .. } | ReportLine::Write { resource, from, .. } => {
            Some((*resource, *from))
        }
        _ => None,
    }
}

// The transfer under way reads or writes, has ended OK, and tells of the first byte of resource 7.
fn moved(rt: &impl Abort, speaker: &Speaker, reads: bool) {
    is_so(rt, "it reads or writes", speaker.reads() == reads);
    end_is(rt, speaker.end(), Some(Status::Okay));
    tells(rt, &speaker.line(Status::Okay, 1_000), (7, 0));
}

// A line tells of this resource and offset.
fn tells(rt: &impl Abort, line: &ReportLine, wanted: (u32, u64)) {
    assert_eq!(rt; told(line), Some(wanted));
}

// What was read is so long.
fn is_read(rt: &impl Abort, pair: &Pair, wanted: u64) {
    match speaker(pair) {
        Some(speaker) => {
            moved(rt, speaker, true);
            let length = pair.client.length_read(speaker.session(), speaker.call());
            count_is(rt, "length", length, wanted);
        }
        None => is_so(rt, "no transfer is under way", false),
    }
}

#[test]
fn a_resource_is_read(rt: HostRuntime) -> Result<(), Fail> {
    let mut pair = begin(rt.alloc(), Empty, Filled, &[], &Command::Read(7, 0))?;
    exchange(&mut pair, 0)?;
    is_read(&rt, &pair, 1_000);
    count_is(&rt, "sessions", u64::from(pair.sessions), 1);
    let (_, store) = pair.client.into_parts();
    is_so(&rt, "it is stored", store.full(7).is_some());
    Ok(())
}

// The server has so many bytes of what was written.
fn is_written(rt: &impl Abort, pair: &Pair, wanted: u64) {
    match speaker(pair) {
        Some(speaker) => {
            moved(rt, speaker, false);
            is_committed(rt, pair, speaker.call(), wanted);
        }
        None => is_so(rt, "no transfer is under way", false),
    }
}

fn is_committed(rt: &impl Abort, pair: &Pair, call: u32, wanted: u64) {
    match pair.client.name(call) {
        Some(name) => length_is(rt, pair.server.committed(name, 1), wanted),
        None => is_so(rt, "the call has no name", false),
    }
}

fn length_is(rt: &impl Abort, length: Option<u64>, wanted: u64) {
    assert_eq!(rt; length, Some(wanted));
}

#[test]
fn a_resource_is_written(rt: HostRuntime) -> Result<(), Fail> {
    let mut pair = begin(rt.alloc(), Filled, Empty, &[], &Command::Write(7, 0))?;
    exchange(&mut pair, 0)?;
    is_written(&rt, &pair, 1_000);
    Ok(())
}

// The client lacks this resource.
fn lacks(rt: &impl Abort, under: &Option<Under>, wanted: u64) {
    match under {
        Some(Under::Lacking(resource)) => count_is(rt, "resource", u64::from(*resource), wanted),
        _ => is_so(rt, "the resource was there", false),
    }
}

#[test]
fn a_resource_that_is_not_there_is_not_written(rt: HostRuntime) -> Result<(), Fail> {
    let pair = begin(rt.alloc(), Empty, Empty, &[], &Command::Write(7, 0))?;
    lacks(&rt, &pair.under, 7);
    count_is(&rt, "frames", pair.wires.frames(), 0);
    count_is(&rt, "sessions", u64::from(pair.sessions), 0);
    Ok(())
}

const SECOND_LOST: &[(u32, Loss)] = &[(2, Loss::Lose)];

// A frame more goes out once the time has come, and all is read.
fn says_again(rt: &impl Abort, pair: &mut Pair) -> Result<(), Fail>
    requires rest { ClientRests pair.old.client }
    requires attends { Attends pair.old.client pair.old.under 0 }
    requires server { ServerRests pair.old.server }
{
    exchange(pair, 0)?;
    count_is(rt, "frames", pair.wires.frames(), 2);
    pair.client.settle(2_000, &mut pair.under, &mut pair.wires)?;
    count_is(rt, "frames", pair.wires.frames(), 3);
    exchange(pair, 2_000)?;
    count_is(rt, "length", pair.client.length_read(1, 0), 1_000);
    Ok(())
}

#[test]
fn a_start_that_is_lost_is_said_again(rt: HostRuntime) -> Result<(), Fail> {
    let mut pair = begin(rt.alloc(), Empty, Filled, SECOND_LOST, &Command::Read(7, 0))?;
    says_again(&rt, &mut pair)
}
