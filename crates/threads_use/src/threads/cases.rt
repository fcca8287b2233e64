//! Commands over devices in memory, case by case: what a command is given, and what is asked behind it.
ghost use Rattle.std.specs.Prelude.{IfOk};
ghost use Rattle.link_io.specs.LinkDevice.{IsUnused};

use super::checks::{count_is, is_so, status_is, wrote};
use super::{joined, run_over};
use link_io::{MemLinker, MemSink, MemSource, MemStore};
use rpc_crew::Free;
use std::alloc::{AllocError, Global};
use std::process::Abort;
use std::sync::Wait;
use std::thread::Threads;

/// A command, the devices that it is given, and what is asked behind it.
pub(super) type Case = (&'static str, Given, &'static [Asked]);

/// The devices that a command is given. The call of a device that has this number fails, and none does where it is 0.
#[derive(Clone, Copy)]
pub(super) struct Given {
    /// What comes in, part by part.
    pub input: &'static [&'static [u8]],
    pub failing_read: u64,
    pub failing_write: u64,
    /// The store has no resource.
    pub failing_store_call: u64,
    pub links: Links,
    pub failing_linker_call: u64,
}

/// Devices that don't fail, without input and without a link.
pub(super) const CALM: Given = Given {
    input: &[],
    failing_read: 0,
    failing_write: 0,
    failing_store_call: 0,
    links: Links::NoLink,
    failing_linker_call: 0,
};

/// What comes over a link, and the numbers of its reads and of its writes that fail.
pub(super) type Comes = (&'static [u8], u64, u64);

/// The links that a linker hands out.
#[derive(Clone, Copy)]
pub(super) enum Links {
    NoLink,
    One(Comes),
    Two(Comes, Comes),
}

/// What is asked behind a run.
#[derive(Clone, Copy)]
pub(super) enum Asked {
    /// The command ended with this status.
    Ends(u8),
    /// It wrote just these bytes.
    Writes(&'static [u8]),
    /// What it wrote begins so.
    WritesFirst(&'static [u8]),
    /// What it wrote ends so.
    WritesLast(&'static [u8]),
    /// So many links were given back.
    GivesBack(usize),
    /// Just these bytes were written over the link that was given back at this place, from 0.
    Answers(usize, &'static [u8]),
    /// The store has these bytes of resource 7.
    Stores(&'static [u8]),
    /// A byte of the input is left.
    LeavesInput,
}

/// The status of a command, and its devices behind it.
pub(super) struct Ran {
    pub status: u8,
    pub output: MemSink,
    pub store: MemStore,
    pub net: MemLinker,
    /// The input has a byte more.
    pub is_input_left: bool,
}

impl Drop for Ran {
    fn drop(self) {
        let Self {
            status: _,
            output: _,
            store: _,
            net: _,
            is_input_left: _,
        } = self;
    }
}

impl Ran {
    // Just these bytes were written over the link that was given back at this place.
    fn has_answered(&self, place: usize, wanted: &[u8]) -> bool {
        match self.net.gone().get(place) {
            Some(ends) => ends.1.bytes() == wanted,
            None => false,
        }
    }

    // The store has these bytes of resource 7.
    fn has_stored(&self, wanted: &[u8]) -> bool {
        match self.store.full(7) {
            Some(bytes) => bytes.as_slice() == wanted,
            None => false,
        }
    }
}

// One answer, which the failing assertion names by the numbers of its case and of its step.
fn ask(rt: &impl Abort, case: usize, step: usize, ran: &Ran, asked: Asked) {
    let output = ran.output.bytes();
    match asked {
        Asked::Ends(status) => status_is(rt, case, step, ran.status, status),
        Asked::Writes(wanted) => wrote(rt, case, step, output, wanted),
        Asked::WritesFirst(first) => is_so(rt, case, step, output.starts_with(first)),
        Asked::WritesLast(last) => is_so(rt, case, step, output.ends_with(last)),
        Asked::GivesBack(count) => count_is(rt, case, step, ran.net.gone().len(), count),
        Asked::Answers(place, wanted) => { is_so(rt, case, step, ran.has_answered(place, wanted)) }
        Asked::Stores(wanted) => is_so(rt, case, step, ran.has_stored(wanted)),
        Asked::LeavesInput => is_so(rt, case, step, ran.is_input_left),
    }
}

/// All that is asked behind a run is so.
pub(super) fn ask_all(rt: &impl Abort, case: usize, ran: &Ran, asked: &[Asked]) {
    for (step, each) in asked.iter().enumerate() {
        ask(rt, case, step, ran, *each);
    }
}

/// The linker of a command's links, whose call with this number fails.
pub(super) fn linker(alloc: Global, given: &Given) -> Result<MemLinker, AllocError> {
    let fails = Vec::from_slice(alloc, &[given.failing_linker_call])?;
    match given.links {
        Links::NoLink => MemLinker::new(alloc, Vec::new(alloc), fails),
        Links::One(comes) => one_link(alloc, comes, fails),
        Links::Two(left, right) => two_links(alloc, left, right, fails),
    }
}

fn ends(alloc: Global, comes: Comes) -> Result<(MemSource, MemSink), AllocError>
    ensures { IfOk result IsUnused }
{
    let (content, read, write) = comes;
    Ok((
        MemSource::new(
            Vec::from_slice(alloc, content)?,
            Vec::from_slice(alloc, &[read])?,
        ),
        MemSink::new(Vec::new(alloc), Vec::from_slice(alloc, &[write])?),
    ))
}

fn one_link(alloc: Global, comes: Comes, fails: Vec<u64>) -> Result<MemLinker, AllocError> {
    let mut links = Vec::new(alloc);
    links.push(ends(alloc, comes)?)?;
    MemLinker::new(alloc, links, fails)
}

fn two_links(
    alloc: Global,
    left: Comes,
    right: Comes,
    fails: Vec<u64>,
) -> Result<MemLinker, AllocError> {
    let mut links = Vec::new(alloc);
    links.push(ends(alloc, left)?)?;
    links.push(ends(alloc, right)?)?;
    MemLinker::new(alloc, links, fails)
}

// Runs the command of a case over the devices that it is given, without a gate.
fn run_given<R: Threads + Wait + Sync>(
    rt: &R,
    alloc: Global,
    line: &str,
    given: &Given,
) -> Result<Ran, AllocError> {
    let mut input = MemSource::new(
        joined(alloc, given.input)?,
        Vec::from_slice(alloc, &[given.failing_read])?,
    );
    run_over(rt, alloc, line, &mut input, given, &Free)
}

fn ends_so<R: Threads + Wait + Sync + Abort>(
    rt: &R,
    alloc: Global,
    number: usize,
    case: &Case,
) -> Result<(), AllocError> {
    let (line, ref given, asked) = *case;
    let ran = run_given(rt, alloc, line, given)?;
    ask_all(rt, number, &ran, asked);
    Ok(())
}

/// Each command ends as its case says.
pub(super) fn each_ends_so<R: Threads + Wait + Sync + Abort>(
    rt: &R,
    alloc: Global,
    cases: &[Case],
) -> Result<(), AllocError> {
    for (number, case) in cases.iter().enumerate() {
        ends_so(rt, alloc, number, case)?;
    }
    Ok(())
}
