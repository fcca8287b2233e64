//! Reports that tell what went out call by call, and those of a connection.
ghost use Rattle.std.specs.Prelude.{◌≡◌};
ghost use Rattle.rpc_packet.specs.declared.packet_type.PacketType.TheVariants.{Request};

use super::{DEMO, Did, ECHO, NO_SEGMENT, empty_table, items, maker_of_nothing, run_ready, table};
use crate::checks::is_text;
use bytes::Bytes;
use demo_services::{DemoCall, DemoMaker};
use link_io::Why;
use rpc_calls::Calls;
use rpc_frames::Counts;
use rpc_journal::Item;
use rpc_packet::{CallName, Packet, PacketType};
use run_report::{connection_text, crew_text};
use std::alloc::{AllocError, Global};
use std::process::Abort;
use std::test::Fail;

// A call of Echo is asked for, with the payload `abc`.
fn asks(call: u32) -> Packet
    ensures ptype { result.ptype ≡ Request }
    ensures name { result.name ≡ record { channel = 1; service = DEMO; method = ECHO; call = call } }
{
    Packet {
        ptype: PacketType::Request,
        name: CallName {
            channel: 1,
            service: DEMO,
            method: ECHO,
            call,
        },
        payload: Bytes::from_static(b"abc"),
        status: 0,
    }
}

// A table with two calls that were asked for and not run.
fn table_with_two_calls(alloc: Global, maker: &DemoMaker) -> Result<Calls<DemoCall>, Fail> {
    let mut calls = table(alloc, maker)?;
    calls.arrive(0, &asks(1), maker)?;
    calls.arrive(0, &asks(2), maker)?;
    Ok(calls)
}

// The same, where nobody needs the maker.
fn two_asked(alloc: Global) -> Result<Calls<DemoCall>, Fail> {
    let maker = maker_of_nothing(alloc)?;
    table_with_two_calls(alloc, &maker)
}

const TWO_FRAMES: Counts = Counts {
    valid: 2,
    bad: 0,
    other: 0,
    dropped: 0,
};

// Runs the two calls of the table, and gives what went out, that of the second call first.
fn run_both(alloc: Global, calls: &mut Calls<DemoCall>) -> Result<Vec<Item>, Fail> {
    let mut first = run_ready(alloc, calls)?;
    let mut items = run_ready(alloc, calls)?;
    items.append(&mut first)?;
    Ok(items)
}

// A table has this report of a crew, where these items went out.
fn is_crew(
    rt: &impl Abort,
    alloc: Global,
    calls: &Calls<DemoCall>,
    items: &[Item],
    counts: Counts,
    why: Why,
    want: &str,
) -> Result<(), Fail> {
    let text = crew_text(alloc, counts, calls, items, why)?;
    is_text(rt, text.as_str(), want);
    Ok(())
}

// A table has this report of the connection with a number.
fn is_connection(
    rt: &impl Abort,
    alloc: Global,
    calls: &Calls<DemoCall>,
    number: u32,
    counts: Counts,
    why: Why,
    want: &str,
) -> Result<(), Fail> {
    let text = connection_text(alloc, number, counts, calls, why)?;
    is_text(rt, text.as_str(), want);
    Ok(())
}

#[test]
fn two_calls_are_told_by_number(rt: HostRuntime) -> Result<(), Fail> {
    let alloc = rt.alloc();
    let mut calls = two_asked(alloc)?;
    let items = run_both(alloc, &mut calls)?;
    is_crew(
        &rt,
        alloc,
        &calls,
        &items,
        TWO_FRAMES,
        Why::Settled,
        "frames 2 bad 0 other 0 dropped 0\n\
         call 0 1 70f45cfb 8b470ee9 1 unary OK\n\
         call 1 1 70f45cfb 8b470ee9 2 unary OK\n\
         out 0 7ea503080110011dfb5cf47025e90e478b2a0361626338019794283c7e\n\
         out 1 7ea503080110011dfb5cf47025e90e478b2a0361626338022dc521a57e\n\
         done\n",
    )
}

#[test]
fn a_connection_has_its_number_and_its_calls(rt: HostRuntime) -> Result<(), Fail> {
    let alloc = rt.alloc();
    let calls = two_asked(alloc)?;
    is_connection(
        &rt,
        alloc,
        &calls,
        7,
        TWO_FRAMES,
        Why::Settled,
        "conn 7\n\
         frames 2 bad 0 other 0 dropped 0\n\
         call 0 1 70f45cfb 8b470ee9 1 unary open\n\
         call 1 1 70f45cfb 8b470ee9 2 unary open\n\
         done\n",
    )
}

// The report of two calls that were not run, with these lines behind those of the calls.
fn with_lines(alloc: Global, lines: &str) -> Result<String, AllocError> {
    format!(in alloc;
        "frames 0 bad 0 other 0 dropped 0\n\
         call 0 1 70f45cfb 8b470ee9 1 unary open\n\
         call 1 1 70f45cfb 8b470ee9 2 unary open\n\
         {lines}"
    )
}

// These lines stand in it where this was done.
fn has_lines(rt: &impl Abort, alloc: Global, all: &[Did], lines: &str) -> Result<(), Fail> {
    let items = items(alloc, all)?;
    let report = with_lines(alloc, lines)?;
    let calls = two_asked(alloc)?;
    is_crew(
        rt,
        alloc,
        &calls,
        &items,
        NO_SEGMENT,
        Why::Memory,
        report.as_str(),
    )
}

const PACKETS: &[Did] = &[
    Did::Sent(1, b"abc"),
    Did::Replied,
    Did::Sent(0, b"abc"),
    Did::Sent(1, b"abc"),
    // The table has no such call.
    Did::Sent(2, b"abc"),
    Did::Replied,
];

#[test]
fn packets_are_told_by_call_behind_the_replies(rt: HostRuntime) -> Result<(), Fail> {
    has_lines(
        &rt,
        rt.alloc(),
        PACKETS,
        "out - 7ea503080110011dfb5cf47025e90e478b2a0361626338019794283c7e\n\
         out - 7ea503080110011dfb5cf47025e90e478b2a0361626338019794283c7e\n\
         out 0 7ea503080110011dfb5cf47025e90e478b2a0361626338019794283c7e\n\
         out 1 7ea503080110011dfb5cf47025e90e478b2a0361626338019794283c7e\n\
         out 1 7ea503080110011dfb5cf47025e90e478b2a0361626338019794283c7e\n",
    )
}

const UPLOADS: &[Did] = &[
    Did::Began(1, 1, 8, 0),
    Did::Began(0, 1, 7, 2),
    Did::Began(0, 2, 9, 0),
    Did::Added(1, 1),
    Did::Added(0, 2),
    Did::Added(0, 1),
    Did::Added(0, 1),
    Did::Made(1, 1),
    // It was begun by the other call alone.
    Did::Made(1, 2),
    Did::Made(0, 2),
    Did::Made(0, 1),
    Did::Made(0, 1),
];

#[test]
fn uploads_are_told_by_call_and_session(rt: HostRuntime) -> Result<(), Fail> {
    has_lines(
        &rt,
        rt.alloc(),
        UPLOADS,
        "stored 0 9 3\nstored 0 7 8\nstored 1 8 3\n",
    )
}

const A_CALL_IS_LEFT: &[Did] = &[
    Did::Began(0, 1, 7, 0),
    Did::Began(1, 1, 8, 0),
    Did::Began(1, 2, 9, 0),
    Did::LeftCall,
    Did::Left(1, 2),
    Did::Made(0, 1),
    Did::Made(1, 1),
    Did::Made(1, 2),
];

#[test]
fn a_call_that_is_left_ends_its_own_uploads(rt: HostRuntime) -> Result<(), Fail> {
    has_lines(&rt, rt.alloc(), A_CALL_IS_LEFT, "stored 1 8 0\n")
}

const REASONS: &[(Why, &str)] = &[
    (Why::Settled, "done\n"),
    (Why::Source, "source fault\n"),
    (Why::Sink, "sink fault\n"),
    (Why::Store, "store fault\n"),
    (Why::InputLimit, "limit input 67108864\n"),
    (Why::JournalLimit, "limit journal 1000000\n"),
];

// The last line of a crew's report over no call, where the session ended for this reason.
fn crew_ends(
    rt: &impl Abort,
    alloc: Global,
    calls: &Calls<DemoCall>,
    row: &(Why, &str),
) -> Result<(), Fail> {
    let (why, last) = *row;
    let report = format!(in alloc; "frames 0 bad 0 other 0 dropped 0\n{last}")?;
    is_crew(rt, alloc, calls, &[], NO_SEGMENT, why, report.as_str())
}

// The last line of the report of connection 1, in the same way.
fn connection_ends(
    rt: &impl Abort,
    alloc: Global,
    calls: &Calls<DemoCall>,
    row: &(Why, &str),
) -> Result<(), Fail> {
    let (why, last) = *row;
    let report = format!(in alloc; "conn 1\nframes 0 bad 0 other 0 dropped 0\n{last}")?;
    is_connection(rt, alloc, calls, 1, NO_SEGMENT, why, report.as_str())
}

#[test]
fn each_reason_has_its_last_line(rt: HostRuntime) -> Result<(), Fail> {
    let calls = empty_table(rt.alloc())?;
    for row in REASONS {
        crew_ends(&rt, rt.alloc(), &calls, row)?;
        connection_ends(&rt, rt.alloc(), &calls, row)?;
    }
    Ok(())
}

#[test]
fn want_of_memory_has_no_last_line(rt: HostRuntime) -> Result<(), Fail> {
    let alloc = rt.alloc();
    let calls = empty_table(alloc)?;
    is_crew(
        &rt,
        alloc,
        &calls,
        &[],
        NO_SEGMENT,
        Why::Memory,
        "frames 0 bad 0 other 0 dropped 0\n",
    )?;
    is_connection(
        &rt,
        alloc,
        &calls,
        1000,
        NO_SEGMENT,
        Why::Memory,
        "conn 1000\nframes 0 bad 0 other 0 dropped 0\n",
    )
}
