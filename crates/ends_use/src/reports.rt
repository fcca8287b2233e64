//! Texts of runs that are small enough to read.
ghost use Rattle.std.specs.Prelude.{◌≡◌, ◌≢◌, [], IfOk};
ghost use Rattle.rpc_ids.specs.declared.method.Role.TheVariants.{Server};

mod by_calls;

use crate::checks::{are_bytes, is_text};
use bytes::Bytes;
use demo_services::{DemoCall, DemoMaker, demo_registry};
use link_io::{Fulls, Lefts, Shelf, Why};
use rpc_calls::Calls;
use rpc_channel::Channels;
use rpc_frames::Counts;
use rpc_handlers::{Handler, Maker, Out};
use rpc_ids::{Role, Status};
use rpc_journal::{Act, Item};
use rpc_packet::{CallName, Packet, PacketType};
use rpc_schedule::Ending;
use run_report::{LiveLine, call_text, frame_bytes, live_line, live_text, load_text, report_text};
use std::alloc::Global;
use std::process::Abort;
use std::test::Fail;
use transfer_chunk::Tuning;

const DEMO: u32 = 0x70F4_5CFB;

const ECHO: u32 = 0x8B47_0EE9;

const COUNT: u32 = 0xB636_13B6;

const SUM: u32 = 0x0957_0BB8;

const CHAT: u32 = 0x9BA9_81BC;

// The frame of the RESPONSE to a call of Echo: channel 1, call 1, payload `abc`, status OK.
const RESPONSE_FRAME: [u8; 29] = [
    0x7E, 0xA5, 0x03, 0x08, 0x01, 0x10, 0x01, 0x1D, 0xFB, 0x5C, 0xF4, 0x70, 0x25, 0xE9, 0x0E, 0x47,
    0x8B, 0x2A, 0x03, 0x61, 0x62, 0x63, 0x38, 0x01, 0x97, 0x94, 0x28, 0x3C, 0x7E,
];

const NO_SEGMENT: Counts = Counts {
    valid: 0,
    bad: 0,
    other: 0,
    dropped: 0,
};

const ONE_FRAME: Counts = Counts {
    valid: 1,
    bad: 0,
    other: 0,
    dropped: 0,
};

fn name_of(method: u32) -> CallName
    ensures { result ≡ record { channel = 1; service = DEMO; method = method; call = 1 } }
{
    CallName {
        channel: 1,
        service: DEMO,
        method,
        call: 1,
    }
}

// A maker of calls over no resource.
fn maker_of_nothing(alloc: Global) -> Result<DemoMaker, Fail> {
    let shelf = Shelf {
        full: Fulls::new(alloc),
        left: Lefts::new(alloc),
    };
    let tuning = Tuning {
        window: 4,
        chunk: 256,
    };
    Ok(DemoMaker::new(alloc, shelf, tuning)?)
}

// A table of the demo service, with channel 1 and no call.
fn table(alloc: Global, maker: &DemoMaker) -> Result<Calls<DemoCall>, Fail>
    ensures role { IfOk result (λ t. t.setting.role ≡ Server) }
    ensures seed { IfOk result (λ t. t.setting.seed ≡ ⟦<DemoMaker as Maker>⟧.seed_memo maker.now) }
    ensures entries { IfOk result (λ t. t.entries ≡ []) }
{
    let mut channels = Channels::new(alloc);
    channels.add(1)?;
    let registry = demo_registry(alloc)?;
    let calls = Calls::new(alloc, Role::Server, channels, registry, maker.seed()?)?;
    Ok(calls)
}

// The same, where nobody needs the maker.
fn empty_table(alloc: Global) -> Result<Calls<DemoCall>, Fail> {
    let maker = maker_of_nothing(alloc)?;
    table(alloc, &maker)
}

// A table with one call, of this method. It was asked for with the payload `abc`, and not run.
fn table_with_call(alloc: Global, maker: &DemoMaker, method: u32) -> Result<Calls<DemoCall>, Fail>
    requires { method ≢ 0 }
{
    let mut calls = table(alloc, maker)?;
    let request = Packet {
        ptype: PacketType::Request,
        name: name_of(method),
        payload: Bytes::from_static(b"abc"),
        status: 0,
    };
    calls.arrive(0, &request, maker)?;
    Ok(calls)
}

// The same, where nobody needs the maker.
fn asked(alloc: Global, method: u32) -> Result<Calls<DemoCall>, Fail>
    requires { method ≢ 0 }
{
    let maker = maker_of_nothing(alloc)?;
    table_with_call(alloc, &maker, method)
}

// Runs the call that is ready, and gives the item that goes out.
fn run_ready<H: Handler>(alloc: Global, calls: &mut Calls<H>) -> Result<Vec<Item>, Fail> {
    let mut items = Vec::new(alloc);
    if let Some(mut run) = calls.start(2)? {
        match run.call() {
            Ok(()) => {
                calls.finish(run);
            }
            Err(error) => {
                run.spill();
                return Err(Fail::from(error));
            }
        }
    }
    if let Some(item) = calls.flush_front(1) {
        items.push(item)?;
    }
    Ok(items)
}

fn sent(call: u32, payload: &'static [u8]) -> Item {
    Item {
        call: Some(call),
        act: Act::Send(Packet {
            ptype: PacketType::Response,
            name: name_of(ECHO),
            payload: Bytes::from_static(payload),
            status: 0,
        }),
    }
}

/// What went out, or what was done to the store.
#[derive(Clone, Copy)]
enum Did {
    /// The RESPONSE to an Echo of this call went out, with this payload.
    Sent(u32, &'static [u8]),
    /// The same with the payload `abc`, for no call.
    Replied,
    /// A call began a session on a resource, from an offset.
    Began(u32, u32, u32, u64),
    /// A call added `abc` to a session.
    Added(u32, u32),
    /// A call made a session's work the resource.
    Made(u32, u32),
    /// A call left a session.
    Left(u32, u32),
    /// All sessions of call 0 were left.
    LeftCall,
}

fn item(alloc: Global, did: Did) -> Result<Item, Fail> {
    Ok(match did {
        Did::Sent(call, payload) => sent(call, payload),
        Did::Replied => Item {
            call: None,
            ..sent(0, b"abc")
        },
        Did::Began(call, session, resource, offset) => begins(call, session, resource, offset),
        Did::Added(call, session) => appends(alloc, call, session)?,
        Did::Made(call, session) => acts(call, Out::Commit { session }),
        Did::Left(call, session) => acts(call, Out::Leave { session }),
        Did::LeftCall => Item {
            call: Some(0),
            act: Act::LeaveCall,
        },
    })
}

fn items(alloc: Global, all: &[Did]) -> Result<Vec<Item>, Fail> {
    let mut items = Vec::new(alloc);
    for did in all {
        items.push(item(alloc, *did)?)?;
    }
    Ok(items)
}

// A store action of a call.
fn acts(call: u32, out: Out) -> Item {
    Item {
        call: Some(call),
        act: Act::Keep(out),
    }
}

fn begins(call: u32, session: u32, resource: u32, offset: u64) -> Item {
    acts(
        call,
        Out::Begin {
            session,
            resource,
            offset,
        },
    )
}

fn appends(alloc: Global, call: u32, session: u32) -> Result<Item, Fail> {
    let bytes = Bytes::copy_from_slice(alloc, b"abc")?;
    Ok(acts(call, Out::Append { session, bytes }))
}

const FOR_OTHERS: Counts = Counts {
    valid: 2,
    bad: 0,
    other: 1,
    dropped: 1,
};

const FULL: Counts = Counts {
    valid: 18446744073709551615,
    bad: 10,
    other: 200,
    dropped: 3000,
};

const ENDINGS: &[(Counts, Ending, &str)] = &[
    (
        NO_SEGMENT,
        Ending::AtEnd,
        "frames 0 bad 0 other 0 dropped 0\ndone\n",
    ),
    (
        FOR_OTHERS,
        Ending::AtEnd,
        "frames 2 bad 0 other 1 dropped 1\ndone\n",
    ),
    (
        FULL,
        Ending::SourceFault,
        "frames 18446744073709551615 bad 10 other 200 dropped 3000\nsource fault\n",
    ),
    (
        NO_SEGMENT,
        Ending::StoreFault,
        "frames 0 bad 0 other 0 dropped 0\nstore fault\n",
    ),
    (
        NO_SEGMENT,
        Ending::InputLimit,
        "frames 0 bad 0 other 0 dropped 0\nlimit input 67108864\n",
    ),
    (
        NO_SEGMENT,
        Ending::JournalLimit,
        "frames 0 bad 0 other 0 dropped 0\nlimit journal 1000000\n",
    ),
];

// A table has this report, where these items went out.
fn is_report(
    rt: &impl Abort,
    alloc: Global,
    calls: &Calls<DemoCall>,
    items: &[Item],
    counts: Counts,
    ending: Ending,
    want: &str,
) -> Result<(), Fail> {
    let text = report_text(alloc, counts, calls, items, ending)?;
    is_text(rt, text.as_str(), want);
    Ok(())
}

// The frames of these items.
fn has_frames(rt: &impl Abort, alloc: Global, items: &[Item], want: &[u8]) -> Result<(), Fail> {
    let frames = frame_bytes(alloc, items)?;
    are_bytes(rt, frames.as_slice(), want);
    Ok(())
}

// The report of a table, where nothing went out.
fn reports(
    rt: &impl Abort,
    alloc: Global,
    calls: &Calls<DemoCall>,
    row: &(Counts, Ending, &str),
) -> Result<(), Fail> {
    let (counts, ending, want) = *row;
    is_report(rt, alloc, calls, &[], counts, ending, want)
}

#[test]
fn each_ending_and_each_count_has_its_text(rt: HostRuntime) -> Result<(), Fail> {
    let alloc = rt.alloc();
    let calls = empty_table(alloc)?;
    for row in ENDINGS {
        reports(&rt, alloc, &calls, row)?;
    }
    Ok(())
}

// The report of a call that was asked for and not run.
fn open_report(alloc: Global, method: u32) -> Result<String, Fail>
    requires { method ≢ 0 }
{
    let calls = asked(alloc, method)?;
    let text = report_text(alloc, ONE_FRAME, &calls, &[], Ending::AtEnd)?;
    Ok(text)
}

// The line of such a call.
fn is_open(rt: &impl Abort, alloc: Global, method: u32, line: &str) -> Result<(), Fail>
    requires { method ≢ 0 }
{
    let text = open_report(alloc, method)?;
    let report = format!(in alloc; "frames 1 bad 0 other 0 dropped 0\n{line}\ndone\n")?;
    is_text(rt, text.as_str(), report.as_str());
    Ok(())
}

#[test]
fn a_call_of_each_kind_is_open_before_it_runs(rt: HostRuntime) -> Result<(), Fail> {
    let alloc = rt.alloc();
    is_open(&rt, alloc, ECHO, "call 0 1 70f45cfb 8b470ee9 1 unary open")?;
    is_open(
        &rt,
        alloc,
        COUNT,
        "call 0 1 70f45cfb b63613b6 1 server open",
    )?;
    is_open(&rt, alloc, SUM, "call 0 1 70f45cfb 09570bb8 1 client open")?;
    is_open(&rt, alloc, CHAT, "call 0 1 70f45cfb 9ba981bc 1 bidi open")?;
    Ok(())
}

#[test]
fn an_echo_is_reported_with_its_answer(rt: HostRuntime) -> Result<(), Fail> {
    let alloc = rt.alloc();
    let mut calls = asked(alloc, ECHO)?;
    let items = run_ready(alloc, &mut calls)?;
    is_report(
        &rt,
        alloc,
        &calls,
        &items,
        ONE_FRAME,
        Ending::AtEnd,
        "frames 1 bad 0 other 0 dropped 0\n\
         call 0 1 70f45cfb 8b470ee9 1 unary OK\n\
         out 7ea503080110011dfb5cf47025e90e478b2a0361626338019794283c7e\n\
         done\n",
    )?;
    has_frames(&rt, alloc, &items, &RESPONSE_FRAME)
}

const TWO_SENT: &[Did] = &[
    Did::LeftCall,
    Did::Sent(0, b"abc"),
    Did::Made(0, 1),
    Did::Sent(1, b"abc"),
];

#[test]
fn what_acts_on_the_store_has_no_frame_and_no_line(rt: HostRuntime) -> Result<(), Fail> {
    let alloc = rt.alloc();
    let items = items(alloc, TWO_SENT)?;
    let frames = twice(alloc, &RESPONSE_FRAME)?;
    has_frames(&rt, alloc, &items, frames.as_slice())
}

fn twice(alloc: Global, bytes: &[u8]) -> Result<Vec<u8>, Fail> {
    let mut all = Vec::new(alloc);
    all.extend_from_slice(bytes)?;
    all.extend_from_slice(bytes)?;
    Ok(all)
}

const UPLOADS: &[Did] = &[
    Did::Began(0, 1, 7, 2),
    Did::Began(1, 1, 8, 0),
    Did::Added(0, 1),
    Did::Added(0, 1),
    Did::Made(1, 1),
    Did::Made(0, 1),
    // None of these is under way.
    Did::Made(0, 1),
    Did::Began(0, 2, 9, 0),
    Did::Left(0, 2),
    Did::Made(0, 2),
    Did::Began(0, 3, 9, 0),
    Did::LeftCall,
    Did::Made(0, 3),
];

#[test]
fn uploads_that_end_well_are_told(rt: HostRuntime) -> Result<(), Fail> {
    let alloc = rt.alloc();
    let calls = empty_table(alloc)?;
    let items = items(alloc, UPLOADS)?;
    is_report(
        &rt,
        alloc,
        &calls,
        &items,
        NO_SEGMENT,
        Ending::AtEnd,
        "frames 0 bad 0 other 0 dropped 0\nstored 8 0\nstored 7 8\ndone\n",
    )
}

const A_LOAD: &[Did] = &[
    Did::Sent(0, b"abc"),
    Did::LeftCall,
    Did::Sent(1, b""),
    Did::Sent(2, b"12"),
];

#[test]
fn a_load_is_told_in_four_lines(rt: HostRuntime) -> Result<(), Fail> {
    let alloc = rt.alloc();
    let items = items(alloc, A_LOAD)?;
    let text = load_text(alloc, 3, 18446744073709551615, &items)?;
    is_text(
        &rt,
        text.as_str(),
        "load 3 18446744073709551615\ncalls 3\npackets 3\npayload 5\n",
    );
    Ok(())
}

const READ: LiveLine = LiveLine::Get {
    resource: 7,
    from: 3,
    status: Status::Okay,
    length: 1_000,
};

const WRITTEN: LiveLine = LiveLine::Put {
    resource: 8,
    from: 0,
    status: Status::NotFound,
    length: 0,
};

const WATCHED: LiveLine = LiveLine::Watch {
    status: Status::Cancelled,
    messages: 64,
};

const TOLD: &[(Option<LiveLine>, Why, &str)] = &[
    (Some(READ), Why::Settled, "get 7 3 OK 1000\ndone\n"),
    (
        Some(WATCHED),
        Why::Source,
        "watch CANCELLED 64\nsource fault\n",
    ),
    (None, Why::Sink, "sink fault\n"),
    (None, Why::Memory, ""),
];

fn tells(rt: &impl Abort, alloc: Global, row: &(Option<LiveLine>, Why, &str)) -> Result<(), Fail> {
    let (told, why, want) = *row;
    is_text(rt, live_text(alloc, told, why)?.as_str(), want);
    Ok(())
}

#[test]
fn a_client_is_told_by_what_it_was_asked(rt: HostRuntime) -> Result<(), Fail> {
    let alloc = rt.alloc();
    for row in TOLD {
        tells(&rt, alloc, row)?;
    }
    is_text(
        &rt,
        live_line(alloc, WRITTEN)?.as_str(),
        "put 8 0 NOT_FOUND 0\n",
    );
    Ok(())
}

// The text of a call to which two messages came, of which the second is empty.
fn is_told(
    rt: &impl Abort,
    alloc: Global,
    ended: Option<Status>,
    why: Why,
    want: &str,
) -> Result<(), Fail> {
    let mut messages = Vec::new(alloc);
    messages.push(Bytes::from_static(b"\x00ab"))?;
    messages.push(Bytes::new())?;
    is_text(rt, call_text(alloc, &messages, ended, why)?.as_str(), want);
    Ok(())
}

#[test]
fn a_call_is_told_with_its_messages(rt: HostRuntime) -> Result<(), Fail> {
    let alloc = rt.alloc();
    is_told(
        &rt,
        alloc,
        Some(Status::Okay),
        Why::Settled,
        "message 006162\nmessage -\ncall OK 2\ndone\n",
    )?;
    is_told(
        &rt,
        alloc,
        None,
        Why::Sink,
        "message 006162\nmessage -\nsink fault\n",
    )?;
    let none = call_text(alloc, &[], Some(Status::NotFound), Why::Settled)?;
    is_text(&rt, none.as_str(), "call NOT_FOUND 0\ndone\n");
    Ok(())
}
