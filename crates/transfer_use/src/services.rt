//! Answers of each method, asked through the bounds that a server has on them.
use bytes::Bytes;
use demo_services::{Chat, DemoCall, DemoMaker, Sum, demo_registry};
use link_io::{Fulls, Lefts, Shelf};
use rpc_handlers::{Acts, Answer, Event, Maker, Out};
use rpc_ids::{Kind, MethodRef, Registry, Status};
use std::alloc::{AllocError, Global};
use std::process::Abort;
use std::test::Fail;
use transfer_chunk::Tuning;

const DEMO: u32 = 0x70F4_5CFB;

const ECHO: u32 = 0x8B47_0EE9;

const COUNT: u32 = 0xB636_13B6;

const SUM: u32 = 0x0957_0BB8;

const CHAT: u32 = 0x9BA9_81BC;

const LOG: u32 = 0xA9C4_1521;

const TEXT: u32 = 0xC85D_1891;

const TRANSFER: u32 = 0x5BD6_C87B;

const READ: u32 = 0x5B78_66DA;

const WRITE: u32 = 0xD463_0586;

const LONG: &[u8] = &[255; 8001];

/// An item of an answer, behind a line.
fn push_item(alloc: Global, line: &mut String, item: &Out) -> Result<(), AllocError> {
    match item {
        Out::Say(payload) => line.push_str(&format!(in alloc; "say {payload:?} ")?),
        Out::Begin { .. } => line.push_str("begin "),
        Out::Append { .. } => line.push_str("append "),
        Out::Commit { .. } => line.push_str("commit "),
        Out::Leave { .. } => line.push_str("leave "),
    }
}

/// An answer on one line: its messages, and its end if it has one. Payloads are as byte strings.
fn line_of(alloc: Global, answer: &Answer) -> Result<String, AllocError> {
    let mut line = String::new(alloc);
    for item in answer.items.as_slice() {
        push_item(alloc, &mut line, item)?;
    }
    if let Some(end) = &answer.end {
        let status = end.status.name();
        let payload = &end.payload;
        line.push_str(&format!(in alloc; "end {status} {payload:?}")?)?;
    }
    Ok(line)
}

/// A maker over resource 7, which is `hi`.
fn maker(alloc: Global) -> Result<DemoMaker, AllocError> {
    let mut full = Fulls::new(alloc);
    full.push((7, Bytes::from_static(b"hi")))?;
    let left = Lefts::new(alloc);
    let tuning = Tuning {
        window: 4,
        chunk: 256,
    };
    DemoMaker::new(alloc, Shelf { full, left }, tuning)
}

/// An event, as a table of constants has it.
#[derive(Clone, Copy)]
enum Come {
    Request(&'static [u8]),
    Message(&'static [u8]),
    Completion,
    Ended(Status),
    Tick(u64),
}

fn event_of(come: Come) -> Event {
    match come {
        Come::Request(bytes) => Event::Request(Bytes::from_static(bytes)),
        Come::Message(bytes) => Event::Message(Bytes::from_static(bytes)),
        Come::Completion => Event::Completion,
        Come::Ended(status) => Event::Ended(status),
        Come::Tick(now) => Event::Tick(now),
    }
}

fn is_text(rt: &impl Abort, text: &str, want: &str, name: &str) {
    assert_eq!(rt; text, want, "{name}");
}

/// What a new call of a method of the service answers to one event.
fn first_answer<M: Maker>(
    alloc: Global,
    maker: &M,
    method: u32,
    ev: &Event,
) -> Result<String, AllocError> {
    let mut call = maker.make(MethodRef {
        service: DEMO,
        method,
        kind: Kind::Unary,
        ticks: false,
    })?;
    line_of(alloc, &call.on(ev)?)
}

// A name, the method, what comes, and the answer.
type Row = (&'static str, u32, Come, &'static str);

const FIRST: &[Row] = &[
    ("echo", ECHO, Come::Request(b"abc"), r#"end OK b"abc""#),
    ("echo of nothing", ECHO, Come::Request(b""), r#"end OK b"""#),
    (
        "echo too long",
        ECHO,
        Come::Request(LONG),
        r#"end RESOURCE_EXHAUSTED b"""#,
    ),
    ("echo of a message", ECHO, Come::Message(b"abc"), ""),
    ("echo completed", ECHO, Come::Completion, ""),
    (
        "count to 3",
        COUNT,
        Come::Request(&[3]),
        r#"say b"\x01" say b"\x02" say b"\x03" end OK b"""#,
    ),
    ("count to 0", COUNT, Come::Request(&[0]), r#"end OK b"""#),
    (
        "count to 65",
        COUNT,
        Come::Request(&[65]),
        r#"end INVALID_ARGUMENT b"""#,
    ),
    (
        "count to nothing",
        COUNT,
        Come::Request(b""),
        r#"end INVALID_ARGUMENT b"""#,
    ),
    (
        "count to two",
        COUNT,
        Come::Request(&[1, 1]),
        r#"end INVALID_ARGUMENT b"""#,
    ),
    ("count completed", COUNT, Come::Completion, ""),
    (
        "sum of none",
        SUM,
        Come::Completion,
        r#"end OK b"\0\0\0\0\0\0\0\0""#,
    ),
    ("sum requested", SUM, Come::Request(&[3]), ""),
    ("chat", CHAT, Come::Message(b"abc"), r#"say b"abc" "#),
    (
        "chat too long",
        CHAT,
        Come::Message(LONG),
        r#"end RESOURCE_EXHAUSTED b"""#,
    ),
    ("chat requested", CHAT, Come::Request(b"abc"), ""),
    ("chat completed", CHAT, Come::Completion, r#"end OK b"""#),
    ("chat ended", CHAT, Come::Ended(Status::Cancelled), ""),
    ("chat told of the time", CHAT, Come::Tick(500), ""),
];

fn row_holds(rt: &impl Abort, alloc: Global, maker: &DemoMaker, row: &Row) -> Result<(), Fail> {
    let (name, method, come, want) = *row;
    let line = first_answer(alloc, maker, method, &event_of(come))?;
    is_text(rt, line.as_str(), want, name);
    Ok(())
}

#[test]
fn each_method_answers_by_its_rule(rt: HostRuntime) -> Result<(), Fail> {
    let maker = maker(rt.alloc())?;
    for row in FIRST {
        row_holds(&rt, rt.alloc(), &maker, row)?;
    }
    let longest = Event::Request(Bytes::from_static(LONG).slice(0..8000)?);
    let line = first_answer(rt.alloc(), &maker, ECHO, &longest)?;
    assert_eq!(rt; line.len(), 32_010);
    Ok(())
}

/// A call of Text.
fn log_call(alloc: Global) -> Result<DemoCall, AllocError> {
    maker(alloc)?.make(MethodRef {
        service: LOG,
        method: TEXT,
        kind: Kind::Bidi,
        ticks: false,
    })
}

// What a call answers to what comes.
fn answers(
    rt: &impl Abort,
    alloc: Global,
    call: &mut DemoCall,
    come: Come,
    want: &str,
) -> Result<(), Fail> {
    let line = line_of(alloc, &call.on(&event_of(come))?)?;
    is_text(rt, line.as_str(), want, "a call of Text");
    Ok(())
}

const TEXTS: &[(&[u8], &str)] = &[
    (b"\xE0\x17\x61\x00", r#"say b"a" "#),
    (b"\x81\x17\x63\x31\x05", r#"say b"-3" "#),
    (b"\x12\x1F\xC2\x39\x05", r#"say b"18446744073709551613" "#),
    (b"\x95\x4D\x3C\x3B\x05", r#"say b"fffffffffffffffd" "#),
    (b"\x10\x00\xC6\x38\x02hi", r#"say b"hi" "#),
    (b"\x10\x00\xC6\x38\x82hi", r#"say b"hi[...]" "#),
];

#[test]
fn text_tells_messages(rt: HostRuntime) -> Result<(), Fail> {
    let mut call = log_call(rt.alloc())?;
    for (payload, want) in TEXTS {
        answers(&rt, rt.alloc(), &mut call, Come::Message(payload), want)?;
    }
    assert_eq!(rt; call.memo()?.words.as_slice(), [5u64].as_slice());
    Ok(())
}

const WITHOUT_A_TEXT: &[(&[u8], &str)] = &[
    (b"", r#"say b"?" "#),
    (b"\x00", r#"say b"?00" "#),
    (b"\x00\x00\x00\x00", r#"say b"?00000000" "#),
    (b"\x81\x17\x63\x31\x80", r#"say b"?8117633180" "#),
    (b"\xE0\x17\x61\x00\x00", r#"say b"?e017610000" "#),
    (b"\x10\x00\xC6\x38\x01\n", r#"say b"?1000c638010a" "#),
];

#[test]
fn text_tells_messages_without_a_text(rt: HostRuntime) -> Result<(), Fail> {
    let mut call = log_call(rt.alloc())?;
    for (payload, want) in WITHOUT_A_TEXT {
        answers(&rt, rt.alloc(), &mut call, Come::Message(payload), want)?;
    }
    Ok(())
}

const OTHER_EVENTS: &[(Come, &str)] = &[
    (Come::Request(b"\xE0\x17\x61\x00"), ""),
    (Come::Ended(Status::Cancelled), ""),
    (Come::Tick(500), ""),
    (Come::Message(LONG), r#"end RESOURCE_EXHAUSTED b"""#),
    (Come::Completion, r#"end OK b"""#),
];

// Whether a message of so many bytes is said.
fn is_said(rt: &impl Abort, call: &mut DemoCall, length: usize, want: bool) -> Result<(), Fail> {
    let message = Event::Message(Bytes::from_static(LONG).slice(0..length.min(8001))?);
    assert_eq!(rt; call.on(&message)?.end.is_none(), want);
    Ok(())
}

#[test]
fn text_answers_other_events(rt: HostRuntime) -> Result<(), Fail> {
    let mut call = log_call(rt.alloc())?;
    for (come, want) in OTHER_EVENTS {
        answers(&rt, rt.alloc(), &mut call, *come, want)?;
    }
    // Behind a question mark two digits for each byte: 7,999 bytes, and 8,001.
    is_said(&rt, &mut call, 3_999, true)?;
    is_said(&rt, &mut call, 4_000, false)?;
    Ok(())
}

// A sum goes on with this message.
fn goes_on(rt: &impl Abort, call: &mut DemoCall, message: &Event) -> Result<(), Fail> {
    assert!(rt; call.on(message)?.end.is_none());
    Ok(())
}

#[test]
fn a_sum_carries_past_four_bytes(rt: HostRuntime) -> Result<(), Fail> {
    let mut call = DemoCall::Sum(Sum::new(rt.alloc()));
    let message = Event::Message(Bytes::from_static(LONG).slice(0..8000)?);
    for _ in 0..2106 {
        goes_on(&rt, &mut call, &message)?;
    }
    assert_eq!(rt;
        call.memo()?.words.as_slice(),
        [2u64, 4_296_240_000].as_slice()
    );
    let line = line_of(rt.alloc(), &call.on(&Event::Completion)?)?;
    is_text(
        &rt,
        line.as_str(),
        r#"end OK b"\0\0\0\x01\0\x13k\x80""#,
        "the sum",
    );
    Ok(())
}

const METHODS: &[MethodRef] = &[
    MethodRef {
        service: DEMO,
        method: ECHO,
        kind: Kind::Unary,
        ticks: false,
    },
    MethodRef {
        service: DEMO,
        method: COUNT,
        kind: Kind::ServerStream,
        ticks: false,
    },
    MethodRef {
        service: DEMO,
        method: SUM,
        kind: Kind::ClientStream,
        ticks: false,
    },
    MethodRef {
        service: DEMO,
        method: CHAT,
        kind: Kind::Bidi,
        ticks: false,
    },
    MethodRef {
        service: LOG,
        method: TEXT,
        kind: Kind::Bidi,
        ticks: false,
    },
    MethodRef {
        service: TRANSFER,
        method: READ,
        kind: Kind::Bidi,
        ticks: true,
    },
    MethodRef {
        service: TRANSFER,
        method: WRITE,
        kind: Kind::Bidi,
        ticks: true,
    },
];

fn finds(rt: &impl Abort, registry: &Registry, service: u32, method: u32, want: Option<MethodRef>) {
    assert_eq!(rt; registry.find(service, method), want);
}

#[test]
fn the_registry_has_seven_methods(rt: HostRuntime) -> Result<(), Fail> {
    let registry = demo_registry(rt.alloc())?;
    for row in METHODS {
        finds(&rt, &registry, row.service, row.method, Some(*row));
    }
    finds(&rt, &registry, DEMO, READ, None);
    finds(&rt, &registry, DEMO, TEXT, None);
    Ok(())
}

// START of resource 7, confirmation of session 1 up to 1,024, and its COMPLETION OK.
const START: &[u8] = &[0x50, 0x01, 0x58, 0x07, 0x68, 0x02, 0x70, 0x01];

const CONFIRMATION: &[u8] = &[0x48, 0x80, 0x08, 0x50, 0x07, 0x60, 0x01, 0x68, 0x02];

const COMPLETION: &[u8] = &[0x40, 0x00, 0x50, 0x04, 0x60, 0x01];

// The last data chunk of session 1, `hi` at 0.
const LAST: &[u8] = &[0x32, 0x02, 0x68, 0x69, 0x38, 0x00, 0x50, 0x00, 0x60, 0x01];

/// What a call of a method of the transfer service answers to these events, each on a line.
fn transfer_lines(alloc: Global, method: u32, events: &[Come]) -> Result<String, AllocError> {
    let mut call = maker(alloc)?.make(MethodRef {
        service: TRANSFER,
        method,
        kind: Kind::Bidi,
        ticks: true,
    })?;
    let mut lines = String::new(alloc);
    for come in events {
        let line = line_of(alloc, &call.on(&event_of(*come))?)?;
        lines.push_str(&line)?;
        lines.push_str("\n")?;
    }
    Ok(lines)
}

const A_READ: &[Come] = &[
    Come::Request(b""),
    Come::Message(START),
    Come::Message(b"\x07"),
    Come::Message(CONFIRMATION),
    Come::Message(COMPLETION),
    Come::Completion,
];

#[test]
fn a_resource_is_read(rt: HostRuntime) -> Result<(), Fail> {
    let want = concat!(
        "\n",
        "say b\"P\\x06`\\x01h\\x02\" \n",
        "\n",
        "say b\"2\\x02hi8\\0P\\0`\\x01\" \n",
        "say b\"P\\x05`\\x01\" \n",
        "end OK b\"\"\n",
    );
    let lines = transfer_lines(rt.alloc(), READ, A_READ)?;
    is_text(&rt, lines.as_str(), want, "a read");
    Ok(())
}

const A_WRITE: &[Come] = &[
    Come::Message(START),
    Come::Message(CONFIRMATION),
    Come::Message(LAST),
    Come::Tick(2_000),
    Come::Ended(Status::Cancelled),
];

#[test]
fn a_resource_is_written(rt: HostRuntime) -> Result<(), Fail> {
    let want = concat!(
        "begin say b\"P\\x06`\\x01h\\x02\" \n",
        "say b\"\\x18\\x80\\x02H\\x80\\x08P\\x02`\\x01\" \n",
        "append commit say b\"@\\0P\\x04`\\x01\" \n",
        "say b\"@\\0P\\x04`\\x01\" \n",
        "\n",
    );
    let lines = transfer_lines(rt.alloc(), WRITE, A_WRITE)?;
    is_text(&rt, lines.as_str(), want, "a write");
    Ok(())
}

fn on_another_thread<T: Send>(_: &T) {}

fn on_several_threads<T: Sync>(_: &T) {}

#[test]
fn calls_may_move_to_other_threads(rt: HostRuntime) -> Result<(), Fail> {
    on_another_thread(&DemoCall::Chat(Chat::new(rt.alloc())));
    on_several_threads(&maker(rt.alloc())?);
    Ok(())
}
