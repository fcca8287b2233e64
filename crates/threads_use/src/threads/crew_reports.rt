//! What a crew writes, however its handlers run, and where a device fails.

use super::cases::Asked::*;
use super::cases::{Asked, CALM, Case, Given, Ran, ask_all, each_ends_so};
use super::checks::{status_is, wrote};
use super::{FIRST, run_over};
use link_io::MemSource;
use load_stream::LoadSource;
use rpc_crew::Free;
use std::alloc::{AllocError, Global};
use std::process::Abort;
use std::sync::Wait;
use std::thread::Threads;

// The run of a load by a crew.
fn run_load<R: Threads + Wait + Sync>(
    rt: &R,
    alloc: Global,
    line: &str,
) -> Result<Ran, AllocError> {
    let mut input = LoadSource::new(alloc, 64, 3)?;
    run_over(rt, alloc, line, &mut input, &CALM, &Free)
}

const BY_ONE: &[Asked] = &[
    Ends(0),
    WritesFirst(b"frames 192 bad 0 other 0 dropped 0\ncall 0 1 "),
    WritesLast(b"\ndone\n"),
];

#[test]
fn a_report_is_the_same_by_any_number_of_workers(rt: HostRuntime) -> Result<(), AllocError> {
    let alloc = rt.alloc();
    let one = run_load(&rt, alloc, "crew 1")?;
    ask_all(&rt, 1, &one, BY_ONE);
    is_reported_by(&rt, alloc, 4, "crew 4", one.output.bytes())?;
    is_reported_by(&rt, alloc, 16, "crew 16", one.output.bytes())
}

// A crew of so many workers writes the same of the load.
fn is_reported_by<R: Threads + Wait + Sync + Abort>(
    rt: &R,
    alloc: Global,
    workers: usize,
    line: &str,
    report: &[u8],
) -> Result<(), AllocError> {
    let ran = run_load(rt, alloc, line)?;
    status_is(rt, workers, 0, ran.status, 0);
    wrote(rt, workers, 1, ran.output.bytes(), report);
    Ok(())
}

const BEFORE_A_FAULT: &[u8] = b"frames 1 bad 0 other 0 dropped 0
call 0 1 70f45cfb 8b470ee9 1 unary OK
out 0 7ea503080110011dfb5cf47025e90e478b2a0361626338019794283c7e
source fault
";

const FAILING_SOURCE: &[Case] = &[(
    "crew 4",
    Given {
        input: &[FIRST],
        failing_read: 2,
        ..CALM
    },
    &[Ends(3), Writes(BEFORE_A_FAULT)],
)];

#[test]
fn what_came_before_a_fault_of_the_source_is_told(rt: HostRuntime) -> Result<(), AllocError> {
    each_ends_so(&rt, rt.alloc(), FAILING_SOURCE)
}

// Each read of the input would fail.
const UNREADABLE: Given = Given {
    failing_read: 1,
    ..CALM
};

const NO_COMMAND: &[Asked] = &[Ends(2), Writes(b"")];

const PAST_A_BOUND: &[Case] = &[
    ("crew 17", UNREADABLE, NO_COMMAND),
    ("crew 0", UNREADABLE, NO_COMMAND),
    ("crew 04", UNREADABLE, NO_COMMAND),
    ("serve p 17 1", UNREADABLE, NO_COMMAND),
    ("serve p 1 0", UNREADABLE, NO_COMMAND),
    ("serve p 1 1001", UNREADABLE, NO_COMMAND),
    ("serve '' 1 1", UNREADABLE, NO_COMMAND),
];

#[test]
fn words_past_a_bound_name_no_command(rt: HostRuntime) -> Result<(), AllocError> {
    each_ends_so(&rt, rt.alloc(), PAST_A_BOUND)
}

// What a client sends that uploads `hello, store` and a newline as resource 7 in two chunks: `examples/upload/recording`.
const RECORDING: &str =
    "7EA50310011D7BC8D65B25860563D438016B08F3627E7EA503080210011D7BC8D65B25860563D42A085001580768027001380111DFEF69\
7E7EA503080210011D7BC8D65B25860563D42A065007600168023801949E72EF7E7EA503080210011D7BC8D65B25860563D42A0D320768\
656C6C6F2C205000600138013D7F45FF7E7EA503080210011D7BC8D65B25860563D42A102807320673746F72650A38005000600138017F\
46DD087E7EA503080210011D7BC8D65B25860563D42A04500560013801140F96427E7EA503080810011D7BC8D65B25860563D438018F9A\
62317E";

const UPLOAD_REPORT: &[u8] = b"frames 7 bad 0 other 0 dropped 0
call 0 1 5bd6c87b d4630586 1 bidi OK
out 0 7ea503080710011d7bc8d65b25860563d42a06500660016802380167de2ad27e
out 0 7ea503080710011d7bc8d65b25860563d42a0a1880024880085002600138015016889e7e
stored 0 7 13
out 0 7ea503080710011d7bc8d65b25860563d42a0640005004600138011dc429c67e
out 0 7ea503080110011d7bc8d65b25860563d43801e08d10477e
done
";

const STORED: &[Asked] = &[Ends(0), Writes(UPLOAD_REPORT), Stores(b"hello, store\n")];

#[test]
fn an_upload_is_told_with_its_call(rt: HostRuntime) -> Result<(), AllocError> {
    let alloc = rt.alloc();
    let content = hex::decode(alloc, RECORDING).map_err(|_| AllocError)?;
    let mut input = MemSource::new(content, Vec::new(alloc));
    let ran = run_over(&rt, alloc, "crew 4", &mut input, &CALM, &Free)?;
    ask_all(&rt, 0, &ran, STORED);
    Ok(())
}

const FAILING_OUTPUT: &[Case] = &[(
    "crew 2",
    Given {
        input: &[FIRST],
        failing_write: 1,
        ..CALM
    },
    &[Ends(4), Writes(b"")],
)];

#[test]
fn an_output_that_fails_at_once_has_nothing(rt: HostRuntime) -> Result<(), AllocError> {
    each_ends_so(&rt, rt.alloc(), FAILING_OUTPUT)
}

// Nothing is read.
const FAILING_STORE: &[Case] = &[(
    "crew 2",
    Given {
        input: &[FIRST],
        failing_store_call: 1,
        ..CALM
    },
    &[
        Ends(5),
        Writes(b"frames 0 bad 0 other 0 dropped 0\nstore fault\n"),
        LeavesInput,
    ],
)];

#[test]
fn a_store_that_cannot_be_listed_is_told(rt: HostRuntime) -> Result<(), AllocError> {
    each_ends_so(&rt, rt.alloc(), FAILING_STORE)
}
