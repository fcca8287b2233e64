//! What a client is answered that uploads in one go, goes on with an upload that was cut, opens two sessions at once or
//! opens one twice, and what the store has then.

use self::Step::*;
use super::checks::{is_found, is_so, stores, told};
use super::says::Says::{self, *};
use super::says::frames;
use super::{Ran, empty_store, run_storing};
use link_io::MemStore;
use rpc_packet::PacketType;
use std::alloc::{AllocError, Global};
use std::process::Abort;

// What a client sends that uploads `hello, store` and a newline as resource 7 in two chunks: `examples/upload/recording`.
const RECORDING: &str =
    "7EA50310011D7BC8D65B25860563D438016B08F3627E7EA503080210011D7BC8D65B25860563D42A085001580768027001380111DFEF69\
7E7EA503080210011D7BC8D65B25860563D42A065007600168023801949E72EF7E7EA503080210011D7BC8D65B25860563D42A0D320768\
656C6C6F2C205000600138013D7F45FF7E7EA503080210011D7BC8D65B25860563D42A102807320673746F72650A38005000600138017F\
46DD087E7EA503080210011D7BC8D65B25860563D42A04500560013801140F96427E7EA503080810011D7BC8D65B25860563D438018F9A\
62317E";

const REPORT: &[u8] = b"frames 7 bad 0 other 0 dropped 0
call 0 1 5bd6c87b d4630586 1 bidi OK
out 7ea503080710011d7bc8d65b25860563d42a06500660016802380167de2ad27e
out 7ea503080710011d7bc8d65b25860563d42a0a1880024880085002600138015016889e7e
stored 7 13
out 7ea503080710011d7bc8d65b25860563d42a0640005004600138011dc429c67e
out 7ea503080110011d7bc8d65b25860563d43801e08d10477e
done
";

// What is done with a store, and what it then has.
#[derive(Clone, Copy)]
enum Step {
    // `replay raw` of what a client says so, behind its REQUEST, ends with this status and answers with just these chunks.
    Replays(&'static [Says], u8, &'static [Says]),
    // The store has these bytes of a resource, or none.
    Stores(u32, Option<&'static [u8]>),
    // The store has these bytes of an upload of resource 7 that was cut, or none.
    Leaves(Option<&'static [u8]>),
}

fn is_answered(
    rt: &impl Abort,
    alloc: Global,
    step: u64,
    store: &mut MemStore,
    says: &[Says],
    status: u8,
    answers: &[Says],
) -> Result<(), AllocError> {
    let content = frames(alloc, PacketType::ClientStream, says)?;
    let ran = run_storing(alloc, "replay raw", content, store)?;
    let wanted = frames(alloc, PacketType::ServerStream, answers)?;
    told(rt, "replay raw", step, &ran, status, &wanted);
    Ok(())
}

fn take(
    rt: &impl Abort,
    alloc: Global,
    number: u64,
    store: &mut MemStore,
    step: Step,
) -> Result<(), AllocError> {
    match step {
        Replays(says, status, answers) => {
            is_answered(rt, alloc, number, store, says, status, answers)?;
        }
        Stores(resource, wanted) => stores(rt, "stored", number, store, resource, wanted),
        Leaves(wanted) => is_so(rt, "left", number, is_found(store.left(7), wanted)),
    }
    Ok(())
}

fn take_all(
    rt: &impl Abort,
    alloc: Global,
    store: &mut MemStore,
    steps: &[Step],
) -> Result<(), AllocError> {
    for (number, step) in steps.iter().enumerate() {
        take(rt, alloc, number as u64, store, *step)?;
    }
    Ok(())
}

// The steps over an empty store, whose call with this number fails.
fn follow(rt: &impl Abort, alloc: Global, fail: u64, steps: &[Step]) -> Result<(), AllocError> {
    let mut store = empty_store(alloc, fail)?;
    take_all(rt, alloc, &mut store, steps)
}

const CUT: &[Says] = &[Start(1, 7, 0), Confirmation(1), Data(1, 0, b"abc")];

const ASKED: &[Says] = &[StartAck(1, 0), Asks(1, 0, 1_024)];

const GOING_ON: &[Says] = &[
    Start(1, 7, 400),
    Confirmation(1),
    Rest(1, 3, b"de"),
    Seen(1),
];

const RESUMED: &[Says] = &[StartAck(1, 3), Asks(1, 3, 1_027), Completed(1, 0)];

const CUT_AND_RESUMED: &[Step] = &[
    Replays(CUT, 0, ASKED),
    Stores(7, None),
    Leaves(Some(b"abc")),
    Replays(GOING_ON, 0, RESUMED),
    Stores(7, Some(b"abcde")),
    Leaves(None),
];

#[test]
fn a_cut_upload_goes_on_where_it_was_left(rt: HostRuntime) -> Result<(), AllocError> {
    follow(&rt, rt.alloc(), 0, CUT_AND_RESUMED)
}

const BOTH: &[Says] = &[
    Start(1, 7, 0),
    Start(2, 8, 0),
    Confirmation(2),
    Confirmation(1),
    Data(2, 0, b"eight"),
    Rest(1, 0, b"seven"),
    Rest(2, 5, b"!"),
];

const BOTH_ANSWERED: &[Says] = &[
    StartAck(1, 0),
    StartAck(2, 0),
    Asks(2, 0, 1_024),
    Asks(1, 0, 1_024),
    Completed(1, 0),
    Completed(2, 0),
];

const AT_ONCE: &[Step] = &[
    Replays(BOTH, 0, BOTH_ANSWERED),
    Stores(7, Some(b"seven")),
    Stores(8, Some(b"eight!")),
];

#[test]
fn two_sessions_go_on_at_once(rt: HostRuntime) -> Result<(), AllocError> {
    follow(&rt, rt.alloc(), 0, AT_ONCE)
}

// The second START is answered as the first; those of another resource and of an open upload are ignored, until the
// client knows the end.
const TWICE: &[Says] = &[
    Start(1, 7, 0),
    Start(1, 7, 0),
    Start(1, 8, 0),
    Confirmation(1),
    Data(1, 0, b"abc"),
    Start(1, 7, 0),
    Rest(1, 3, b"de"),
    Start(1, 7, 0),
    Seen(1),
    Start(1, 7, 0),
];

const TWICE_ANSWERED: &[Says] = &[
    StartAck(1, 0),
    StartAck(1, 0),
    Asks(1, 0, 1_024),
    Completed(1, 0),
    Completed(1, 0),
];

const STARTED_TWICE: &[Step] = &[
    Replays(TWICE, 0, TWICE_ANSWERED),
    Stores(7, Some(b"abcde")),
    Stores(8, None),
];

#[test]
fn a_second_start_opens_nothing(rt: HostRuntime) -> Result<(), AllocError> {
    follow(&rt, rt.alloc(), 0, STARTED_TWICE)
}

const OLD: &[Says] = &[OldStart(1, 7), Rest(1, 0, b"abc")];

// UNIMPLEMENTED, and then FAILED_PRECONDITION of a session that isn't there.
const OLD_ANSWERED: &[Says] = &[Completed(1, 12), Completed(1, 9)];

const REFUSED: &[Step] = &[Replays(OLD, 0, OLD_ANSWERED), Stores(7, None)];

#[test]
fn a_start_of_version_1_is_refused(rt: HostRuntime) -> Result<(), AllocError> {
    follow(&rt, rt.alloc(), 0, REFUSED)
}

const WHOLE: &[Says] = &[
    Start(1, 7, 0),
    Confirmation(1),
    Data(1, 0, b"abc"),
    Rest(1, 3, b"de"),
];

// The list, the begin and the first append go well.
const STORE_FAULT: &[Step] = &[Replays(WHOLE, 5, ASKED), Stores(7, None)];

#[test]
fn no_end_is_told_where_the_store_fails(rt: HostRuntime) -> Result<(), AllocError> {
    follow(&rt, rt.alloc(), 4, STORE_FAULT)
}

fn run_recording(alloc: Global, store: &mut MemStore) -> Result<Ran, AllocError> {
    let content = hex::decode(alloc, RECORDING).map_err(|_| AllocError)?;
    run_storing(alloc, "replay", content, store)
}

#[test]
fn the_stored_recording_has_its_report(rt: HostRuntime) -> Result<(), AllocError> {
    let mut store = empty_store(rt.alloc(), 0)?;
    let ran = run_recording(rt.alloc(), &mut store)?;
    told(&rt, "the recording", 0, &ran, 0, REPORT);
    stores(&rt, "stored", 0, &store, 7, Some(b"hello, store\n"));
    Ok(())
}
