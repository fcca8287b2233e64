//! Journals of a server, judged.

use crate::world::Method::*;
use crate::world::Step::*;
use crate::world::{Case, Step, World, each_found, judged};
use link_io::Why;
use rpc_ids::{Role, Status};
use rpc_journal::Broken::*;
use rpc_journal::Journal;
use rpc_packet::PacketType::*;
use std::alloc::AllocError;
use std::test::Fail;

const ONE_FOR_EACH_RULE: &[Case] = &[
    (&[], None),
    (&[FlushBy(2)], Some((0, Seat))),
    (&[Comes(Request, Chat), EndIn(1)], Some((1, Seat))),
    (&[EndIn(0), Comes(Request, Chat)], Some((1, AfterEnd))),
    (&[Start(2, 0)], Some((0, UnknownCall))),
    (
        &[Comes(Request, Chat), Start(2, 0), Start(3, 0)],
        Some((2, NotReady)),
    ),
    (&[Comes(Request, Chat), Finish(2, 0)], Some((1, NotRunning))),
    (&[Halt(0, Why::Settled)], Some((0, Refused))),
    (&[Flush], Some((0, Nothing))),
];

#[test]
fn one_wrong_journal_for_each_rule(rt: HostRuntime) -> Result<(), Fail> {
    let w = World::new(rt.alloc(), Role::Server)?;
    each_found(&rt, &w, &[], ONE_FOR_EACH_RULE);
    Ok(())
}

const TWO_REQUESTS: &[Step] = &[Comes(Request, Chat), Comes(Request, Chat)];

const BEHIND_TWO_REQUESTS: &[Case] = &[
    (&[Start(2, 0), Finish(2, 0), Start(2, 1)], None),
    (&[Flush], Some((2, Nothing))),
    (
        &[Start(2, 0), Finish(2, 0), Start(2, 0)],
        Some((4, NotReady)),
    ),
];

#[test]
fn a_request_of_a_live_name_cancels_the_old_call(rt: HostRuntime) -> Result<(), Fail> {
    let w = World::new(rt.alloc(), Role::Server)?;
    each_found(&rt, &w, TWO_REQUESTS, BEHIND_TWO_REQUESTS);
    Ok(())
}

const THREE_CALLS_OF_A_NAME: &[Step] = &[
    Comes(Request, Chat),
    Comes(ClientError, Chat),
    Comes(ClientStream, Chat),
    Flush,
    Comes(Request, Chat),
    Comes(Request, Chat),
    Comes(ClientStream, Chat),
];

// The first two calls have only their ends to hear, and the message waits for the third.
const RUNS_OF_A_NAME: &[Case] = &[
    (
        &[Start(2, 0), Finish(2, 0), Start(2, 0)],
        Some((9, NotReady)),
    ),
    (
        &[Start(2, 1), Finish(2, 1), Start(2, 1)],
        Some((9, NotReady)),
    ),
    (&[Start(2, 2), Finish(2, 2), Start(2, 2)], None),
];

#[test]
fn a_name_is_used_again_after_its_end_and_while_it_lives(rt: HostRuntime) -> Result<(), Fail> {
    let w = World::new(rt.alloc(), Role::Server)?;
    each_found(&rt, &w, THREE_CALLS_OF_A_NAME, RUNS_OF_A_NAME);
    Ok(())
}

// A request of each of a hundred names.
fn request_each(w: &World, journal: &mut Journal) -> Result<(), AllocError> {
    for name in 0..100u32 {
        w.step(journal, ComesTo(1, name * 7919, Request, Chat))?;
    }
    Ok(())
}

// A message to each second of a hundred calls, and a run of that call, which begins another.
fn hear_each_second(w: &World, journal: &mut Journal) -> Result<(), AllocError> {
    for name in 0..50u32 {
        let call = name * 2 + 1;
        w.step(journal, ComesTo(1, call * 7919, ClientStream, Chat))?;
        run_twice(w, journal, call)?;
    }
    Ok(())
}

// A run of a call, and then the next one begins.
fn run_twice(w: &World, journal: &mut Journal, call: u32) -> Result<(), AllocError> {
    w.step(journal, Start(2, call))?;
    w.step(journal, Finish(2, call))?;
    w.step(journal, Start(2, call))
}

#[test]
fn each_of_many_names_has_its_own_call(rt: HostRuntime) -> Result<(), Fail> {
    let w = World::new(rt.alloc(), Role::Server)?;
    let mut journal = Journal::new(w.alloc);
    request_each(&w, &mut journal)?;
    hear_each_second(&w, &mut journal)?;
    judged(&rt, &w, &journal, None, 0);
    run_twice(&w, &mut journal, 42)?;
    judged(&rt, &w, &journal, Some((302, NotReady)), 1);
    Ok(())
}

const OF_NO_CALL: &[Case] = &[
    (
        &[
            Comes(Request, Sum),
            Comes(Completion, Sum),
            Comes(ClientStream, Sum),
            Flush,
            Start(2, 0),
            Flush,
        ],
        Some((5, Nothing)),
    ),
    (
        &[
            Comes(Request, Echo),
            Comes(ClientStream, Echo),
            Flush,
            Flush,
        ],
        Some((3, Nothing)),
    ),
    (
        &[
            Comes(ClientError, Unknown),
            Comes(Request, Unknown),
            ComesTo(9, 1, Request, Echo),
            Flush,
            Flush,
            Flush,
        ],
        Some((5, Nothing)),
    ),
];

#[test]
fn packets_that_fit_no_call_are_answered(rt: HostRuntime) -> Result<(), Fail> {
    let w = World::new(rt.alloc(), Role::Server)?;
    each_found(&rt, &w, &[], OF_NO_CALL);
    Ok(())
}

const ENDS_OF_RUNS: &[Case] = &[
    (
        &[
            Comes(Request, Chat),
            Start(2, 0),
            Replace(3, 0),
            Finish(2, 0),
        ],
        None,
    ),
    (
        &[Comes(Request, Chat), Start(2, 0), Finish(3, 0)],
        Some((2, NotRunning)),
    ),
    (&[Replace(2, 9)], Some((0, UnknownCall))),
    (
        &[
            Comes(Request, Chat),
            Start(2, 0),
            Cancel(3, 0),
            Finish(2, 0),
            Cancel(3, 0),
        ],
        Some((4, Refused)),
    ),
];

#[test]
fn runs_end_by_their_own_seat(rt: HostRuntime) -> Result<(), Fail> {
    let w = World::new(rt.alloc(), Role::Server)?;
    each_found(&rt, &w, &[], ENDS_OF_RUNS);
    Ok(())
}

const ANSWERS: &[Case] = &[
    (
        &[
            Comes(Request, Echo),
            Start(2, 0),
            Ends(Some(Status::Okay)),
            Flush,
            Replace(2, 0),
        ],
        Some((4, Refused)),
    ),
    (
        &[
            Comes(Request, Echo),
            EndIn(0),
            Start(2, 0),
            Finish(2, 0),
            Start(2, 0),
            Ends(Some(Status::Okay)),
            Replace(2, 0),
        ],
        None,
    ),
];

#[test]
fn an_answer_ends_its_call(rt: HostRuntime) -> Result<(), Fail> {
    let w = World::new(rt.alloc(), Role::Server)?;
    each_found(&rt, &w, &[], ANSWERS);
    Ok(())
}

const TICKS: &[Case] = &[
    (&[Tick(5)], None),
    (
        &[
            Comes(Request, Chat),
            Tick(5),
            Tick(6),
            Start(2, 0),
            Finish(2, 0),
            Start(2, 0),
            Finish(2, 0),
            Start(2, 0),
        ],
        Some((7, NotReady)),
    ),
    (
        &[
            Comes(Request, Chat),
            Commits(0),
            Halt(1, Why::Memory),
            Flush,
        ],
        Some((3, Nothing)),
    ),
];

#[test]
fn ticks_wait_once(rt: HostRuntime) -> Result<(), Fail> {
    let w = World::new(rt.alloc(), Role::Server)?;
    each_found(&rt, &w, &[], TICKS);
    Ok(())
}

// So many messages to one call.
fn message_often(w: &World, journal: &mut Journal, count: u32) -> Result<(), AllocError> {
    for _ in 0..count {
        w.step(journal, Comes(ClientStream, Chat))?;
    }
    Ok(())
}

#[test]
fn sixty_four_events_wait_and_no_more(rt: HostRuntime) -> Result<(), Fail> {
    let w = World::new(rt.alloc(), Role::Server)?;
    let mut journal = Journal::new(w.alloc);
    w.step(&mut journal, Comes(Request, Chat))?;
    message_often(&w, &mut journal, 63)?;
    judged(&rt, &w, &journal, None, 0);
    message_often(&w, &mut journal, 1)?;
    judged(&rt, &w, &journal, Some((64, Refused)), 1);
    Ok(())
}
