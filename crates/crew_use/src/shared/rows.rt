//! Rows of outside values: what arrives, what its arrival answers, and what goes out.
ghost use Rattle.std.specs.Prelude.{◌≡◌};
ghost use Rattle.rpc_ids.specs.declared.method.Role.TheVariants.{Server};
ghost use Rattle.rpc_shared.specs.Helpers.{IsFeeder, IsSeat};

use super::claims::{came_back, hears_end, runs};
use super::desk::Method::*;
use super::desk::{Method, Methods, arrives, open_table, packet_on, sends, share};
use super::jobs::{begin, end, look_at};
use super::letters::Letters;
use rpc_calls::Arrived;
use rpc_handlers::Maker;
use rpc_ids::Status;
use rpc_packet::PacketType::{self, *};
use rpc_shared::{Pass, Shared};
use std::process::Abort;
use std::sync::Wait;
use std::test::Fail;

/// An arrival by its channel, type and method, what it answers, and what then goes out.
pub type Step = (
    u32,
    PacketType,
    Method,
    Arrived,
    Option<(PacketType, Status)>,
);

// The packet of call 1 arrives, and what is said of it holds.
fn take_step<M: Maker, R: Abort + Wait>(
    rt: &R,
    shared: &Shared<M::H>,
    reader: &mut Pass<M::H>,
    writer: &mut Pass<M::H>,
    maker: &M,
    methods: Methods,
    step: &Step,
)
    requires role { shared.now.base.role ≡ Server }
    requires seed { M.seed_memo maker.now ≡ shared.now.base.seed }
    requires feeder { IsFeeder shared.now reader.old }
    requires seat { IsSeat shared.now writer.old }
    ensures feeder { IsFeeder shared.now reader.new }
    ensures seat { IsSeat shared.now writer.new }
{
    let (channel, ptype, method, answer, sent) = *step;
    let p = packet_on(channel, ptype, methods.of(method), 1);
    arrives(rt, shared, reader, maker, &p, Ok(answer));
    sends(rt, shared, writer, sent);
}

/// These packets of call 1 arrive, and what is said of each holds.
pub fn follow<M: Maker, R: Abort + Wait>(
    rt: &R,
    shared: &Shared<M::H>,
    reader: &mut Pass<M::H>,
    writer: &mut Pass<M::H>,
    maker: &M,
    methods: Methods,
    steps: &[Step],
)
    requires role { shared.now.base.role ≡ Server }
    requires seed { M.seed_memo maker.now ≡ shared.now.base.seed }
    requires feeder { IsFeeder shared.now reader.old }
    requires seat { IsSeat shared.now writer.old }
    ensures feeder { IsFeeder shared.now reader.new }
    ensures seat { IsSeat shared.now writer.new }
{
    for step in steps {
        take_step(rt, shared, reader, writer, maker, methods, step);
    }
}

const TWO_REQUESTS: &[Step] = &[
    (1, Request, Chat, Arrived::Opened(0), None),
    (1, Request, Chat, Arrived::Opened(1), None),
];

#[test]
fn a_request_of_a_live_name_cancels_the_old_call(rt: HostRuntime) -> Result<(), Fail> {
    let maker = Letters::new(rt.alloc(), b'a', false)?;
    let (calls, methods) = open_table(rt.alloc(), &maker)?;
    let (shared, mut passes) = share(&rt, rt.alloc(), calls);
    follow(
        &rt,
        &shared,
        &mut passes.reader,
        &mut passes.writer,
        &maker,
        methods,
        TWO_REQUESTS,
    );
    let running = begin(&rt, &shared, &mut passes.worker);
    runs(&rt, &running, 0);
    hears_end(&rt, &running, Status::Cancelled);
    let back = end(&rt, &shared, &mut passes.worker, running);
    came_back(&rt, back, Some(b'a'));
    Ok(())
}

const BEHIND_THE_COMPLETION: &[Step] = &[
    (1, Request, Sum, Arrived::Opened(0), None),
    (1, Completion, Sum, Arrived::Queued(0), None),
    (
        1,
        ClientStream,
        Sum,
        Arrived::Answered,
        Some((ServerError, Status::FailedPrecondition)),
    ),
];

#[test]
fn a_message_behind_the_completion_is_refused(rt: HostRuntime) -> Result<(), Fail> {
    let maker = Letters::new(rt.alloc(), b'a', false)?;
    let (calls, methods) = open_table(rt.alloc(), &maker)?;
    let (shared, mut passes) = share(&rt, rt.alloc(), calls);
    follow(
        &rt,
        &shared,
        &mut passes.reader,
        &mut passes.writer,
        &maker,
        methods,
        BEHIND_THE_COMPLETION,
    );
    let running = begin(&rt, &shared, &mut passes.worker);
    runs(&rt, &running, 0);
    let back = end(&rt, &shared, &mut passes.worker, running);
    came_back(&rt, back, None);
    Ok(())
}

const TO_A_UNARY_CALL: &[Step] = &[
    (1, Request, Echo, Arrived::Opened(0), None),
    (
        1,
        ClientStream,
        Echo,
        Arrived::Answered,
        Some((ServerError, Status::InvalidArgument)),
    ),
];

#[test]
fn a_message_to_a_unary_call_is_refused(rt: HostRuntime) -> Result<(), Fail> {
    let maker = Letters::new(rt.alloc(), b'a', false)?;
    let (calls, methods) = open_table(rt.alloc(), &maker)?;
    let (shared, mut passes) = share(&rt, rt.alloc(), calls);
    follow(
        &rt,
        &shared,
        &mut passes.reader,
        &mut passes.writer,
        &maker,
        methods,
        TO_A_UNARY_CALL,
    );
    Ok(())
}

const UNKNOWN: &[Step] = &[
    (1, ClientError, Unknown, Arrived::Dropped, None),
    (
        1,
        Request,
        Unknown,
        Arrived::Answered,
        Some((ServerError, Status::NotFound)),
    ),
    (
        9,
        Request,
        Chat,
        Arrived::Answered,
        Some((ServerError, Status::Unavailable)),
    ),
];

#[test]
fn packets_of_unknown_methods_and_channels_open_nothing(rt: HostRuntime) -> Result<(), Fail> {
    let maker = Letters::new(rt.alloc(), b'a', false)?;
    let (calls, methods) = open_table(rt.alloc(), &maker)?;
    let (shared, mut passes) = share(&rt, rt.alloc(), calls);
    follow(
        &rt,
        &shared,
        &mut passes.reader,
        &mut passes.writer,
        &maker,
        methods,
        UNKNOWN,
    );
    assert_eq!(rt; look_at(&rt, &shared, &mut passes.other).calls, 0);
    Ok(())
}
