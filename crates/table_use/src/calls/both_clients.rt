//! The same lists of changes over a client's table and over the plain one.
ghost use Rattle.std.specs.Prelude.{◌≡◌};
ghost use Rattle.rpc_handlers.specs.HandlerRule.{empty_memo};
ghost use Rattle.rpc_ids.specs.declared.method.Role.TheVariants.{Client};

use super::client_desk::{
    Methods, completes, from_server, hears_from, invokes, known, name_on, open_client,
};
use super::letters::Letter;
use super::plain::Plain;
use super::steps::Method::{self, *};
use super::turns::Gone::{self, *};
use super::turns::Turn::*;
use super::turns::{Goes, Turn, agree, all_go_out, same_journal, take_turn};
use rpc_calls::Calls;
use rpc_ids::{Role, Status};
use rpc_packet::PacketType::{self, *};
use std::alloc::{AllocError, Global};
use std::process::Abort;
use std::test::Fail;

// A change of a client's table.
#[derive(Clone, Copy)]
enum Change {
    // A call of this method is asked for, on this channel and with this call id.
    Asks(u32, Method, u32),
    // A stream is completed.
    Completes(u32),
    // A packet comes of this type, method, call id and status.
    Comes(PacketType, Method, u32, Status),
    Takes(Turn),
}

use Change::*;

// Changes of a table, and all that then goes out.
struct List {
    changes: &'static [Change],
    sent: &'static [Goes],
}

// The change is made to both, with the same answer. Handlers go on.
fn make(
    rt: &impl Abort,
    alloc: Global,
    calls: &mut Calls<Letter>,
    plain: &mut Plain,
    methods: Methods,
    change: Change,
    step: usize,
) -> Result<(), AllocError>
    requires role { calls.old.setting.role ≡ Client }
    requires seed { calls.old.setting.seed ≡ empty_memo }
    ensures { calls.new.setting ≡ calls.old.setting }
{
    match change {
        Asks(channel, method, id) => {
            let name = name_on(channel, methods.of(method), id);
            invokes(rt, calls, alloc, name, false, plain.invoke(2, name)?, step);
            Ok(())
        }
        Completes(call) => {
            completes(rt, calls, call, plain.done(2, call)?, step);
            Ok(())
        }
        Comes(ptype, method, id, status) => {
            let p = from_server(ptype, methods.of(method), id, status);
            hears_from(rt, calls, alloc, &p, plain.arrive(&p)?, step);
            Ok(())
        }
        Takes(turn) => take_turn(rt, alloc, calls, plain, false, turn, step),
    }
}

// The changes are made to both, which tell the same after each.
fn make_all(
    rt: &impl Abort,
    alloc: Global,
    calls: &mut Calls<Letter>,
    plain: &mut Plain,
    methods: Methods,
    changes: &[Change],
) -> Result<(), AllocError>
    requires role { calls.old.setting.role ≡ Client }
    requires seed { calls.old.setting.seed ≡ empty_memo }
    ensures { calls.new.setting ≡ calls.old.setting }
{
    'changes: for (step, change) in changes.iter().enumerate() {
        make(rt, alloc, calls, plain, methods, *change, step)?;
        agree(rt, calls, plain, step);
    }
    Ok(())
}

// A list is gone through by both.
fn both_agree(rt: &impl Abort, alloc: Global, list: &List) -> Result<(), Fail> {
    let (mut calls, methods) = open_client(alloc)?;
    let (channels, registry, _) = known(alloc)?;
    let mut plain = Plain::new(alloc, Role::Client, channels, registry);
    make_all(rt, alloc, &mut calls, &mut plain, methods, list.changes)?;
    all_go_out(rt, &mut calls, &mut plain, list.sent)?;
    same_journal(rt, alloc, &calls, &plain)
}

const ITS_REQUEST: Gone = Sent(Request, Status::Okay);

const ITS_LETTER: Gone = Sent(ClientStream, Status::Okay);

const ITS_CANCEL: Gone = Sent(ClientError, Status::Cancelled);

// A name is asked for while it lives, after it was answered, and after it was cancelled.
const A_NAME_AGAIN: List = List {
    changes: &[
        Asks(1, Chat, 1),
        Asks(1, Chat, 1),
        Comes(ServerStream, Chat, 1, Status::Okay),
        Comes(Response, Chat, 1, Status::Okay),
        Asks(1, Chat, 1),
        Takes(Runs),
        Takes(Runs),
        Completes(0),
        Completes(1),
        Completes(1),
        Comes(ServerStream, Chat, 1, Status::Okay),
        Takes(Runs),
        Takes(Cancels(1)),
        Comes(ServerStream, Chat, 1, Status::Okay),
        Comes(ServerError, Chat, 1, Status::Internal),
        Asks(1, Chat, 1),
        Takes(Cancels(0)),
        Takes(Replaces(2)),
        Takes(Replaces(1)),
    ],
    sent: &[
        (Some(0), ITS_REQUEST),
        (Some(1), ITS_REQUEST),
        (Some(1), Sent(Completion, Status::Okay)),
        (Some(1), ITS_CANCEL),
        (Some(1), Left),
        (None, Sent(ClientError, Status::FailedPrecondition)),
        (Some(2), ITS_REQUEST),
        (Some(0), Left),
    ],
};

// Calls end by what comes, by the end of input and by a closed channel.
const ENDED_FROM_OUTSIDE: List = List {
    changes: &[
        Asks(1, Echo, 1),
        Asks(1, Count, 2),
        Asks(1, Sum, 3),
        Asks(1, Chat, 4),
        Asks(2, Chat, 4),
        Asks(1, Unknown, 4),
        Comes(ServerStream, Echo, 1, Status::Okay),
        Comes(ServerStream, Count, 2, Status::Okay),
        Comes(ServerError, Sum, 3, Status::Internal),
        Takes(Ticks(5)),
        Takes(Runs),
        Takes(Begins),
        Comes(Response, Count, 2, Status::Okay),
        Takes(Runs),
        Completes(0),
        Completes(2),
        Takes(Closes(1)),
        Comes(ServerStream, Chat, 4, Status::Okay),
        Asks(1, Chat, 5),
        Takes(InputEnds),
        Takes(Runs),
        Takes(Runs),
    ],
    sent: &[
        (Some(0), ITS_REQUEST),
        (Some(1), ITS_REQUEST),
        (Some(2), ITS_REQUEST),
        (Some(3), ITS_REQUEST),
        (Some(0), Sent(ClientError, Status::InvalidArgument)),
        (Some(3), Sent(ClientError, Status::Aborted)),
    ],
};

const LISTS: &[List] = &[A_NAME_AGAIN, ENDED_FROM_OUTSIDE];

#[test]
fn a_client_and_the_plain_table_tell_the_same(rt: HostRuntime) -> Result<(), Fail> {
    for list in LISTS {
        both_agree(&rt, rt.alloc(), list)?;
    }
    Ok(())
}
