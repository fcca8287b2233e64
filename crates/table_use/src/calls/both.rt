//! The same lists of changes over a server's table and over the plain one.
ghost use Rattle.std.specs.Prelude.{◌≡◌};
ghost use Rattle.rpc_ids.specs.declared.method.Role.TheVariants.{Server};

use super::desk::{Methods, arrives, letters, open_table, packet_on, served};
use super::letters::{Letter, Letters};
use super::plain::Plain;
use super::steps::Method::{self, *};
use super::turns::Gone::{self, *};
use super::turns::Turn::*;
use super::turns::{Goes, Turn, agree, all_go_out, same_journal, take_turn};
use rpc_calls::Calls;
use rpc_handlers::Maker;
use rpc_ids::{Role, Status};
use rpc_packet::PacketType::{self, *};
use std::alloc::{AllocError, Global};
use std::process::Abort;
use std::test::Fail;

// A change of a server's table.
#[derive(Clone, Copy)]
enum Change {
    // A packet comes on this channel, of this type, method and call id.
    Comes(u32, PacketType, Method, u32),
    Takes(Turn),
}

use Change::*;

// Changes of a table whose runs end their calls or don't, and all that then goes out.
struct List {
    ends: bool,
    changes: &'static [Change],
    sent: &'static [Goes],
}

// The change is made to both, with the same answer.
fn make(
    rt: &impl Abort,
    calls: &mut Calls<Letter>,
    plain: &mut Plain,
    maker: &Letters,
    methods: Methods,
    change: Change,
    step: usize,
) -> Result<(), AllocError>
    requires role { calls.old.setting.role ≡ Server }
    requires seed { ⟦<Letters as Maker>⟧.seed_memo maker.now ≡ calls.old.setting.seed }
    ensures { calls.new.setting ≡ calls.old.setting }
{
    match change {
        Comes(channel, ptype, method, id) => {
            let mut p = packet_on(channel, ptype, methods.of(method));
            p.name.call = id;
            let want = plain.arrive(&p)?;
            arrives(rt, calls, maker, &p, want, step);
            Ok(())
        }
        Takes(turn) => take_turn(rt, maker.alloc, calls, plain, maker.ends, turn, step),
    }
}

// The changes are made to both, which tell the same after each.
fn make_all(
    rt: &impl Abort,
    calls: &mut Calls<Letter>,
    plain: &mut Plain,
    maker: &Letters,
    methods: Methods,
    changes: &[Change],
) -> Result<(), AllocError>
    requires role { calls.old.setting.role ≡ Server }
    requires seed { ⟦<Letters as Maker>⟧.seed_memo maker.now ≡ calls.old.setting.seed }
    ensures { calls.new.setting ≡ calls.old.setting }
{
    'changes: for (step, change) in changes.iter().enumerate() {
        make(rt, calls, plain, maker, methods, *change, step)?;
        agree(rt, calls, plain, step);
    }
    Ok(())
}

// A list is gone through by both.
fn both_agree(rt: &impl Abort, alloc: Global, list: &List) -> Result<(), Fail> {
    let maker = letters(alloc, b'a', list.ends);
    let (mut calls, methods) = open_table(alloc, &maker)?;
    let (channels, registry, _) = served(alloc)?;
    let mut plain = Plain::new(alloc, Role::Server, channels, registry);
    make_all(rt, &mut calls, &mut plain, &maker, methods, list.changes)?;
    all_go_out(rt, &mut calls, &mut plain, list.sent)?;
    same_journal(rt, alloc, &calls, &plain)
}

const ITS_LETTER: Gone = Sent(ServerStream, Status::Okay);

const ITS_END: Gone = Sent(Response, Status::Okay);

const ITS_CANCEL: Gone = Sent(ServerError, Status::Cancelled);

// A name is opened, answered and closed, and opened again, also while the call that has left is asked for.
const A_NAME_AGAIN: List = List {
    ends: true,
    changes: &[
        Comes(1, Request, Chat, 1),
        Takes(Runs),
        Comes(1, ClientStream, Chat, 1),
        Comes(1, Request, Chat, 1),
        Comes(1, ClientStream, Chat, 1),
        Takes(Replaces(0)),
        Takes(Replaces(1)),
        Takes(Runs),
        Comes(1, Request, Chat, 1),
        Takes(Cancels(0)),
        Takes(Cancels(0)),
        Takes(Runs),
        Takes(Runs),
        Takes(Replaces(9)),
    ],
    sent: &[
        (Some(0), ITS_LETTER),
        (Some(0), ITS_END),
        (None, Sent(ServerError, Status::FailedPrecondition)),
        (Some(1), ITS_LETTER),
        (Some(1), ITS_END),
        (Some(0), Left),
        (Some(2), ITS_LETTER),
        (Some(2), ITS_END),
    ],
};

// A request of a live name, cancels of calls that live, run and have left, and errors of the client.
const ENDED_FROM_OUTSIDE: List = List {
    ends: false,
    changes: &[
        Comes(1, Request, Chat, 1),
        Comes(1, Request, Chat, 1),
        Takes(Runs),
        Takes(Begins),
        Takes(Cancels(1)),
        Takes(Cancels(0)),
        Takes(Cancels(0)),
        Comes(1, Request, Sum, 7),
        Comes(1, ClientStream, Sum, 7),
        Comes(1, ClientError, Sum, 7),
        Takes(Runs),
        Takes(Runs),
        Comes(1, ClientError, Sum, 7),
        Comes(1, Request, Sum, 7),
        Takes(Cancels(3)),
        Comes(1, Request, Sum, 7),
        Comes(1, Completion, Sum, 7),
        Comes(1, ClientStream, Sum, 7),
        Takes(Cancels(2)),
    ],
    sent: &[
        (Some(1), ITS_CANCEL),
        (Some(0), Left),
        (Some(3), ITS_CANCEL),
        (Some(3), Left),
        (None, Sent(ServerError, Status::FailedPrecondition)),
        (Some(2), Left),
    ],
};

// Ticks and the end of input reach the calls that live by their numbers, and none that has left.
const TOLD_BY_NUMBERS: List = List {
    ends: false,
    changes: &[
        Comes(1, Request, Chat, 1),
        Comes(2, Request, Chat, 2),
        Comes(1, Request, Chat, 3),
        Takes(Runs),
        Takes(Runs),
        Takes(Runs),
        Takes(Cancels(1)),
        Takes(Ticks(500)),
        Takes(Ticks(1000)),
        Takes(Runs),
        Takes(Runs),
        Takes(Runs),
        Comes(2, Request, Chat, 4),
        Takes(Runs),
        Takes(Ticks(1500)),
        Comes(1, ClientError, Chat, 1),
        Takes(InputEnds),
        Takes(Begins),
        Takes(Runs),
        Takes(Runs),
        Takes(Runs),
        Takes(Runs),
        Takes(Runs),
    ],
    sent: &[
        (Some(0), ITS_LETTER),
        (Some(1), ITS_LETTER),
        (Some(2), ITS_LETTER),
        (Some(1), ITS_CANCEL),
        (Some(1), Left),
        (Some(0), ITS_LETTER),
        (Some(2), ITS_LETTER),
        (Some(3), ITS_LETTER),
        (Some(3), ITS_LETTER),
    ],
};

// A channel is closed while its calls wait and run, and those of another live on.
const A_CLOSED_CHANNEL: List = List {
    ends: false,
    changes: &[
        Comes(1, Request, Chat, 1),
        Comes(2, Request, Chat, 1),
        Comes(1, Request, Echo, 2),
        Comes(1, Request, Sum, 3),
        Takes(Begins),
        Takes(Cancels(3)),
        Takes(Closes(1)),
        Takes(Closes(1)),
        Takes(Closes(9)),
        Comes(1, Request, Chat, 1),
        Comes(2, ClientStream, Chat, 1),
        Takes(Replaces(1)),
        Takes(Replaces(2)),
        Takes(Runs),
        Takes(Runs),
        Takes(Runs),
        Takes(Ticks(5)),
        Takes(Runs),
        Takes(Closes(2)),
        Takes(Runs),
    ],
    sent: &[
        (Some(3), ITS_CANCEL),
        (Some(3), Left),
        (Some(0), Sent(ServerError, Status::Aborted)),
        (Some(2), Sent(ServerError, Status::Aborted)),
        (None, Sent(ServerError, Status::Unavailable)),
        (Some(1), ITS_LETTER),
        (Some(1), ITS_LETTER),
        (Some(1), ITS_LETTER),
        (Some(1), Sent(ServerError, Status::Aborted)),
    ],
};

const LISTS: &[List] = &[
    A_NAME_AGAIN,
    ENDED_FROM_OUTSIDE,
    TOLD_BY_NUMBERS,
    A_CLOSED_CHANNEL,
];

#[test]
fn a_server_and_the_plain_table_tell_the_same(rt: HostRuntime) -> Result<(), Fail> {
    for list in LISTS {
        both_agree(&rt, rt.alloc(), list)?;
    }
    Ok(())
}
