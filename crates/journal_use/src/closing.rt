//! Channels that close, in journals that are judged.

use crate::world::Method::*;
use crate::world::Step::*;
use crate::world::{Case, Step, World, each_found};
use rpc_ids::Role;
use rpc_journal::Broken::*;
use rpc_packet::PacketType::*;
use std::test::Fail;

// Calls 0 and 1 of Chat on channel 1 and call 2 on channel 2, of which call 0 runs, and then a Close of channel 1.
const CLOSED: &[Step] = &[
    ComesTo(1, 1, Request, Chat),
    ComesTo(1, 2, Request, Chat),
    ComesTo(2, 1, Request, Chat),
    Start(2, 0),
    Close(2, 1),
];

const BEHIND_A_CLOSE: &[Case] = &[
    // Both calls of the channel have an end, and the other one has none.
    (&[Replace(3, 0)], Some((5, Refused))),
    (&[Replace(3, 1)], Some((5, Refused))),
    (&[Replace(3, 2)], None),
    // The channel is closed once, and the other one isn't closed.
    (&[Close(2, 1)], Some((5, Refused))),
    (&[Close(2, 2)], None),
    (&[Close(2, 3)], Some((5, Refused))),
    // A call that runs goes on.
    (&[Finish(2, 0)], None),
    (&[Start(3, 0)], Some((5, NotReady))),
    (&[Start(3, 1)], None),
    // A REQUEST on it is answered.
    (&[ComesTo(1, 3, Request, Chat)], None),
];

#[test]
fn a_close_ends_the_live_calls_of_its_channel(rt: HostRuntime) -> Result<(), Fail> {
    let w = World::new(rt.alloc(), Role::Server)?;
    each_found(&rt, &w, CLOSED, BEHIND_A_CLOSE);
    Ok(())
}

const TOLD: &[Case] = &[
    (&[Flush, Flush, Flush], Some((7, Nothing))),
    // The end alone waits for each of them.
    (
        &[Start(3, 1), Finish(3, 1), Start(3, 1)],
        Some((7, NotReady)),
    ),
    // A REQUEST on the closed channel opens no call, and is answered.
    (
        &[
            ComesTo(1, 3, Request, Chat),
            Flush,
            Flush,
            Flush,
            Replace(3, 3),
        ],
        Some((9, UnknownCall)),
    ),
];

#[test]
fn the_peer_is_told_of_each_call_that_ends(rt: HostRuntime) -> Result<(), Fail> {
    let w = World::new(rt.alloc(), Role::Server)?;
    each_found(&rt, &w, CLOSED, TOLD);
    Ok(())
}
