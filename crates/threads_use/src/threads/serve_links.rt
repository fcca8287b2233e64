//! Connections that are served in turn, and links that fail.

use super::cases::Asked::*;
use super::cases::Links::Two;
use super::cases::{Asked, CALM, Case, Given, each_ends_so};
use super::crews::{A_LINK, COMES_FIRST};
use super::{FIRST, FIRST_FRAME, FIRST_SERVED};
use std::alloc::AllocError;

const HAS_NOTHING: &[Asked] = &[Ends(6), Writes(b""), GivesBack(0)];

// Listening is the first call of a linker, and the first connection is accepted by the second.
const FAILING_AT_ONCE: &[Case] = &[
    (
        "serve p 2 1",
        Given {
            failing_linker_call: 1,
            ..A_LINK
        },
        HAS_NOTHING,
    ),
    (
        "serve p 2 1",
        Given {
            failing_linker_call: 2,
            ..A_LINK
        },
        HAS_NOTHING,
    ),
];

#[test]
fn a_linker_that_fails_at_once_has_nothing(rt: HostRuntime) -> Result<(), AllocError> {
    each_ends_so(&rt, rt.alloc(), FAILING_AT_ONCE)
}

const TWO_SERVED: &[u8] = b"conn 1
frames 1 bad 0 other 0 dropped 0
call 0 1 70f45cfb 8b470ee9 1 unary OK
done
conn 2
frames 0 bad 0 other 0 dropped 0
done
";

const TWO_CONNECTIONS: &[Case] = &[(
    "serve p 2 2",
    Given {
        links: Two(COMES_FIRST, (b"", 0, 0)),
        ..CALM
    },
    &[
        Ends(0),
        Writes(TWO_SERVED),
        GivesBack(2),
        Answers(0, FIRST_FRAME),
        Answers(1, b""),
    ],
)];

#[test]
fn two_connections_are_served_in_turn(rt: HostRuntime) -> Result<(), AllocError> {
    each_ends_so(&rt, rt.alloc(), TWO_CONNECTIONS)
}

const FAILING_ACCEPT: &[Case] = &[(
    "serve p 1 2",
    Given {
        links: Two(COMES_FIRST, COMES_FIRST),
        failing_linker_call: 3,
        ..CALM
    },
    &[Ends(6), Writes(FIRST_SERVED), GivesBack(1)],
)];

#[test]
fn what_was_served_before_a_failing_accept_is_told(rt: HostRuntime) -> Result<(), AllocError> {
    each_ends_so(&rt, rt.alloc(), FAILING_ACCEPT)
}

const BEHIND_A_READ: &[u8] = b"conn 1
frames 1 bad 0 other 0 dropped 0
call 0 1 70f45cfb 8b470ee9 1 unary OK
source fault
";

const BEHIND_A_WRITE: &[u8] = b"conn 1
frames 1 bad 0 other 0 dropped 0
call 0 1 70f45cfb 8b470ee9 1 unary OK
sink fault
";

// The second read of the first link fails, and then its first write.
const FAILING_LINKS: &[Case] = &[
    (
        "serve p 2 2",
        Given {
            links: Two((FIRST, 2, 0), COMES_FIRST),
            ..CALM
        },
        &[Ends(3), Writes(BEHIND_A_READ), GivesBack(1)],
    ),
    (
        "serve p 2 2",
        Given {
            links: Two((FIRST, 0, 1), COMES_FIRST),
            ..CALM
        },
        &[Ends(4), Writes(BEHIND_A_WRITE), GivesBack(1)],
    ),
];

#[test]
fn a_fault_of_a_link_is_told_and_ends_the_run(rt: HostRuntime) -> Result<(), AllocError> {
    each_ends_so(&rt, rt.alloc(), FAILING_LINKS)
}

const FAILING_OUTPUT: &[Case] = &[(
    "serve p 2 1",
    Given {
        failing_write: 1,
        ..A_LINK
    },
    &[Ends(4), Writes(b""), GivesBack(1), Answers(0, FIRST_FRAME)],
)];

#[test]
fn a_link_is_answered_though_the_output_fails(rt: HostRuntime) -> Result<(), AllocError> {
    each_ends_so(&rt, rt.alloc(), FAILING_OUTPUT)
}

const FAILING_STORE: &[Case] = &[(
    "serve p 2 2",
    Given {
        links: Two(COMES_FIRST, COMES_FIRST),
        failing_store_call: 1,
        ..CALM
    },
    &[
        Ends(5),
        Writes(b"conn 1\nframes 0 bad 0 other 0 dropped 0\nstore fault\n"),
        GivesBack(1),
        Answers(0, b""),
    ],
)];

#[test]
fn a_store_that_cannot_be_listed_ends_the_run(rt: HostRuntime) -> Result<(), AllocError> {
    each_ends_so(&rt, rt.alloc(), FAILING_STORE)
}
