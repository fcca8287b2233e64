//! Bridges between two links, and links that fail.

use super::cases::Asked::*;
use super::cases::Links::Two;
use super::cases::{Asked, CALM, Case, Given, each_ends_so};
use std::alloc::AllocError;

// A frame with address 123, and one with address 82; and both.
const TO_123: &[u8] = b"\x7E\xF7\x03\x3F\x34\x2D\x83\x7E";

const TO_82: &[u8] = b"\x7E\xA5\x03\xE9\x0B\xA0\x0B\x7E";

const TO_BOTH: &[u8] = b"\x7E\xF7\x03\x3F\x34\x2D\x83\x7E\x7E\xA5\x03\xE9\x0B\xA0\x0B\x7E";

// Both links give a frame for either address.
const BOTH_WAYS: Given = Given {
    links: Two((TO_BOTH, 0, 0), (TO_BOTH, 0, 0)),
    ..CALM
};

const REPORT: &[u8] = b"left passed 1 home 1 lost 0 other 0 bad 0 full 0
right passed 1 home 1 lost 0 other 0 bad 0 full 0
done
";

const A_BRIDGE: &[Case] = &[(
    "bridge l r 123 82",
    BOTH_WAYS,
    &[
        Ends(0),
        Writes(REPORT),
        GivesBack(2),
        Answers(0, TO_82),
        Answers(1, TO_123),
    ],
)];

#[test]
fn frames_go_over_a_bridge(rt: HostRuntime) -> Result<(), AllocError> {
    each_ends_so(&rt, rt.alloc(), A_BRIDGE)
}

const SOURCE_FAULT: &[Asked] = &[Ends(3), WritesLast(b"source fault\n"), GivesBack(2)];

const SINK_FAULT: &[Asked] = &[Ends(4), WritesLast(b"sink fault\n"), GivesBack(2)];

// A read or a write of the left link fails, and of the right one. A first read gives all.
const FAILING_LINKS: &[Case] = &[
    (
        "bridge l r 123 82",
        Given {
            links: Two((TO_BOTH, 2, 0), (TO_BOTH, 0, 0)),
            ..CALM
        },
        SOURCE_FAULT,
    ),
    (
        "bridge l r 123 82",
        Given {
            links: Two((TO_BOTH, 0, 1), (TO_BOTH, 0, 0)),
            ..CALM
        },
        SINK_FAULT,
    ),
    (
        "bridge l r 123 82",
        Given {
            links: Two((TO_BOTH, 0, 0), (TO_BOTH, 1, 0)),
            ..CALM
        },
        SOURCE_FAULT,
    ),
    (
        "bridge l r 123 82",
        Given {
            links: Two((TO_BOTH, 0, 0), (TO_BOTH, 1, 1)),
            ..CALM
        },
        SINK_FAULT,
    ),
];

#[test]
fn a_fault_of_a_bridge_is_told(rt: HostRuntime) -> Result<(), AllocError> {
    each_ends_so(&rt, rt.alloc(), FAILING_LINKS)
}

// The left link is made by the linker's first call, and the right one by the second.
const FAILING_LINKER: &[Case] = &[
    (
        "bridge l r 123 82",
        Given {
            failing_linker_call: 1,
            ..BOTH_WAYS
        },
        &[Ends(6), Writes(b""), GivesBack(0)],
    ),
    (
        "bridge l r 123 82",
        Given {
            failing_linker_call: 2,
            ..BOTH_WAYS
        },
        &[Ends(6), Writes(b""), GivesBack(1)],
    ),
];

#[test]
fn a_link_that_cannot_be_made_writes_nothing(rt: HostRuntime) -> Result<(), AllocError> {
    each_ends_so(&rt, rt.alloc(), FAILING_LINKER)
}

const NO_BRIDGE: &[Asked] = &[Ends(2), Writes(b""), GivesBack(0)];

const OTHER_WORDS: &[Case] = &[
    ("bridge l r 1 1", BOTH_WAYS, NO_BRIDGE),
    ("bridge l r 1 4294967296", BOTH_WAYS, NO_BRIDGE),
    ("bridge l r 01 2", BOTH_WAYS, NO_BRIDGE),
    ("bridge l r 1", BOTH_WAYS, NO_BRIDGE),
    ("bridge l r 1 2 3", BOTH_WAYS, NO_BRIDGE),
    ("Bridge l r 1 2", BOTH_WAYS, NO_BRIDGE),
    ("bridge '' r 1 2", BOTH_WAYS, NO_BRIDGE),
    ("bridge l '' 1 2", BOTH_WAYS, NO_BRIDGE),
];

#[test]
fn other_words_make_no_bridge(rt: HostRuntime) -> Result<(), AllocError> {
    each_ends_so(&rt, rt.alloc(), OTHER_WORDS)
}
