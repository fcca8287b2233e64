//! A crew's report, and a connection that is served.

use super::cases::Asked::*;
use super::cases::Links::One;
use super::cases::{Asked, CALM, Case, Comes, Given, each_ends_so};
use super::{FIRST, FIRST_FRAME, FIRST_SERVED, SECOND};
use std::alloc::AllocError;

/// Both requests.
pub(super) const BOTH: &[&[u8]] = &[FIRST, SECOND];

/// The report of both requests.
pub(super) const CREW_REPORT: &[u8] = b"frames 2 bad 0 other 0 dropped 0
call 0 1 70f45cfb 8b470ee9 1 unary OK
call 1 1 70f45cfb 8b470ee9 2 unary OK
out 0 7ea503080110011dfb5cf47025e90e478b2a0361626338019794283c7e
out 1 7ea503080110011dfb5cf47025e90e478b2a0361626338022dc521a57e
done
";

/// A crew that has answered both requests.
pub(super) const BOTH_REPORTED: &[Asked] = &[Ends(0), Writes(CREW_REPORT)];

const TWO_REQUESTS: &[Case] = &[(
    "crew 4",
    Given {
        input: BOTH,
        ..CALM
    },
    BOTH_REPORTED,
)];

#[test]
fn a_crew_reports_call_by_call(rt: HostRuntime) -> Result<(), AllocError> {
    each_ends_so(&rt, rt.alloc(), TWO_REQUESTS)
}

/// The first REQUEST, over a link that doesn't fail.
pub(super) const COMES_FIRST: Comes = (FIRST, 0, 0);

/// A linker of that link.
pub(super) const A_LINK: Given = Given {
    links: One(COMES_FIRST),
    ..CALM
};

/// The connection was served, and no other.
pub(super) const SERVED: &[Asked] = &[
    Ends(0),
    Writes(FIRST_SERVED),
    GivesBack(1),
    Answers(0, FIRST_FRAME),
];

const A_CONNECTION: &[Case] = &[("serve p 4 1", A_LINK, SERVED)];

#[test]
fn a_connection_is_answered_and_told(rt: HostRuntime) -> Result<(), AllocError> {
    each_ends_so(&rt, rt.alloc(), A_CONNECTION)
}
