//! The moment from which a session counts.

use super::{number_is, serve_echoes, sink, source, why_is};
use link_io::{StepClock, Why};
use rpc_crew::Free;
use std::test::Fail;

// What a clock gave before a session isn't asked for: its first moment in the session counts.
#[test]
fn a_session_counts_from_its_first_moment(rt: HostRuntime) -> Result<(), Fail> {
    let alloc = rt.alloc();
    let did = serve_echoes(
        &rt,
        alloc,
        &mut source(alloc, Vec::new(alloc)),
        &mut sink(alloc, &[])?,
        1,
        &mut StepClock::new(Vec::from_slice(alloc, &[1_000])?),
        &Free,
    )?;
    why_is(&rt, did, Why::Settled);
    number_is(&rt, did.began, 1_000);
    Ok(())
}
