//! A router, step by step.
ghost use Rattle.std.specs.Prelude.{◌≡◌, ◌++◌, take, OnOk, string_bytes};
ghost use Rattle.frame_router.specs.Fates.{other_side};
ghost use Rattle.frame_router.specs.Routed.{lane_from};
ghost use Rattle.frame_router.specs.text.Flows.{Flow, Flows, drained, fed};
ghost use Rattle.frame_router.specs.text.Following.{Follows, FollowsBoth};
ghost use Rattle.frame_router.specs.text.Printed.{after_step, end_lines, frame_lines, step_lines};

use crate::text::line::{MAX_DRAINED, Step};
use crate::text::printing::{push_frame, push_tally};
use crate::{Port, Router};
use std::alloc::{AllocError, Global};

/// Does what a step says, and appends the frames that it hands out, each in a line.
pub(crate) fn run_step(
    alloc: Global,
    router: &mut Router,
    step: &Step,
    out: &mut String,
) -> Result<(), AllocError>
    ensures follows { OnOk result ((flows : Flows) → FollowsBoth router.old.routes router.old flows →
        FollowsBoth router.old.routes router.new (after_step router.old.routes step.now flows)) }
    ensures told { OnOk result ((flows : Flows) → FollowsBoth router.old.routes router.old flows →
        string_bytes out.new ≡ string_bytes out.old ++ step_lines step.now flows) }
{
    match step {
        Step::Feed { from, bytes } => feed_all(router, *from, bytes.as_slice()),
        Step::Drain { to, count } => drain(alloc, router, *to, *count, out),
    }
}

/// Appends all frames that wait, for the left side first, and then how the segments were counted.
pub(crate) fn push_end(
    alloc: Global,
    router: &mut Router,
    out: &mut String,
) -> Result<(), AllocError>
    ensures { OnOk result ((flows : Flows) → FollowsBoth router.old.routes router.old flows →
        string_bytes out.new ≡ string_bytes out.old ++ end_lines router.old.routes flows) }
{
    drain(alloc, router, Port::Left, MAX_DRAINED, out)?;
    drain(alloc, router, Port::Right, MAX_DRAINED, out)?;
    push_tally(Port::Left, router.tally(Port::Left), out)?;
    push_tally(Port::Right, router.tally(Port::Right), out)
}

// Feeds all of these bytes from a side.
fn feed_all(router: &mut Router, from: Port, bytes: &[u8]) -> Result<(), AllocError>
    ensures routes { router.new.routes ≡ router.old.routes }
    ensures across { lane_from router.new (other_side from) ≡ lane_from router.old (other_side from) }
    ensures ok { OnOk result ((flow : Flow) → Follows router.old.routes from (lane_from router.old from) flow →
        Follows router.old.routes from (lane_from router.new from) (fed router.old.routes from bytes.now flow)) }
{
    let mut done = 0;
    'segments: while done < bytes.len() {
        match router.feed(from, &bytes[done..]) {
            Ok(taken) => done += taken,
            Err(error) => return Err(error),
        }
    }
    Ok(())
}

// Hands out up to so many frames for a side, and appends each in a line.
fn drain(
    alloc: Global,
    router: &mut Router,
    to: Port,
    count: u32,
    out: &mut String,
) -> Result<(), AllocError>
    ensures routes { router.new.routes ≡ router.old.routes }
    ensures across { lane_from router.new to ≡ lane_from router.old to }
    ensures follows { OnOk result ((flow : Flow) →
        Follows router.old.routes (other_side to) (lane_from router.old (other_side to)) flow →
        Follows router.old.routes (other_side to) (lane_from router.new (other_side to)) (drained count flow)) }
    ensures told { OnOk result ((flow : Flow) →
        Follows router.old.routes (other_side to) (lane_from router.old (other_side to)) flow →
        string_bytes out.new ≡ string_bytes out.old ++ frame_lines to (take count flow.queue.waiting)) }
{
    let mut left = count;
    'frames: while left > 0 {
        let Some(frame) = router.next(to) else {
            return Ok(());
        };
        push_frame(alloc, to, frame.as_slice(), out)?;
        left -= 1;
    }
    Ok(())
}
