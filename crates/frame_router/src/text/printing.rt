//! What is printed.
ghost use Rattle.std.specs.Prelude.{◌≡◌, ◌++◌, OnOk, string_bytes};
ghost use Rattle.frame_router.specs.text.Printed.{frame_line, side_name, tally_line};

use crate::{Port, Tally};
use std::alloc::{AllocError, Global};

/// A frame that is handed out for a side.
#[tactic(auto, unfolding(crate::specs::text::Printed::frame_line))]
pub(crate) fn push_frame(
    alloc: Global,
    to: Port,
    frame: &[u8],
    out: &mut String,
) -> Result<(), AllocError>
    ensures { OnOk result (string_bytes out.new ≡ string_bytes out.old ++ frame_line to frame.now) }
{
    let side = side_name(to);
    let digits = hex::encode(alloc, frame)?;
    writeln!(out, "{side} {digits}")
}

/// Appends a line that tells how the segments that came from a side were counted.
#[tactic(auto, unfolding(crate::specs::text::Printed::tally_line))]
pub fn push_tally(from: Port, tally: Tally, out: &mut String) -> Result<(), AllocError>
    ensures { OnOk result (string_bytes out.new ≡ string_bytes out.old ++ tally_line from tally) }
{
    let side = side_name(from);
    let Tally {
        passed,
        home,
        lost,
        other,
        bad,
        full,
    } = tally;
    writeln!(
        out,
        "{side} passed {passed} home {home} lost {lost} other {other} bad {bad} full {full}"
    )
}

fn side_name(side: Port) -> &'static str
    ensures { result.now ≡ side_name side }
{
    match side {
        Port::Left => "left",
        Port::Right => "right",
    }
}
