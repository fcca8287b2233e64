//! The report of one connection among several.

ghost use Rattle.std.specs.Prelude.{◌≡◌, IfOk, string_bytes};
ghost use Rattle.run_report.specs.ConnectionReport.{connection_report};

use crate::lines::{add_connection_line, add_frames_line, add_why_line};
use crate::report::add_call_lines;
use link_io::Why;
use rpc_calls::Calls;
use rpc_frames::Counts;
use rpc_handlers::Handler;
use std::alloc::{AllocError, Global};

/// The report of a connection with its number: a line with this, one with the counts of its stream, a line for each call, and one
/// that tells why its session ended, but for want of memory. What went out isn't told: the peer has it.
pub fn connection_text<H: Handler>(
    alloc: Global,
    number: u32,
    counts: Counts,
    calls: &Calls<H>,
    why: Why,
) -> Result<String, AllocError>
    ensures { IfOk result (λ text. string_bytes text ≡ connection_report number calls.now counts why) }
{
    let mut text = String::new(alloc);
    add_connection_line(number, &mut text)?;
    add_frames_line(counts, &mut text)?;
    add_call_lines(alloc, calls, &mut text)?;
    add_why_line(why, &mut text)?;
    Ok(text)
}
