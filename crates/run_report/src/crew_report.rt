//! The report of a session whose handlers ran side by side, call by call.

ghost use Rattle.std.specs.Prelude.{◌≡◌, ◌++◌, IfOk, OnOk, List, map, string_bytes};
ghost use Rattle.std.specs.Borrow.{Bor};
ghost use Rattle.run_report.specs.CrewReport.{crew_report, lines_by_call, numbered_lines, numbered_lines_of_item, numbered_stored_lines};

use crate::items::{go_behind, key};
use crate::items_by_call::{ItemsByCall, sorted_by_call};
use crate::lines::{
    add_frames_line, add_numbered_out_line, add_numbered_stored_line, add_why_line,
};
use crate::report::add_call_lines;
use crate::uploads::{Upload, Uploads};
use link_io::Why;
use rpc_calls::Calls;
use rpc_frames::Counts;
use rpc_handlers::{Handler, Out};
use rpc_journal::{Act, Item};
use std::alloc::{AllocError, Global};

/// The report of a session with workers: a line with the counts of its stream, a line for each call, the lines of the items
/// that were made, each with the number of its call, and one that tells why the session ended. The items are told call by call,
/// after the replies that belong to none, so the text doesn't show the order in which the workers came to them. Want of
/// memory has no last line: its report is cut before it. It takes time in proportion to the calls and the items.
pub fn crew_text<H: Handler>(
    alloc: Global,
    counts: Counts,
    calls: &Calls<H>,
    items: &[Item],
    why: Why,
) -> Result<String, AllocError>
    ensures { IfOk result (λ text. string_bytes text ≡ crew_report calls.now counts items.now why) }
{
    let mut text = String::new(alloc);
    add_frames_line(counts, &mut text)?;
    add_call_lines(alloc, calls, &mut text)?;
    add_lines_by_call(alloc, calls.count(), items, &mut text)?;
    add_why_line(why, &mut text)?;
    Ok(text)
}

// The lines of the items of so many calls: of the replies, and then of each call.
fn add_lines_by_call(
    alloc: Global,
    count: u32,
    items: &[Item],
    text: &mut String,
) -> Result<(), AllocError>
    ensures { OnOk result (string_bytes text.new ≡ string_bytes text.old ++ lines_by_call count items.now) }
{
    let ItemsByCall { replies, calls } = sorted_by_call(alloc, count, items)?;
    add_numbered_lines(alloc, &replies, text)?;
    for items_of_call in &calls {
        add_numbered_lines(alloc, items_of_call, text)?;
    }
    Ok(())
}

// The lines of the items of one call, or of those without a call.
fn add_numbered_lines(alloc: Global, items: &[&Item], text: &mut String) -> Result<(), AllocError>
    ensures { OnOk result (string_bytes text.new ≡ string_bytes text.old ++ numbered_lines (map (λ item. item.now) items.now)) }
{
    let mut uploads = Uploads::new(alloc);
    for item in items {
        add_numbered_line(alloc, &uploads, item, text)?;
        go_behind(&mut uploads, item)?;
    }
    Ok(())
}

// The line of an item with the number of its call, where it has one.
fn add_numbered_line(
    alloc: Global,
    uploads: &Uploads,
    item: &Item,
    text: &mut String,
) -> Result<(), AllocError>
    ensures { OnOk result (string_bytes text.new ≡ string_bytes text.old ++ numbered_lines_of_item uploads.now item.now.call item.now.act) }
{
    match &item.act {
        Act::Send(packet) => add_numbered_out_line(alloc, item.call, packet, text),
        Act::Keep(Out::Commit { session }) => match item.call {
            None => Ok(()),
            Some(call) => add_numbered_stored(call, uploads.get(key(call, *session)), text),
        },
        Act::Keep(_) | Act::LeaveCall => Ok(()),
    }
}

fn add_numbered_stored(
    call: u32,
    upload: Option<Upload>,
    text: &mut String,
) -> Result<(), AllocError>
    ensures { OnOk result (string_bytes text.new ≡ string_bytes text.old ++ numbered_stored_lines call upload) }
{
    match upload {
        None => Ok(()),
        Some(Upload { resource, length }) => add_numbered_stored_line(call, resource, length, text),
    }
}
