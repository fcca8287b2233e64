//! The report of a run.

ghost use Rattle.std.specs.Prelude.{◌≡◌, ◌++◌, IfOk, OnOk, string_bytes};
ghost use Rattle.rpc_journal.specs.CallTable.{past};
ghost use Rattle.run_report.specs.Lines.{ending_line};
ghost use Rattle.run_report.specs.Report.{report, call_lines};

use crate::items::add_item_lines;
use crate::lines::{add_call_line, add_ending_line, add_frames_line};
use rpc_calls::Calls;
use rpc_frames::Counts;
use rpc_handlers::Handler;
use rpc_journal::Item;
use rpc_schedule::Ending;
use std::alloc::{AllocError, Global};

/// The report of a run: a line with the counts of its stream, a line for each call, one for each packet among the items
/// that went out and for each upload among them that ended well, and one that tells how the reading of the stream ended.
pub fn report_text<H: Handler>(
    alloc: Global,
    counts: Counts,
    calls: &Calls<H>,
    items: &[Item],
    ending: Ending,
) -> Result<String, AllocError>
    ensures { IfOk result (λ text. string_bytes text ≡ report calls.now counts items.now ending) }
{
    let mut text = String::new(alloc);
    add_frames_line(counts, &mut text)?;
    add_call_lines(alloc, calls, &mut text)?;
    add_item_lines(alloc, items, &mut text)?;
    add_ending_line(ending, &mut text)?;
    Ok(text)
}

/// The last line of a report alone: how the reading of the stream ended.
pub fn last_line(alloc: Global, ending: Ending) -> Result<String, AllocError>
    ensures { IfOk result (λ text. string_bytes text ≡ ending_line ending) }
{
    let mut text = String::new(alloc);
    add_ending_line(ending, &mut text)?;
    Ok(text)
}

/// A line for each call, by number.
pub(crate) fn add_call_lines<H: Handler>(
    alloc: Global,
    calls: &Calls<H>,
    text: &mut String,
) -> Result<(), AllocError>
    ensures { OnOk result (string_bytes text.new ≡ string_bytes text.old ++ call_lines (past calls.now)) }
{
    for number in 0..calls.count() {
        add_call_line(
            alloc,
            number,
            calls.name(number),
            calls.method(number).kind,
            calls.status(number),
            text,
        )?;
    }
    Ok(())
}
