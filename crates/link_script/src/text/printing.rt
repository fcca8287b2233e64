ghost use Rattle.std.specs.Prelude.{◌≡◌, ◌++◌, OnOk, string_bytes};
ghost use Rattle.link_script.specs.text.Report.{bad_line_text, client_lines, counts_text, report_text, server_lines};
ghost use Rattle.text_fields.specs.Lines.{ended};

use crate::text::print_line::add_line;
use crate::{Report, Resources};
use std::alloc::{AllocError, Global};

/// Appends the report of a run: a line for each command, the counts, and the resources of both stores. After an `Err` a
/// part of it may stand there.
pub fn print_report(alloc: Global, report: &Report, text: &mut String) -> Result<(), AllocError>
    ensures { OnOk result (string_bytes text.new ≡ string_bytes text.old ++ report_text report.now) }
{
    for line in report.lines.as_slice() {
        add_line(alloc, line, text)?;
    }
    add_counts(report, text)?;
    add_server(&report.server, text)?;
    add_client(&report.client, text)
}

fn add_counts(report: &Report, text: &mut String) -> Result<(), AllocError>
    ensures { OnOk result (string_bytes text.new ≡ string_bytes text.old ++ counts_text report.now) }
{
    let frames = report.frames;
    let delivered = report.delivered;
    let chunks = report.chunks;
    writeln!(text, "frames {frames} delivered {delivered}")?;
    writeln!(text, "chunks {chunks}")
}

fn add_server(resources: &Resources, text: &mut String) -> Result<(), AllocError>
    ensures { OnOk result (string_bytes text.new ≡ string_bytes text.old ++ server_lines resources.now) }
{
    for &(resource, length) in resources.as_slice() {
        writeln!(text, "server {resource} {length}")?;
    }
    Ok(())
}

fn add_client(resources: &Resources, text: &mut String) -> Result<(), AllocError>
    ensures { OnOk result (string_bytes text.new ≡ string_bytes text.old ++ client_lines resources.now) }
{
    for &(resource, length) in resources.as_slice() {
        writeln!(text, "client {resource} {length}")?;
    }
    Ok(())
}

/// Appends what is told of a script with this first bad line.
pub fn add_bad_line(line: usize, text: &mut String) -> Result<(), AllocError>
    ensures { OnOk result (string_bytes text.new ≡ string_bytes text.old ++ ended (bad_line_text line)) }
{
    writeln!(text, "script line {line}")
}
