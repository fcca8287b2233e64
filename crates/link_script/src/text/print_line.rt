//! The line of a command that has ended.
ghost use Rattle.std.specs.Prelude.{◌≡◌, ◌++◌, OnOk, string_bytes};
ghost use Rattle.link_script.specs.text.Report.{bytes_line, close_line, count_line, line_text, transfer_line};
ghost use Rattle.text_fields.specs.Lines.{ended};

use crate::ReportLine;
use rpc_ids::Status;
use std::alloc::{AllocError, Global};

/// Appends the line.
pub(crate) fn add_line(
    alloc: Global,
    line: &ReportLine,
    text: &mut String,
) -> Result<(), AllocError>
    ensures { OnOk result (string_bytes text.new ≡ string_bytes text.old ++ ended (line_text line.now)) }
{
    match line {
        ReportLine::Read {
            resource,
            from,
            status,
            length,
        } => add_transfer("read", *resource, *from, *status, *length, text),
        ReportLine::Write {
            resource,
            from,
            status,
            length,
        } => add_transfer("write", *resource, *from, *status, *length, text),
        ReportLine::Echo(status, bytes) => {
            add_bytes(alloc, "echo", *status, bytes.as_slice(), text)
        }
        ReportLine::Count(status, count) => add_count("count", *status, *count, text),
        ReportLine::Sum(status, bytes) => add_bytes(alloc, "sum", *status, bytes.as_slice(), text),
        ReportLine::Chat(status, count) => add_count("chat", *status, *count, text),
        ReportLine::Close(channel, ended) => add_close(*channel, *ended, text),
    }
}

fn add_transfer(
    word: &str,
    resource: u32,
    from: u64,
    status: Status,
    length: u64,
    text: &mut String,
) -> Result<(), AllocError>
    ensures { OnOk result (string_bytes text.new ≡ string_bytes text.old ++ ended (transfer_line word.now resource from status length)) }
{
    let status = status.name();
    writeln!(text, "{word} {resource} {from} {status} {length}")
}

fn add_count(word: &str, status: Status, count: u64, text: &mut String) -> Result<(), AllocError>
    ensures { OnOk result (string_bytes text.new ≡ string_bytes text.old ++ ended (count_line word.now status count)) }
{
    let status = status.name();
    writeln!(text, "{word} {status} {count}")
}

fn add_bytes(
    alloc: Global,
    word: &str,
    status: Status,
    bytes: &[u8],
    text: &mut String,
) -> Result<(), AllocError>
    ensures { OnOk result (string_bytes text.new ≡ string_bytes text.old ++ ended (bytes_line word.now status bytes.now)) }
{
    let status = status.name();
    if bytes.is_empty() {
        return writeln!(text, "{word} {status} -");
    }
    let digits = hex::encode(alloc, bytes)?;
    writeln!(text, "{word} {status} {digits}")
}

fn add_close(channel: u32, count: Option<u32>, text: &mut String) -> Result<(), AllocError>
    ensures { OnOk result (string_bytes text.new ≡ string_bytes text.old ++ ended (close_line channel count)) }
{
    match count {
        Some(count) => writeln!(text, "close {channel} {count}"),
        None => writeln!(text, "close {channel} NOT_IN"),
    }
}
