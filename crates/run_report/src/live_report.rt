//! The report of a live client.

ghost use Rattle.std.specs.Prelude.{◌≡◌, ◌++◌, IfOk, OnOk, string_bytes};
ghost use Rattle.run_report.specs.LiveReport.{ended_line, live_line, live_report, transfer_line, watch_line};

use crate::lines::add_why_line;
use link_io::Why;
use rpc_ids::Status;
use std::alloc::{AllocError, Global};

/// How what a live client was asked to do ended.
#[derive(Clone, Copy, Debug, PartialEq, Eq)]
pub enum LiveLine {
    /// A resource was read into the client's store.
    Get {
        resource: u32,
        /// Where the transfer began, in bytes.
        from: u64,
        status: Status,
        /// How long the resource is that it made whole, in bytes, or 0.
        length: u64,
    },
    /// As `Get`, for a resource that was written out of the store.
    Put {
        resource: u32,
        from: u64,
        status: Status,
        length: u64,
    },
    /// The messages of a call were counted.
    Watch {
        status: Status,
        messages: usize,
    },
}

/// The report of a live client: a line that tells how what it was asked ended, where it did, and one that tells why the client
/// ended, but for want of memory.
pub fn live_text(alloc: Global, told: Option<LiveLine>, why: Why) -> Result<String, AllocError>
    ensures { IfOk result (λ text. string_bytes text ≡ live_report told why) }
{
    let mut text = String::new(alloc);
    add_ended_line(told, &mut text)?;
    add_why_line(why, &mut text)?;
    Ok(text)
}

/// The first line of the report alone.
pub fn live_line(alloc: Global, told: LiveLine) -> Result<String, AllocError>
    ensures { IfOk result (λ text. string_bytes text ≡ live_line told) }
{
    let mut text = String::new(alloc);
    add_live_line(told, &mut text)?;
    Ok(text)
}

fn add_ended_line(told: Option<LiveLine>, text: &mut String) -> Result<(), AllocError>
    ensures { OnOk result (string_bytes text.new ≡ string_bytes text.old ++ ended_line told) }
{
    match told {
        None => Ok(()),
        Some(told) => add_live_line(told, text),
    }
}

fn add_live_line(told: LiveLine, text: &mut String) -> Result<(), AllocError>
    ensures { OnOk result (string_bytes text.new ≡ string_bytes text.old ++ live_line told) }
{
    match told {
        LiveLine::Get {
            resource,
            from,
            status,
            length,
        } => add_transfer_line("get", resource, from, status, length, text),
        LiveLine::Put {
            resource,
            from,
            status,
            length,
        } => add_transfer_line("put", resource, from, status, length, text),
        LiveLine::Watch { status, messages } => add_watch_line(status, messages, text),
    }
}

#[tactic(auto, unfolding(crate::specs::LiveReport::transfer_line))]
fn add_transfer_line(
    word: &str,
    resource: u32,
    from: u64,
    status: Status,
    length: u64,
    text: &mut String,
) -> Result<(), AllocError>
    ensures { OnOk result (string_bytes text.new ≡ string_bytes text.old ++ transfer_line word.now resource from status length) }
{
    let status = status.name();
    writeln!(text, "{word} {resource} {from} {status} {length}")
}

#[tactic(auto, unfolding(crate::specs::LiveReport::watch_line))]
fn add_watch_line(status: Status, messages: usize, text: &mut String) -> Result<(), AllocError>
    ensures { OnOk result (string_bytes text.new ≡ string_bytes text.old ++ watch_line status messages) }
{
    let status = status.name();
    writeln!(text, "watch {status} {messages}")
}
