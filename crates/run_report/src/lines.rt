//! The lines of a report, each a function that appends it.

ghost use Rattle.std.specs.Prelude.{◌≡◌, ◌++◌, IfOk, OnOk, string_bytes};
ghost use Rattle.run_report.specs.Lines.{frames_line, call_line, out_line, stored_line, numbered_out_line, numbered_stored_line, connection_line, ending_line, ending_text, why_line, kind_name, end_name};
ghost use Rattle.hex.specs.Hex.{encode_lower};
ghost use Rattle.rpc_frames.specs.Written.{frame_of_packet};
ghost use Rattle.rpc_packet.specs.Message.{message_of};

use link_io::Why;
use rpc_frames::{Counts, write_frame};
use rpc_ids::{Kind, Status};
use rpc_packet::{CallName, Packet};
use rpc_schedule::Ending;
use std::alloc::{AllocError, Global};

#[tactic(auto, unfolding(crate::specs::Lines::frames_line))]
pub(crate) fn add_frames_line(counts: Counts, text: &mut String) -> Result<(), AllocError>
    ensures { OnOk result (string_bytes text.new ≡ string_bytes text.old ++ frames_line counts) }
{
    let Counts {
        valid,
        bad,
        other,
        dropped,
    } = counts;
    writeln!(
        text,
        "frames {valid} bad {bad} other {other} dropped {dropped}"
    )
}

/// A call with its number.
#[tactic(auto, unfolding(crate::specs::Lines::call_line))]
pub(crate) fn add_call_line(
    alloc: Global,
    number: u32,
    name: CallName,
    kind: Kind,
    end: Option<Status>,
    text: &mut String,
) -> Result<(), AllocError>
    ensures { OnOk result (string_bytes text.new ≡ string_bytes text.old ++ call_line number name kind end) }
{
    let channel = name.channel;
    let service = hex::encode(alloc, name.service.to_be_bytes())?;
    let method = hex::encode(alloc, name.method.to_be_bytes())?;
    let call = name.call;
    let kind = kind_name(kind);
    let end = end_name(end);
    writeln!(
        text,
        "call {number} {channel} {service} {method} {call} {kind} {end}"
    )
}

fn kind_name(kind: Kind) -> &'static str
    ensures { result.now ≡ kind_name kind }
{
    match kind {
        Kind::Unary => "unary",
        Kind::ServerStream => "server",
        Kind::ClientStream => "client",
        Kind::Bidi => "bidi",
    }
}

fn end_name(end: Option<Status>) -> &'static str
    ensures { result.now ≡ end_name end }
{
    match end {
        Some(status) => status.name(),
        None => "open",
    }
}

#[tactic(auto, unfolding(crate::specs::Lines::out_line))]
pub(crate) fn add_out_line(
    alloc: Global,
    packet: &Packet,
    text: &mut String,
) -> Result<(), AllocError>
    ensures { OnOk result (string_bytes text.new ≡ string_bytes text.old ++ out_line packet.now) }
{
    let digits = frame_digits(alloc, packet)?;
    writeln!(text, "out {digits}")
}

/// A packet behind the number of its call, or behind a dash.
#[tactic(auto, unfolding(crate::specs::Lines::numbered_out_line))]
pub(crate) fn add_numbered_out_line(
    alloc: Global,
    call: Option<u32>,
    packet: &Packet,
    text: &mut String,
) -> Result<(), AllocError>
    ensures { OnOk result (string_bytes text.new ≡ string_bytes text.old ++ numbered_out_line call packet.now) }
{
    let digits = frame_digits(alloc, packet)?;
    match call {
        None => writeln!(text, "out - {digits}"),
        Some(call) => writeln!(text, "out {call} {digits}"),
    }
}

// The digits of a packet's frame.
fn frame_digits(alloc: Global, packet: &Packet) -> Result<String, AllocError>
    ensures { IfOk result (λ digits. string_bytes digits ≡ encode_lower (frame_of_packet (message_of packet.now))) }
{
    let mut frame = Vec::new(alloc);
    write_frame(alloc, packet, &mut frame)?;
    hex::encode(alloc, frame.as_slice())
}

/// An upload that ended well.
#[tactic(auto, unfolding(crate::specs::Lines::stored_line))]
pub(crate) fn add_stored_line(
    resource: u32,
    length: u64,
    text: &mut String,
) -> Result<(), AllocError>
    ensures { OnOk result (string_bytes text.new ≡ string_bytes text.old ++ stored_line resource length) }
{
    writeln!(text, "stored {resource} {length}")
}

/// The same behind the number of its call.
#[tactic(auto, unfolding(crate::specs::Lines::numbered_stored_line))]
pub(crate) fn add_numbered_stored_line(
    call: u32,
    resource: u32,
    length: u64,
    text: &mut String,
) -> Result<(), AllocError>
    ensures { OnOk result (string_bytes text.new ≡ string_bytes text.old ++ numbered_stored_line call resource length) }
{
    writeln!(text, "stored {call} {resource} {length}")
}

#[tactic(auto, unfolding(crate::specs::Lines::connection_line))]
pub(crate) fn add_connection_line(number: u32, text: &mut String) -> Result<(), AllocError>
    ensures { OnOk result (string_bytes text.new ≡ string_bytes text.old ++ connection_line number) }
{
    writeln!(text, "conn {number}")
}

/// The last line.
pub(crate) fn add_ending_line(ending: Ending, text: &mut String) -> Result<(), AllocError>
    ensures { OnOk result (string_bytes text.new ≡ string_bytes text.old ++ ending_line ending) }
{
    let ending = ending_text(ending);
    writeln!(text, "{ending}")
}

/// The last line by the reason of a session's end. Want of memory has none.
pub(crate) fn add_why_line(why: Why, text: &mut String) -> Result<(), AllocError>
    ensures { OnOk result (string_bytes text.new ≡ string_bytes text.old ++ why_line why) }
{
    match why {
        Why::Settled => add_ending_line(Ending::AtEnd, text),
        Why::Source => add_ending_line(Ending::SourceFault, text),
        Why::Sink => writeln!(text, "sink fault"),
        Why::Store => add_ending_line(Ending::StoreFault, text),
        Why::InputLimit => add_ending_line(Ending::InputLimit, text),
        Why::JournalLimit => add_ending_line(Ending::JournalLimit, text),
        Why::Memory => Ok(()),
    }
}

fn ending_text(ending: Ending) -> &'static str
    ensures { result.now ≡ ending_text ending }
{
    match ending {
        Ending::AtEnd => "done",
        Ending::SourceFault => "source fault",
        Ending::StoreFault => "store fault",
        Ending::InputLimit => "limit input 67108864",
        Ending::JournalLimit => "limit journal 1000000",
    }
}
