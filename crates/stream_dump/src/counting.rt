//! How the segments of a stream are counted for both its ends.
ghost use Rattle.std.specs.Prelude.{◌≡◌, ◌&&◌, is_none};
ghost use Rattle.hdlc_frame.specs.Counted.{one_more};
ghost use Rattle.hdlc_frame.specs.Lent.{found_in_got, parts_of};
ghost use Rattle.hdlc_frame.specs.Found.Found.{frame};
ghost use Rattle.stream_dump.specs.Counting.{counted, counted_all, no_counts};
ghost use Rattle.rpc_frames.specs.Heard.{heard_in_payload, is_handled};
ghost use Rattle.rpc_ids.specs.declared.method.Role.TheVariants.{Server, Client};

use hdlc_frame::{Frame, Got, UI_CONTROL};
use rpc_frames::{ADDRESS, Counts};
use rpc_ids::Role;
use rpc_packet::PacketRef;

/// The counts of no segment.
pub(crate) fn no_counts() -> Counts
    ensures { result ≡ no_counts }
{
    Counts {
        valid: 0,
        bad: 0,
        other: 0,
        dropped: 0,
    }
}

/// The counts with what a flag ended, if that was a segment.
pub(crate) fn counted(counts: Counts, got: Option<Got<'_>>) -> Counts
    ensures { result ≡ counted_all counts (found_in_got got.entry) }
{
    match got {
        None => counts,
        Some(Got::Bad(_)) => Counts {
            bad: one_more(counts.bad),
            ..counts
        },
        Some(Got::Frame(frame)) => counted_frame(counts, &frame),
    }
}

fn counted_frame(counts: Counts, lent: &Frame<'_>) -> Counts
    ensures { result ≡ counted counts (frame (parts_of lent.now)) }
{
    let counts = Counts {
        valid: one_more(counts.valid),
        ..counts
    };
    if !is_handled(lent) {
        return Counts {
            other: one_more(counts.other),
            ..counts
        };
    }
    if is_unheard(lent.payload) {
        return Counts {
            dropped: one_more(counts.dropped),
            ..counts
        };
    }
    counts
}

/// Whether address and control octet are those of frames with packets.
pub(crate) fn is_handled(lent: &Frame<'_>) -> bool
    ensures { result ≡ is_handled (parts_of lent.now) }
{
    lent.address == ADDRESS && lent.control == UI_CONTROL
}

// Whether neither a server nor a client hears a packet in it.
fn is_unheard(payload: &[u8]) -> bool
    ensures { result ≡ (is_none (heard_in_payload Server payload.now) && is_none (heard_in_payload Client payload.now)) }
{
    match PacketRef::read(payload) {
        Err(_) => true,
        Ok(packet) => packet.hear(Role::Server).is_none() && packet.hear(Role::Client).is_none(),
    }
}

fn one_more(count: u64) -> u64
    ensures { result ≡ one_more count }
{
    count.saturating_add(1)
}
