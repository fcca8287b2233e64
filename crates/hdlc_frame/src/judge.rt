//! A content's faults, and the frame that is left where it has none.

ghost use Rattle.std.specs.Prelude.{◌≡◌, ◌+◌, ◌*◌, ◌<◌, ◌≤◌, length};
ghost use Rattle.std.specs.Option.{option_map};
ghost use Rattle.hdlc_frame.specs.Found.{found_in_content, framed, number_at};
ghost use Rattle.hdlc_frame.specs.Lent.{found_of};
ghost use Rattle.hdlc_frame.specs.Steps.{placed};

use crate::crc::crc32;
use crate::found::{Bad, Frame, Got};
use crate::told::{Place, PlacedFrame, Segment};

/// The fewest octets that a content can have: an address octet, a control octet and the check sequence.
pub const SHORTEST_CONTENT: usize = 1 + 1 + 4;

/// What a content carries, with at most `limit` octets.
#[tactic(auto, unfolding(crate::specs::Found::found_in_content))]
pub(crate) fn judge(content: &[u8], limit: usize) -> Got<'_>
    ensures { found_of result ≡ found_in_content limit content.now }
{
    if content.len() > limit {
        return Got::Bad(Bad::Long);
    }
    if content.len() < SHORTEST_CONTENT {
        return Got::Bad(Bad::Short);
    }
    let Some((head, check)) = content.split_last_chunk::<4>() else {
        return Got::Bad(Bad::Short);
    };
    if u32::from_le_bytes(*check) != crc32(head) {
        return Got::Bad(Bad::Check);
    }
    judge_head(head)
}

/// What a content carries, with at most `limit` octets, that ends at the offset `end` of the slice that it lies in. Its
/// payload stands right in front of the check sequence.
pub(crate) fn judge_at(content: &[u8], limit: usize, place: Place, end: usize) -> Segment
    requires { length content.now ≤ end }
    ensures { result ≡ placed place end (found_in_content limit content.now) }
{
    match judge(content, limit) {
        Got::Frame(frame) => Segment::Frame(PlacedFrame {
            address: frame.address,
            control: frame.control,
            place,
            at: end - 4 - frame.payload.len(),
            len: frame.payload.len(),
        }),
        Got::Bad(bad) => Segment::Bad(bad),
    }
}

// What stands in front of the check sequence.
fn judge_head(head: &[u8]) -> Got<'_>
    ensures { found_of result ≡ framed (number_at 5 head.now) }
{
    let Some((address, rest)) = read_number(head) else {
        return Got::Bad(Bad::Address);
    };
    let Some((control, payload)) = rest.split_first() else {
        return Got::Bad(Bad::Address);
    };
    match u32::try_from(address) {
        Ok(address) => Got::Frame(Frame {
            address,
            control: *control,
            payload,
        }),
        Err(_) => Got::Bad(Bad::Address),
    }
}

// A number in at most five groups of seven bits, and what stands behind it.
fn read_number(octets: &[u8]) -> Option<(u64, &[u8])>
    ensures { option_map (λ read. (read.0, read.1.now)) result ≡ number_at 5 octets.now }
{
    let mut number = 0;
    let mut worth = 1;
    for i in 0..5usize {
        let octet = *octets.get(i)?;
        number += u64::from(octet >> 1) * worth;
        if octet % 2 == 1 {
            return Some((number, &octets[i + 1..]));
        }
        worth *= 0x80;
    }
    None
}
