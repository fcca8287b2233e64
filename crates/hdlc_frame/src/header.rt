//! What stands in a frame around its payload.

ghost use Rattle.std.specs.Prelude.{◌≡◌, ◌≤◌, ◌++◌, ◌∷◌, [], length, take};
ghost use Rattle.hdlc_frame.specs.CheckSequence.{check_sequence_of};
ghost use Rattle.hdlc_frame.specs.Encoded.{shortest_address};

use crate::crc::{ALL_ONES, register_after};
use crate::octets::UI_CONTROL;

/// An address has at most five octets in its shortest spelling, and a control octet stands behind it.
pub(crate) const LONGEST_HEADER: usize = 5 + 1;

/// Writes the address in its shortest spelling and the control octet to the front of `octets`. Answers how many they are.
pub(crate) fn spell_header(octets: &mut [u8; LONGEST_HEADER], address: u32) -> usize
    ensures within { result ≤ length octets.new }
    ensures header { take result octets.new ≡ shortest_address address ++ UI_CONTROL ∷ [] }
{
    let mut len = 0usize;
    let mut rest = address;
    while rest >= 0x80 {
        octets[len] = (rest % 0x80) as u8 * 2;
        len += 1;
        rest /= 0x80;
    }
    octets[len] = rest as u8 * 2 + 1;
    octets[len + 1] = UI_CONTROL;
    len + 2
}

/// The check sequence of header and payload.
#[tactic(auto, unfolding(crate::specs::CheckSequence::check_sequence_of))]
pub(crate) fn check_of(header: &[u8], payload: &[u8]) -> u32
    ensures { result ≡ check_sequence_of (header.now ++ payload.now) }
{
    register_after(register_after(ALL_ONES, header), payload) ^ ALL_ONES
}
