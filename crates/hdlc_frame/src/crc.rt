//! The frame check sequence of RFC 1662 (its 32-bit form, appendix C.3), sixteen octets at a time with tables.

ghost use Rattle.std.specs.Prelude.{◌≡◌, ◌+◌, ◌*◌, ◌<◌, ◌≤◌, ◌++◌};
ghost use Rattle.hdlc_frame.specs.CheckSequence.{after_bits, after_octets, check_sequence_of};

use crate::lanes::LANES;

/// The polynomial, its lowest power in the highest bit.
pub const POLYNOMIAL: u32 = 0xedb8_8320;

/// What the register begins with, and what it is turned over by at the end.
pub const ALL_ONES: u32 = 0xffff_ffff;

/// The check sequence of `bytes`: the CRC-32 of Ethernet and of pw_hdlc. Of the text `123456789` it is `cbf43926`.
#[tactic(auto, unfolding(crate::specs::CheckSequence::check_sequence_of))]
pub fn crc32(bytes: &[u8]) -> u32
    ensures { result ≡ check_sequence_of bytes.now }
{
    register_after(ALL_ONES, bytes) ^ ALL_ONES
}

/// What `octets` make of a register.
pub(crate) fn register_after(register: u32, octets: &[u8]) -> u32
    ensures { result ≡ after_octets register octets.now }
{
    let mut after = register;
    let mut rest = octets;
    'words: while let Some((word, behind)) = rest.split_first_chunk::<4>() {
        (after, rest) = match behind.split_first_chunk::<12>() {
            Some((others, behind)) => (after_sixteen(after, word, others), behind),
            None => (after_four(after, word), behind),
        };
    }
    after_each(after, rest)
}

// Sixteen octets at once: the register goes with the first four through the zeros of the others, which needn't wait for it.
#[inline(always)]
fn after_sixteen(register: u32, word: &[u8; 4], others: &[u8; 12]) -> u32
    ensures { result ≡ after_octets register (word.now ++ others.now) }
{
    after_twelve(others) ^ after_word(12, register ^ u32::from_le_bytes(*word))
}

#[inline(always)]
fn after_four(register: u32, octets: &[u8; 4]) -> u32
    ensures { result ≡ after_octets register octets.now }
{
    after_word(0, register ^ u32::from_le_bytes(*octets))
}

// What zeros make of a word, as many as its four octets and `lane` more have bits. Each octet goes its own way to the end.
#[inline(always)]
fn after_word(lane: usize, word: u32) -> u32
    requires { lane ≤ 12 }
    ensures { result ≡ after_bits (8 * (lane + 4)) word 0 }
{
    let mut after = 0;
    for i in 0..4usize {
        let octet = (word >> (8 * (3 - i))) & 0xff;
        after ^= after_zeros(lane + i, octet as u8);
    }
    after
}

// What twelve octets make of a register of zeros. Each goes its own way, through the zeros of those behind it.
#[inline(always)]
fn after_twelve(octets: &[u8; 12]) -> u32
    ensures { result ≡ after_octets 0 octets.now }
{
    let mut after = 0;
    for i in 0..12usize {
        after ^= after_zeros(11 - i, octets[i]);
    }
    after
}

fn after_each(register: u32, octets: &[u8]) -> u32
    ensures { result ≡ after_octets register octets.now }
{
    let mut after = register;
    for octet in octets {
        let low = after ^ u32::from(*octet);
        after = (after >> 8) ^ after_zeros(0, (low & 0xff) as u8);
    }
    after
}

// What zeros make of a register that has only the bits of `octet`: eight bits of them in lane 0, and so on.
#[inline(always)]
fn after_zeros(lane: usize, octet: u8) -> u32
    requires { lane < 16 }
    ensures { result ≡ after_bits (8 * (lane + 1)) octet 0 }
{
    LANES[lane][usize::from(octet)]
}
