//! The octets that the framing standard names (RFC 1662, section 4.1).

ghost use Rattle.std.specs.Prelude.{◌≡◌, ◌+◌, ◌<◌, ◌≤◌, ◌==◌, ◌||◌, ◌⊎◌, IfSome, IsNone, drop, length, slice_index, take};
ghost use Rattle.hdlc_frame.specs.Steps.{IsOrdinary};

use memchr::memchr2;
use std::simd::prelude::*;

/// Stands in front of a frame and behind it, and nowhere else.
pub const FLAG: u8 = 0x7E;

/// Stands in front of an octet that was changed to keep flags and escapes out of a frame's text.
pub const ESCAPE: u8 = 0x7D;

/// What an escaped octet differs by from the one that it stands for.
pub const ESCAPE_BIT: u8 = 0x20;

/// The control octet of an unnumbered information frame.
pub const UI_CONTROL: u8 = 0x03;

/// How many octets are looked at together.
pub(crate) const BLOCK: usize = 32;

/// How many octets stand in front of the first flag or escape.
pub(crate) fn ordinary_len(octets: &[u8]) -> usize
    ensures within { result ≤ length octets.now }
    ensures ordinary { IsOrdinary (take result octets.now) }
    ensures stop { result < length octets.now → (slice_index octets.now result ≡ FLAG) ⊎ (slice_index octets.now result ≡ ESCAPE) }
{
    if octets.is_empty() || needs_escape(octets[0]) {
        return 0;
    }
    let mut at = 0;
    'looks: while BLOCK <= octets.len() - at {
        match mark_in(octets, at) {
            Some(n) => return at + n,
            None => at += BLOCK,
        }
    }
    at + searched_len(&octets[at..])
}

// The same for few octets.
fn searched_len(octets: &[u8]) -> usize
    ensures within { result ≤ length octets.now }
    ensures ordinary { IsOrdinary (take result octets.now) }
    ensures stop { result < length octets.now → (slice_index octets.now result ≡ FLAG) ⊎ (slice_index octets.now result ≡ ESCAPE) }
{
    match memchr2(FLAG, ESCAPE, octets) {
        Some(n) => n,
        None => octets.len(),
    }
}

/// Where the first flag or escape of the block from `at` on stands, counted from `at`.
#[inline(always)]
pub(crate) fn mark_in(octets: &[u8], at: usize) -> Option<usize>
    requires { at + BLOCK ≤ length octets.now }
    ensures some { IfSome result (λ n. (n < BLOCK) × IsOrdinary (take n (drop at octets.now)) × ((slice_index octets.now (at + n) ≡ FLAG) ⊎ (slice_index octets.now (at + n) ≡ ESCAPE))) }
    ensures none { IsNone result → IsOrdinary (take BLOCK (drop at octets.now)) }
{
    let past_escape = u8x32::from_slice(&octets[at..]) - u8x32::splat(ESCAPE);
    let marks = past_escape.simd_lt(u8x32::splat(2)).to_bitmask();
    if marks == 0 {
        return None;
    }
    Some(marks.trailing_zeros() as usize)
}

/// Whether an octet of content is escaped in a frame's text.
#[inline(always)]
pub(crate) fn needs_escape(octet: u8) -> bool
    ensures { result ≡ ((octet == FLAG) || (octet == ESCAPE)) }
{
    octet == FLAG || octet == ESCAPE
}
