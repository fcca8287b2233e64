//! The content that a text between two flags stands for (RFC 1662, section 4.2), where it has escapes.

ghost use Rattle.std.specs.Prelude.{◌≡◌, ◌≢◌, ◌<◌, ◌+◌, ◌≤◌, ◌++◌, ◌⊎◌, bit_xor, get_or, length, slice_index, take, true, IfSome, IsNone};
ghost use Rattle.hdlc_frame.specs.Steps.{IsOrdinary, Unescapes};

use crate::octets::{BLOCK, ESCAPE, ESCAPE_BIT, FLAG, mark_in, needs_escape, ordinary_len};
use std::simd::prelude::*;

/// Behind an escape, writes what `octets` stand for behind the first `len` octets of `buffer`. It stops at a flag, and behind an
/// escape that no ordinary octet follows. Answers how many octets it read, where what it wrote ends, and whether an escape is the
/// last that it read.
pub(crate) fn unescape(buffer: &mut [u8], len: usize, octets: &[u8]) -> (usize, usize, bool)
    requires room { len + length octets.now ≤ length buffer.old }
    ensures within { result.0 ≤ length octets.now }
    ensures kept { result.1 ≤ length buffer.new }
    ensures stop { result.0 < length octets.now → (slice_index octets.now result.0 ≡ FLAG) ⊎ ((slice_index octets.now result.0 ≡ ESCAPE) × (result.2 ≡ true)) }
    ensures reads { Unescapes true (take result.0 octets.now) result.2 (take len buffer.old) (take result.1 buffer.new) }
{
    let mut at = 0;
    let mut end = len;
    'escapes: while let Some(meant) = turned(octets, at) {
        buffer[end] = meant;
        let run = copy_run(buffer, end + 1, &octets[at + 1..]);
        end += 1 + run;
        at += 1 + run;
        if at == octets.len() || octets[at] == FLAG {
            return (at, end, false);
        }
        at += 1;
    }
    (at, end, true)
}

// What the octet at `at` stands for behind an escape. There is none at the end, and a flag and an escape stand for nothing.
#[inline(always)]
fn turned(octets: &[u8], at: usize) -> Option<u8>
    ensures some { IfSome result (λ meant. (at < length octets.now) × (get_or octets.now at 0 ≢ FLAG) × (get_or octets.now at 0 ≢ ESCAPE) × (meant ≡ bit_xor (get_or octets.now at 0) ESCAPE_BIT)) }
    ensures none { IsNone result → at < length octets.now → (slice_index octets.now at ≡ FLAG) ⊎ (slice_index octets.now at ≡ ESCAPE) }
{
    if at >= octets.len() || needs_escape(octets[at]) {
        return None;
    }
    Some(octets[at] ^ ESCAPE_BIT)
}

// Copies the octets in front of the first flag or escape into `buffer` from `from` on, and answers how many those are. Behind them
// `buffer` may have any octets.
fn copy_run(buffer: &mut [u8], from: usize, octets: &[u8]) -> usize
    requires room { from + length octets.now ≤ length buffer.old }
    ensures within { result ≤ length octets.now }
    ensures ordinary { IsOrdinary (take result octets.now) }
    ensures stop { result < length octets.now → (slice_index octets.now result ≡ FLAG) ⊎ (slice_index octets.now result ≡ ESCAPE) }
    ensures copied { take (from + result) buffer.new ≡ take from buffer.old ++ take result octets.now }
{
    let mut done = 0;
    'copies: while BLOCK <= octets.len() - done {
        let mark = mark_in(octets, done);
        u8x32::from_slice(&octets[done..]).copy_to_slice(
            &mut buffer[from + done..from + done + BLOCK],
        );
        match mark {
            Some(n) => return done + n,
            None => done += BLOCK,
        }
    }
    let rest = &octets[done..];
    let n = ordinary_len(rest);
    buffer[from + done..from + done + n].copy_from_slice(&rest[..n]);
    done + n
}
