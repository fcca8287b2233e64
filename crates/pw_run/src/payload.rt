//! A payload as a word: its lower-case hexadecimal digits, or a dash where it is empty.
ghost use Rattle.std.specs.Prelude.{◌≡◌, ℕ, true, List, IfOk};
ghost use Rattle.std.specs.List.{list_all};
ghost use Rattle.pw_run.specs.Payload.{IsPayload, are_digits, is_length, lower_digit};

use bytes::Bytes;
use rpc_handlers::MAX_PAYLOAD;
use std::alloc::{AllocError, Global};
use text_fields::hex_bytes;

/// Whether a word tells a payload.
#[tactic(auto, using(crate::proofs::PayloadLemmas::dash_tells, crate::proofs::PayloadLemmas::digits_tell, crate::proofs::PayloadLemmas::other_digits, crate::proofs::PayloadLemmas::tell_digits))]
pub(crate) fn is_payload(word: &str) -> bool
    ensures some { result ≡ true → (bytes : List ℕ) × IsPayload word.now bytes }
    ensures only { (bytes : List ℕ) → IsPayload word.now bytes → result ≡ true }
{
    if word == "-" {
        return true;
    }
    are_digits(word.as_bytes())
}

// Whether these are the digits of a payload that isn't empty.
fn are_digits(text: &[u8]) -> bool
    ensures { result ≡ are_digits text.now }
{
    is_length(text.len()) && are_lower_digits(text)
}

fn are_lower_digits(text: &[u8]) -> bool
    ensures { result ≡ list_all lower_digit text.now }
{
    text.iter().all(|digit| is_lower_digit(*digit))
}

fn is_length(count: usize) -> bool
    ensures { result ≡ is_length count }
{
    count > 0 && count <= 2 * MAX_PAYLOAD && count % 2 == 0
}

fn is_lower_digit(digit: u8) -> bool
    ensures { result ≡ lower_digit digit }
{
    matches!(digit, b'0'..=b'9' | b'a'..=b'f')
}

/// The payload that a word tells.
pub(crate) fn read_payload(alloc: Global, word: &str) -> Result<Bytes, AllocError>
    requires { (bytes : List ℕ) × IsPayload word.now bytes }
    ensures told { IfOk result (λ payload. IsPayload word.now payload) }
    ensures only { IfOk result (λ payload. (bytes : List ℕ) → IsPayload word.now bytes → payload ≡ bytes) }
{
    if word == "-" {
        return Ok(Bytes::new());
    }
    match hex_bytes(alloc, word.as_bytes())? {
        Some(bytes) => Ok(Bytes::from_vec(bytes)?),
        None => unreachable!(),
    }
}
