//! The id of a service or a method, as a word tells it.
ghost use Rattle.std.specs.Prelude.{◌≡◌, ℕ, IfSome, Some};
ghost use Rattle.pw_run.specs.MethodId.{IsId, id_of_digits};

use hex::FromHex;
use rpc_ids::hash_name;
use text_fields::strip_word;

/// The id that a word tells: its eight digits behind `0x`, else the hash of the name that it is.
#[tactic(auto, using(crate::proofs::MethodIdLemmas::digits_id, crate::proofs::MethodIdLemmas::name_id_of, crate::proofs::MethodIdLemmas::only_digits, crate::proofs::MethodIdLemmas::only_name))]
pub(crate) fn read_id(word: &str) -> Option<u32>
    ensures some { IfSome result (IsId word.now) }
    ensures only { (id : ℕ) → IsId word.now id → result ≡ Some id }
{
    match strip_word(word.as_bytes(), b"0x") {
        Some(digits) => digits_id(digits),
        None => Some(hash_name(word.as_bytes())),
    }
}

// The id that has these eight digits.
fn digits_id(digits: &[u8]) -> Option<u32>
    ensures { result ≡ id_of_digits digits.now }
{
    match <[u8; 4] as FromHex>::from_hex(digits) {
        Ok(bytes) => Some(u32::from_be_bytes(bytes)),
        Err(_) => None,
    }
}
