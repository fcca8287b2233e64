ghost use Rattle.std.specs.Prelude.{◌≡◌, ℕ, ◌^◌, ◌<◌, ◌↔◌, IsTrue, IfSome, Some};
ghost use Rattle.std.specs.Fmt.{decimal};
ghost use Rattle.text_fields.specs.Numbers.{BeginsPlainly};

/// The number that a text spells in decimal digits, with no sign and no leading zero.
pub fn number(text: &[u8]) -> Option<u64>
    ensures some { IfSome result (λ n. text.now ≡ decimal n) }
    ensures only { (n : ℕ) → n < 2 ^ 64 → text.now ≡ decimal n → result ≡ Some n }
{
    if !begins_plainly(text) {
        return None;
    }
    match std::str::from_utf8(text) {
        Ok(digits) => digits.parse().ok(),
        Err(_) => None,
    }
}

/// As [`number`], for a number below 4,294,967,296.
pub fn small_number(text: &[u8]) -> Option<u32>
    ensures some { IfSome result (λ n. text.now ≡ decimal n) }
    ensures only { (n : ℕ) → n < 2 ^ 32 → text.now ≡ decimal n → result ≡ Some n }
{
    u32::try_from(number(text)?).ok()
}

// Whether a text has no plus at its front, and no zero there before further bytes.
fn begins_plainly(text: &[u8]) -> bool
    ensures { IsTrue result ↔ BeginsPlainly text.now }
{
    match text {
        [b'+', ..] => false,
        [b'0', _, ..] => false,
        _ => true,
    }
}
