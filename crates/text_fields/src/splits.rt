ghost use Rattle.std.specs.Prelude.{◌≡◌, ℕ, List, ◌++◌, IfNone, IfSome, IsSomeAnd};
ghost use Rattle.text_fields.specs.Splits.{IsSplitAt, Lacks};

use memchr::memchr;

/// The byte between the fields of a line.
pub const BLANK: u8 = b' ';

/// The field in front of the first blank of a text, and what stands behind that blank.
pub fn split_at_blank(text: &[u8]) -> Option<(&[u8], &[u8])>
    ensures none { IfNone result (Lacks BLANK text.now) }
    ensures some { IfSome result (λ parts. IsSplitAt BLANK text.now parts.0.now parts.1.now) }
    ensures only { (front rest : List ℕ) → IsSplitAt BLANK text.now front rest →
        IsSomeAnd result (λ parts. (parts.0.now ≡ front) × (parts.1.now ≡ rest)) }
{
    split_at(text, BLANK)
}

/// The field in front of the first separator of a text, and what stands behind that separator.
pub fn split_at(text: &[u8], separator: u8) -> Option<(&[u8], &[u8])>
    ensures none { IfNone result (Lacks separator text.now) }
    ensures some { IfSome result (λ parts. IsSplitAt separator text.now parts.0.now parts.1.now) }
    ensures only { (front rest : List ℕ) → IsSplitAt separator text.now front rest →
        IsSomeAnd result (λ parts. (parts.0.now ≡ front) × (parts.1.now ≡ rest)) }
{
    let at = memchr(separator, text)?;
    Some((&text[..at], &text[at + 1..]))
}

/// What stands behind a word at the front of a text.
pub fn strip_word<'a>(text: &'a [u8], word: &[u8]) -> Option<&'a [u8]>
    ensures some { IfSome result (λ rest. text.now ≡ word.now ++ rest.now) }
    ensures only { (rest : List ℕ) → text.now ≡ word.now ++ rest →
        IsSomeAnd result (λ behind. behind.now ≡ rest) }
{
    text.strip_prefix(word)
}
