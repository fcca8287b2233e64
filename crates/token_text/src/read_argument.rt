//! How the arguments of a message are read.
ghost use Rattle.std.specs.Prelude.{◌≡◌, ◌+◌, ◌≤◌, ◌↔◌, ℕ, List, ◌∷◌, ◌++◌, ℤ, Bool, length, IfSome, IsSomeAnd, IsTrue, All};
ghost use Rattle.std.specs.List.{list_all};
ghost use Rattle.proto_wire.specs.Varint.{IsVarint};
ghost use Rattle.token_text.specs.Arguments.{is_printable as is_printable_of};
ghost use Rattle.token_text.specs.Format.{IsPrintable};
ghost use Rattle.token_text.specs.Spelling.{IsShortText, text_head, zigzag};

use proto_wire::read_varint;

/// In front of a text stands its length, and this number more where the text was cut.
pub(crate) const CUT: u8 = 128;

/// A text of a message, and whether it was cut.
#[derive(Clone, Copy, Debug)]
pub(crate) struct ShortText<'a> {
    pub bytes: &'a [u8],
    pub cut: bool,
}

/// The number at the front, and what stands behind it.
pub(crate) fn read_number(bytes: &[u8]) -> Option<(i64, &[u8])>
    ensures some { IfSome result (λ r. (front : List ℕ) × IsVarint front (zigzag r.0) × (bytes.now ≡ front ++ r.1.now)) }
    ensures only { (n : ℤ) (front rest : List ℕ) → IsVarint front (zigzag n) → bytes.now ≡ front ++ rest →
        IsSomeAnd result (λ r. (r.0 ≡ n) × (r.1.now ≡ rest)) }
    ensures short { IfSome result (λ r. length bytes.now ≤ length r.1.now + 128) }
{
    let (folded, rest) = read_varint(bytes)?;
    Some((unfold(folded), rest))
}

// The number that folds to this one: 2n is n, and 2n + 1 is -n - 1.
fn unfold(folded: u64) -> i64
    ensures { zigzag result ≡ folded }
{
    let half = (folded / 2) as i64;
    if folded % 2 == 0 { half } else { -half - 1 }
}

/// The text at the front, and what stands behind it.
pub(crate) fn read_text(bytes: &[u8]) -> Option<(ShortText<'_>, &[u8])>
    ensures some { IfSome result (λ r. IsShortText r.0.bytes.now ×
        (bytes.now ≡ text_head (length r.0.bytes.now) r.0.cut ∷ (r.0.bytes.now ++ r.1.now))) }
    ensures only { (text rest : List ℕ) (cut : Bool) → IsShortText text →
        bytes.now ≡ text_head (length text) cut ∷ (text ++ rest) →
        IsSomeAnd result (λ r. (r.0.bytes.now ≡ text) × (r.0.cut ≡ cut) × (r.1.now ≡ rest)) }
    ensures short { IfSome result (λ r. length bytes.now ≤ length r.1.now + 128) }
{
    let (head, behind) = bytes.split_first()?;
    let (text, rest) = behind.split_at_checked(usize::from(head % CUT))?;
    if !are_printable(text) {
        return None;
    }
    let cut = *head >= CUT;
    Some((ShortText { bytes: text, cut }, rest))
}

/// Whether a text may be an argument.
pub(crate) fn are_printable(text: &[u8]) -> bool
    ensures value { result ≡ list_all is_printable_of text.now }
    ensures all { IsTrue result ↔ All IsPrintable text.now }
{
    text.iter().all(|byte| is_printable(*byte))
}

fn is_printable(byte: u8) -> bool
    ensures { result ≡ is_printable_of byte }
{
    (b' '..=b'~').contains(&byte)
}
