ghost use Rattle.std.specs.Prelude.{◌≡◌, ◌<◌, ◌↔◌, [], ◌∷◌, length, IsNone, IfSome};
ghost use Rattle.text_fields.specs.Lines.{lines_of};

use crate::split_at;

/// The byte that ends a line.
pub const NEWLINE: u8 = b'\n';

/// The first line of a text, without its newline, and what stands behind it. A last line without a newline is a line,
/// and behind the last newline there is none.
pub fn first_line(text: &[u8]) -> Option<(&[u8], &[u8])>
    ensures none { IsNone result ↔ (text.now ≡ []) }
    ensures some { IfSome result (λ parts. lines_of text.now ≡ parts.0.now ∷ lines_of parts.1.now) }
    ensures shorter { IfSome result (λ parts. length parts.1.now < length text.now) }
{
    if text.is_empty() {
        return None;
    }
    Some(split_at(text, NEWLINE).unwrap_or((text, &[])))
}
