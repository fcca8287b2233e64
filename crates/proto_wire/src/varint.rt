//! The shortest varint of a number.
ghost use Rattle.std.specs.Prelude.{◌≡◌, ◌≤◌, length, take};
ghost use Rattle.proto_wire.specs.Varint.{varint_text};

/// A varint has at most so many bytes.
pub(crate) const LONGEST_VARINT: usize = 10;

/// Writes the shortest varint of a number to the front of `bytes`. Answers how many bytes it has.
pub(crate) fn spell_varint(bytes: &mut [u8; LONGEST_VARINT], value: u64) -> usize
    ensures within { result ≤ length bytes.new }
    ensures text { take result bytes.new ≡ varint_text value }
{
    let mut rest = value;
    let mut len = 0usize;
    while rest >= 128 {
        bytes[len] = 128 + (rest % 128) as u8;
        len += 1;
        rest /= 128;
    }
    bytes[len] = rest as u8;
    len + 1
}
