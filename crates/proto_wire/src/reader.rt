//! How the field at the front of some bytes is read.
ghost use Rattle.std.specs.Prelude.{◌≡◌, option_map};
ghost use Rattle.proto_wire.specs.Front.{value_front, field_front, sized_bytes, fixed32_front, fixed64_front};
ghost use Rattle.proto_wire.specs.Varint.{varint_front};
ghost use Rattle.proto_wire.specs.Views.{wire_field, wire_value};

use crate::field::{Field, Value};
use crate::varint::LONGEST_VARINT;
use byteorder::{ByteOrder, LittleEndian};

/// The varint at the front, and the bytes behind it. It has at most ten bytes and a value below 2^64, and needn't be
/// the shortest spelling.
pub fn read_varint(bytes: &[u8]) -> Option<(u64, &[u8])>
    ensures { option_map (λ r. record { value = r.0; rest = r.1.now }) result ≡ varint_front bytes.now }
{
    let mut value: u64 = 0;
    let mut weight: u64 = 1;
    for index in 0..LONGEST_VARINT {
        let byte = *bytes.get(index)?;
        let group = u64::from(byte % 128).checked_mul(weight)?;
        value = value.checked_add(group)?;
        if byte < 128 {
            return Some((value, &bytes[index + 1..]));
        }
        weight = weight.wrapping_mul(128);
    }
    None
}

// So many bytes at the front, and the bytes behind them.
fn read_sized(size: u64, bytes: &[u8]) -> Option<(Value<'_>, &[u8])>
    ensures { option_map (λ r. record { value = wire_value r.0; rest = r.1.now }) result ≡ sized_bytes (record { value = size; rest = bytes.now }) }
{
    if size > bytes.len() as u64 {
        return None;
    }
    let (content, rest) = bytes.split_at(size as usize);
    Some((Value::Bytes(content), rest))
}

// The eight bytes at the front, and the bytes behind them.
fn read_fixed64(bytes: &[u8]) -> Option<(Value<'_>, &[u8])>
    ensures { option_map (λ r. record { value = wire_value r.0; rest = r.1.now }) result ≡ fixed64_front bytes.now }
{
    let (word, rest) = bytes.split_at_checked(8)?;
    Some((Value::Fixed64(LittleEndian::read_u64(word)), rest))
}

// The four bytes at the front, and the bytes behind them.
fn read_fixed32(bytes: &[u8]) -> Option<(Value<'_>, &[u8])>
    ensures { option_map (λ r. record { value = wire_value r.0; rest = r.1.now }) result ≡ fixed32_front bytes.now }
{
    let (word, rest) = bytes.split_at_checked(4)?;
    Some((Value::Fixed32(LittleEndian::read_u32(word)), rest))
}

// The value of this wire type at the front, and the bytes behind it.
#[tactic(auto, unfolding(crate::specs::Front::value_front))]
fn read_value(wire_type: u64, bytes: &[u8]) -> Option<(Value<'_>, &[u8])>
    ensures { option_map (λ r. record { value = wire_value r.0; rest = r.1.now }) result ≡ value_front wire_type bytes.now }
{
    match wire_type {
        0 => {
            let (number, rest) = read_varint(bytes)?;
            Some((Value::Varint(number), rest))
        }
        1 => read_fixed64(bytes),
        2 => {
            let (size, rest) = read_varint(bytes)?;
            read_sized(size, rest)
        }
        5 => read_fixed32(bytes),
        _ => None,
    }
}

// The field at the front, and the bytes behind it.
#[tactic(auto, unfolding(crate::specs::Front::field_front))]
pub(crate) fn read_field(bytes: &[u8]) -> Option<(Field<'_>, &[u8])>
    ensures { option_map (λ r. record { field = wire_field r.0; rest = r.1.now }) result ≡ field_front bytes.now }
{
    let (tag, rest) = read_varint(bytes)?;
    if tag < 8 || tag >= 1 << 32 {
        return None;
    }
    let (value, rest) = read_value(tag % 8, rest)?;
    let number = (tag / 8) as u32;
    Some((Field { number, value }, rest))
}
