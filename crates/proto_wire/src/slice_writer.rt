//! How fields are written into a slice, with no memory of their own.
ghost use Rattle.std.specs.Prelude.{◌≡◌, ◌<◌, ◌≤◌, IfSome, IsNone, length, take};
ghost use Rattle.proto_wire.specs.Entries.{AllNumbered, entries_of, entry_of, entry_text, present, fields_text};
ghost use Rattle.proto_wire.specs.Spelling.{field_text, value_text};
ghost use Rattle.proto_wire.specs.Varint.{varint_text};
ghost use Rattle.proto_wire.specs.Views.{wire_value};
ghost use Rattle.proto_wire.specs.Writing.{Lays};

use crate::field::Value;
use crate::varint::{LONGEST_VARINT, spell_varint};
use crate::writer::{OptionalField, wire_type};

/// Writes those fields that have a value to the front of `out`, in their order, each in its shortest spelling. Answers
/// how many bytes they take, and `None` where `out` is shorter than that.
pub fn write_fields_into(out: &mut [u8], fields: &[OptionalField<'_>]) -> Option<usize>
    requires numbers { AllNumbered (entries_of fields.now) }
    ensures written { IfSome result (λ n. (n ≤ length out.new) × (take n out.new ≡ fields_text (present (entries_of fields.now)))) }
    ensures short { IsNone result → length out.new < length (fields_text (present (entries_of fields.now))) }
{
    let mut at = 0usize;
    for field in fields {
        at = put_entry(out, at, field)?;
    }
    Some(at)
}

// Writes a field from `at` on, if it has a value. Answers where it ends.
fn put_entry(out: &mut [u8], at: usize, field: &OptionalField<'_>) -> Option<usize>
    requires number { field.now.number ≤ 536870911 }
    requires within { at ≤ length out.old }
    ensures { Lays out.old at (entry_text (entry_of field.now)) result out.new }
{
    match field.value {
        Some(value) => put_field(out, at, field.number, value),
        None => Some(at),
    }
}

#[tactic(auto, unfolding(crate::specs::Spelling::field_text))]
fn put_field(out: &mut [u8], at: usize, number: u32, value: Value<'_>) -> Option<usize>
    requires number { number ≤ 536870911 }
    requires within { at ≤ length out.old }
    ensures { Lays out.old at (field_text (record { number = number; value = wire_value value.entry })) result out.new }
{
    let at = put_varint(out, at, u64::from(number) * 8 + wire_type(&value))?;
    put_value(out, at, value)
}

fn put_value(out: &mut [u8], at: usize, value: Value<'_>) -> Option<usize>
    requires { at ≤ length out.old }
    ensures { Lays out.old at (value_text (wire_value value.entry)) result out.new }
{
    match value {
        Value::Varint(number) => put_varint(out, at, number),
        Value::Fixed64(number) => put(out, at, &number.to_le_bytes()),
        Value::Bytes(content) => {
            let at = put_varint(out, at, content.len() as u64)?;
            put(out, at, content)
        }
        Value::Fixed32(number) => put(out, at, &number.to_le_bytes()),
    }
}

fn put_varint(out: &mut [u8], at: usize, value: u64) -> Option<usize>
    requires { at ≤ length out.old }
    ensures { Lays out.old at (varint_text value) result out.new }
{
    let mut bytes = [0; LONGEST_VARINT];
    let len = spell_varint(&mut bytes, value);
    put(out, at, &bytes[..len])
}

fn put(out: &mut [u8], at: usize, bytes: &[u8]) -> Option<usize>
    requires { at ≤ length out.old }
    ensures { Lays out.old at bytes.now result out.new }
{
    if out.len() - at < bytes.len() {
        return None;
    }
    let end = at + bytes.len();
    out[at..end].copy_from_slice(bytes);
    Some(end)
}
