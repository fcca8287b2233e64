//! How fields are written.
ghost use Rattle.std.specs.Prelude.{◌≡◌, ◌≤◌, ◌++◌, ℕ, List, OnOk, OnErr};
ghost use Rattle.proto_wire.specs.Entries.{AllNumbered, entries_of, entry_of, entry_text, present, fields_text};
ghost use Rattle.proto_wire.specs.Field.{Varint, Bytes, Fixed32, wire_type as wire_type_of};
ghost use Rattle.proto_wire.specs.Spelling.{field_text, value_text};
ghost use Rattle.proto_wire.specs.Varint.{varint_text};
ghost use Rattle.proto_wire.specs.Views.{wire_value};
ghost use Rattle.proto_wire.specs.Writing.{written, HasSameOut};

use crate::field::Value;
use crate::varint::{LONGEST_VARINT, spell_varint};
use std::alloc::AllocError;

/// Appends fields to `out`, each in its shortest spelling.
#[derive(Drop)]
pub struct Writer<'o> {
    out: &'o mut Vec<u8>,
}

impl<'o> Writer<'o> {
    /// A writer that appends to `out`.
    pub fn new(out: &'o mut Vec<u8>) -> Writer<'o>
        ensures same_out { result.out.ghost_name ≡ out.entry.ghost_name }
        ensures before { written result ≡ out.old.items }
    {
        Writer { out }
    }

    /// Appends a field of wire type 0. After an `Err` the bytes are as before.
    pub fn varint(&mut self, number: u32, value: u64) -> Result<(), AllocError>
        requires low { 1 ≤ number }
        requires high { number ≤ 536870911 }
        ensures ok { OnOk result (written self.new ≡ written self.old ++ field_text (record { number = number; value = Varint value })) }
        ensures err { OnErr result (written self.new ≡ written self.old) }
        ensures same_out { HasSameOut self.old self.new }
    {
        self.field(number, Value::Varint(value))
    }

    /// Appends a field of wire type 5. After an `Err` the bytes are as before.
    pub fn fixed32(&mut self, number: u32, value: u32) -> Result<(), AllocError>
        requires low { 1 ≤ number }
        requires high { number ≤ 536870911 }
        ensures ok { OnOk result (written self.new ≡ written self.old ++ field_text (record { number = number; value = Fixed32 value })) }
        ensures err { OnErr result (written self.new ≡ written self.old) }
        ensures same_out { HasSameOut self.old self.new }
    {
        self.field(number, Value::Fixed32(value))
    }

    /// Appends a field of wire type 2. After an `Err` the bytes are as before.
    pub fn bytes(&mut self, number: u32, value: &[u8]) -> Result<(), AllocError>
        requires low { 1 ≤ number }
        requires high { number ≤ 536870911 }
        ensures ok { OnOk result (written self.new ≡ written self.old ++ field_text (record { number = number; value = Bytes value.now })) }
        ensures err { OnErr result (written self.new ≡ written self.old) }
        ensures same_out { HasSameOut self.old self.new }
    {
        self.field(number, Value::Bytes(value))
    }

    fn field(&mut self, number: u32, value: Value<'_>) -> Result<(), AllocError>
        requires high { number ≤ 536870911 }
        ensures ok { OnOk result (written self.new ≡ written self.old ++ field_text (record { number = number; value = wire_value value.entry })) }
        ensures err { OnErr result (written self.new ≡ written self.old) }
        ensures same_out { HasSameOut self.old self.new }
    {
        let before = self.out.len();
        match push_field(self.out, number, value) {
            Ok(()) => Ok(()),
            Err(error) => {
                self.out.truncate(before);
                Err(error)
            }
        }
    }
}

/// A field of a message that is written where it has a value.
#[derive(Clone, Copy, Debug, PartialEq, Eq)]
pub struct OptionalField<'a> {
    /// From 1 to 536,870,911.
    pub number: u32,
    pub value: Option<Value<'a>>,
}

/// Appends those fields that have a value, in their order. After an `Err` the bytes are as before.
pub fn write_fields(out: &mut Vec<u8>, fields: &[OptionalField<'_>]) -> Result<(), AllocError>
    requires numbers { AllNumbered (entries_of fields.now) }
    ensures ok { OnOk result (out.new.items ≡ out.old.items ++ fields_text (present (entries_of fields.now))) }
    ensures err { OnErr result (out.new.items ≡ out.old.items) }
{
    let before = out.len();
    match push_fields(out, fields) {
        Ok(()) => Ok(()),
        Err(error) => {
            out.truncate(before);
            Err(error)
        }
    }
}

// Appends fields. After an `Err` a part of them may stand there.
fn push_fields(out: &mut Vec<u8>, fields: &[OptionalField<'_>]) -> Result<(), AllocError>
    requires { AllNumbered (entries_of fields.now) }
    ensures ok { OnOk result (out.new.items ≡ out.old.items ++ fields_text (present (entries_of fields.now))) }
    ensures begun { (part : List ℕ) × (out.new.items ≡ out.old.items ++ part) }
{
    for field in fields {
        push_entry(out, field)?;
    }
    Ok(())
}

// Appends a field, if it has a value. After an `Err` a part of it may stand there.
fn push_entry(out: &mut Vec<u8>, field: &OptionalField<'_>) -> Result<(), AllocError>
    requires { field.now.number ≤ 536870911 }
    ensures ok { OnOk result (out.new.items ≡ out.old.items ++ entry_text (entry_of field.now)) }
    ensures begun { (part : List ℕ) × (out.new.items ≡ out.old.items ++ part) }
{
    match field.value {
        Some(value) => push_field(out, field.number, value),
        None => Ok(()),
    }
}

pub(crate) fn wire_type(value: &Value<'_>) -> u64
    ensures { result ≡ wire_type_of (wire_value value.now) }
{
    match value {
        Value::Varint(_) => 0,
        Value::Fixed64(_) => 1,
        Value::Bytes(_) => 2,
        Value::Fixed32(_) => 5,
    }
}

/// Appends the shortest varint of a number. After an `Err` a part of it may stand there.
pub fn push_varint(out: &mut Vec<u8>, value: u64) -> Result<(), AllocError>
    ensures ok { OnOk result (out.new.items ≡ out.old.items ++ varint_text value) }
    ensures begun { (part : List ℕ) × (out.new.items ≡ out.old.items ++ part) }
{
    let mut bytes = [0; LONGEST_VARINT];
    let len = spell_varint(&mut bytes, value);
    out.extend_from_slice(&bytes[..len])
}

// Appends a field. After an `Err` a part of it may stand there.
#[tactic(auto, unfolding(crate::specs::Spelling::field_text))]
fn push_field(out: &mut Vec<u8>, number: u32, value: Value<'_>) -> Result<(), AllocError>
    requires { number ≤ 536870911 }
    ensures ok { OnOk result (out.new.items ≡ out.old.items ++ field_text (record { number = number; value = wire_value value.entry })) }
    ensures begun { (part : List ℕ) × (out.new.items ≡ out.old.items ++ part) }
{
    push_varint(out, u64::from(number) * 8 + wire_type(&value))?;
    push_value(out, value)?;
    Ok(())
}

// Appends a value. After an `Err` a part of it may stand there.
fn push_value(out: &mut Vec<u8>, value: Value<'_>) -> Result<(), AllocError>
    ensures ok { OnOk result (out.new.items ≡ out.old.items ++ value_text (wire_value value.entry)) }
    ensures begun { (part : List ℕ) × (out.new.items ≡ out.old.items ++ part) }
{
    match value {
        Value::Varint(number) => push_varint(out, number),
        Value::Fixed64(number) => out.extend_from_slice(&number.to_le_bytes()),
        Value::Bytes(content) => {
            push_varint(out, content.len() as u64)?;
            out.extend_from_slice(content)
        }
        Value::Fixed32(number) => out.extend_from_slice(&number.to_le_bytes()),
    }
}
