//! A field and its value.
ghost use Rattle.std.specs.Prelude.{◌≡◌, option_map};
ghost use Rattle.proto_wire.specs.Absent.{nonzero_varint as nonzero_varint_of, nonzero_fixed32 as nonzero_fixed32_of, nonempty_bytes as nonempty_bytes_of};
ghost use Rattle.proto_wire.specs.Typed.{uint64_of, uint32_of, fixed32_of, bytes_of};
ghost use Rattle.proto_wire.specs.Views.{wire_value};

/// A value as the wire carries it.
#[derive(Clone, Copy, Debug, PartialEq, Eq)]
pub enum Value<'a> {
    /// A number of wire type 0.
    Varint(u64),
    /// Eight bytes of wire type 1, the lowest first.
    Fixed64(u64),
    /// Bytes behind their length, of wire type 2.
    Bytes(&'a [u8]),
    /// Four bytes of wire type 5, the lowest first.
    Fixed32(u32),
}

/// A field of a message: its number, from 1 to 536,870,911, and its value.
#[derive(Clone, Copy, Debug, PartialEq, Eq)]
pub struct Field<'a> {
    pub number: u32,
    pub value: Value<'a>,
}

impl<'a> Value<'a> {
    /// The value of a varint field that is left out where it is 0.
    pub fn nonzero_varint(number: u64) -> Option<Value<'a>>
        ensures { option_map wire_value result ≡ nonzero_varint_of number }
    {
        if number == 0 {
            return None;
        }
        Some(Value::Varint(number))
    }

    /// The value of a `fixed32` field that is left out where it is 0.
    pub fn nonzero_fixed32(word: u32) -> Option<Value<'a>>
        ensures { option_map wire_value result ≡ nonzero_fixed32_of word }
    {
        if word == 0 {
            return None;
        }
        Some(Value::Fixed32(word))
    }

    /// The value of a `bytes` field that is left out where it is empty.
    pub fn nonempty_bytes(content: &'a [u8]) -> Option<Value<'a>>
        ensures { option_map wire_value result ≡ nonempty_bytes_of content.now }
    {
        if content.is_empty() {
            return None;
        }
        Some(Value::Bytes(content))
    }

    /// The value as a `uint64`, or `None` at another wire type.
    pub fn as_uint64(&self) -> Option<u64>
        ensures { result ≡ uint64_of (wire_value self.now) }
    {
        match self {
            Value::Varint(number) => Some(*number),
            _ => None,
        }
    }

    /// The value as a `uint32`, or `None` at another wire type and at 2^32 or more.
    pub fn as_uint32(&self) -> Option<u32>
        ensures { result ≡ uint32_of (wire_value self.now) }
    {
        match self {
            Value::Varint(number) => u32::try_from(*number).ok(),
            _ => None,
        }
    }

    /// The value as a `fixed32`, or `None` at another wire type.
    pub fn as_fixed32(&self) -> Option<u32>
        ensures { result ≡ fixed32_of (wire_value self.now) }
    {
        match self {
            Value::Fixed32(word) => Some(*word),
            _ => None,
        }
    }

    /// The value as `bytes`, or `None` at another wire type.
    pub fn as_bytes(&self) -> Option<&'a [u8]>
        ensures { option_map (λ b. b.now) result ≡ bytes_of (wire_value self.now) }
    {
        match self {
            Value::Bytes(content) => Some(*content),
            _ => None,
        }
    }
}
