//! A chunk and its fields.
ghost use Rattle.std.specs.Prelude.{◌≡◌, ◌++◌, option_map, Ok, IfOk, IfErr, OnOk, OnErr};
ghost use Rattle.proto_wire.specs.Entries.{entries_of, entry_of};
ghost use Rattle.proto_wire.specs.Views.{wire_field};
ghost use Rattle.transfer_chunk.specs.ChunkText.{HasWidths, chunk_entries, chunk_text, kept_entry, number_entry};
ghost use Rattle.transfer_chunk.specs.ChunkTypes.{type_of};
ghost use Rattle.transfer_chunk.specs.Chunk.{Chunk, lent_chunk, no_chunk, taken};
ghost use Rattle.transfer_chunk.specs.Reading.{IsChunk, IsFaultAt, chunk_of, seen};

use crate::chunk_type::ChunkType;
use proto_wire::{Field, Fields, Malformed, OptionalField, Value, write_fields};
use std::alloc::AllocError;

/// A chunk, with its data lent from the bytes that it was read from.
///
/// A field that is an `Option` keeps whether it was there: it is written whenever it is there, also as 0. Every other
/// field is 0 or empty where it is absent, and isn't written then.
#[derive(Clone, Copy, Debug, PartialEq, Eq)]
pub struct ChunkRef<'a> {
    /// Field 1, of the older protocol version.
    pub transfer_id: u32,
    /// Field 2, in bytes. It is read, and nobody obeys it.
    pub pending: Option<u32>,
    /// Field 3: how many bytes of data a chunk may have at most.
    pub max_chunk: Option<u32>,
    /// Field 4, in microseconds. It is read, and nobody obeys it.
    pub min_delay: u32,
    /// Field 5: where the data begins in the resource, or where the receiver wants it to begin, in bytes.
    pub offset: u64,
    /// Field 6: the data.
    pub bytes: &'a [u8],
    /// Field 7: how many bytes of the resource follow the data. Only 0 is sent, by the last chunk of data.
    pub remaining: Option<u64>,
    /// Field 8: the number of the status with which the transfer ended.
    pub status: Option<u32>,
    /// Field 9: the offset behind the last byte that the receiver wants, in bytes.
    pub window_end: u32,
    /// Field 10: the number of the chunk's type.
    pub ctype: Option<u64>,
    /// Field 11: which resource is to be moved.
    pub resource: Option<u32>,
    /// Field 12: the session that the chunk belongs to.
    pub session: Option<u32>,
    /// Field 13: the version of the transfer protocol, 2 here.
    pub version: Option<u32>,
    /// Field 14: the session id that the client wants.
    pub desired: Option<u32>,
    /// Field 15: where the transfer is to begin in the resource, in bytes.
    pub initial: u64,
}

impl<'a> ChunkRef<'a> {
    /// Reads a chunk. Of a repeated field the last counts, and unknown fields are skipped.
    ///
    /// `Malformed` tells the offset of the first field that can't be read, that has another wire type than a chunk
    /// declares, or that is a `uint32` of 2^32 or more.
    pub fn read(bytes: &'a [u8]) -> Result<ChunkRef<'a>, Malformed>
        ensures chunk { IfOk result (λ c. IsChunk bytes.now (lent_chunk c)) }
        ensures only { (c : Chunk) → IsChunk bytes.now c → seen result ≡ Ok c }
        ensures fault { IfErr result (λ e. IsFaultAt bytes.now e.at) }
        ensures value { seen result ≡ chunk_of bytes.now }
    {
        ChunkRef::read_fields(bytes)
    }

    // The answer of `read`, field by field.
    fn read_fields(bytes: &'a [u8]) -> Result<ChunkRef<'a>, Malformed>
        ensures { seen result ≡ chunk_of bytes.now }
    {
        let mut fields = Fields::new(bytes);
        let mut chunk = ChunkRef::empty();
        'fields: loop {
            let at = fields.at();
            let Some(next) = fields.next() else {
                return Ok(chunk);
            };
            let field = next?;
            let Some(longer) = chunk.with(field) else {
                return Err(Malformed { at });
            };
            chunk = longer;
        }
    }

    /// Appends the chunk's one spelling: its fields by rising number, each in its shortest spelling. `read` gives the
    /// chunk again from it. After an `Err` `out` is as before.
    #[tactic(auto, unfolding(crate::specs::ChunkText::chunk_text))]
    pub fn write(&self, out: &mut Vec<u8>) -> Result<(), AllocError>
        ensures ok { OnOk result (out.new.items ≡ out.old.items ++ chunk_text (lent_chunk self.now)) }
        ensures again { chunk_of (chunk_text (lent_chunk self.now)) ≡ Ok (lent_chunk self.now) }
        ensures err { OnErr result (out.new.items ≡ out.old.items) }
    {
        write_fields(out, &self.fields())
    }

    /// What the chunk is for: without a type it has data, and a number that no type has gives `None`.
    pub fn chunk_type(&self) -> Option<ChunkType>
        ensures { result ≡ type_of (lent_chunk self.now) }
    {
        match self.ctype {
            Some(number) => ChunkType::of(number),
            None => Some(ChunkType::Data),
        }
    }

    // The fields by rising number, each with its value where it is written.
    fn fields(&self) -> [OptionalField<'a>; 15]
        ensures entries { entries_of result ≡ chunk_entries (lent_chunk self.now) }
        ensures widths { HasWidths (lent_chunk self.now) }
    {
        [
            number_field(1, u64::from(self.transfer_id)),
            kept_field(2, self.pending),
            kept_field(3, self.max_chunk),
            number_field(4, u64::from(self.min_delay)),
            number_field(5, self.offset),
            OptionalField {
                number: 6,
                value: Value::nonempty_bytes(self.bytes),
            },
            wide_field(7, self.remaining),
            kept_field(8, self.status),
            number_field(9, u64::from(self.window_end)),
            wide_field(10, self.ctype),
            kept_field(11, self.resource),
            kept_field(12, self.session),
            kept_field(13, self.version),
            kept_field(14, self.desired),
            number_field(15, self.initial),
        ]
    }

    /// The chunk of no fields.
    pub fn empty() -> ChunkRef<'a>
        ensures { lent_chunk result ≡ no_chunk }
    {
        ChunkRef {
            transfer_id: 0,
            pending: None,
            max_chunk: None,
            min_delay: 0,
            offset: 0,
            bytes: &[],
            remaining: None,
            status: None,
            window_end: 0,
            ctype: None,
            resource: None,
            session: None,
            version: None,
            desired: None,
            initial: 0,
        }
    }

    // The chunk with one more field taken, or `None` where the field isn't as a chunk declares it.
    #[tactic(auto, unfolding(crate::specs::Chunk::declared))]
    fn with(self, field: Field<'a>) -> Option<ChunkRef<'a>>
        ensures { option_map lent_chunk result ≡ taken (lent_chunk self.entry) (wire_field field.entry) }
    {
        let value = field.value;
        match field.number {
            1 => Some(ChunkRef {
                transfer_id: value.as_uint32()?,
                ..self
            }),
            2 => Some(ChunkRef {
                pending: Some(value.as_uint32()?),
                ..self
            }),
            3 => Some(ChunkRef {
                max_chunk: Some(value.as_uint32()?),
                ..self
            }),
            4 => Some(ChunkRef {
                min_delay: value.as_uint32()?,
                ..self
            }),
            5 => Some(ChunkRef {
                offset: value.as_uint64()?,
                ..self
            }),
            6 => Some(ChunkRef {
                bytes: value.as_bytes()?,
                ..self
            }),
            7 => Some(ChunkRef {
                remaining: Some(value.as_uint64()?),
                ..self
            }),
            8 => Some(ChunkRef {
                status: Some(value.as_uint32()?),
                ..self
            }),
            9 => Some(ChunkRef {
                window_end: value.as_uint32()?,
                ..self
            }),
            10 => Some(ChunkRef {
                ctype: Some(value.as_uint64()?),
                ..self
            }),
            11 => Some(ChunkRef {
                resource: Some(value.as_uint32()?),
                ..self
            }),
            12 => Some(ChunkRef {
                session: Some(value.as_uint32()?),
                ..self
            }),
            13 => Some(ChunkRef {
                version: Some(value.as_uint32()?),
                ..self
            }),
            14 => Some(ChunkRef {
                desired: Some(value.as_uint32()?),
                ..self
            }),
            15 => Some(ChunkRef {
                initial: value.as_uint64()?,
                ..self
            }),
            _ => Some(self),
        }
    }
}

// A number that isn't written where it is 0.
fn number_field<'a>(number: u32, value: u64) -> OptionalField<'a>
    ensures { entry_of result ≡ number_entry number value }
{
    OptionalField {
        number,
        value: Value::nonzero_varint(value),
    }
}

// A number that is written wherever it is there.
fn wide_field<'a>(number: u32, value: Option<u64>) -> OptionalField<'a>
    ensures { entry_of result ≡ kept_entry number value }
{
    let value = match value {
        Some(value) => Some(Value::Varint(value)),
        None => None,
    };
    OptionalField { number, value }
}

fn kept_field<'a>(number: u32, value: Option<u32>) -> OptionalField<'a>
    ensures { entry_of result ≡ kept_entry number value }
{
    wide_field(number, value.map(u64::from))
}
