//! The fields of Protocol Buffers messages, read in place and written one by one.
//! It knows the wire format and no message: which numbers and types a message has is the caller's business.
//! Enter at `Fields::new` to read, and at `Writer::new` to write.
#![tactic(auto)]

mod field;
mod fields;
mod laws;
mod reader;
mod slice_writer;
mod varint;
mod writer;

pub use field::{Field, Value};
pub use fields::{Fields, Malformed};
pub use laws::{
    bytes_are_read_in_one_way, content_ends_its_field, no_spelling_is_shorter,
    written_field_is_read,
};
pub use reader::read_varint;
pub use slice_writer::write_fields_into;
pub use writer::{OptionalField, Writer, push_varint, write_fields};
