//! What holds of reading and writing together.
ghost use Rattle.std.specs.Prelude.{◌≡◌, ℕ, ◌+◌, ◌-◌, ◌≤◌, ◌++◌, List, length, false};
ghost use Rattle.proto_wire.specs.Field.{Bytes, WireField, IsField};
ghost use Rattle.proto_wire.specs.Gives.{GivesField};
ghost use Rattle.proto_wire.specs.Message.{Message, IsRead, fields_from, with_field};
ghost use Rattle.proto_wire.specs.Places.{IsReadingOf, StandsAt};
ghost use Rattle.proto_wire.specs.Reading.{Reading};
ghost use Rattle.proto_wire.specs.Spelling.{AreBytes, field_text, IsWritable};

/// Any bytes are read in one way: as their fields, up to the first offset where none can be read.
pub fn bytes_are_read_in_one_way()
    ensures a_way { (at : ℕ) (bytes : List ℕ) → IsRead at bytes (fields_from at bytes) }
    ensures one { (at : ℕ) (bytes : List ℕ) (m : Message) → IsRead at bytes m → m ≡ fields_from at bytes }
{}

/// A field that was written is read as the same field, whatever stands behind it.
pub fn written_field_is_read()
    ensures spelled { (f : WireField) → IsWritable f → IsField (field_text f) f }
    ensures read { (at : ℕ) (f : WireField) (rest : List ℕ) → IsWritable f → fields_from at (field_text f ++ rest) ≡ with_field at f (fields_from (at + length (field_text f)) rest) }
{}

/// No other spelling of a field is shorter than the one that is written.
pub fn no_spelling_is_shorter()
    ensures shortest { (f : WireField) (text : List ℕ) → AreBytes text → IsField text f → length (field_text f) ≤ length text }
{}

/// The content of a `bytes` field is a range of the message: it ends at the offset of the next field.
pub fn content_ends_its_field()
    ensures start { (bytes : List ℕ) → IsReadingOf bytes (record { left = bytes; at = 0; failed = false }) }
    ensures moves { (bytes : List ℕ) (old new : Reading) (f : WireField) → IsReadingOf bytes old → GivesField old f new → IsReadingOf bytes new }
    ensures stands { (bytes : List ℕ) (old new : Reading) (number : ℕ) (content : List ℕ) → IsReadingOf bytes old → GivesField old (record { number = number; value = Bytes content }) new → StandsAt bytes content (new.at - length content) }
{}
