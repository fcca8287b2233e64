//! What holds of reading and writing together.
ghost use Rattle.std.specs.Prelude.{◌≡◌, Ok};
ghost use Rattle.transfer_chunk.specs.Chunk.{Chunk};
ghost use Rattle.transfer_chunk.specs.Reading.{chunk_of};
ghost use Rattle.transfer_chunk.specs.ChunkText.{chunk_text, HasWidths};

/// A chunk that was written is read as itself.
pub fn written_chunk_is_read()
    ensures { (c : Chunk) → HasWidths c → chunk_of (chunk_text c) ≡ Ok c }
{}
