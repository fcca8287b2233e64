ghost use Rattle.std.specs.Prelude.{◌≡◌, ◌≢◌, ◌<◌, ◌≤◌, length, IfOk};
ghost use Rattle.std.specs.Io.KnownBytes.{Consumes, IsAtEnd};
ghost use Rattle.link_io.specs.Causes.{Rose};
ghost use Rattle.link_io.specs.Reading.{ConsumesUpTo};

use crate::Source;
use std::alloc::{AllocError, Global};

// How many bytes are asked for in one read.
const PIECE: usize = 4096;

/// Why reading stopped.
#[derive(Clone, Copy, Debug, PartialEq, Eq)]
pub enum Ending {
    /// The source has no further byte.
    AtEnd,
    /// As many bytes were read as were allowed; the end wasn't looked for.
    AtLimit,
    /// A read failed.
    Failed,
}

/// What was read from a source.
#[derive(Drop)]
pub struct Taken {
    pub bytes: Vec<u8>,
    pub ending: Ending,
}

/// Reads until the end of the source, a fault, or `limit` bytes.
///
/// # Errors
///
/// `AllocError` where the bytes could not be kept. Up to `limit` bytes are then taken and lost.
pub fn read_to_limit<S: Source>(
    alloc: Global,
    source: &mut S,
    limit: usize,
) -> Result<Taken, AllocError>
    ensures bytes { IfOk result (λ taken. Consumes (S.left source.old) (S.left source.new) taken.bytes.items) }
    ensures at_end { IfOk result (λ taken. taken.ending ≡ Ending.AtEnd → IsAtEnd (S.left source.new)) }
    ensures at_limit { IfOk result (λ taken.
        taken.ending ≡ Ending.AtLimit → length taken.bytes.items ≡ limit) }
    ensures below { IfOk result (λ taken.
        taken.ending ≢ Ending.AtLimit → length taken.bytes.items < limit) }
    ensures failed { IfOk result (λ taken.
        taken.ending ≡ Ending.Failed → Rose (S.faults source.old) (S.faults source.new)) }
    ensures later { S.faults source.old ≤ S.faults source.new }
    ensures most { ConsumesUpTo limit (S.left source.old) (S.left source.new) }
{
    let mut bytes = Vec::new(alloc);
    let mut buffer = [0; PIECE];
    'pieces: while bytes.len() < limit {
        let room = PIECE.min(limit - bytes.len());
        match source.read(&mut buffer[..room]) {
            Ok(0) => return Ok(Taken {
                bytes,
                ending: Ending::AtEnd,
            }),
            Ok(count) => bytes.extend_from_slice(&buffer[..count])?,
            Err(_) => return Ok(Taken {
                bytes,
                ending: Ending::Failed,
            }),
        }
    }
    Ok(Taken {
        bytes,
        ending: Ending::AtLimit,
    })
}
