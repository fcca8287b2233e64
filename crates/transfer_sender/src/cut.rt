ghost use Rattle.std.specs.Prelude.{◌≡◌, ◌+◌, ◌≤◌, length, min, IfOk};
ghost use Rattle.transfer_base.specs.PieceLists.{end_of};
ghost use Rattle.transfer_sender.specs.Cut.{piece_at, pieces_of_window};

use crate::pieces::Pieces;
use bytes::Bytes;
use std::alloc::{AllocError, Global};
use transfer_base::Piece;

/// The most pieces that answer one ask.
pub const MAX_PIECES: usize = 64;

/// Pieces of a resource, and the byte behind the last of them.
#[derive(Debug, Drop)]
pub struct Cut {
    pub pieces: Pieces,
    pub end: u64,
}

/// The piece of `size` bytes at `offset`.
pub fn piece_at(resource: &Bytes, offset: u64, size: u64) -> Result<Piece, AllocError>
    requires { offset + size ≤ length resource.now }
    ensures { IfOk result (λ p. p ≡ piece_at resource.now offset size) }
{
    let length = resource.len() as u64;
    let end = offset + size;
    Ok(Piece {
        offset,
        bytes: resource.slice(offset as usize..end as usize)?,
        last: end == length,
    })
}

/// The pieces of one window, from `position` on.
pub fn cut_window(
    alloc: Global,
    resource: &Bytes,
    chunk: u64,
    window_end: u64,
    position: u64,
) -> Result<Cut, AllocError>
    requires { position ≤ length resource.now }
    ensures pieces { IfOk result (λ c. c.pieces ≡ pieces_of_window resource.now chunk window_end position) }
    ensures end { IfOk result (λ c. c.end ≡ end_of position (pieces_of_window resource.now chunk window_end position)) }
    ensures within { IfOk result (λ c. c.end ≤ length resource.now) }
{
    let stop = window_end.min(resource.len() as u64);
    let mut pieces = Pieces::new(alloc);
    let mut at = position;
    for _turn in 0..MAX_PIECES {
        if at >= stop {
            return Ok(Cut { pieces, end: at });
        }
        let size = chunk.min(stop - at);
        pieces.push(piece_at(resource, at, size)?)?;
        at += size;
    }
    Ok(Cut { pieces, end: at })
}
