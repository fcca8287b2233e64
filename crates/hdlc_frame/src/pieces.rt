//! A whole stream at once, in the pieces that it came in.

ghost use Rattle.std.specs.Prelude.{◌≡◌, ◌≤◌, ◌++◌, ℕ, List, map, IfOk, OnOk};
ghost use Rattle.std.specs.List.{flat_map};
ghost use Rattle.hdlc_frame.specs.Found.{found};
ghost use Rattle.hdlc_frame.specs.Lent.{found_in_got, found_of};
ghost use Rattle.hdlc_frame.specs.Machine.{HasRead};
ghost use Rattle.hdlc_frame.specs.Owned.{decoded_found};

use crate::decoder::Decoder;
use crate::found::{Bad, Got};
use std::alloc::{AllocError, Global};

/// What a segment carried, in memory of its own.
#[derive(Debug, Drop)]
pub enum Decoded {
    Frame {
        address: u32,
        control: u8,
        payload: Vec<u8>,
    },
    Bad(Bad),
}

/// What the segments of a stream carry, in order, with contents of at most `limit` octets (6 to 8,192). It is the same
/// however the stream was cut into `pieces`.
pub fn decode_pieces(
    alloc: Global,
    limit: usize,
    pieces: &[&[u8]],
) -> Result<Vec<Decoded>, AllocError>
    requires least { 6 ≤ limit }
    requires most { limit ≤ 8192 }
    ensures { IfOk result (λ all. map decoded_found all.items ≡ found limit (flat_map (λ piece. piece.now) pieces.now)) }
{
    let mut decoder = Decoder::new(alloc, limit)?;
    let mut all = Vec::new(alloc);
    for piece in pieces {
        decode_piece(alloc, &mut decoder, piece, &mut all)?;
    }
    Ok(all)
}

fn decode_piece(
    alloc: Global,
    decoder: &mut Decoder,
    piece: &[u8],
    all: &mut Vec<Decoded>,
) -> Result<(), AllocError>
    ensures limit { OnOk result (decoder.new.limit ≡ decoder.old.limit) }
    ensures read { OnOk result ((stream : List ℕ) → HasRead decoder.old stream → HasRead decoder.new (stream ++ piece.now)) }
    ensures gives { OnOk result ((stream : List ℕ) → HasRead decoder.old stream → map decoded_found all.old.items ≡ found decoder.old.limit stream → map decoded_found all.new.items ≡ found decoder.old.limit (stream ++ piece.now)) }
{
    let mut at = 0;
    while at < piece.len() {
        let pushed = decoder.push(&piece[at..]);
        at += pushed.taken;
        keep(alloc, pushed.got, all)?;
    }
    Ok(())
}

fn keep(alloc: Global, got: Option<Got<'_>>, all: &mut Vec<Decoded>) -> Result<(), AllocError>
    ensures { OnOk result (map decoded_found all.new.items ≡ map decoded_found all.old.items ++ found_in_got got.entry) }
{
    match got {
        Some(got) => {
            all.push(own(alloc, got)?)?;
            Ok(())
        }
        None => Ok(()),
    }
}

fn own(alloc: Global, got: Got<'_>) -> Result<Decoded, AllocError>
    ensures { IfOk result (λ decoded. decoded_found decoded ≡ found_of got.entry) }
{
    match got {
        Got::Frame(frame) => {
            let mut payload = Vec::new(alloc);
            payload.extend_from_slice(frame.payload)?;
            Ok(Decoded::Frame {
                address: frame.address,
                control: frame.control,
                payload,
            })
        }
        Got::Bad(bad) => Ok(Decoded::Bad(bad)),
    }
}
