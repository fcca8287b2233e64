ghost use Rattle.std.specs.Prelude.{◌≡◌, [], ◌∷◌, ◌++◌, ◌<◌, ◌^◌, OnOk};
ghost use Rattle.transfer_receiver.specs.Answers.{AnyAsk, AnyResend};
ghost use Rattle.transfer_words.specs.CoreAnswers.{end_work, kept_last, of_piece, of_tick, said_pieces};
ghost use Rattle.transfer_words.specs.Saying.{outs_of};

use crate::saying::say;
use crate::word::WordRef;
use bytes::Bytes;
use rpc_handlers::{Out, Outs};
use rpc_ids::Status;
use std::alloc::{AllocError, Global};
use transfer_base::Piece;
use transfer_receiver::{Received, Ticked};

/// Says the pieces of a sender, in order. After an `Err` some of them may be said.
pub fn say_pieces(
    alloc: Global,
    outs: &mut Outs,
    session: u32,
    pieces: &[Piece],
) -> Result<(), AllocError>
    ensures { OnOk result (outs.new ≡ outs.old ++ outs_of session (said_pieces pieces.now)) }
{
    for piece in pieces {
        let word = WordRef::Data {
            offset: piece.offset,
            bytes: piece.bytes.as_slice(),
            last: piece.last,
        };
        say(alloc, outs, session, word)?;
    }
    Ok(())
}

/// Says and does what a receiver's answer to a piece of these bytes asks for. After an `Err` a part of it may be there.
pub fn act_on_piece(
    alloc: Global,
    outs: &mut Outs,
    session: u32,
    bytes: &[u8],
    answer: Received,
) -> Result<(), AllocError>
    requires { AnyAsk (λ _ ask. ask.window_end < 2 ^ 32) answer }
    ensures { OnOk result (outs.new ≡ outs.old ++ outs_of session (of_piece bytes.now answer)) }
{
    match answer {
        Received::Ignored => Ok(()),
        Received::Kept(None) => append(alloc, outs, session, bytes),
        Received::Kept(Some(ask)) => {
            append(alloc, outs, session, bytes)?;
            say(alloc, outs, session, WordRef::Parameters(ask))
        }
        Received::Again(ask) => say(alloc, outs, session, WordRef::Parameters(ask)),
        Received::Ends(status) => {
            end(alloc, outs, session, bytes, status)?;
            say(alloc, outs, session, WordRef::Completion(status))
        }
    }
}

/// Says and does what a receiver's answer to a tick asks for; `going` is whether it was in its data phase before. After
/// an `Err` a part of it may be there.
pub fn act_on_tick(
    alloc: Global,
    outs: &mut Outs,
    session: u32,
    going: bool,
    answer: Ticked,
) -> Result<(), AllocError>
    requires { AnyResend (λ _ ask. ask.window_end < 2 ^ 32) answer }
    ensures { OnOk result (outs.new ≡ outs.old ++ outs_of session (of_tick going answer)) }
{
    match answer {
        Ticked::Quiet => Ok(()),
        Ticked::Resend(ask) => say(alloc, outs, session, WordRef::Parameters(ask)),
        Ticked::ResendEnd(status) => say(alloc, outs, session, WordRef::Completion(status)),
        Ticked::Over(status) if going => {
            outs.push(Out::Leave { session })?;
            say(alloc, outs, session, WordRef::Completion(status))
        }
        Ticked::Over(_) => Ok(()),
    }
}

fn append(alloc: Global, outs: &mut Outs, session: u32, bytes: &[u8]) -> Result<(), AllocError>
    ensures { OnOk result (outs.new ≡ outs.old ++ Out.Append session bytes.now ∷ []) }
{
    let bytes = Bytes::copy_from_slice(alloc, bytes)?;
    outs.push(Out::Append { session, bytes })
}

// The store actions of an end, behind a piece of these bytes.
fn end(
    alloc: Global,
    outs: &mut Outs,
    session: u32,
    bytes: &[u8],
    status: Status,
) -> Result<(), AllocError>
    ensures { OnOk result (outs.new ≡ outs.old ++ outs_of session (end_work status bytes.now)) }
{
    if status != Status::Okay {
        return outs.push(Out::Leave { session });
    }
    if !bytes.is_empty() {
        append(alloc, outs, session, bytes)?;
    }
    outs.push(Out::Commit { session })
}
