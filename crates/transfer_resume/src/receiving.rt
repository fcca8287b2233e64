//! What a session that receives makes of a word, of a tick and of the end of the call.
ghost use Rattle.std.specs.Prelude.{◌≡◌, ◌++◌, false, IfOk, OnOk};
ghost use Rattle.transfer_receiver.specs.Phase.{is_ended};
ghost use Rattle.transfer_words.specs.Saying.{outs_of};
ghost use Rattle.transfer_words.specs.Word.{lent_word};
ghost use Rattle.transfer_resume.specs.Receiver.{completed, receiver_hears, receiver_stops, receiver_ticks};
ghost use Rattle.transfer_resume.specs.Receiver as spec;
ghost use Rattle.transfer_resume.specs.Session.{IsLive};

use crate::service::Service;
use crate::stage::Stage;
use rpc_handlers::{Out, Outs};
use rpc_ids::Status;
use std::alloc::AllocError;
use transfer_receiver::{Phase, ReceiverCore, Ticked};
use transfer_words::{WordRef, act_on_piece, act_on_tick, say};

/// What it makes of a word.
pub fn receiver_hears(
    service: &Service,
    id: u32,
    receiver: &ReceiverCore,
    word: WordRef<'_>,
    outs: &mut Outs,
) -> Result<Stage, AllocError>
    requires { is_ended receiver.now.phase ≡ false }
    ensures after { IfOk result (λ stage. stage ≡ (receiver_hears service.now.time receiver.now (lent_word word.entry)).after) }
    ensures outs { OnOk result (outs.new ≡ outs.old ++ outs_of id (receiver_hears service.now.time receiver.now (lent_word word.entry)).sayings) }
    ensures live { IfOk result (λ stage. IsLive stage) }
{
    match word {
        WordRef::Data {
            offset,
            bytes,
            last,
        } => {
            let mut receiver = *receiver;
            let answer = receiver.piece(offset, bytes, last, service.time);
            act_on_piece(service.alloc, outs, id, bytes, answer)?;
            Ok(Stage::Receiving(receiver))
        }
        WordRef::Completion(status) => completed(service, id, *receiver, status, outs),
        WordRef::CompletionAck => Ok(acknowledged(*receiver)),
        WordRef::Start { .. }
        | WordRef::StartAck { .. }
        | WordRef::Confirmation(_)
        | WordRef::Parameters(_) => Ok(Stage::Receiving(*receiver)),
    }
}

// The client tells an end.
fn completed(
    service: &Service,
    id: u32,
    receiver: ReceiverCore,
    status: Status,
    outs: &mut Outs,
) -> Result<Stage, AllocError>
    requires { is_ended receiver.phase ≡ false }
    ensures after { IfOk result (λ stage. stage ≡ (completed receiver receiver.phase status).after) }
    ensures outs { OnOk result (outs.new ≡ outs.old ++ outs_of id (completed receiver receiver.phase status).sayings) }
    ensures live { IfOk result (λ stage. IsLive stage) }
{
    match receiver.phase() {
        Phase::Completing(_) => {
            say(service.alloc, outs, id, WordRef::CompletionAck)?;
            Ok(Stage::Receiving(receiver))
        }
        Phase::Receiving | Phase::Recovering | Phase::Ended => {
            outs.push(Out::Leave { session: id })?;
            say(service.alloc, outs, id, WordRef::CompletionAck)?;
            Ok(Stage::Ended(status))
        }
    }
}

// The client knows the end.
fn acknowledged(receiver: ReceiverCore) -> Stage
    requires { is_ended receiver.phase ≡ false }
    ensures after { result ≡ (spec.acknowledged receiver receiver.phase).after }
    ensures live { IsLive result }
{
    match receiver.phase() {
        Phase::Completing(status) => Stage::Ended(status),
        Phase::Receiving | Phase::Recovering | Phase::Ended => Stage::Receiving(receiver),
    }
}

/// What it makes of the time.
pub fn receiver_ticks(
    service: &Service,
    id: u32,
    receiver: &ReceiverCore,
    now: u64,
    outs: &mut Outs,
) -> Result<Stage, AllocError>
    requires { is_ended receiver.now.phase ≡ false }
    ensures after { IfOk result (λ stage. stage ≡ (receiver_ticks now receiver.now).after) }
    ensures outs { OnOk result (outs.new ≡ outs.old ++ outs_of id (receiver_ticks now receiver.now).sayings) }
    ensures live { IfOk result (λ stage. IsLive stage) }
{
    let mut receiver = *receiver;
    let going = receiver.phase().is_open();
    let answer = receiver.tick(now);
    act_on_tick(service.alloc, outs, id, going, answer)?;
    match answer {
        Ticked::Over(status) => Ok(Stage::Ended(status)),
        Ticked::Quiet | Ticked::Resend(_) | Ticked::ResendEnd(_) => Ok(Stage::Receiving(receiver)),
    }
}

/// What it makes of the end of the call.
pub fn receiver_stops(id: u32, phase: Phase, outs: &mut Outs) -> Result<Stage, AllocError>
    ensures after { IfOk result (λ stage. stage ≡ (receiver_stops phase).after) }
    ensures outs { OnOk result (outs.new ≡ outs.old ++ outs_of id (receiver_stops phase).sayings) }
    ensures live { IfOk result (λ stage. IsLive stage) }
{
    match phase {
        Phase::Completing(status) => Ok(Stage::Ended(status)),
        Phase::Receiving | Phase::Recovering | Phase::Ended => {
            outs.push(Out::Leave { session: id })?;
            Ok(Stage::Ended(Status::Cancelled))
        }
    }
}
