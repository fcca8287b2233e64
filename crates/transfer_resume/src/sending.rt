//! What a session that sends makes of a word and of a tick.
ghost use Rattle.std.specs.Prelude.{◌≡◌, ◌++◌, None, IfOk, OnOk};
ghost use Rattle.transfer_words.specs.Saying.{outs_of};
ghost use Rattle.transfer_words.specs.Word.{lent_word};
ghost use Rattle.transfer_resume.specs.Sender.{asked, sender_hears, sender_ticks, told_end};
ghost use Rattle.transfer_resume.specs.Session.{IsLive};

use crate::service::Service;
use crate::stage::Stage;
use rpc_handlers::Outs;
use rpc_ids::Status;
use std::alloc::AllocError;
use transfer_base::Ask;
use transfer_sender::SenderCore;
use transfer_words::{WordRef, say, say_pieces};

/// What it makes of a word.
pub fn sender_hears(
    service: &Service,
    id: u32,
    sender: &SenderCore,
    word: WordRef<'_>,
    outs: &mut Outs,
) -> Result<Stage, AllocError>
    requires { sender.now.ended ≡ None }
    ensures after { IfOk result (λ stage. stage ≡ (sender_hears service.now.time sender.now (lent_word word.entry)).after) }
    ensures outs { OnOk result (outs.new ≡ outs.old ++ outs_of id (sender_hears service.now.time sender.now (lent_word word.entry)).sayings) }
    ensures live { IfOk result (λ stage. IsLive stage) }
{
    match word {
        WordRef::Parameters(ask) => asked(service, id, sender.clone()?, ask, outs),
        WordRef::Completion(status) => told_end(service, id, status, outs),
        WordRef::Start { .. }
        | WordRef::StartAck { .. }
        | WordRef::Confirmation(_)
        | WordRef::Data { .. }
        | WordRef::CompletionAck => {
            let mut sender = sender.clone()?;
            sender.touch(service.time);
            Ok(Stage::Sending(sender))
        }
    }
}

/// Answers an ask.
pub fn asked(
    service: &Service,
    id: u32,
    mut sender: SenderCore,
    ask: Ask,
    outs: &mut Outs,
) -> Result<Stage, AllocError>
    requires { sender.ended ≡ None }
    ensures after { IfOk result (λ stage. stage ≡ (asked service.now.time sender ask).after) }
    ensures outs { OnOk result (outs.new ≡ outs.old ++ outs_of id (asked service.now.time sender ask).sayings) }
    ensures live { IfOk result (λ stage. IsLive stage) }
{
    let pieces = sender.params(service.alloc, ask, service.time)?;
    if let Some(status) = sender.end() {
        say(service.alloc, outs, id, WordRef::Completion(status))?;
        return Ok(Stage::Ended(status));
    }
    say_pieces(service.alloc, outs, id, pieces.as_slice())?;
    Ok(Stage::Sending(sender))
}

/// The client has told how the session ended.
pub fn told_end(
    service: &Service,
    id: u32,
    status: Status,
    outs: &mut Outs,
) -> Result<Stage, AllocError>
    ensures after { IfOk result (λ stage. stage ≡ (told_end status).after) }
    ensures outs { OnOk result (outs.new ≡ outs.old ++ outs_of id (told_end status).sayings) }
    ensures live { IfOk result (λ stage. IsLive stage) }
{
    say(service.alloc, outs, id, WordRef::CompletionAck)?;
    Ok(Stage::Ended(status))
}

/// What it makes of the time.
pub fn sender_ticks(
    service: &Service,
    id: u32,
    sender: &SenderCore,
    now: u64,
    outs: &mut Outs,
) -> Result<Stage, AllocError>
    requires { sender.now.ended ≡ None }
    ensures after { IfOk result (λ stage. stage ≡ (sender_ticks now sender.now).after) }
    ensures outs { OnOk result (outs.new ≡ outs.old ++ outs_of id (sender_ticks now sender.now).sayings) }
    ensures live { IfOk result (λ stage. IsLive stage) }
{
    let mut sender = sender.clone()?;
    if let Some(status) = sender.tick(now) {
        say(service.alloc, outs, id, WordRef::Completion(status))?;
        return Ok(Stage::Ended(status));
    }
    Ok(Stage::Sending(sender))
}
