//! What a session that is there makes of a word.
ghost use Rattle.std.specs.Prelude.{◌≡◌, ◌++◌, IfOk, OnOk};
ghost use Rattle.transfer_words.specs.Saying.{outs_of};
ghost use Rattle.transfer_words.specs.Word.{lent_word};
ghost use Rattle.transfer_resume.specs.Hears.{ended_says, stage_hears};
ghost use Rattle.transfer_resume.specs.Session.{IsLive};

use crate::opening::opening_hears;
use crate::receiving::receiver_hears;
use crate::sending::sender_hears;
use crate::service::Service;
use crate::stage::Stage;
use rpc_handlers::Outs;
use rpc_ids::Status;
use std::alloc::AllocError;
use transfer_words::{WordRef, say};

/// What it makes of a word.
pub fn stage_hears(
    service: &Service,
    id: u32,
    stage: &Stage,
    word: WordRef<'_>,
    outs: &mut Outs,
) -> Result<Stage, AllocError>
    requires { IsLive stage.now }
    ensures after { IfOk result (λ stage_after. stage_after ≡ (stage_hears service.now stage.now (lent_word word.entry)).after) }
    ensures outs { OnOk result (outs.new ≡ outs.old ++ outs_of id (stage_hears service.now stage.now (lent_word word.entry)).sayings) }
    ensures live { IfOk result (λ stage_after. IsLive stage_after) }
{
    match stage {
        Stage::Opening(opening) => opening_hears(service, id, *opening, word, outs),
        Stage::Sending(sender) => sender_hears(service, id, sender, word, outs),
        Stage::Receiving(receiver) => receiver_hears(service, id, receiver, word, outs),
        Stage::Ended(status) => {
            ended_says(service, id, *status, word, outs)?;
            Ok(Stage::Ended(*status))
        }
    }
}

// One that has ended tells its end again.
fn ended_says(
    service: &Service,
    id: u32,
    status: Status,
    word: WordRef<'_>,
    outs: &mut Outs,
) -> Result<(), AllocError>
    ensures { OnOk result (outs.new ≡ outs.old ++ outs_of id (ended_says status (lent_word word.entry))) }
{
    match word {
        WordRef::Completion(_) => say(service.alloc, outs, id, WordRef::CompletionAck),
        WordRef::CompletionAck => Ok(()),
        WordRef::Start { .. }
        | WordRef::StartAck { .. }
        | WordRef::Confirmation(_)
        | WordRef::Parameters(_)
        | WordRef::Data { .. } => say(service.alloc, outs, id, WordRef::Completion(status)),
    }
}
