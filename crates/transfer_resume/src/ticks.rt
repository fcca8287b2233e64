//! What a session that is there makes of the time, and of the end of the call.
ghost use Rattle.std.specs.Prelude.{◌≡◌, ◌++◌, IfOk, OnOk};
ghost use Rattle.transfer_words.specs.Saying.{outs_of};
ghost use Rattle.transfer_resume.specs.Ticks.{stage_stops, stage_ticks};
ghost use Rattle.transfer_resume.specs.Session.{IsLive};

use crate::opening::{opening_stops, opening_ticks};
use crate::receiving::{receiver_stops, receiver_ticks};
use crate::sending::sender_ticks;
use crate::service::Service;
use crate::stage::Stage;
use rpc_handlers::Outs;
use rpc_ids::Status;
use std::alloc::AllocError;

/// What it makes of the time.
pub fn stage_ticks(
    service: &Service,
    id: u32,
    stage: &Stage,
    now: u64,
    outs: &mut Outs,
) -> Result<Stage, AllocError>
    requires { IsLive stage.now }
    ensures after { IfOk result (λ stage_after. stage_after ≡ (stage_ticks service.now.side now stage.now).after) }
    ensures outs { OnOk result (outs.new ≡ outs.old ++ outs_of id (stage_ticks service.now.side now stage.now).sayings) }
    ensures live { IfOk result (λ stage_after. IsLive stage_after) }
{
    match stage {
        Stage::Opening(opening) => opening_ticks(service, id, *opening, now, outs),
        Stage::Sending(sender) => sender_ticks(service, id, sender, now, outs),
        Stage::Receiving(receiver) => receiver_ticks(service, id, receiver, now, outs),
        Stage::Ended(status) => Ok(Stage::Ended(*status)),
    }
}

/// What it makes of the end of the call.
pub fn stage_stops(
    service: &Service,
    id: u32,
    stage: &Stage,
    outs: &mut Outs,
) -> Result<Stage, AllocError>
    requires { IsLive stage.now }
    ensures after { IfOk result (λ stage_after. stage_after ≡ (stage_stops service.now.side stage.now).after) }
    ensures outs { OnOk result (outs.new ≡ outs.old ++ outs_of id (stage_stops service.now.side stage.now).sayings) }
    ensures live { IfOk result (λ stage_after. IsLive stage_after) }
{
    match stage {
        Stage::Opening(_) => opening_stops(service, id, outs),
        Stage::Sending(_) => Ok(Stage::Ended(Status::Cancelled)),
        Stage::Receiving(receiver) => receiver_stops(id, receiver.phase(), outs),
        Stage::Ended(status) => Ok(Stage::Ended(*status)),
    }
}
