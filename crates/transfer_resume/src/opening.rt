//! How a session is opened, and what one that is opened makes of a word, of a tick and of the end of the call.
ghost use Rattle.std.specs.Prelude.{◌≡◌, ◌++◌, ◌≤◌, length, Ok, Err, IfOk, IfErr, OnOk};
ghost use Rattle.transfer_base.specs.declared.limits.TheConstants.{MAX_RESOURCE};
ghost use Rattle.transfer_receiver.specs.Receiver.{new_receiver};
ghost use Rattle.transfer_words.specs.Saying.{outs_of};
ghost use Rattle.transfer_words.specs.Word.{lent_word};
ghost use Rattle.transfer_resume.specs.Opening as spec;
ghost use Rattle.transfer_resume.specs.Session.{IsLive};

use crate::sending::asked;
use crate::service::Service;
use crate::side::Side;
use crate::stage::{Opening, Stage};
use bytes::Bytes;
use link_io::Shelf;
use rpc_handlers::{Out, Outs};
use rpc_ids::Status;
use std::alloc::AllocError;
use transfer_base::{Ask, MAX_RESOURCE, TIMEOUT};
use transfer_receiver::ReceiverCore;
use transfer_sender::{MAX_TIMEOUTS, SenderCore};
use transfer_words::{WordRef, say};

/// Opens a session on a resource, from an offset on.
pub fn opened(
    service: &Service,
    id: u32,
    resource: u32,
    offset: u64,
    outs: &mut Outs,
) -> Result<Stage, AllocError>
    ensures after { IfOk result (λ stage. stage ≡ (spec.opened service.now.side service.now resource offset).after) }
    ensures outs { OnOk result (outs.new ≡ outs.old ++ outs_of id (spec.opened service.now.side service.now resource offset).sayings) }
    ensures live { IfOk result (λ stage. IsLive stage) }
{
    match service.side {
        Side::Read => opened_read(service, id, resource, offset, outs),
        Side::Write => opened_write(service, id, resource, offset, outs),
    }
}

fn opened_read(
    service: &Service,
    id: u32,
    resource: u32,
    offset: u64,
    outs: &mut Outs,
) -> Result<Stage, AllocError>
    ensures after { IfOk result (λ stage. stage ≡ (spec.opened_read service.now.time resource offset (spec.offer_of service.now.shelf resource offset)).after) }
    ensures outs { OnOk result (outs.new ≡ outs.old ++ outs_of id (spec.opened_read service.now.time resource offset (spec.offer_of service.now.shelf resource offset)).sayings) }
    ensures live { IfOk result (λ stage. IsLive stage) }
{
    match offer_of(&service.shelf, resource, offset) {
        Ok(_) => {
            say(service.alloc, outs, id, WordRef::StartAck { offset })?;
            Ok(Stage::Opening(new_opening(resource, offset, service.time)))
        }
        Err(status) => telling_end(service, id, status, outs),
    }
}

// A write goes on from what is left of its resource, and from no further than is asked.
fn opened_write(
    service: &Service,
    id: u32,
    resource: u32,
    offset: u64,
    outs: &mut Outs,
) -> Result<Stage, AllocError>
    ensures after { IfOk result (λ stage. stage ≡ (spec.opened_write service.now.time resource (spec.agreed_offset service.now.shelf resource offset)).after) }
    ensures outs { OnOk result (outs.new ≡ outs.old ++ outs_of id (spec.opened_write service.now.time resource (spec.agreed_offset service.now.shelf resource offset)).sayings) }
    ensures live { IfOk result (λ stage. IsLive stage) }
{
    let left = service.shelf.left.get(resource).unwrap_or(0);
    let agreed = offset.min(left).min(MAX_RESOURCE);
    outs.push(Out::Begin {
        session: id,
        resource,
        offset: agreed,
    })?;
    say(
        service.alloc,
        outs,
        id,
        WordRef::StartAck { offset: agreed },
    )?;
    Ok(Stage::Opening(new_opening(resource, agreed, service.time)))
}

fn new_opening(resource: u32, agreed: u64, now: u64) -> Opening
    ensures { result ≡ spec.new_opening resource agreed now }
{
    Opening {
        resource,
        agreed,
        active: now,
        timeouts: 0,
    }
}

// The bytes that a read from an offset is of, or why there is none.
fn offer_of(shelf: &Shelf, resource: u32, offset: u64) -> Result<&Bytes, Status>
    ensures ok { IfOk result (λ bytes. spec.offer_of shelf.now resource offset ≡ Ok bytes.now) }
    ensures size { IfOk result (λ bytes. length bytes.now ≤ MAX_RESOURCE) }
    ensures within { IfOk result (λ bytes. offset ≤ length bytes.now) }
    ensures err { IfErr result (λ status. spec.offer_of shelf.now resource offset ≡ Err status) }
{
    let Some(bytes) = shelf.full.get(resource) else {
        return Err(Status::NotFound);
    };
    let length = bytes.len() as u64;
    if MAX_RESOURCE < length || length < offset {
        return Err(Status::OutOfRange);
    }
    Ok(bytes)
}

// The service tells how the session ended, and keeps no more of it.
fn telling_end(
    service: &Service,
    id: u32,
    status: Status,
    outs: &mut Outs,
) -> Result<Stage, AllocError>
    ensures after { IfOk result (λ stage. stage ≡ (spec.telling_end status).after) }
    ensures outs { OnOk result (outs.new ≡ outs.old ++ outs_of id (spec.telling_end status).sayings) }
    ensures live { IfOk result (λ stage. IsLive stage) }
{
    say(service.alloc, outs, id, WordRef::Completion(status))?;
    Ok(Stage::Ended(status))
}

/// What an opened session makes of a word.
pub fn opening_hears(
    service: &Service,
    id: u32,
    opening: Opening,
    word: WordRef<'_>,
    outs: &mut Outs,
) -> Result<Stage, AllocError>
    requires { IsLive (Stage.Opening opening) }
    ensures after { IfOk result (λ stage. stage ≡ (spec.opening_hears service.now opening (lent_word word.entry)).after) }
    ensures outs { OnOk result (outs.new ≡ outs.old ++ outs_of id (spec.opening_hears service.now opening (lent_word word.entry)).sayings) }
    ensures live { IfOk result (λ stage. IsLive stage) }
{
    match word {
        WordRef::Start { resource, .. } => started_again(service, id, opening, resource, outs),
        WordRef::Confirmation(ask) => confirmed(service, id, opening, ask, outs),
        WordRef::Completion(status) => {
            leave(service.side, id, outs)?;
            say(service.alloc, outs, id, WordRef::CompletionAck)?;
            Ok(Stage::Ended(status))
        }
        WordRef::StartAck { .. }
        | WordRef::Parameters(_)
        | WordRef::Data { .. }
        | WordRef::CompletionAck => Ok(Stage::Opening(touched(opening, service.time))),
    }
}

fn touched(opening: Opening, now: u64) -> Opening
    ensures { result ≡ spec.touched_opening now opening }
{
    Opening {
        active: now,
        timeouts: 0,
        ..opening
    }
}

// A START again, for the same resource, is answered as the first was.
fn started_again(
    service: &Service,
    id: u32,
    opening: Opening,
    resource: u32,
    outs: &mut Outs,
) -> Result<Stage, AllocError>
    requires { IsLive (Stage.Opening opening) }
    ensures after { IfOk result (λ stage. stage ≡ Stage.Opening (spec.touched_opening service.now.time opening)) }
    ensures outs { OnOk result (outs.new ≡ outs.old ++ outs_of id (spec.started_again opening resource)) }
    ensures live { IfOk result (λ stage. IsLive stage) }
{
    if opening.resource == resource {
        let offset = opening.agreed;
        say(service.alloc, outs, id, WordRef::StartAck { offset })?;
    }
    Ok(Stage::Opening(touched(opening, service.time)))
}

// The data phase begins.
fn confirmed(
    service: &Service,
    id: u32,
    opening: Opening,
    ask: Ask,
    outs: &mut Outs,
) -> Result<Stage, AllocError>
    requires { IsLive (Stage.Opening opening) }
    ensures after { IfOk result (λ stage. stage ≡ (spec.confirmed service.now.side service.now opening ask).after) }
    ensures outs { OnOk result (outs.new ≡ outs.old ++ outs_of id (spec.confirmed service.now.side service.now opening ask).sayings) }
    ensures live { IfOk result (λ stage. IsLive stage) }
{
    match service.side {
        Side::Read => reading(service, id, opening, ask, outs),
        Side::Write => writing(service, id, opening.agreed, outs),
    }
}

// A read sends what the confirmation asks for.
fn reading(
    service: &Service,
    id: u32,
    opening: Opening,
    ask: Ask,
    outs: &mut Outs,
) -> Result<Stage, AllocError>
    ensures after { IfOk result (λ stage. stage ≡ (spec.reading service.now.time opening.agreed ask (spec.offer_of service.now.shelf opening.resource opening.agreed)).after) }
    ensures outs { OnOk result (outs.new ≡ outs.old ++ outs_of id (spec.reading service.now.time opening.agreed ask (spec.offer_of service.now.shelf opening.resource opening.agreed)).sayings) }
    ensures live { IfOk result (λ stage. IsLive stage) }
{
    match offer_of(&service.shelf, opening.resource, opening.agreed) {
        Ok(bytes) => {
            let sender = SenderCore::new(bytes.clone()?, opening.agreed, service.time);
            asked(service, id, sender, ask, outs)
        }
        Err(status) => telling_end(service, id, status, outs),
    }
}

// A write asks for what it is to receive.
fn writing(service: &Service, id: u32, agreed: u64, outs: &mut Outs) -> Result<Stage, AllocError>
    requires { agreed ≤ MAX_RESOURCE }
    ensures after { IfOk result (λ stage. stage ≡ (spec.writing (new_receiver agreed service.now.window service.now.chunk service.now.time)).after) }
    ensures outs { OnOk result (outs.new ≡ outs.old ++ outs_of id (spec.writing (new_receiver agreed service.now.window service.now.chunk service.now.time)).sayings) }
    ensures live { IfOk result (λ stage. IsLive stage) }
{
    let receiver = ReceiverCore::new(agreed, service.tuning, service.time);
    say(
        service.alloc,
        outs,
        id,
        WordRef::Parameters(receiver.first()),
    )?;
    Ok(Stage::Receiving(receiver))
}

// An upload that doesn't end well is left; a read has none.
fn leave(side: Side, id: u32, outs: &mut Outs) -> Result<(), AllocError>
    ensures { OnOk result (outs.new ≡ outs.old ++ outs_of id (spec.leaving side)) }
{
    match side {
        Side::Read => Ok(()),
        Side::Write => outs.push(Out::Leave { session: id }),
    }
}

/// What an opened session makes of the time.
pub fn opening_ticks(
    service: &Service,
    id: u32,
    opening: Opening,
    now: u64,
    outs: &mut Outs,
) -> Result<Stage, AllocError>
    requires { IsLive (Stage.Opening opening) }
    ensures after { IfOk result (λ stage. stage ≡ (spec.opening_ticks service.now.side now opening).after) }
    ensures outs { OnOk result (outs.new ≡ outs.old ++ outs_of id (spec.opening_ticks service.now.side now opening).sayings) }
    ensures live { IfOk result (λ stage. IsLive stage) }
{
    if now.saturating_sub(opening.active) < TIMEOUT {
        return Ok(Stage::Opening(opening));
    }
    let timeouts = opening.timeouts + 1;
    if timeouts == MAX_TIMEOUTS {
        leave(service.side, id, outs)?;
        let word = WordRef::Completion(Status::DeadlineExceeded);
        say(service.alloc, outs, id, word)?;
        return Ok(Stage::Ended(Status::DeadlineExceeded));
    }
    Ok(Stage::Opening(Opening {
        active: now,
        timeouts,
        ..opening
    }))
}

/// What an opened session makes of the end of the call.
pub fn opening_stops(service: &Service, id: u32, outs: &mut Outs) -> Result<Stage, AllocError>
    ensures after { IfOk result (λ stage. stage ≡ (spec.opening_stops service.now.side).after) }
    ensures outs { OnOk result (outs.new ≡ outs.old ++ outs_of id (spec.opening_stops service.now.side).sayings) }
    ensures live { IfOk result (λ stage. IsLive stage) }
{
    leave(service.side, id, outs)?;
    Ok(Stage::Ended(Status::Cancelled))
}
