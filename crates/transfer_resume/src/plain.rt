//! The sessions of a call as plain data.
ghost use Rattle.std.specs.Prelude.{◌≡◌, ◌++◌, IfOk, OnOk};
ghost use Rattle.transfer_resume.specs.Plain as spec;

use crate::row::Row;
use crate::side::Side;
use crate::stage::Stage;
use bytes::Bytes;
use link_io::{Fulls, Lefts};
use rpc_handlers::{Parts, Words};
use rpc_ids::Status;
use std::alloc::AllocError;
use transfer_receiver::{Phase, ReceiverCore};
use transfer_sender::SenderCore;

/// Adds numbers at the end.
pub fn add_numbers(words: &mut Words, numbers: &[u64]) -> Result<(), AllocError>
    ensures { OnOk result (words.new ≡ words.old ++ numbers.now) }
{
    for number in numbers {
        words.push(*number)?;
    }
    Ok(())
}

/// Adds whole resources.
pub fn add_fulls(words: &mut Words, parts: &mut Parts, fulls: &Fulls) -> Result<(), AllocError>
    ensures words { OnOk result (words.new ≡ words.old ++ spec.full_words fulls.now) }
    ensures parts { OnOk result (parts.new ≡ parts.old ++ spec.full_parts fulls.now) }
{
    for (id, bytes) in fulls.as_slice() {
        words.push(u64::from(*id))?;
        parts.push(bytes.clone()?)?;
    }
    Ok(())
}

/// Adds what is left of resources.
pub fn add_lefts(words: &mut Words, lefts: &Lefts) -> Result<(), AllocError>
    ensures { OnOk result (words.new ≡ words.old ++ spec.left_words lefts.now) }
{
    for (id, size) in lefts.as_slice() {
        words.push(u64::from(*id))?;
        words.push(*size)?;
    }
    Ok(())
}

/// Adds sessions.
pub fn add_rows(words: &mut Words, parts: &mut Parts, rows: &[Row]) -> Result<(), AllocError>
    ensures words { OnOk result (words.new ≡ words.old ++ spec.words_of_rows rows.now) }
    ensures parts { OnOk result (parts.new ≡ parts.old ++ spec.parts_of_rows rows.now) }
{
    for row in rows {
        add_numbers(words, &row_words(u64::from(row.id()), row.stage()))?;
        parts.push(row_part(row.stage())?)?;
    }
    Ok(())
}

pub fn side_number(side: Side) -> u64
    ensures { result ≡ spec.side_number side }
{
    match side {
        Side::Read => 0,
        Side::Write => 1,
    }
}

// The numbers of a session.
fn row_words(id: u64, stage: &Stage) -> [u64; 11]
    ensures { result ≡ spec.row_words id stage.now }
{
    match stage {
        Stage::Opening(o) => [
            id,
            0,
            u64::from(o.resource),
            o.agreed,
            o.active,
            u64::from(o.timeouts),
            0,
            0,
            0,
            0,
            0,
        ],
        Stage::Sending(sender) => sender_words(id, sender),
        Stage::Receiving(receiver) => receiver_words(id, receiver),
        Stage::Ended(status) => [id, 3, u64::from(status.number()), 0, 0, 0, 0, 0, 0, 0, 0],
    }
}

fn sender_words(id: u64, sender: &SenderCore) -> [u64; 11]
    ensures { result ≡ spec.row_words id (Stage.Sending sender.now) }
{
    let end = sender.end();
    [
        id,
        1,
        sender.position(),
        sender.active(),
        u64::from(sender.timeouts()),
        ended_flag(end),
        ended_number(end),
        0,
        0,
        0,
        0,
    ]
}

fn receiver_words(id: u64, receiver: &ReceiverCore) -> [u64; 11]
    ensures { result ≡ spec.row_words id (Stage.Receiving receiver.now) }
{
    let phase = receiver.phase();
    [
        id,
        2,
        receiver.next(),
        receiver.window_end(),
        u64::from(receiver.span()),
        u64::from(receiver.chunk()),
        flag(receiver.shrunk()),
        phase_place(phase),
        phase_number(phase),
        receiver.active(),
        u64::from(receiver.resends()),
    ]
}

// The text of a session: the bytes that it sends.
fn row_part(stage: &Stage) -> Result<Bytes, AllocError>
    ensures { IfOk result (λ part. part ≡ spec.row_part stage.now) }
{
    match stage {
        Stage::Sending(sender) => sender.bytes().clone(),
        Stage::Opening(_) | Stage::Receiving(_) | Stage::Ended(_) => Ok(Bytes::new()),
    }
}

fn flag(is: bool) -> u64
    ensures { result ≡ spec.flag is }
{
    u64::from(is)
}

fn ended_flag(end: Option<Status>) -> u64
    ensures { result ≡ spec.ended_flag end }
{
    match end {
        None => 0,
        Some(_) => 1,
    }
}

fn ended_number(end: Option<Status>) -> u64
    ensures { result ≡ spec.ended_number end }
{
    match end {
        None => 0,
        Some(status) => u64::from(status.number()),
    }
}

fn phase_place(phase: Phase) -> u64
    ensures { result ≡ spec.phase_place phase }
{
    match phase {
        Phase::Receiving => 0,
        Phase::Recovering => 1,
        Phase::Completing(_) => 2,
        Phase::Ended => 3,
    }
}

fn phase_number(phase: Phase) -> u64
    ensures { result ≡ spec.phase_number phase }
{
    match phase {
        Phase::Completing(status) => u64::from(status.number()),
        Phase::Receiving | Phase::Recovering | Phase::Ended => 0,
    }
}
