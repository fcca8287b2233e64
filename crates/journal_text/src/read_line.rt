//! A line, read: its seat, and the kind of its entry.

ghost use Rattle.std.specs.Prelude.{◌++◌, codes, IfOk};
ghost use Rattle.journal_text.specs.Finds.{Finds};
ghost use Rattle.journal_text.specs.Reading.{IsKind, IsLine};

use crate::read_answer::read_answer;
use crate::read_field::number_before;
use rpc_journal::{Entry, EntryKind};
use rpc_packet::{PacketRef, PacketType};
use std::alloc::{AllocError, Global};
use text_fields::{BLANK, hex_bytes, number, small_number, strip_word};

/// The entry that a line says.
pub(crate) fn read_line(alloc: Global, line: &[u8]) -> Result<Option<Entry>, AllocError>
    ensures { IfOk result (λ found. Finds found (IsLine line.now)) }
{
    let Some((seat, rest)) = number_before(line, BLANK) else {
        return Ok(None);
    };
    let Some(kind) = read_kind(alloc, rest)? else {
        return Ok(None);
    };
    Ok(Some(Entry { seat, kind }))
}

fn read_kind(alloc: Global, text: &[u8]) -> Result<Option<EntryKind>, AllocError>
    ensures { IfOk result (λ found. Finds found (IsKind text.now)) }
{
    if text == b"flush".as_slice() {
        return Ok(Some(EntryKind::Flush));
    }
    if text == b"endin".as_slice() {
        return Ok(Some(EntryKind::EndIn));
    }
    if let Some(packet) = strip_word(text, b"arrive ") {
        return read_arrive(alloc, packet);
    }
    if let Some(call) = strip_word(text, b"start ") {
        return Ok(read_start(call));
    }
    if let Some(run) = strip_word(text, b"finish ") {
        return read_finish(alloc, run);
    }
    if let Some(call) = strip_word(text, b"cancel ") {
        return Ok(read_cancel(call));
    }
    if let Some(now) = strip_word(text, b"tick ") {
        return Ok(read_tick(now));
    }
    if let Some(channel) = strip_word(text, b"close ") {
        return Ok(read_close(channel));
    }
    Ok(None)
}

// The arrival of a packet. Only the packet's one spelling is a good text.
fn read_arrive(alloc: Global, text: &[u8]) -> Result<Option<EntryKind>, AllocError>
    ensures { IfOk result (λ found. Finds found (IsKind (codes "arrive " ++ text.now))) }
{
    let Some(bytes) = hex_bytes(alloc, text)? else {
        return Ok(None);
    };
    let Ok(lent) = PacketRef::read(&bytes) else {
        return Ok(None);
    };
    let Some(ptype) = PacketType::of(lent.ptype) else {
        return Ok(None);
    };
    let packet = lent.own(alloc, ptype)?;
    let mut spelled = Vec::new(alloc);
    packet.write(&mut spelled)?;
    if spelled != bytes {
        return Ok(None);
    }
    Ok(Some(EntryKind::Arrive(packet)))
}

fn read_start(text: &[u8]) -> Option<EntryKind>
    ensures { Finds result (IsKind (codes "start " ++ text.now)) }
{
    let call = small_number(text)?;
    Some(EntryKind::Start(call))
}

fn read_finish(alloc: Global, text: &[u8]) -> Result<Option<EntryKind>, AllocError>
    ensures { IfOk result (λ found. Finds found (IsKind (codes "finish " ++ text.now))) }
{
    let Some((call, answer)) = number_before(text, BLANK) else {
        return Ok(None);
    };
    let Some(answer) = read_answer(alloc, answer)? else {
        return Ok(None);
    };
    Ok(Some(EntryKind::Finish(call, answer)))
}

fn read_cancel(text: &[u8]) -> Option<EntryKind>
    ensures { Finds result (IsKind (codes "cancel " ++ text.now)) }
{
    let call = small_number(text)?;
    Some(EntryKind::Cancel(call))
}

fn read_tick(text: &[u8]) -> Option<EntryKind>
    ensures { Finds result (IsKind (codes "tick " ++ text.now)) }
{
    let now = number(text)?;
    Some(EntryKind::Tick(now))
}

fn read_close(text: &[u8]) -> Option<EntryKind>
    ensures { Finds result (IsKind (codes "close " ++ text.now)) }
{
    let channel = small_number(text)?;
    Some(EntryKind::Close(channel))
}
