ghost use Rattle.std.specs.Prelude.{◌≡◌, ◌++◌, IsTrue, OnOk, string_bytes};
ghost use Rattle.rpc_journal.specs.declared.entry.Entry.{Entry};
ghost use Rattle.rpc_journal.specs.declared.entry.EntryKind.TheVariants.{Arrive, Finish};
ghost use Rattle.journal_text.specs.Line.{kind_text, line_of};
ghost use Rattle.text_fields.specs.Lines.{ended};
ghost use Rattle.journal_text.specs.Printed.{AllHaveText, entry_text, has_text, journal_text};
ghost use Rattle.journal_text.specs.Reading.{IsFinish, IsJournalText, IsLine, IsSpelled};

use crate::print_answer::add_answer;
use crate::print_digits::digits_of;
use rpc_handlers::Answer;
use rpc_journal::{Entry, EntryKind, Journal};
use rpc_packet::Packet;
use std::alloc::{AllocError, Global};

/// Appends the text of a journal, as [`read`](crate::read) reads it. Entries of the kinds `Invoke`, `Say`, `Done`,
/// `Replace` and `Halt` have no text and are left out.
pub fn print(alloc: Global, journal: &Journal, text: &mut String) -> Result<(), AllocError>
    ensures ok { OnOk result (string_bytes text.new ≡ string_bytes text.old ++ journal_text journal.now.entries) }
    ensures again { OnOk result (AllHaveText journal.now.entries →
        IsJournalText (journal_text journal.now.entries) journal.now.entries) }
{
    text.push_str("journal\n")?;
    for at in 0..journal.len() {
        let entry = journal.get(at).unwrap();
        add_entry(alloc, entry, text)?;
    }
    Ok(())
}

// Appends the line of an entry that has a text.
fn add_entry(alloc: Global, entry: &Entry, text: &mut String) -> Result<(), AllocError>
    ensures ok { OnOk result (string_bytes text.new ≡ string_bytes text.old ++ entry_text entry.now) }
    ensures again { OnOk result (IsTrue (has_text entry.now.kind) → IsLine (line_of entry.now) entry.now) }
{
    let seat = entry.seat;
    match &entry.kind {
        EntryKind::Arrive(packet) => add_arrive(alloc, seat, packet, text),
        &EntryKind::Start(call) => writeln!(text, "{seat} start {call}"),
        EntryKind::Finish(call, answer) => add_finish(alloc, seat, *call, answer, text),
        &EntryKind::Cancel(call) => writeln!(text, "{seat} cancel {call}"),
        &EntryKind::Tick(now) => writeln!(text, "{seat} tick {now}"),
        EntryKind::Flush => writeln!(text, "{seat} flush"),
        EntryKind::EndIn => writeln!(text, "{seat} endin"),
        &EntryKind::Close(channel) => writeln!(text, "{seat} close {channel}"),
        EntryKind::Invoke(_, _)
        | EntryKind::Say(_, _)
        | EntryKind::Done(_)
        | EntryKind::Replace(_, _)
        | EntryKind::Halt(_) => Ok(()),
    }
}

fn add_arrive(
    alloc: Global,
    seat: u32,
    packet: &Packet,
    text: &mut String,
) -> Result<(), AllocError>
    ensures ok { OnOk result (string_bytes text.new ≡ string_bytes text.old ++
        ended (line_of (record { seat = seat; kind = Arrive packet.now }))) }
    ensures again { OnOk result (IsSpelled packet.now) }
{
    let mut spelled = Vec::new(alloc);
    packet.write(&mut spelled)?;
    let packet = digits_of(alloc, spelled.as_slice())?;
    writeln!(text, "{seat} arrive {packet}")
}

fn add_finish(
    alloc: Global,
    seat: u32,
    call: u32,
    answer: &Answer,
    text: &mut String,
) -> Result<(), AllocError>
    ensures ok { OnOk result (string_bytes text.new ≡ string_bytes text.old ++
        ended (line_of (record { seat = seat; kind = Finish call answer.now }))) }
    ensures again { OnOk result (IsFinish (kind_text (Finish call answer.now)) call answer.now) }
{
    write!(text, "{seat} finish {call} ")?;
    add_answer(alloc, answer, text)?;
    text.push_str("\n")
}
