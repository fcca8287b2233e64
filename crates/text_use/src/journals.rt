//! Journals printed, read and judged. The texts are those of `docs/FORMATS.md`.

use journal_text::*;
use rpc_channel::Channels;
use rpc_ids::{Kind, Registry};
use rpc_journal::{Broken, Entry, EntryKind, Fault, Journal};
use std::alloc::Global;
use std::process::Abort;
use std::test::Fail;

/// One call of Echo with the payload `abc`, as a server serves it.
const ECHO: &str = "\
journal
0 arrive 10011dfb5cf47025e90e478b2a036162633801
2 start 0
2 finish 0 0:616263
1 flush
0 endin
";

/// A line of each kind, and an answer with an item of each kind.
const EACH_KIND: &str = "\
journal
0 arrive 
4294967295 start 4294967295
7 finish 3 - say: begin:1:2:18446744073709551615 append:1:00ff append:1: commit:1 leave:4294967295
2 finish 0 16:
2 cancel 5
1 tick 18446744073709551615
1 flush
0 endin
3 close 4294967295
";

// The text printed of a journal that was read from a text.
fn printed_again(alloc: Global, text: &str) -> Result<Result<String, BadLine>, Fail> {
    match read(alloc, text.as_bytes())? {
        Ok(journal) => {
            let mut again = String::new(alloc);
            print(alloc, &journal, &mut again)?;
            Ok(Ok(again))
        }
        Err(bad) => Ok(Err(bad)),
    }
}

fn prints(rt: &impl Abort, alloc: Global, text: &str, want: &str) -> Result<(), Fail> {
    match printed_again(alloc, text)? {
        Ok(again) => assert_eq!(rt; again.as_str(), want),
        Err(bad) => panic!(rt; "line {} of {text}", bad.line),
    }
    Ok(())
}

#[test]
fn a_text_is_printed_as_it_was_read(rt: HostRuntime) -> Result<(), Fail> {
    prints(&rt, rt.alloc(), ECHO, ECHO)?;
    prints(&rt, rt.alloc(), EACH_KIND, EACH_KIND)?;
    prints(&rt, rt.alloc(), "journal\n", "journal\n")
}

// Texts that aren't printed so, and what they are printed as: a last line without a newline, and status numbers past
// those in use.
const ANEW: &[(&str, &str)] = &[
    ("journal", "journal\n"),
    ("journal\n1 flush", "journal\n1 flush\n"),
    ("journal\n2 finish 0 17:\n", "journal\n2 finish 0 2:\n"),
    (
        "journal\n2 finish 0 4294967295:00 leave:0\n",
        "journal\n2 finish 0 2:00 leave:0\n",
    ),
];

#[test]
fn what_is_read_is_printed_anew(rt: HostRuntime) -> Result<(), Fail> {
    for (text, want) in ANEW {
        prints(&rt, rt.alloc(), text, want)?;
    }
    Ok(())
}

// The first bad line of a text, if it has one.
fn bad_line(alloc: Global, text: &[u8]) -> Result<Option<u64>, Fail> {
    Ok(match read(alloc, text)? {
        Ok(_) => None,
        Err(bad) => Some(bad.line),
    })
}

const WITHOUT_A_FIRST_LINE: &[&[u8]] = &[
    b"",
    b"\n",
    b"journa",
    b"journal ",
    b"Journal\n",
    b"journal\r\n1 flush\n",
    b"\njournal\n",
    b"1 flush\n",
];

fn is_bad_at(rt: &impl Abort, alloc: Global, text: &[u8], line: u64) -> Result<(), Fail> {
    assert_eq!(rt;
        bad_line(alloc, text)?,
        Some(line),
        "{}",
        text.escape_ascii()
    );
    Ok(())
}

#[test]
fn a_text_without_its_first_line_is_bad_at_line_1(rt: HostRuntime) -> Result<(), Fail> {
    for text in WITHOUT_A_FIRST_LINE {
        is_bad_at(&rt, rt.alloc(), text, 1)?;
    }
    Ok(())
}

const BAD_LINES: &[(&[u8], u64)] = &[
    (b"journal\n\n", 2),
    (b"journal\n\xff\n", 2),
    (b"journal\n1 flush\n2", 3),
    (b"journal\n1 flush\n\n1 flush\n", 3),
    (b"journal\n1 flush\n0 endin\n1 flush \nx", 4),
];

#[test]
fn the_first_bad_line_is_told(rt: HostRuntime) -> Result<(), Fail> {
    for (text, line) in BAD_LINES {
        is_bad_at(&rt, rt.alloc(), text, *line)?;
    }
    Ok(())
}

const OTHER_FORMS: &[&str] = &[
    // The seat, and the blank behind it.
    "flush",
    "00 flush",
    "01 flush",
    "+1 flush",
    "-1 flush",
    " 1 flush",
    "1  flush",
    "4294967296 flush",
    // The words.
    "1",
    "1 ",
    "1 Flush",
    "1 flush ",
    "1 flushed",
    "1 flush\r",
    "0 endin 0",
    "0 end",
    // Kinds without a text.
    "0 halt",
    "0 halt 1",
    "3 invoke 00",
    "3 say 0 say:",
    "3 done 0",
    "3 replace 0",
    // Packets: no blank, odd digits, a capital, no digit, cut off, a zero that is written, a type of no packet.
    "0 arrive",
    "0 arrive 1",
    "0 arrive 10011DFB5CF47025E90E478B2A036162633801",
    "0 arrive zz",
    "0 arrive 10",
    "0 arrive 0800",
    "0 arrive 0803",
    "0 arrive 10810038",
    "0 arrive 1001 ",
    // Calls and times.
    "2 start",
    "2 start ",
    "2 start 00",
    "2 start 1 ",
    "2 start 4294967296",
    "2 start 0x1",
    "2 cancel",
    "2 cancel -1",
    "2 close",
    "2 close 4294967296",
    "1 tick",
    "1 tick 18446744073709551616",
    "1 tick 01",
    // Ends.
    "2 finish 0",
    "2 finish 0 ",
    "2 finish 0 - ",
    "2 finish 0 0: ",
    "2 finish 0 -:",
    "2 finish 0 --",
    "2 finish 0 0",
    "2 finish 0 :",
    "2 finish 0 00:",
    "2 finish 0 0:6",
    "2 finish 0 0:6A",
    "2 finish 0 4294967296:",
    "2 finish 00 -",
    "2 finish  -",
    // Items.
    "2 finish 0 -  say:",
    "2 finish 0 - say",
    "2 finish 0 - say:A0",
    "2 finish 0 - say:0",
    "2 finish 0 - say:00 ",
    "2 finish 0 - done:1",
    "2 finish 0 - begin:1:2",
    "2 finish 0 - begin:1:2:3:4",
    "2 finish 0 - begin:1:2:",
    "2 finish 0 - begin:1:02:3",
    "2 finish 0 - begin:4294967296:2:3",
    "2 finish 0 - begin:1:4294967296:3",
    "2 finish 0 - begin:1:2:18446744073709551616",
    "2 finish 0 - append:1",
    "2 finish 0 - append:1:0",
    "2 finish 0 - append:4294967296:",
    "2 finish 0 - commit:",
    "2 finish 0 - commit:01",
    "2 finish 0 - commit:4294967296",
    "2 finish 0 - leave:x",
    "2 finish 0 - leave:1:2",
    "2 finish 0 - leave:1 -",
];

fn is_bad(rt: &impl Abort, alloc: Global, line: &str) -> Result<(), Fail> {
    let text = format!(in alloc; "journal\n{line}\n")?;
    is_bad_at(rt, alloc, text.as_bytes(), 2)
}

#[test]
fn lines_of_another_form_are_bad(rt: HostRuntime) -> Result<(), Fail> {
    for line in OTHER_FORMS {
        is_bad(&rt, rt.alloc(), line)?;
    }
    Ok(())
}

#[test]
fn a_kind_without_a_text_has_no_line(rt: HostRuntime) -> Result<(), Fail> {
    let mut journal = Journal::new(rt.alloc());
    journal.reserve(2)?;
    journal.push(Entry {
        seat: 3,
        kind: EntryKind::Done(0),
    });
    journal.push(Entry {
        seat: 1,
        kind: EntryKind::Flush,
    });
    let mut text = String::new(rt.alloc());
    print(rt.alloc(), &journal, &mut text)?;
    assert_eq!(rt; text.as_str(), "journal\n1 flush\n");
    Ok(())
}

// The verdict on a text as the journal of a server with channel 1 and the method Echo.
fn verdict_on(alloc: Global, text: &str) -> Result<Verdict, Fail> {
    let mut channels = Channels::new(alloc);
    channels.add(1)?;
    let mut registry = Registry::new(alloc);
    registry.add(b"demo.Demo", b"Echo", Kind::Unary, false)?;
    Ok(judge_text(alloc, text.as_bytes(), &channels, &registry)?)
}

fn is_judged(rt: &impl Abort, alloc: Global, text: &str, want: Verdict) -> Result<(), Fail> {
    assert_eq!(rt; verdict_on(alloc, text)?, want);
    Ok(())
}

const NOT_RUN: &str = "\
journal
0 arrive 10011dfb5cf47025e90e478b2a036162633801
2 finish 0 0:616263
1 flush
0 endin
";

// Texts, where a fault is, and which rule it breaks.
const FAULTY: &[(&str, u64, Broken)] = &[
    (NOT_RUN, 1, Broken::NotRunning),
    // The packet of all zeros, and a packet of a type that a server doesn't hear.
    ("journal\n0 arrive \n", 0, Broken::Refused),
    ("journal\n0 arrive 0801\n", 0, Broken::Refused),
    ("journal\n2 start 9\n", 0, Broken::UnknownCall),
    ("journal\n0 endin\n0 endin\n", 1, Broken::AfterEnd),
    ("journal\n1 tick 5\n2 tick 6\n", 1, Broken::Seat),
    ("journal\n1 flush\n", 0, Broken::Nothing),
    ("journal\n2 close 1\n2 close 1\n", 1, Broken::Refused),
];

fn faulty(at: u64, rule: Broken) -> Verdict {
    Verdict::Faulty(Fault { at, rule })
}

#[test]
fn texts_are_judged(rt: HostRuntime) -> Result<(), Fail> {
    is_judged(&rt, rt.alloc(), ECHO, Verdict::Legal(6))?;
    is_judged(&rt, rt.alloc(), "journal", Verdict::Legal(1))?;
    is_judged(&rt, rt.alloc(), "journal\n2 close 1\n", Verdict::Legal(2))?;
    is_judged(&rt, rt.alloc(), "", Verdict::NoJournal(1))?;
    is_judged(
        &rt,
        rt.alloc(),
        "journal\n0 endin\n\n",
        Verdict::NoJournal(3),
    )?;
    for (text, at, rule) in FAULTY {
        is_judged(&rt, rt.alloc(), text, faulty(*at, *rule))?;
    }
    Ok(())
}

// Where a fault is, which rule it breaks, and the line that tells it.
const TOLD: &[(u64, Broken, &str)] = &[
    (1, Broken::NotRunning, "fault at 1 NotRunning\n"),
    (0, Broken::Seat, "fault at 0 Seat\n"),
    (2, Broken::AfterEnd, "fault at 2 AfterEnd\n"),
    (3, Broken::UnknownCall, "fault at 3 UnknownCall\n"),
    (4, Broken::NotReady, "fault at 4 NotReady\n"),
    (5, Broken::Refused, "fault at 5 Refused\n"),
    (6, Broken::Nothing, "fault at 6 Nothing\n"),
];

fn is_told(
    rt: &impl Abort,
    alloc: Global,
    verdict: Verdict,
    want: &str,
    status: u8,
) -> Result<(), Fail> {
    let mut text = String::new(alloc);
    verdict.add_line(&mut text)?;
    assert_eq!(rt; text.as_str(), want);
    assert_eq!(rt; verdict.exit_status(), status);
    Ok(())
}

#[test]
fn verdicts_are_told_in_a_line(rt: HostRuntime) -> Result<(), Fail> {
    is_told(&rt, rt.alloc(), Verdict::Legal(6), "legal 6\n", 0)?;
    is_told(
        &rt,
        rt.alloc(),
        Verdict::NoJournal(1),
        "journal line 1\n",
        7,
    )?;
    for (at, rule, want) in TOLD {
        is_told(&rt, rt.alloc(), faulty(*at, *rule), want, 0)?;
    }
    Ok(())
}
