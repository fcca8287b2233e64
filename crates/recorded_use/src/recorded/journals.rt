//! The journal's text, and what `check` says of one.

use super::checks::told;
use super::{FIRST, FIRST_JOURNAL, run, tells, unhex};
use std::alloc::{AllocError, Global};
use std::process::Abort;

fn has_journal(rt: &impl Abort, alloc: Global, digits: &str, text: &str) -> Result<(), AllocError> {
    let ran = run(alloc, "replay journal", unhex(alloc, digits)?)?;
    told(rt, text, &ran, 0, text.as_bytes());
    Ok(())
}

#[test]
fn journal_writes_the_entries(rt: HostRuntime) -> Result<(), AllocError> {
    has_journal(&rt, rt.alloc(), FIRST, FIRST_JOURNAL)?;
    has_journal(&rt, rt.alloc(), "", "journal\n0 endin\n")
}

// The text, the status, and what is written.
const VERDICTS: &[(&str, u8, &str)] = &[
    (FIRST_JOURNAL, 0, "legal 6\n"),
    ("journal\n", 0, "legal 1\n"),
    ("journal", 0, "legal 1\n"),
    // A call on channel 9 is refused with one packet.
    (
        "journal\n0 arrive 10091dfb5cf47025b61336b62a01033801\n1 flush\n0 endin",
        0,
        "legal 4\n",
    ),
    // What the methods answer isn't judged.
    (
        "journal
0 arrive 10011dfb5cf47025e90e478b2a036162633801
2 start 0
2 finish 0 0:00
1 flush
",
        0,
        "legal 5\n",
    ),
    // Each rule that an entry can break.
    (
        "journal
0 arrive 10011dfb5cf47025e90e478b2a036162633801
2 finish 0 0:616263
1 flush
0 endin
",
        0,
        "fault at 1 NotRunning\n",
    ),
    ("journal\n1 endin\n", 0, "fault at 0 Seat\n"),
    ("journal\n0 endin\n0 endin\n", 0, "fault at 1 AfterEnd\n"),
    ("journal\n2 start 0\n", 0, "fault at 0 UnknownCall\n"),
    (
        "journal
0 arrive 10011dfb5cf47025e90e478b2a036162633801
2 start 0
3 start 0
",
        0,
        "fault at 2 NotReady\n",
    ),
    (
        "journal\n0 arrive 080110011dfb5cf47025e90e478b2a036162633801\n",
        0,
        "fault at 0 Refused\n",
    ),
    ("journal\n1 flush\n", 0, "fault at 0 Nothing\n"),
    // Texts that are no journal. A fault in front of the bad line isn't told.
    ("", 7, "journal line 1\n"),
    ("0 endin\n", 7, "journal line 1\n"),
    ("journal\n0 endin\n\n", 7, "journal line 3\n"),
    ("journal\n1 flush\n0 halt 1\n", 7, "journal line 3\n"),
    ("journal\n0 arrive zz\n0 endin\n", 7, "journal line 2\n"),
];

#[test]
fn each_text_has_its_verdict(rt: HostRuntime) -> Result<(), AllocError> {
    for &(text, status, verdict) in VERDICTS {
        tells(&rt, rt.alloc(), "check", text, status, verdict)?;
    }
    Ok(())
}

// A REQUEST of Chat, which opens the call 0, and a message to that call.
const OPENS: &str = "0 arrive 10011dfb5cf47025bc81a99b3801";

const MESSAGE: &str = "0 arrive 080210011dfb5cf47025bc81a99b3801";

// The text, so many times.
fn repeated(alloc: Global, text: &str, times: usize) -> Result<String, AllocError> {
    text.repeat(alloc, times)
}

fn is_judged(
    rt: &impl Abort,
    alloc: Global,
    row: &str,
    text: String,
    verdict: &str,
) -> Result<(), AllocError> {
    let ran = run(alloc, "check", text.into_bytes())?;
    told(rt, row, &ran, 0, verdict.as_bytes());
    Ok(())
}

// What the first answer to the call begins with, what follows so often in it, and the verdict.
const ANSWERS: &[(&str, &str, usize, &str)] = &[
    ("-", " say:", 512, "legal 4\n"),
    ("-", " say:", 513, "fault at 2 Refused\n"),
    ("- say:", "5a", 8_000, "legal 4\n"),
    ("- say:", "5a", 8_001, "fault at 2 Refused\n"),
    ("0:", "5a", 8_000, "legal 4\n"),
    ("0:", "5a", 8_001, "fault at 2 Refused\n"),
    // What is kept has no such limit.
    ("- append:1:", "5a", 8_001, "legal 4\n"),
];

fn is_answer(
    rt: &impl Abort,
    alloc: Global,
    head: &str,
    part: &str,
    times: usize,
    verdict: &str,
) -> Result<(), AllocError> {
    let rest = repeated(alloc, part, times)?;
    let text = format!(in alloc; "journal\n{OPENS}\n2 start 0\n2 finish 0 {head}{rest}\n")?;
    let row = format!(in alloc; "{head}, {times} times {part}")?;
    is_judged(rt, alloc, row.as_str(), text, verdict)
}

#[test]
fn an_answer_past_its_limits_is_refused(rt: HostRuntime) -> Result<(), AllocError> {
    for &(head, part, times, verdict) in ANSWERS {
        is_answer(&rt, rt.alloc(), head, part, times, verdict)?;
    }
    Ok(())
}

// How many messages the run number 128 sends, what stands before the next start, and the verdict. Each run before it sent 512, so
// 65,536 wait to be flushed in the first row.
const WAITING: &[(usize, &str, &str)] = &[
    (512, "", "fault at 385 NotReady\n"),
    (511, "", "legal 387\n"),
    (512, "1 flush\n", "legal 388\n"),
];

// A run that sends so many messages, and the message for the next one.
fn run_of(alloc: Global, count: usize) -> Result<String, AllocError> {
    let items = repeated(alloc, " say:", count)?;
    format!(in alloc; "2 start 0\n2 finish 0 -{items}\n{MESSAGE}\n")
}

fn next_is_judged(
    rt: &impl Abort,
    alloc: Global,
    last: usize,
    before: &str,
    verdict: &str,
) -> Result<(), AllocError> {
    let runs = repeated(alloc, run_of(alloc, 512)?.as_str(), 127)?;
    let end = run_of(alloc, last)?;
    let text = format!(in alloc; "journal\n{OPENS}\n{runs}{end}{before}2 start 0\n")?;
    is_judged(rt, alloc, verdict, text, verdict)
}

#[test]
fn no_call_is_ready_while_65536_items_wait(rt: HostRuntime) -> Result<(), AllocError> {
    for &(last, before, verdict) in WAITING {
        next_is_judged(&rt, rt.alloc(), last, before, verdict)?;
    }
    Ok(())
}
