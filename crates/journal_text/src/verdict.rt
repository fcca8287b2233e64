//! What is found of a text that should be a server's journal.

ghost use Rattle.std.specs.Prelude.{◌≡◌, ◌++◌, OnOk, string_bytes};
ghost use Rattle.text_fields.specs.Lines.{ended};
ghost use Rattle.journal_text.specs.Verdicts.{rule_name, verdict_status, verdict_text};

use rpc_journal::{Broken, Fault};
use std::alloc::AllocError;

/// The exit status where a text is no journal.
const BAD_TEXT: u8 = 7;

/// What is found of a text that should be a server's journal.
#[derive(Clone, Copy, Debug, PartialEq, Eq)]
pub enum Verdict {
    /// It is a lawful journal. The number is that of its lines: one for each entry, and the line `journal`.
    Legal(u64),
    /// It is a journal, and this is the first entry that isn't allowed after those before it.
    Faulty(Fault),
    /// It is no journal. The number is that of the first bad line, from 1.
    NoJournal(u64),
}

impl Verdict {
    /// Appends the verdict as a line: `legal K`, `fault at I RULE` or `journal line K`.
    pub fn add_line(&self, text: &mut String) -> Result<(), AllocError>
        ensures { OnOk result (string_bytes text.new ≡ string_bytes text.old ++ ended (verdict_text self.now)) }
    {
        match self {
            Verdict::Legal(lines) => writeln!(text, "legal {lines}"),
            Verdict::Faulty(fault) => {
                let at = fault.at;
                let rule = name_of(fault.rule);
                writeln!(text, "fault at {at} {rule}")
            }
            Verdict::NoJournal(line) => writeln!(text, "journal line {line}"),
        }
    }

    /// The exit status of a program that told the verdict: 7 where the text is no journal, and else 0.
    pub fn exit_status(&self) -> u8
        ensures { result ≡ verdict_status self.now }
    {
        match self {
            Verdict::Legal(_) | Verdict::Faulty(_) => 0,
            Verdict::NoJournal(_) => BAD_TEXT,
        }
    }
}

fn name_of(rule: Broken) -> &'static str
    ensures { result.now ≡ rule_name rule }
{
    match rule {
        Broken::Seat => "Seat",
        Broken::UnknownCall => "UnknownCall",
        Broken::NotReady => "NotReady",
        Broken::NotRunning => "NotRunning",
        Broken::AfterEnd => "AfterEnd",
        Broken::Refused => "Refused",
        Broken::Nothing => "Nothing",
    }
}
