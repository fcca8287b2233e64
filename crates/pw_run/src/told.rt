//! What a command tells of a text.
ghost use Rattle.std.specs.Prelude.{◌≡◌, ◌≢◌, IfOk, string_bytes};
ghost use Rattle.pw_run.specs.declared.outcome.Outcome.TheVariants.{BadWords, LinkFault, SinkFault, SourceFault, StoreFault};
ghost use Rattle.pw_run.specs.Outcome.{IsSilent};
ghost use Rattle.pw_run.specs.Texts.{bad_line, found_by, outcome_on};

use crate::Outcome;
use std::alloc::{AllocError, Global};

/// What a text was found to be.
#[derive(Clone, Copy, Debug, PartialEq, Eq)]
pub enum Found {
    /// Each line of it is good.
    Good,
    /// A line of it isn't.
    BadLine,
    /// It is a script whose run meets the limit of deliveries.
    PastFrames,
    /// It is a script whose run fills a journal.
    PastJournal,
}

/// What is told of a text, and what it was found to be.
#[derive(Drop)]
pub(crate) struct Told {
    pub text: Vec<u8>,
    pub found: Found,
}

/// What a text of good lines is found to be, or one with a bad line.
pub(crate) fn found_by(is_good: bool) -> Found
    ensures { result ≡ found_by is_good }
{
    if is_good { Found::Good } else { Found::BadLine }
}

/// The outcome of a run that has told of a text that was found to be this.
pub(crate) fn outcome_on(found: Found) -> Outcome
    ensures value { result ≡ outcome_on found }
    ensures words { result ≢ BadWords }
    ensures link { result ≢ LinkFault }
    ensures source { result ≢ SourceFault }
    ensures sink { result ≢ SinkFault }
    ensures store { result ≢ StoreFault }
    ensures loud { IsSilent result → ⊥ }
{
    match found {
        Found::Good => Outcome::Done,
        Found::BadLine => Outcome::BadLine,
        Found::PastFrames => Outcome::FrameLimit,
        Found::PastJournal => Outcome::JournalLimit,
    }
}

/// The number of the first bad line, behind a word for the text.
pub(crate) fn bad_line(alloc: Global, word: &str, number: usize) -> Result<String, AllocError>
    ensures { IfOk result (λ line. string_bytes line ≡ bad_line word.now number) }
{
    let mut line = String::new(alloc);
    writeln!(line, "{word} line {number}")?;
    Ok(line)
}
