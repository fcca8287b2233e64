//! The command `check`: a journal's text is judged.
ghost use Rattle.std.specs.Prelude.{◌≡◌, IfOk, string_bytes};
ghost use Rattle.text_fields.specs.Lines.{ended};
ghost use Rattle.journal_text.specs.Verdicts.{IsVerdict, verdict_text};
ghost use Rattle.pw_run.specs.Check.{TellsVerdict, is_journal};
ghost use Rattle.pw_run.specs.Demo.{demo_setting, no_shelf};
ghost use Rattle.pw_run.specs.Texts.{TellsText};

use crate::demo;
use crate::told::{Told, found_by};
use demo_services::demo_registry;
use journal_text::{Verdict, judge_text};
use std::alloc::{AllocError, Global};

/// The verdict on a text as the journal of the server of the demo service, in one line.
pub(crate) fn check(alloc: Global, text: &[u8]) -> Result<Told, AllocError>
    ensures { IfOk result (λ told. TellsText (TellsVerdict text.now told.text.items) told.found) }
{
    let verdict = verdict_on(alloc, text)?;
    let line = verdict_line(alloc, &verdict)?;
    Ok(Told {
        text: line.into_bytes(),
        found: found_by(is_journal(&verdict)),
    })
}

fn verdict_on(alloc: Global, text: &[u8]) -> Result<Verdict, AllocError>
    ensures { IfOk result (λ verdict. IsVerdict (demo_setting no_shelf) text.now verdict) }
{
    let channels = demo::channels(alloc)?;
    let registry = demo_registry(alloc)?;
    judge_text(alloc, text, &channels, &registry)
}

fn verdict_line(alloc: Global, verdict: &Verdict) -> Result<String, AllocError>
    ensures { IfOk result (λ line. string_bytes line ≡ ended (verdict_text verdict.now)) }
{
    let mut line = String::new(alloc);
    verdict.add_line(&mut line)?;
    Ok(line)
}

fn is_journal(verdict: &Verdict) -> bool
    ensures { result ≡ is_journal verdict.now }
{
    match verdict {
        Verdict::Legal(_) | Verdict::Faulty(_) => true,
        Verdict::NoJournal(_) => false,
    }
}
