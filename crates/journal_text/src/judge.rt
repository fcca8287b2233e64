ghost use Rattle.std.specs.Prelude.{◌≡◌, IfOk};
ghost use Rattle.rpc_ids.specs.declared.method.Role.TheVariants.{Server};
ghost use Rattle.rpc_journal.specs.declared.setting.Setting.{Setting};
ghost use Rattle.rpc_journal.specs.Faults.{IsSettingOf};
ghost use Rattle.journal_text.specs.Verdicts.{IsVerdict};

use crate::{Verdict, read};
use rpc_channel::Channels;
use rpc_ids::{Registry, Role};
use rpc_journal::check;
use std::alloc::{AllocError, Global};

/// Judges a text as the journal of a server with these channels and methods.
pub fn judge_text(
    alloc: Global,
    text: &[u8],
    channels: &Channels,
    registry: &Registry,
) -> Result<Verdict, AllocError>
    ensures verdict { IfOk result (λ verdict. (set : Setting) →
        IsSettingOf set Server channels.now registry.now → IsVerdict set text.now verdict) }
    ensures only { IfOk result (λ verdict. (set : Setting) →
        IsSettingOf set Server channels.now registry.now →
        (other : Verdict) → IsVerdict set text.now other → other ≡ verdict) }
{
    let journal = match read(alloc, text)? {
        Ok(journal) => journal,
        Err(bad) => return Ok(Verdict::NoJournal(bad.line)),
    };
    match check(alloc, &journal, Role::Server, channels, registry)? {
        Some(fault) => Ok(Verdict::Faulty(fault)),
        None => Ok(Verdict::Legal(journal.len() + 1)),
    }
}
