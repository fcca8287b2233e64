//! The command `link`: a script is run, over a link that loses.
ghost use Rattle.std.specs.Prelude.{◌≡◌, ◌+◌, ◌<◌, ◌^◌, length, IfOk, string_bytes};
ghost use Rattle.link_laws.specs.transfers_fit.Scripts.{IsScript};
ghost use Rattle.link_world.specs.Starting.{IsWithinBounds};
ghost use Rattle.pw_run.specs.Link.{TellsLink, TellsRun, limit_text};

use crate::told::{Found, Told};
use link_laws::world::MAX_DELIVERIES;
use link_script::Script;
use link_script::text::{add_bad_line, read_script};
use link_world::{World, WorldRefused};
use rpc_journal::MAX_ENTRIES;
use std::alloc::{AllocError, Global};

/// What is told of the run of the script in a text, whose commands can be numbered.
pub(crate) fn link(alloc: Global, text: &[u8]) -> Result<Told, AllocError>
    requires { length text.now + 1 < 2 ^ 32 }
    ensures { IfOk result (λ told. TellsLink text.now told.text.items told.found) }
{
    match read_script(alloc, text)? {
        Ok(script) => run(alloc, script),
        Err(bad) => {
            let mut line = String::new(alloc);
            add_bad_line(bad.line, &mut line)?;
            Ok(told(line, Found::BadLine))
        }
    }
}

fn run(alloc: Global, script: Script) -> Result<Told, AllocError>
    requires bounds { IsWithinBounds script }
    requires fits { IsScript script }
    ensures { IfOk result (λ told. TellsRun script told.text.items told.found) }
{
    match World::new(alloc, script)?.run() {
        Ok(outcome) => Ok(told(outcome.text, Found::Good)),
        Err(WorldRefused::Frames) => {
            let text = limit_line(alloc, "frames", MAX_DELIVERIES)?;
            Ok(told(text, Found::PastFrames))
        }
        Err(WorldRefused::Journal) => {
            let text = limit_line(alloc, "journal", MAX_ENTRIES)?;
            Ok(told(text, Found::PastJournal))
        }
        Err(WorldRefused::Memory) => Err(AllocError),
    }
}

fn told(text: String, found: Found) -> Told
    ensures text { result.text.items ≡ string_bytes text }
    ensures found { result.found ≡ found }
{
    Told {
        text: text.into_bytes(),
        found,
    }
}

fn limit_line(alloc: Global, what: &str, limit: u64) -> Result<String, AllocError>
    ensures { IfOk result (λ text. string_bytes text ≡ limit_text what.now limit) }
{
    let mut text = String::new(alloc);
    writeln!(text, "limit {what} {limit}")?;
    Ok(text)
}
