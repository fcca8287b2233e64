//! The commands that read a text: it is read to its end, and then what is found in it is written.
ghost use Rattle.std.specs.Prelude.{◌≡◌, ◌≢◌, ◌+◌, ◌<◌, ◌≤◌, ◌^◌, false, length, IfOk, string_bytes};
ghost use Rattle.link_io.specs.Causes.{Rose};
ghost use Rattle.link_io.specs.Reading.{ConsumesUpTo};
ghost use Rattle.rpc_schedule.specs.declared.stream.TheConstants.{INPUT_LIMIT};
ghost use Rattle.pw_run.specs.declared.outcome.Outcome.TheVariants.{BadWords, LinkFault, SinkFault, SourceFault, StoreFault};
ghost use Rattle.pw_run.specs.Outcome.{IsSilent};
ghost use Rattle.pw_run.specs.Texts.{limit_line, WritesLimit};
ghost use Rattle.pw_run.specs.Tells.{DidText, Tells, WritesTold};

use crate::check::check;
use crate::detoken::detoken;
use crate::link::link;
use crate::route::route;
use crate::told::{Told, outcome_on};
use crate::writing::write_text;
use crate::{Outcome, TextCommand};
use link_io::{Ending, Sink, Source, read_to_limit};
use std::alloc::{AllocError, Global};

/// Reads the input as a text, and writes what this command tells of it. Nothing is written before the end of the text.
#[tactic(auto, using(crate::proofs::WritesLemmas::up_to_more))]
pub(crate) fn tell<I: Source, O: Sink>(
    alloc: Global,
    command: TextCommand,
    input: &mut I,
    output: &mut O,
) -> Outcome
    requires open { O.finished output.old ≡ false }
    ensures words { result ≢ BadWords }
    ensures link { result ≢ LinkFault }
    ensures store { result ≢ StoreFault }
    ensures read { ConsumesUpTo INPUT_LIMIT (I.left input.old) (I.left input.new) }
    ensures did { DidText command (I.left input.old) (I.left input.new) (O.written output.old) (O.written output.new) result }
    ensures silent { IsSilent result → output.new ≡ output.old }
    ensures source { result ≡ SourceFault → Rose (I.faults input.old) (I.faults input.new) }
    ensures sink { result ≡ SinkFault → Rose (O.faults output.old) (O.faults output.new) }
    ensures source_later { I.faults input.old ≤ I.faults input.new }
    ensures sink_later { O.faults output.old ≤ O.faults output.new }
{
    let limit = command.limit();
    let Ok(taken) = read_to_limit(alloc, input, limit) else {
        return Outcome::NoMemory;
    };
    match taken.ending {
        Ending::Failed => Outcome::SourceFault,
        Ending::AtLimit => write_limit(alloc, limit, output),
        Ending::AtEnd => write_told(alloc, command, &taken.bytes, output),
    }
}

// Writes that the text is too long.
fn write_limit<O: Sink>(alloc: Global, limit: usize, output: &mut O) -> Outcome
    requires open { O.finished output.old ≡ false }
    ensures words { result ≢ BadWords }
    ensures link { result ≢ LinkFault }
    ensures source { result ≢ SourceFault }
    ensures store { result ≢ StoreFault }
    ensures writes { WritesLimit limit (O.written output.old) (O.written output.new) result }
    ensures silent { IsSilent result → output.new ≡ output.old }
    ensures sink { result ≡ SinkFault → Rose (O.faults output.old) (O.faults output.new) }
    ensures sink_later { O.faults output.old ≤ O.faults output.new }
{
    match limit_line(alloc, limit) {
        Err(_) => Outcome::NoMemory,
        Ok(line) => write_text(output, line.as_bytes(), Outcome::InputLimit),
    }
}

fn limit_line(alloc: Global, limit: usize) -> Result<String, AllocError>
    ensures { IfOk result (λ text. string_bytes text ≡ limit_line limit) }
{
    let mut text = String::new(alloc);
    writeln!(text, "limit input {limit}")?;
    Ok(text)
}

// Writes what is found in the text.
fn write_told<O: Sink>(alloc: Global, command: TextCommand, text: &[u8], output: &mut O) -> Outcome
    requires open { O.finished output.old ≡ false }
    requires short { length text.now + 1 < 2 ^ 32 }
    ensures words { result ≢ BadWords }
    ensures link { result ≢ LinkFault }
    ensures source { result ≢ SourceFault }
    ensures store { result ≢ StoreFault }
    ensures writes { WritesTold command text.now (O.written output.old) (O.written output.new) result }
    ensures silent { IsSilent result → output.new ≡ output.old }
    ensures sink { result ≡ SinkFault → Rose (O.faults output.old) (O.faults output.new) }
    ensures sink_later { O.faults output.old ≤ O.faults output.new }
{
    match told_of(alloc, command, text) {
        Err(_) => Outcome::NoMemory,
        Ok(told) => write_text(output, &told.text, outcome_on(told.found)),
    }
}

fn told_of(alloc: Global, command: TextCommand, text: &[u8]) -> Result<Told, AllocError>
    requires { length text.now + 1 < 2 ^ 32 }
    ensures { IfOk result (λ told. Tells command text.now told.text.items told.found) }
{
    match command {
        TextCommand::Check => check(alloc, text),
        TextCommand::Detoken => detoken(alloc, text),
        TextCommand::Link => link(alloc, text),
        TextCommand::Route => route(alloc, text),
    }
}
