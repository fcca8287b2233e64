//! What is written of a client.
ghost use Rattle.std.specs.Prelude.{◌≡◌, ◌≢◌, ◌≤◌, ◌⊎◌, false, None, IfOk, string_bytes};
ghost use Rattle.link_io.specs.Causes.{Rose};
ghost use Rattle.link_io.specs.declared.why.Why.TheVariants.{Source as Read, Sink as Link, Store as Depot};
ghost use Rattle.pw_run.specs.declared.outcome.Outcome.TheVariants.{BadWords, LinkFault, NotOkay, SinkFault, SourceFault, StoreFault};
ghost use Rattle.run_report.specs.LiveReport.{live_line, live_report};
ghost use Rattle.pw_run.specs.Client.{WritesClient, WritesText, client_outcome, text_of, told_of};
ghost use Rattle.pw_run.specs.Outcome.{IsSilent};

use crate::writing::{write_out, write_text};
use crate::{ClientCommand, Outcome};
use link_io::{Sink, Why};
use live_client::Live;
use rpc_ids::Status;
use run_report::{LiveLine, call_text, live_line, live_text};
use std::alloc::{AllocError, Global};

/// What is told of a client.
#[derive(Clone, Copy, Debug, PartialEq, Eq)]
pub enum Reported {
    /// The line of what this command asked.
    Line(ClientCommand),
    /// The messages of its call, and how that ended.
    Messages,
}

/// Writes what came of a client.
pub(crate) fn write_client<O: Sink>(
    alloc: Global,
    reported: Reported,
    done: &Live,
    output: &mut O,
) -> Outcome
    requires open { O.finished output.old ≡ false }
    ensures writes { WritesClient reported done.now (O.written output.old) (O.written output.new) (O.faults output.old) (O.faults output.new) result }
    ensures words { result ≢ BadWords }
    ensures link { result ≢ LinkFault }
    ensures silent { IsSilent result → output.new ≡ output.old }
    ensures source { result ≡ SourceFault → done.now.why ≡ Read }
    ensures store { result ≡ StoreFault → done.now.why ≡ Depot }
    ensures sink { result ≡ SinkFault → (done.now.why ≡ Link) ⊎ Rose (O.faults output.old) (O.faults output.new) }
    ensures sink_later { O.faults output.old ≤ O.faults output.new }
{
    if done.why == Why::Memory {
        return Outcome::NoMemory;
    }
    match text_of(alloc, reported, done) {
        Err(_) => Outcome::NoMemory,
        Ok(text) => match write_out(output, text.as_bytes()) {
            Ok(()) => outcome_of(done.why, done.ended),
            Err(_) => Outcome::SinkFault,
        },
    }
}

fn text_of(alloc: Global, reported: Reported, done: &Live) -> Result<String, AllocError>
    ensures { IfOk result (λ text. string_bytes text ≡ text_of reported done.now) }
{
    match reported {
        Reported::Line(command) => live_text(alloc, told_of(command, done), done.why),
        Reported::Messages => call_text(alloc, &done.messages, done.ended, done.why),
    }
}

fn told_of(command: ClientCommand, done: &Live) -> Option<LiveLine>
    ensures { result ≡ told_of command done.now }
{
    let status = done.ended?;
    let (from, length) = (done.from, done.length);
    let line = match command {
        ClientCommand::Get { resource, .. } => LiveLine::Get {
            resource,
            from,
            status,
            length,
        },
        ClientCommand::Put { resource, .. } => LiveLine::Put {
            resource,
            from,
            status,
            length,
        },
        ClientCommand::Watch { .. } => LiveLine::Watch {
            status,
            messages: done.messages.len(),
        },
    };
    Some(line)
}

// The outcome of a client whose text was written whole.
fn outcome_of(why: Why, ended: Option<Status>) -> Outcome
    ensures { result ≡ client_outcome why ended }
{
    match (why, ended) {
        (Why::Settled, Some(Status::Okay)) => Outcome::Done,
        (Why::Settled, _) => Outcome::NotOkay,
        (why, _) => Outcome::of_session(why),
    }
}

/// Writes the line of a resource that can't be sent, alone.
pub(crate) fn write_alone<O: Sink>(alloc: Global, line: LiveLine, output: &mut O) -> Outcome
    requires open { O.finished output.old ≡ false }
    ensures writes { WritesText (live_line line) NotOkay (O.written output.old) (O.written output.new) result }
    ensures words { result ≢ BadWords }
    ensures link { result ≢ LinkFault }
    ensures silent { IsSilent result → output.new ≡ output.old }
    ensures source { result ≢ SourceFault }
    ensures store { result ≢ StoreFault }
    ensures sink { result ≡ SinkFault → Rose (O.faults output.old) (O.faults output.new) }
    ensures sink_later { O.faults output.old ≤ O.faults output.new }
{
    match live_line(alloc, line) {
        Err(_) => Outcome::NoMemory,
        Ok(text) => write_text(output, text.as_bytes(), Outcome::NotOkay),
    }
}

/// Writes that the store couldn't be listed.
pub(crate) fn write_unlisted<O: Sink>(alloc: Global, output: &mut O) -> Outcome
    requires open { O.finished output.old ≡ false }
    ensures writes { WritesText (live_report None Depot) StoreFault (O.written output.old) (O.written output.new) result }
    ensures words { result ≢ BadWords }
    ensures link { result ≢ LinkFault }
    ensures silent { IsSilent result → output.new ≡ output.old }
    ensures source { result ≢ SourceFault }
    ensures sink { result ≡ SinkFault → Rose (O.faults output.old) (O.faults output.new) }
    ensures sink_later { O.faults output.old ≤ O.faults output.new }
{
    match live_text(alloc, None, Why::Store) {
        Err(_) => Outcome::NoMemory,
        Ok(text) => write_text(output, text.as_bytes(), Outcome::StoreFault),
    }
}
