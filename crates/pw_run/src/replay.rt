//! The command `replay`: a recorded stream of a client is served.
ghost use Rattle.std.specs.Prelude.{◌≡◌, ◌≢◌, ◌≤◌, false, [], IfOk};
ghost use Rattle.link_io.specs.Causes.{Rose};
ghost use Rattle.link_io.specs.Reading.{ConsumesUpTo};
ghost use Rattle.rpc_schedule.specs.declared.stream.TheConstants.{INPUT_LIMIT};
ghost use Rattle.journal_text.specs.Printed.{journal_text};
ghost use Rattle.pw_run.specs.declared.outcome.Outcome.TheVariants.{BadWords, LinkFault, SinkFault, SourceFault, StoreFault};
ghost use Rattle.pw_run.specs.Outcome.{IsSilent};
ghost use Rattle.pw_run.specs.Replay.{DidReplay, ServesShelf, WritesRun, no_counts, no_table, text_of};

use crate::writing::write_text;
use crate::{Form, Outcome, demo};
use demo_services::DemoCall;
use link_io::{Shelf, Sink, Source, Store, StoreRefused};
use rpc_calls::Calls;
use rpc_journal::{Item, Journal};
use rpc_schedule::Ending;
use rpc_server::Counts;
use run_report::{frame_bytes, report_text};
use std::alloc::{AllocError, Global};

/// Lists the store, serves the input over its shelf as a recorded stream of a client, and writes what this form tells of
/// the run. The text is made whole before its first byte is written.
pub(crate) fn replay<I: Source, O: Sink, S: Store>(
    alloc: Global,
    form: Form,
    input: &mut I,
    output: &mut O,
    store: &mut S,
) -> Outcome
    requires open { O.finished output.old ≡ false }
    ensures words { result ≢ BadWords }
    ensures link { result ≢ LinkFault }
    ensures read { ConsumesUpTo INPUT_LIMIT (I.left input.old) (I.left input.new) }
    ensures did { DidReplay form (I.left input.old) (I.left input.new) (O.written output.old) (O.written output.new)
        (S.holds store.old) (S.holds store.new) result }
    ensures silent { IsSilent result → output.new ≡ output.old }
    ensures source { result ≡ SourceFault → Rose (I.faults input.old) (I.faults input.new) }
    ensures sink { result ≡ SinkFault → Rose (O.faults output.old) (O.faults output.new) }
    ensures store { result ≡ StoreFault → Rose (S.faults store.old) (S.faults store.new) }
    ensures source_later { I.faults input.old ≤ I.faults input.new }
    ensures sink_later { O.faults output.old ≤ O.faults output.new }
    ensures store_later { S.faults store.old ≤ S.faults store.new }
{
    match store.list() {
        Ok(shelf) => serve(alloc, form, shelf, input, output, store),
        Err(StoreRefused::Failed) => write_nothing(alloc, form, output),
        Err(StoreRefused::Memory) => Outcome::NoMemory,
    }
}

// Serves the input over this shelf, and writes what belongs to the run.
fn serve<I: Source, O: Sink, S: Store>(
    alloc: Global,
    form: Form,
    shelf: Shelf,
    input: &mut I,
    output: &mut O,
    store: &mut S,
) -> Outcome
    requires open { O.finished output.old ≡ false }
    ensures words { result ≢ BadWords }
    ensures link { result ≢ LinkFault }
    ensures read { ConsumesUpTo INPUT_LIMIT (I.left input.old) (I.left input.new) }
    ensures did { ServesShelf form shelf (I.left input.old) (I.left input.new) (O.written output.old) (O.written output.new)
        (S.holds store.old) (S.holds store.new) result }
    ensures silent { IsSilent result → output.new ≡ output.old }
    ensures source { result ≡ SourceFault → Rose (I.faults input.old) (I.faults input.new) }
    ensures sink { result ≡ SinkFault → Rose (O.faults output.old) (O.faults output.new) }
    ensures store { result ≡ StoreFault → Rose (S.faults store.old) (S.faults store.new) }
    ensures source_later { I.faults input.old ≤ I.faults input.new }
    ensures sink_later { O.faults output.old ≤ O.faults output.new }
    ensures store_later { S.faults store.old ≤ S.faults store.new }
{
    let Ok(mut server) = demo::server(alloc, shelf) else {
        return Outcome::NoMemory;
    };
    let mut items = Vec::new(alloc);
    let served = rpc_schedule::replay(&mut server, input, store, &mut items);
    let counts = server.counts();
    let calls = server.calls();
    match served {
        Err(_) => Outcome::NoMemory,
        Ok(ending) => write_run(alloc, form, counts, calls, &items, ending, output),
    }
}

// Writes what belongs to a run in which the store couldn't be listed.
fn write_nothing<O: Sink>(alloc: Global, form: Form, output: &mut O) -> Outcome
    requires open { O.finished output.old ≡ false }
    ensures writes { WritesRun form no_counts no_table [] Ending.StoreFault (O.written output.old) (O.written output.new) result }
    ensures words { result ≢ BadWords }
    ensures link { result ≢ LinkFault }
    ensures source { result ≢ SourceFault }
    ensures silent { IsSilent result → output.new ≡ output.old }
    ensures sink { result ≡ SinkFault → Rose (O.faults output.old) (O.faults output.new) }
    ensures sink_later { O.faults output.old ≤ O.faults output.new }
{
    let Ok(server) = demo::server(alloc, demo::no_shelf(alloc)) else {
        return Outcome::NoMemory;
    };
    let none = Counts {
        valid: 0,
        bad: 0,
        other: 0,
        dropped: 0,
    };
    write_run(
        alloc,
        form,
        none,
        server.calls(),
        &[],
        Ending::StoreFault,
        output,
    )
}

// Writes what belongs to a run that ended so.
fn write_run<O: Sink>(
    alloc: Global,
    form: Form,
    counts: Counts,
    calls: &Calls<DemoCall>,
    items: &[Item],
    ending: Ending,
    output: &mut O,
) -> Outcome
    requires open { O.finished output.old ≡ false }
    ensures writes { WritesRun form counts calls.now items.now ending (O.written output.old) (O.written output.new) result }
    ensures words { result ≢ BadWords }
    ensures link { result ≢ LinkFault }
    ensures source { result ≡ SourceFault → ending ≡ Ending.SourceFault }
    ensures store { result ≡ StoreFault → ending ≡ Ending.StoreFault }
    ensures silent { IsSilent result → output.new ≡ output.old }
    ensures sink { result ≡ SinkFault → Rose (O.faults output.old) (O.faults output.new) }
    ensures sink_later { O.faults output.old ≤ O.faults output.new }
{
    match run_text(alloc, form, counts, calls, items, ending) {
        Err(_) => Outcome::NoMemory,
        Ok(text) => write_text(output, &text, Outcome::of(ending)),
    }
}

// The text of a run in this form.
fn run_text(
    alloc: Global,
    form: Form,
    counts: Counts,
    calls: &Calls<DemoCall>,
    items: &[Item],
    ending: Ending,
) -> Result<Vec<u8>, AllocError>
    ensures { IfOk result (λ text. text.items ≡ text_of form counts calls.now items.now ending) }
{
    match form {
        Form::Report => {
            let text = report_text(alloc, counts, calls, items, ending)?;
            Ok(text.into_bytes())
        }
        Form::Raw => frame_bytes(alloc, items),
        Form::Journal => journal_bytes(alloc, calls.journal()),
    }
}

fn journal_bytes(alloc: Global, journal: &Journal) -> Result<Vec<u8>, AllocError>
    ensures { IfOk result (λ text. text.items ≡ journal_text journal.now.entries) }
{
    let mut text = String::new(alloc);
    journal_text::print(alloc, journal, &mut text)?;
    Ok(text.into_bytes())
}
