ghost use Rattle.std.specs.Prelude.{◌≡◌, ◌≢◌, ◌≤◌, ◌↔◌, ℕ, false, map, string_bytes};
ghost use Rattle.link_io.specs.Causes.{Rose};
ghost use Rattle.link_io.specs.Reading.{ConsumesUpTo};
ghost use Rattle.rpc_schedule.specs.declared.stream.TheConstants.{INPUT_LIMIT};
ghost use Rattle.pw_run.specs.declared.command.Command.TheVariants.{Load};
ghost use Rattle.pw_run.specs.declared.outcome.Outcome.{Outcome};
ghost use Rattle.pw_run.specs.declared.outcome.Outcome.TheVariants.{BadWords, LinkFault, SinkFault, SourceFault, StoreFault};
ghost use Rattle.pw_run.specs.Command.{IsCommand, IsNoCommand};
ghost use Rattle.pw_run.specs.Outcome.{code_of, IsSilent};
ghost use Rattle.pw_run.specs.Recorded.{Did, EndsWith, Fits, IsStoreless};

use crate::dump::dump;
use crate::load::load;
use crate::replay::replay;
use crate::telling::tell;
use crate::{Command, Outcome};
use link_io::{Sink, Source, Store};
use std::alloc::{AllocError, Global};

/// Runs the recorded command that the words name, over a source, a sink and a store. It waits for nobody and always
/// returns.
///
/// `replay` serves the input as a recorded stream from a client, over the resources that the store lists, and writes a
/// report, the frames that are sent, or the journal's text; uploads end in the store. `check` judges the input as such
/// a text; `detoken` prints the log messages in the input by the formats in front of them; `route` routes the frames in
/// the input by the routes in front of them; `dump` tells what is in the input, a recorded stream of either direction;
/// `load` serves a stream of its own making, and touches no input. Up to 67,108,864 bytes are read. The answer is the
/// program's exit status, as [`Outcome::code`] tells it.
pub fn run_recorded<I: Source, O: Sink, S: Store>(
    alloc: Global,
    words: &[String],
    input: &mut I,
    output: &mut O,
    store: &mut S,
) -> u8
    requires open { O.finished output.old ≡ false }
    ensures status { (outcome : Outcome) × (result ≡ code_of outcome) }
    ensures words { (result ≡ code_of BadWords) ↔ IsNoCommand (map string_bytes words.now) }
    ensures link { result ≢ code_of LinkFault }
    ensures idle { result ≡ code_of BadWords → (input.new ≡ input.old) × (store.new ≡ store.old) }

    // What each command read, what it wrote behind what the output held, and what the store held and holds.
    ensures read { ConsumesUpTo INPUT_LIMIT (I.left input.old) (I.left input.new) }
    ensures did { (command : Command) → IsCommand (map string_bytes words.now) command →
        EndsWith result (Did command (I.left input.old) (I.left input.new) (O.written output.old) (O.written output.new)
        (S.holds store.old) (S.holds store.new)) }
    ensures unread { (calls seed : ℕ) → IsCommand (map string_bytes words.now) (Load calls seed) → input.new ≡ input.old }
    ensures storeless { (command : Command) → IsCommand (map string_bytes words.now) command → IsStoreless command →
        store.new ≡ store.old }
    ensures silent { (outcome : Outcome) →
        result ≡ code_of outcome → IsSilent outcome → output.new ≡ output.old }

    // A fault is told only where the device that it blames counted one.
    ensures source { result ≡ code_of SourceFault → Rose (I.faults input.old) (I.faults input.new) }
    ensures sink { result ≡ code_of SinkFault → Rose (O.faults output.old) (O.faults output.new) }
    ensures store { result ≡ code_of StoreFault → Rose (S.faults store.old) (S.faults store.new) }
    ensures source_later { I.faults input.old ≤ I.faults input.new }
    ensures sink_later { O.faults output.old ≤ O.faults output.new }
    ensures store_later { S.faults store.old ≤ S.faults store.new }
{
    match Command::of(words) {
        None => Outcome::BadWords.code(),
        Some(command) => run(alloc, command, input, output, store).code(),
    }
}

fn run<I: Source, O: Sink, S: Store>(
    alloc: Global,
    command: Command<'_>,
    input: &mut I,
    output: &mut O,
    store: &mut S,
) -> Outcome
    requires fits { Fits command }
    requires open { O.finished output.old ≡ false }
    ensures words { result ≢ BadWords }
    ensures link { result ≢ LinkFault }
    ensures read { ConsumesUpTo INPUT_LIMIT (I.left input.old) (I.left input.new) }
    ensures did { Did command.entry (I.left input.old) (I.left input.new) (O.written output.old) (O.written output.new)
        (S.holds store.old) (S.holds store.new) result }
    ensures unread { (calls seed : ℕ) → command.entry ≡ Load calls seed → input.new ≡ input.old }
    ensures storeless { IsStoreless command.entry → store.new ≡ store.old }
    ensures silent { IsSilent result → output.new ≡ output.old }
    ensures source { result ≡ SourceFault → Rose (I.faults input.old) (I.faults input.new) }
    ensures sink { result ≡ SinkFault → Rose (O.faults output.old) (O.faults output.new) }
    ensures store { result ≡ StoreFault → Rose (S.faults store.old) (S.faults store.new) }
    ensures source_later { I.faults input.old ≤ I.faults input.new }
    ensures sink_later { O.faults output.old ≤ O.faults output.new }
    ensures store_later { S.faults store.old ≤ S.faults store.new }
{
    match command {
        Command::Replay(form) => replay(alloc, form, input, output, store),
        Command::Text(command) => tell(alloc, command, input, output),
        Command::Load { calls, seed } => load(alloc, calls, seed, output),
        Command::Dump(names) => dump(names, input, output),
    }
}
