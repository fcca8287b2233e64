ghost use Rattle.std.specs.Prelude.{◌≡◌, ℕ, ◌≤◌, ◌↔◌, ◌⊎◌, false, Option, map, string_bytes};
ghost use Rattle.link_io.specs.Causes.{Rose};
ghost use Rattle.link_io.specs.Reading.{ConsumesUpTo};
ghost use Rattle.rpc_schedule.specs.declared.stream.TheConstants.{INPUT_LIMIT};
ghost use Rattle.live_client.specs.declared.ask.Opening.{Opening};
ghost use Rattle.pw_run.specs.declared.command.Command.{Command};
ghost use Rattle.pw_run.specs.declared.command.Command.TheVariants.{Load};
ghost use Rattle.pw_run.specs.declared.live_command.LiveCommand.{LiveCommand};
ghost use Rattle.pw_run.specs.declared.outcome.Outcome.{Outcome};
ghost use Rattle.pw_run.specs.declared.outcome.Outcome.TheVariants.{BadWords, LinkFault, SinkFault, SourceFault, StoreFault};
ghost use Rattle.pw_run.specs.CallCommand.{DidCall, IsCall, IsNoCall};
ghost use Rattle.pw_run.specs.Command.{IsCommand, IsNoCommand};
ghost use Rattle.pw_run.specs.Devices.{devices};
ghost use Rattle.pw_run.specs.Live.{DidLive, IsBridge, IsServe, MakesLinks};
ghost use Rattle.pw_run.specs.LiveCommand.{IsLiveCommand, IsNoLiveCommand};
ghost use Rattle.pw_run.specs.Outcome.{code_of, IsSilent};
ghost use Rattle.pw_run.specs.Recorded.{Did, EndsWith, IsStoreless};

use crate::bridge::bridge;
use crate::call::call;
use crate::call_words::CallWords;
use crate::client::client;
use crate::crew::crew;
use crate::serve::serve;
use crate::way::Way;
use crate::{LiveCommand, MAX_HOSTED, run_recorded};
use link_io::{Clock, Linker, Sink, Source, Store};
use rpc_crew::Gate;
use std::alloc::Global;
use std::sync::Wait;
use std::thread::Threads;

/// Runs the command that the words name, over a source, a sink, a store, a linker and a clock. The recorded commands
/// are those of [`run_recorded`]; the others work on threads, and may wait. The gate stands at each run of a handler of
/// theirs.
///
/// `crew` serves the input as `replay` does, by a number of workers, and writes a report by call. `serve` listens at a
/// path and serves a number of connections in turn, each over the resources that the store lists then; `host` does so
/// without a number, and what ends a connection for its own link or a limit doesn't end the run. `bridge` connects to
/// two paths and lets frames go between the two links by their address. `get`, `put` and `watch` connect to a path,
/// read a resource into the store, write one out of it, or watch a stream of messages; `call` calls a method by its
/// names or its ids. The answer is the program's exit status, as [`Outcome::code`](crate::Outcome::code) tells it.
#[tactic(auto, using(crate::proofs::WordLemmas::not_both, crate::proofs::WordLemmas::call_not_recorded, crate::proofs::WordLemmas::call_not_live, crate::proofs::CallLemmas::can_call, crate::proofs::CallLemmas::call_there, crate::proofs::CallLemmas::call_links))]
pub fn run<
    R: Threads + Wait + Sync,
    I: Source + Send,
    O: Sink,
    S: Store + Send,
    N: Linker,
    C: Clock + Send,
    G: Gate + Sync,
>(
    rt: &R,
    alloc: Global,
    words: &[String],
    input: &mut I,
    output: &mut O,
    store: &mut S,
    net: &mut N,
    clock: &mut C,
    gate: &G,
) -> u8
    requires open { O.finished output.old ≡ false }
    ensures status { (outcome : Outcome) × (result ≡ code_of outcome) }
    ensures words { (result ≡ code_of BadWords) ↔ (IsNoCommand (map string_bytes words.now) × IsNoLiveCommand (map string_bytes words.now) × IsNoCall (map string_bytes words.now)) }
    ensures idle { result ≡ code_of BadWords →
        (input.new ≡ input.old) × (output.new ≡ output.old) × (store.new ≡ store.old) × (net.new ≡ net.old) × (clock.new ≡ clock.old) }

    // What a recorded command read, what it wrote behind what the output held, and what the store held and holds.
    ensures recorded { (command : Command) → IsCommand (map string_bytes words.now) command →
        EndsWith result (Did command (I.left input.old) (I.left input.new) (O.written output.old) (O.written output.new)
        (S.holds store.old) (S.holds store.new)) }
    ensures unread { (calls seed : ℕ) → IsCommand (map string_bytes words.now) (Load calls seed) → input.new ≡ input.old }
    ensures storeless { (command : Command) → IsCommand (map string_bytes words.now) command → IsStoreless command →
        store.new ≡ store.old }
    ensures apart { (command : Command) → IsCommand (map string_bytes words.now) command →
        (net.new ≡ net.old) × (clock.new ≡ clock.old) }

    // What a command on threads read, sent, wrote and stored.
    ensures live { (command : LiveCommand) → IsLiveCommand (map string_bytes words.now) command →
        EndsWith result (DidLive command
        (devices (I.left input.old) (O.written output.old) (O.faults output.old) (S.holds store.old) (N.links net.old) (C.last clock.old))
        (devices (I.left input.new) (O.written output.new) (O.faults output.new) (S.holds store.new) (N.links net.new) (C.last clock.new))) }
    ensures called { (opening : Opening) (limit within : Option ℕ) → IsCall (map string_bytes words.now) opening limit within →
        EndsWith result (DidCall opening limit within
        (devices (I.left input.old) (O.written output.old) (O.faults output.old) (S.holds store.old) (N.links net.old) (C.last clock.old))
        (devices (I.left input.new) (O.written output.new) (O.faults output.new) (S.holds store.new) (N.links net.new) (C.last clock.new))) }
    ensures linked { MakesLinks (map string_bytes words.now) → input.new ≡ input.old }
    ensures bridged { IsBridge (map string_bytes words.now) → (store.new ≡ store.old) × (clock.new ≡ clock.old) }
    ensures unlinked { (MakesLinks (map string_bytes words.now) → ⊥) → net.new ≡ net.old }
    ensures silent { (IsServe (map string_bytes words.now) → ⊥) → (outcome : Outcome) →
        result ≡ code_of outcome → IsSilent outcome → output.new ≡ output.old }
    ensures read { ConsumesUpTo INPUT_LIMIT (I.left input.old) (I.left input.new) }

    // A fault is told only where the device that it blames counted one; of a command that makes links that is a link, or the linker
    // itself.
    ensures source { (MakesLinks (map string_bytes words.now) → ⊥) → result ≡ code_of SourceFault →
        Rose (I.faults input.old) (I.faults input.new) }
    ensures sink { (MakesLinks (map string_bytes words.now) → ⊥) → result ≡ code_of SinkFault →
        Rose (O.faults output.old) (O.faults output.new) }
    ensures link_source { MakesLinks (map string_bytes words.now) → result ≡ code_of SourceFault →
        Rose (N.links net.old).in_faults (N.links net.new).in_faults }
    ensures link_sink { MakesLinks (map string_bytes words.now) → result ≡ code_of SinkFault →
        Rose (N.links net.old).out_faults (N.links net.new).out_faults ⊎ Rose (O.faults output.old) (O.faults output.new) }
    ensures store { result ≡ code_of StoreFault → Rose (S.faults store.old) (S.faults store.new) }
    ensures linker { result ≡ code_of LinkFault → Rose (N.links net.old).faults (N.links net.new).faults }
    ensures source_later { I.faults input.old ≤ I.faults input.new }
    ensures sink_later { O.faults output.old ≤ O.faults output.new }
    ensures store_later { S.faults store.old ≤ S.faults store.new }
    ensures linker_later { (N.links net.old).faults ≤ (N.links net.new).faults }
{
    if let Some(words) = CallWords::of(words) {
        return call(rt, alloc, words, output, store, net, clock).code();
    }
    match LiveCommand::of(words) {
        None => run_recorded(alloc, words, input, output, store),
        Some(LiveCommand::Crew { workers }) => {
            crew(rt, alloc, workers, input, output, store, clock, gate).code()
        }
        Some(
            LiveCommand::Serve {
                workers,
                connections,
            },
        ) => serve(
            rt,
            alloc,
            path_of(words),
            Way::Serve,
            workers,
            connections,
            output,
            store,
            net,
            clock,
            gate,
        )
        .code(),
        Some(LiveCommand::Host { workers }) => serve(
            rt,
            alloc,
            path_of(words),
            Way::Host,
            workers,
            MAX_HOSTED,
            output,
            store,
            net,
            clock,
            gate,
        )
        .code(),
        Some(LiveCommand::Bridge { at_right, at_left }) => {
            let (left, right) = paths_of(words);
            bridge(rt, alloc, left, right, at_right, at_left, output, net).code()
        }
        Some(LiveCommand::Client(command)) => client(
            rt,
            alloc,
            path_of(words),
            command,
            output,
            store,
            net,
            clock,
        )
        .code(),
    }
}

// Where to listen, or to connect to.
fn path_of(words: &[String]) -> &str {
    match words {
        [_, path, ..] => path.as_str(),
        _ => "",
    }
}

// Where the two links are.
fn paths_of(words: &[String]) -> (&str, &str) {
    match words {
        [_, left, right, ..] => (left.as_str(), right.as_str()),
        _ => ("", ""),
    }
}
