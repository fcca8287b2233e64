//! The command `call`: a client opens a call of any method, says what it has to say, and the board's messages are written.
ghost use Rattle.std.specs.Prelude.{◌≡◌, ◌≢◌, ℕ, ◌≤◌, ◌⊎◌, false, List, Option, IfOk, length, map, string_bytes};
ghost use Rattle.link_io.specs.Causes.{Rose};
ghost use Rattle.live_client.specs.Ask.{CanOpen};
ghost use Rattle.live_client.specs.declared.ask.Opening.{Opening as Opened};
ghost use Rattle.pw_run.specs.declared.outcome.Outcome.TheVariants.{BadWords, LinkFault, SinkFault, SourceFault, StoreFault};
ghost use Rattle.pw_run.specs.CallCommand.{CanCall, DidCall, FitsKind, TellEach, TellsOpening, messages_of as told_messages, request_of};
ghost use Rattle.pw_run.specs.Devices.{devices};
ghost use Rattle.pw_run.specs.Outcome.{IsSilent};

use crate::Outcome;
use crate::call_words::CallWords;
use crate::client::ask_over_link;
use crate::client_text::Reported;
use crate::payload::read_payload;
use bytes::Bytes;
use link_io::{Clock, Linker, Sink, Store};
use live_client::{LiveAsk, MAX_MESSAGES, Messages, Opening};
use rpc_ids::{Kind, Role};
use rpc_journal::streams_out;
use std::alloc::{AllocError, Global};
use std::sync::Wait;
use std::thread::Threads;

/// Connects to the path, opens the call that the words tell, and writes what came of it.
#[tactic(auto, using(crate::proofs::CallLemmas::limit_fits))]
pub(crate) fn call<R: Threads + Wait + Sync, O: Sink, S: Store + Send, N: Linker, C: Clock + Send>(
    rt: &R,
    alloc: Global,
    words: CallWords<'_>,
    output: &mut O,
    store: &mut S,
    net: &mut N,
    clock: &mut C,
) -> Outcome
    requires can { CanCall words }
    requires open { O.finished output.old ≡ false }
    ensures words { result ≢ BadWords }
    ensures did { (left : Option (List ℕ)) (opening : Opened) → TellsOpening words.entry opening → DidCall opening words.entry.limit words.entry.within
        (devices left (O.written output.old) (O.faults output.old) (S.holds store.old) (N.links net.old) (C.last clock.old))
        (devices left (O.written output.new) (O.faults output.new) (S.holds store.new) (N.links net.new) (C.last clock.new)) result }
    ensures silent { IsSilent result → output.new ≡ output.old }
    ensures source { result ≡ SourceFault → Rose (N.links net.old).in_faults (N.links net.new).in_faults }
    ensures sink { result ≡ SinkFault →
        Rose (N.links net.old).out_faults (N.links net.new).out_faults ⊎ Rose (O.faults output.old) (O.faults output.new) }
    ensures store { result ≡ StoreFault → Rose (S.faults store.old) (S.faults store.new) }
    ensures linker { result ≡ LinkFault → Rose (N.links net.old).faults (N.links net.new).faults }
    ensures linker_later { (N.links net.old).faults ≤ (N.links net.new).faults }
    ensures sink_later { O.faults output.old ≤ O.faults output.new }
    ensures store_later { S.faults store.old ≤ S.faults store.new }
{
    let Ok(opening) = opening_of(alloc, words) else {
        return Outcome::NoMemory;
    };
    let ask = LiveAsk::Call {
        opening,
        limit: words.limit.unwrap_or(MAX_MESSAGES),
        within: words.within,
    };
    ask_over_link(
        rt,
        alloc,
        words.path,
        Reported::Messages,
        ask,
        output,
        store,
        net,
        clock,
    )
}

// The opening that the words tell.
#[tactic(auto, using(crate::proofs::CallLemmas::can_open, crate::proofs::CallLemmas::opening_same))]
fn opening_of(alloc: Global, words: CallWords<'_>) -> Result<Opening, AllocError>
    requires { CanCall words }
    ensures can { IfOk result CanOpen }
    ensures only { IfOk result (λ opening. (other : Opened) → TellsOpening words.entry other → opening ≡ other) }
{
    let (payload, messages) = said_of(alloc, words.kind, words.payloads)?;
    Ok(Opening {
        service: words.service,
        method: words.method,
        kind: words.kind,
        payload,
        messages,
    })
}

// The payload of the request, and the messages, of which there are some only where the client streams them.
fn said_of(alloc: Global, kind: Kind, words: &[String]) -> Result<(Bytes, Messages), AllocError>
    requires { (told : List (List ℕ)) × TellEach (map string_bytes words.now) told × FitsKind kind (length told) }
    ensures { IfOk result (λ said. (told : List (List ℕ)) → TellEach (map string_bytes words.now) told → (said.0 ≡ request_of kind told) × (said.1 ≡ told_messages kind told)) }
{
    if streams_out(Role::Client, kind) {
        return Ok((Bytes::new(), messages_of(alloc, words)?));
    }
    Ok((
        read_payload(alloc, words[0].as_str())?,
        Messages::new(alloc),
    ))
}

// The messages that these words tell.
fn messages_of(alloc: Global, words: &[String]) -> Result<Messages, AllocError>
    requires { (told : List (List ℕ)) × TellEach (map string_bytes words.now) told }
    ensures { IfOk result (λ messages. (told : List (List ℕ)) → TellEach (map string_bytes words.now) told → messages ≡ told) }
{
    let mut messages = Messages::new(alloc);
    for word in words {
        messages.push(read_payload(alloc, word.as_str())?)?;
    }
    Ok(messages)
}
