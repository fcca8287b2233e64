//! The commands `get`, `put` and `watch`: a client does over a link what it is asked.
ghost use Rattle.std.specs.Prelude.{◌≡◌, ◌≢◌, ℕ, ◌≤◌, ◌⊎◌, false, List, Option, Ok, IfOk, IfErr};
ghost use Rattle.link_io.specs.Causes.{Rose};
ghost use Rattle.link_io.specs.Resources.{first_of};
ghost use Rattle.live_client.specs.Ask.{CanAsk};
ghost use Rattle.run_report.specs.declared.live_report.LiveLine.TheVariants.{Put};
ghost use Rattle.pw_run.specs.declared.client.AskRefused.TheVariants.{Unfit};
ghost use Rattle.pw_run.specs.declared.outcome.Outcome.TheVariants.{BadWords, LinkFault, SinkFault, SourceFault, StoreFault};
ghost use Rattle.pw_run.specs.Client.{AsksOverLink, DidClient, DoesFoundOrNothing, RefusesAs, asked, sent};
ghost use Rattle.pw_run.specs.ClientCommand.{IsBounded};
ghost use Rattle.pw_run.specs.Devices.{devices};
ghost use Rattle.pw_run.specs.Outcome.{IsSilent};

use crate::client_text::{Reported, write_alone, write_client, write_unlisted};
use crate::{ClientCommand, Outcome};
use link_io::{Clock, Linker, Shelf, Sink, Store, StoreRefused};
use live_client::{LiveAsk, live};
use rpc_ids::Status;
use run_report::LiveLine;
use std::alloc::{AllocError, Global};
use std::sync::Wait;
use std::thread::Threads;
use transfer_base::MAX_RESOURCE;

/// Why a client isn't asked anything.
#[derive(Clone, Copy, Debug, PartialEq, Eq)]
pub enum AskRefused {
    /// The store has no such resource, or it is too long. This is told of it.
    Unfit(LiveLine),
    /// There was no memory.
    Memory,
}

impl From<AllocError> for AskRefused {
    ghost use Rattle.pw_run.specs.declared.client.AskRefused.TheVariants.{Memory};

    ghost from_gives = { λ _ e. e ≡ Memory };

    fn from(_: AllocError) -> AskRefused {
        AskRefused::Memory
    }
}

/// Lists the store, connects to a path, does over the link what the command asks, gives the link back and writes what came of it. Of
/// a `put` whose resource isn't there, or is too long, no link is made.
pub(crate) fn client<
    R: Threads + Wait + Sync,
    O: Sink,
    S: Store + Send,
    N: Linker,
    C: Clock + Send,
>(
    rt: &R,
    alloc: Global,
    path: &str,
    command: ClientCommand,
    output: &mut O,
    store: &mut S,
    net: &mut N,
    clock: &mut C,
) -> Outcome
    requires bounded { IsBounded command }
    requires open { O.finished output.old ≡ false }
    ensures words { result ≢ BadWords }
    ensures did { (left : Option (List ℕ)) → DidClient command
        (devices left (O.written output.old) (O.faults output.old) (S.holds store.old) (N.links net.old) (C.last clock.old))
        (devices left (O.written output.new) (O.faults output.new) (S.holds store.new) (N.links net.new) (C.last clock.new)) result }
    ensures silent { IsSilent result → output.new ≡ output.old }
    ensures source { result ≡ SourceFault → Rose (N.links net.old).in_faults (N.links net.new).in_faults }
    ensures sink { result ≡ SinkFault →
        Rose (N.links net.old).out_faults (N.links net.new).out_faults ⊎ Rose (O.faults output.old) (O.faults output.new) }
    ensures store { result ≡ StoreFault → Rose (S.faults store.old) (S.faults store.new) }
    ensures linker { result ≡ LinkFault → Rose (N.links net.old).faults (N.links net.new).faults }
    ensures linker_later { (N.links net.old).faults ≤ (N.links net.new).faults }
    ensures sink_later { O.faults output.old ≤ O.faults output.new }
    ensures store_later { S.faults store.old ≤ S.faults store.new }
{
    match store.list() {
        Ok(shelf) => client_over(rt, alloc, path, command, &shelf, output, store, net, clock),
        Err(StoreRefused::Failed) => write_unlisted(alloc, output),
        Err(StoreRefused::Memory) => Outcome::NoMemory,
    }
}

// Does what the command asks over this shelf.
fn client_over<R: Threads + Wait + Sync, O: Sink, S: Store + Send, N: Linker, C: Clock + Send>(
    rt: &R,
    alloc: Global,
    path: &str,
    command: ClientCommand,
    shelf: &Shelf,
    output: &mut O,
    store: &mut S,
    net: &mut N,
    clock: &mut C,
) -> Outcome
    requires bounded { IsBounded command }
    requires open { O.finished output.old ≡ false }
    ensures words { result ≢ BadWords }
    ensures did { (left : Option (List ℕ)) → DoesFoundOrNothing command (asked command shelf.now)
        (devices left (O.written output.old) (O.faults output.old) (S.holds store.old) (N.links net.old) (C.last clock.old))
        (devices left (O.written output.new) (O.faults output.new) (S.holds store.new) (N.links net.new) (C.last clock.new)) result }
    ensures silent { IsSilent result → output.new ≡ output.old }
    ensures source { result ≡ SourceFault → Rose (N.links net.old).in_faults (N.links net.new).in_faults }
    ensures sink { result ≡ SinkFault →
        Rose (N.links net.old).out_faults (N.links net.new).out_faults ⊎ Rose (O.faults output.old) (O.faults output.new) }
    ensures store { result ≡ StoreFault → Rose (S.faults store.old) (S.faults store.new) }
    ensures linker { result ≡ LinkFault → Rose (N.links net.old).faults (N.links net.new).faults }
    ensures linker_later { (N.links net.old).faults ≤ (N.links net.new).faults }
    ensures sink_later { O.faults output.old ≤ O.faults output.new }
    ensures store_later { S.faults store.old ≤ S.faults store.new }
{
    match ask_of(command, shelf) {
        Ok(ask) => ask_over_link(
            rt,
            alloc,
            path,
            Reported::Line(command),
            ask,
            output,
            store,
            net,
            clock,
        ),
        Err(AskRefused::Unfit(line)) => write_alone(alloc, line, output),
        Err(AskRefused::Memory) => Outcome::NoMemory,
    }
}

// What a client is asked by a command, over this shelf.
fn ask_of(command: ClientCommand, shelf: &Shelf) -> Result<LiveAsk, AskRefused>
    requires { IsBounded command }
    ensures ok { IfOk result (λ ask. asked command shelf.now ≡ Ok ask) }
    ensures can { IfOk result CanAsk }
    ensures err { IfErr result (RefusesAs (asked command shelf.now)) }
{
    match command {
        ClientCommand::Get { resource, offset } => {
            let there = shelf.left.get(resource).unwrap_or(0);
            Ok(LiveAsk::Get {
                resource,
                offset: offset.min(there),
            })
        }
        ClientCommand::Put { resource, offset } => sent(resource, offset, shelf),
        ClientCommand::Watch { number, limit } => Ok(LiveAsk::Watch { n: number, limit }),
    }
}

// The resource to be sent, where it is there and isn't too long.
fn sent(resource: u32, offset: u64, shelf: &Shelf) -> Result<LiveAsk, AskRefused>
    ensures ok { IfOk result (λ ask. sent resource offset (first_of resource shelf.now.full) ≡ Ok ask) }
    ensures can { IfOk result CanAsk }
    ensures err { IfErr result (RefusesAs (sent resource offset (first_of resource shelf.now.full))) }
{
    let Some(bytes) = shelf.full.get(resource) else {
        return Err(unfit(resource, 0, Status::NotFound));
    };
    let length = bytes.len() as u64;
    let offset = offset.min(length);
    if length > MAX_RESOURCE {
        return Err(unfit(resource, offset, Status::OutOfRange));
    }
    Ok(LiveAsk::Put {
        resource,
        offset,
        bytes: bytes.clone()?,
    })
}

fn unfit(resource: u32, from: u64, status: Status) -> AskRefused
    ensures { result ≡ Unfit (Put resource from status 0) }
{
    AskRefused::Unfit(LiveLine::Put {
        resource,
        from,
        status,
        length: 0,
    })
}

/// Connects to a path, has the client do what it is asked, gives the ends back and writes what came of it.
pub(crate) fn ask_over_link<
    R: Threads + Wait + Sync,
    O: Sink,
    S: Store + Send,
    N: Linker,
    C: Clock + Send,
>(
    rt: &R,
    alloc: Global,
    path: &str,
    reported: Reported,
    ask: LiveAsk,
    output: &mut O,
    store: &mut S,
    net: &mut N,
    clock: &mut C,
) -> Outcome
    requires can { CanAsk ask }
    requires open { O.finished output.old ≡ false }
    ensures words { result ≢ BadWords }
    ensures did { (left : Option (List ℕ)) → AsksOverLink reported ask
        (devices left (O.written output.old) (O.faults output.old) (S.holds store.old) (N.links net.old) (C.last clock.old))
        (devices left (O.written output.new) (O.faults output.new) (S.holds store.new) (N.links net.new) (C.last clock.new)) result }
    ensures silent { IsSilent result → output.new ≡ output.old }
    ensures source { result ≡ SourceFault → Rose (N.links net.old).in_faults (N.links net.new).in_faults }
    ensures sink { result ≡ SinkFault →
        Rose (N.links net.old).out_faults (N.links net.new).out_faults ⊎ Rose (O.faults output.old) (O.faults output.new) }
    ensures store { result ≡ StoreFault → Rose (S.faults store.old) (S.faults store.new) }
    ensures linker { result ≡ LinkFault → Rose (N.links net.old).faults (N.links net.new).faults }
    ensures linker_later { (N.links net.old).faults ≤ (N.links net.new).faults }
    ensures sink_later { O.faults output.old ≤ O.faults output.new }
    ensures store_later { S.faults store.old ≤ S.faults store.new }
{
    let Ok((mut link_in, mut link_out)) = net.connect(path) else {
        return Outcome::LinkFault;
    };
    let done = live(rt, alloc, &mut link_in, &mut link_out, store, clock, ask);
    net.back(link_in, link_out);
    match done {
        Err(_) => Outcome::NoMemory,
        Ok(done) => write_client(alloc, reported, &done, output),
    }
}
