//! A live client, from what it is asked to what it did.
ghost use Rattle.std.specs.Prelude.{◌≡◌, ◌⊎◌, ◌<◌, ◌≤◌, false, length, is_some, true, IfOk, OnErr, OnOk};
ghost use Rattle.std.specs.Io.KnownBytes.{IsAtEnd};
ghost use Rattle.link_io.specs.Causes.{Rose};
ghost use Rattle.link_io.specs.declared.why.Why.TheVariants.{Settled, Source as Read, Sink as Link, Store as Depot, InputLimit, JournalLimit};
ghost use Rattle.rpc_journal.specs.declared.entry.TheConstants.{MAX_ENTRIES};
ghost use Rattle.rpc_schedule.specs.declared.stream.TheConstants.{INPUT_LIMIT};
ghost use Rattle.rpc_shared.specs.session.Leaving.{HangsUp};
ghost use Rattle.rpc_shared.specs.session.Sessions.{is_halted};
ghost use Rattle.live_client.specs.Ask.{CanAsk, live_setting, method_asked};
ghost use Rattle.live_client.specs.Live.{AskRan, Begins, Explains, IsLiveHistory};

use crate::ask::{Live, LiveAsk};
use crate::calls::{call, watch};
use crate::transfers::{get, put};
use link_io::{Clock, Sink, Source, Store};
use std::alloc::{AllocError, Global};
use std::sync::Wait;
use std::thread::Threads;

/// Does what it is asked over one link, in one call: it fetches a resource into the store, sends one, or keeps the
/// messages of a call. A reader in a thread of its own feeds the input; the caller's thread drives the call and writes.
/// Once the task has ended and all is written, the sink is told that nothing more comes; the client ends with its
/// input. Where the reader's thread can't be made the table is halted for want of memory. A fault of the source and the
/// limit of 67,108,864 bytes end the input, and the call still ends; a fault of the sink or the store, a full journal
/// and want of memory halt the table. A client that is halted tells its sink at once that nothing more comes, so that
/// the other end meets the end of its input and closes.
///
/// # Errors
///
/// `AllocError` where there was no memory to begin; nothing was read then. Later want of memory is `Why::Memory`.
pub fn live<
    R: Threads + Wait + Sync,
    I: Source + Send,
    O: Sink + Send,
    S: Store + Send,
    C: Clock + Send,
>(
    rt: &R,
    alloc: Global,
    link_in: &mut I,
    link_out: &mut O,
    store: &mut S,
    clock: &mut C,
    ask: LiveAsk,
) -> Result<Live, AllocError>
    requires ask { CanAsk ask }
    requires open { O.finished link_out.old ≡ false }
    ensures history { IfOk result (λ l. IsLiveHistory ask l.why l.journal.entries) }
    ensures begins { IfOk result (λ l. Begins (method_asked ask) (I.left link_in.old) (I.left link_in.new) (O.written link_out.old) (O.written link_out.new) (S.holds store.old) (S.holds store.new) l.read l.journal.entries) }
    ensures explains { IfOk result (λ l. is_halted (live_setting (method_asked ask)) l.journal.entries ≡ false →
        Explains (method_asked ask) (I.left link_in.old) (I.left link_in.new) (O.written link_out.old) (O.written link_out.new) (S.holds store.old) (S.holds store.new) l.read l.journal.entries) }
    ensures ran { IfOk result (λ l. AskRan ask (C.last clock.old) (C.last clock.new) l) }
    ensures ended { IfOk result (λ l. is_halted (live_setting (method_asked ask)) l.journal.entries ≡ false → is_some l.ended ≡ true) }
    ensures finished { IfOk result (λ l. is_halted (live_setting (method_asked ask)) l.journal.entries ≡ false → O.finished link_out.new ≡ true) }
    ensures hangs_up { OnOk result (HangsUp (O.finished link_out.new) (O.faults link_out.old) (O.faults link_out.new)) }
    ensures at_end { IfOk result (λ l. l.why ≡ Settled → IsAtEnd (I.left link_in.new)) }
    ensures at_limit { IfOk result (λ l. l.why ≡ InputLimit → l.read ≡ INPUT_LIMIT) }
    ensures below { IfOk result (λ l. (l.why ≡ Settled) ⊎ (l.why ≡ Read) → l.read < INPUT_LIMIT) }
    ensures full { IfOk result (λ l. l.why ≡ JournalLimit → MAX_ENTRIES ≤ length l.journal.entries) }
    ensures source { IfOk result (λ l. l.why ≡ Read → Rose (I.faults link_in.old) (I.faults link_in.new)) }
    ensures sink { IfOk result (λ l. l.why ≡ Link → Rose (O.faults link_out.old) (O.faults link_out.new)) }
    ensures store { IfOk result (λ l. l.why ≡ Depot → Rose (S.faults store.old) (S.faults store.new)) }
    ensures later { (I.faults link_in.old ≤ I.faults link_in.new) × (O.faults link_out.old ≤ O.faults link_out.new) × (S.faults store.old ≤ S.faults store.new) }
    ensures clock { C.last clock.old ≤ C.last clock.new }
    ensures untouched { OnErr result ((link_in.new ≡ link_in.old) × (link_out.new ≡ link_out.old) × (store.new ≡ store.old) × (clock.new ≡ clock.old)) }
{
    match ask {
        LiveAsk::Get { resource, offset } => get(
            rt, alloc, link_in, link_out, store, clock, resource, offset,
        ),
        LiveAsk::Put {
            resource,
            offset,
            bytes,
        } => put(
            rt, alloc, link_in, link_out, store, clock, resource, offset, bytes,
        ),
        LiveAsk::Watch { n, limit } => watch(rt, alloc, link_in, link_out, store, clock, n, limit),
        LiveAsk::Call {
            opening,
            limit,
            within,
        } => call(
            rt, alloc, link_in, link_out, store, clock, opening, limit, within,
        ),
    }
}
