//! A replay with a server that hears no packet.
ghost use Rattle.std.specs.Prelude.{◌≡◌, ◌<◌, true, false, [], ◌∷◌, None, IfOk, if◌then◌else◌};
ghost use Rattle.rpc_journal.specs.declared.entry.EntryKind.TheVariants as kind;
ghost use Rattle.rpc_journal.specs.History.{entry_by};
ghost use Rattle.rpc_journal.specs.Items.{arrivals};

use link_io::{Failed, Fulls, MemSource, MemStore, Source};
use rpc_channel::Channels;
use rpc_handlers::{Memo, Parts, Words};
use rpc_ids::{Registry, Role};
use rpc_journal::{Entry, EntryKind, Item, Journal, Setting, StartRefused};
use rpc_schedule::*;
use std::alloc::{AllocError, Global};
use std::process::Abort;

// A server with no channel and no method, and without ears: its journal has the end of the input at most.
#[derive(Drop)]
struct Deaf {
    setting: Setting,
    journal: Journal,
    ended: bool,
    ghost told: { journal.entries ≡ (if ended then entry_by 0 kind.EndIn ∷ [] else []) },
    ghost room: { ended ≡ false → 0 < journal.spare },
}

impl Deaf {
    fn new(alloc: Global) -> Result<Deaf, AllocError>
        ensures { IfOk result (λ d. d.journal.entries ≡ []) }
    {
        let mut journal = Journal::new(alloc);
        journal.reserve(1)?;
        let setting = Setting {
            role: Role::Server,
            channels: Channels::new(alloc),
            registry: Registry::new(alloc),
            seed: Memo {
                words: Words::new(alloc),
                parts: Parts::new(alloc),
            },
        };
        Ok(Deaf {
            setting,
            journal,
            ended: false,
        })
    }
}

impl Serves for Deaf {
    ghost use Rattle.std.specs.Prelude.{◌≡◌, [], None, true};
    ghost use Rattle.std.proofs.Common.{arith, sym};
    ghost use Rattle.std.proofs.lemmas.Bool.{true≢false};
    ghost use Rattle.rpc_handlers.specs.HandlerRule.{empty_memo};
    ghost use Rattle.rpc_journal.specs.Items.{arrivals};

    ghost seen = { λ d. record { table = record { setting = d.setting; entries = d.journal.entries }; kept = None; refused = None } };

    ghost rule = { record { ruled = true; answer = λ state event. record { items = []; end = None }; next = λ state event. state; first = λ seed method. empty_memo } };

    ghost heard = { λ bytes. [] };

    ghost stands = { λ d bytes. arrivals d.journal.entries ≡ [] };

    ghost arrived = { λ d bytes stands. record { all = λ accepts. sym stands; but_one = λ refused. absurd (true≢false (sym refused)) } };

    ghost more_heard = { λ s t. omega arith };

    fn feed(&mut self, piece: &[u8]) -> Result<usize, StartRefused> {
        Ok(piece.len())
    }

    fn work(&mut self) -> Result<bool, StartRefused> {
        Ok(false)
    }

    fn end_in(&mut self) {
        self.journal.push(Entry {
            seat: 0,
            kind: EntryKind::EndIn,
        });
        self.ended = true;
    }

    fn next_out(&mut self) -> Option<Item> {
        None
    }

    fn idle(&self) -> bool {
        true
    }
}

// A source of so many bytes.
#[derive(Drop)]
struct Silence {
    left: usize,
}

impl Source for Silence {
    ghost use Rattle.std.specs.Prelude.{None};

    ghost left = { λ s. None };

    ghost faults = { λ s. 0 };

    fn read(&mut self, buf: &mut [u8]) -> Result<usize, Failed> {
        let count = buf.len().min(self.left);
        self.left -= count;
        Ok(count)
    }
}

fn empty_store(alloc: Global) -> Result<MemStore, AllocError> {
    MemStore::new(alloc, Fulls::new(alloc), Fulls::new(alloc), Vec::new(alloc))
}

fn ending_of<I: Source>(alloc: Global, input: &mut I) -> Result<Ending, AllocError> {
    let mut store = empty_store(alloc)?;
    let mut server = Deaf::new(alloc)?;
    let mut items = Vec::new(alloc);
    replay(&mut server, input, &mut store, &mut items)
}

// The input, the number of the read that fails, and the ending.
const ENDS: &[(&str, u64, Ending)] = &[
    ("", 9, Ending::AtEnd),
    ("abc", 9, Ending::AtEnd),
    ("abc", 1, Ending::SourceFault),
    ("abc", 2, Ending::SourceFault),
];

// A source of these bytes, of which one read fails.
fn source(alloc: Global, content: &str, fails: u64) -> Result<MemSource, AllocError> {
    let bytes = Vec::from_slice(alloc, content.as_bytes())?;
    Ok(MemSource::new(bytes, vec![in alloc; fails]?))
}

fn ends(rt: &impl Abort, alloc: Global, row: &(&str, u64, Ending)) -> Result<(), AllocError> {
    let (content, fails, ending) = *row;
    let mut source = source(alloc, content, fails)?;
    let ended = ending_of(alloc, &mut source)?;
    assert_eq!(rt; ended, ending, "{content}, {fails}");
    Ok(())
}

#[test]
fn a_stream_ends_as_its_source_does(rt: HostRuntime) -> Result<(), AllocError> {
    for row in ENDS {
        ends(&rt, rt.alloc(), row)?;
    }
    Ok(())
}

// How many bytes the source has, the ending, and how many bytes are left.
const LIMITS: &[(usize, Ending, usize)] = &[
    (67_108_863, Ending::AtEnd, 0),
    (67_108_864, Ending::InputLimit, 0),
    (67_108_869, Ending::InputLimit, 5),
];

// So many bytes are left of so many.
fn left_is(rt: &impl Abort, bytes: usize, left: usize, want: usize) {
    assert_eq!(rt; left, want, "{bytes} bytes");
}

fn ends_by_limit(
    rt: &impl Abort,
    alloc: Global,
    row: &(usize, Ending, usize),
) -> Result<(), AllocError> {
    let (bytes, ending, left) = *row;
    let mut source = Silence { left: bytes };
    let ended = ending_of(alloc, &mut source)?;
    assert_eq!(rt; ended, ending, "{bytes} bytes");
    left_is(rt, bytes, source.left, left);
    Ok(())
}

#[test]
fn no_more_is_read_than_the_limit(rt: HostRuntime) -> Result<(), AllocError> {
    for row in LIMITS {
        ends_by_limit(&rt, rt.alloc(), row)?;
    }
    Ok(())
}
