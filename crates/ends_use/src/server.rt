//! A server whose handlers want memory for a while, and one that closes a channel.
ghost use mathlib.Core.Bool.{false≢true};
ghost use Rattle.std.specs.Prelude.{◌≡◌, [], Some, None, false, if◌then◌else◌};
ghost use Rattle.rpc_handlers.specs.HandlerRule.{empty_memo};
ghost use Rattle.rpc_ids.specs.declared.status.Status.TheVariants.{Okay};

mod closing;

use crate::checks::{fact_is, number_is, took};
use bytes::Bytes;
use rpc_calls::Calls;
use rpc_channel::Channels;
use rpc_handlers::{Acts, Answer, End, Event, Handler, Maker, Memo, Outs, Parts, Words};
use rpc_ids::{Kind, MethodRef, Registry, Status};
use rpc_journal::{Journal, StartRefused};
use rpc_server::Server;
use std::alloc::{AllocError, Global};
use std::cell::Cell;
use std::process::Abort;
use std::rc::Rc;
use std::test::Fail;

// A REQUEST of Echo with payload `abc` on channel 1, call 1.
const ECHO_ABC: &[u8] =
    b"\x7E\xA5\x03\x10\x01\x1D\xFB\x5C\xF4\x70\x25\xE9\x0E\x47\x8B\x2A\x03\x61\x62\x63\x38\x01\x03\xED\xCE\x63\x7E";

// Channel 1 alone.
fn channel_one(alloc: Global) -> Result<Channels, Fail> {
    let mut channels = Channels::new(alloc);
    channels.add(1)?;
    Ok(channels)
}

// Ends its call at the first event, or answers nothing, where memory is said to be there.
#[derive(Drop)]
struct Sparing {
    alloc: Global,
    ends: bool,
    has_memory: Rc<Cell<bool>>,
}

fn no_memo(alloc: Global) -> Memo
    ensures { result ≡ empty_memo }
{
    Memo {
        words: Words::new(alloc),
        parts: Parts::new(alloc),
    }
}

impl Acts for Sparing {
    ghost can_act = { λ _. Unit {0} };

    ghost now = { λ _. empty_memo };

    ghost gives = { λ s _. record { items = []; end = (if s.ends then Some (record { status = Okay; payload = [] }) else None) } };

    ghost moves = { λ _ _. empty_memo };

    fn on(&mut self, ev: &Event) -> Result<Answer, AllocError> {
        let _ = ev;
        if !self.has_memory.get() {
            return Err(AllocError);
        }
        let end = if self.ends {
            Some(End {
                status: Status::Okay,
                payload: Bytes::new(),
            })
        } else {
            None
        };
        Ok(Answer {
            items: Outs::new(self.alloc),
            end,
        })
    }

    fn memo(&self) -> Result<Memo, AllocError> {
        Ok(no_memo(self.alloc))
    }
}

impl Handler for Sparing {
    ghost rule = { record { ruled = false; answer = λ _ _. record { items = []; end = Some (record { status = Okay; payload = [] }) }; next = λ _ _. empty_memo; first = λ _ _. empty_memo } };

    ghost answers_by_rule = { λ ruled. absurd (false≢true ruled) };

    ghost moves_by_rule = { λ ruled. absurd (false≢true ruled) };
}

#[derive(Drop)]
struct SparingMaker {
    alloc: Global,
    ends: bool,
    has_memory: Rc<Cell<bool>>,
}

impl Maker for SparingMaker {
    type H = Sparing;

    ghost seed_memo = { λ _. empty_memo };

    fn seed(&self) -> Result<Memo, AllocError> {
        Ok(no_memo(self.alloc))
    }

    fn make(&self, m: MethodRef) -> Result<Sparing, AllocError> {
        let _ = m;
        Ok(Sparing {
            alloc: self.alloc,
            ends: self.ends,
            has_memory: Rc::clone(&self.has_memory)?,
        })
    }
}

// A server of Echo on channel 1, whose handlers want memory until it is said to be there.
fn open_sparing(alloc: Global, has_memory: &Rc<Cell<bool>>) -> Result<Server<SparingMaker>, Fail> {
    let maker = SparingMaker {
        alloc,
        ends: true,
        has_memory: Rc::clone(has_memory)?,
    };
    let mut registry = Registry::new(alloc);
    registry.add(b"demo.Demo", b"Echo", Kind::Unary, false)?;
    Ok(Server::new(alloc, channel_one(alloc)?, registry, maker)?)
}

// All of a piece is fed. The server must be idle, and its input must not have ended.
fn feeds(rt: &impl Abort, server: &mut Server<SparingMaker>, piece: &[u8]) {
    assert!(rt; server.idle());
    assert!(rt; !server.calls().input_ended());
    took(rt, server.feed(piece), piece.len());
}

// The server works once, with this answer.
fn works(rt: &impl Abort, server: &mut Server<SparingMaker>, want: Result<bool, StartRefused>) {
    assert_eq!(rt; server.work(), want);
}

// Whether the server has nothing to do.
fn idles(rt: &impl Abort, server: &Server<SparingMaker>, want: bool) {
    fact_is(rt, server.idle(), want);
}

// Whether something goes out next.
fn sends(rt: &impl Abort, server: &mut Server<SparingMaker>, want: bool) {
    fact_is(rt, server.next_out().is_some(), want);
}

// The journal has so many entries.
fn length_is(rt: &impl Abort, journal: &Journal, want: u64) {
    number_is(rt, journal.len(), want);
}

// This call, which must be there, has ended so, or lives.
fn status_is(rt: &impl Abort, calls: &Calls<Sparing>, call: u32, want: Option<Status>) {
    assert!(rt; call < calls.count());
    assert_eq!(rt; calls.status(call), want);
}

// The handler wants memory. The Start stands from the first try on.
fn wants_memory(rt: &impl Abort, server: &mut Server<SparingMaker>) {
    works(rt, server, Err(StartRefused::Memory));
    length_is(rt, server.calls().journal(), 2);
    idles(rt, server, false);
    sends(rt, server, false);
}

// The call waits for memory as long as there is none.
fn waits_for_memory(rt: &impl Abort, server: &mut Server<SparingMaker>) {
    feeds(rt, server, b"");
    feeds(rt, server, ECHO_ABC);
    idles(rt, server, false);
    wants_memory(rt, server);
    wants_memory(rt, server);
}

// Memory is there: the call is run, and its answer goes out.
fn answers(rt: &impl Abort, server: &mut Server<SparingMaker>) {
    works(rt, server, Ok(true));
    idles(rt, server, true);
    works(rt, server, Ok(false));
    sends(rt, server, true);
}

#[test]
fn a_run_that_wants_memory_is_kept(rt: HostRuntime) -> Result<(), Fail> {
    let has_memory = Rc::new(rt.alloc(), Cell::new(false))?;
    let mut server = open_sparing(rt.alloc(), &has_memory)?;
    waits_for_memory(&rt, &mut server);
    has_memory.set(true);
    answers(&rt, &mut server);
    server.tick(500)?;
    length_is(&rt, &server.into_calls().into_journal(), 5);
    Ok(())
}

#[test]
fn a_kept_run_is_let_go(rt: HostRuntime) -> Result<(), Fail> {
    let has_memory = Rc::new(rt.alloc(), Cell::new(false))?;
    let mut server = open_sparing(rt.alloc(), &has_memory)?;
    feeds(&rt, &mut server, ECHO_ABC);
    works(&rt, &mut server, Err(StartRefused::Memory));
    let calls = server.into_calls();
    status_is(&rt, &calls, 0, None);
    length_is(&rt, calls.journal(), 2);
    Ok(())
}
