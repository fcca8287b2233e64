//! A client of three methods on channel 1, whose handlers answer nothing.
ghost use mathlib.Core.Bool.{false≢true};
ghost use Rattle.std.specs.Prelude.{◌≡◌, [], None, false, IfOk};
ghost use Rattle.rpc_handlers.specs.HandlerRule.{empty_memo};
ghost use Rattle.rpc_ids.specs.declared.method.Role.TheVariants.{Client as client_role};

use crate::checks::{fact_is, is_sent, took};
use bytes::Bytes;
use rpc_channel::Channels;
use rpc_client::Client;
use rpc_handlers::{Acts, Answer, Event, Handler, Memo, Out, Outs, Parts, Words};
use rpc_ids::{Kind, MethodRef, Registry, Status};
use rpc_journal::{InvokeRefused, SayRefused, StartRefused};
use rpc_packet::{CallName, PacketType};
use std::alloc::{AllocError, Global};
use std::process::Abort;
use std::test::Fail;

/// Answers nothing, and ends no call.
#[derive(Drop)]
pub struct Quiet {
    pub alloc: Global,
}

impl Acts for Quiet {
    ghost can_act = { λ _. Unit {0} };

    ghost now = { λ _. empty_memo };

    ghost gives = { λ _ _. record { items = []; end = None } };

    ghost moves = { λ _ _. empty_memo };

    fn on(&mut self, ev: &Event) -> Result<Answer, AllocError> {
        let _ = ev;
        Ok(Answer {
            items: Outs::new(self.alloc),
            end: None,
        })
    }

    fn memo(&self) -> Result<Memo, AllocError> {
        Ok(Memo {
            words: Words::new(self.alloc),
            parts: Parts::new(self.alloc),
        })
    }
}

impl Handler for Quiet {
    ghost rule = { record { ruled = false; answer = λ _ _. record { items = []; end = None }; next = λ _ _. empty_memo; first = λ _ _. empty_memo } };

    ghost answers_by_rule = { λ ruled. absurd (false≢true ruled) };

    ghost moves_by_rule = { λ ruled. absurd (false≢true ruled) };
}

/// The methods that the client knows.
#[derive(Clone, Copy)]
pub struct Methods {
    pub echo: MethodRef,
    pub count: MethodRef,
    pub chat: MethodRef,
}

/// A client without a call.
pub fn open_client(alloc: Global) -> Result<(Client<Quiet>, Methods), Fail>
    ensures role { IfOk result (λ made. made.0.serving.table.setting.role ≡ client_role) }
{
    let mut channels = Channels::new(alloc);
    channels.add(1)?;
    let mut registry = Registry::new(alloc);
    let methods = Methods {
        echo: registry.add(b"demo.Demo", b"Echo", Kind::Unary, false)?,
        count: registry.add(b"demo.Demo", b"Count", Kind::ServerStream, true)?,
        chat: registry.add(b"demo.Demo", b"Chat", Kind::Bidi, false)?,
    };
    let client = Client::new(alloc, channels, registry)?;
    Ok((client, methods))
}

/// Opens call 1 of a method with payload `03`.
pub fn invoke(
    rt: &impl Abort,
    client: &mut Client<Quiet>,
    alloc: Global,
    method: MethodRef,
) -> Result<u32, InvokeRefused>
    requires { client.old.serving.table.setting.role ≡ client_role }
    ensures { client.new.serving.table.setting ≡ client.old.serving.table.setting }
{
    let name = CallName {
        channel: 1,
        service: method.service,
        method: method.method,
        call: 1,
    };
    assert!(rt; name.service != 0);
    assert!(rt; name.method != 0);
    match client.invoke(name, Bytes::from_static(b"\x03"), Quiet { alloc }) {
        Ok(call) => Ok(call),
        Err((_, refusal)) => Err(refusal),
    }
}

/// Ends the stream of this call, which must be there.
pub fn done(rt: &impl Abort, client: &mut Client<Quiet>, call: u32) -> Result<(), SayRefused>
    requires { client.old.serving.table.setting.role ≡ client_role }
    ensures { client.new.serving.table.setting ≡ client.old.serving.table.setting }
{
    assert!(rt; call < client.calls().count());
    client.done(call)
}

/// Feeds a frame. The client must be idle, and its input must not have ended.
pub fn feed(
    rt: &impl Abort,
    client: &mut Client<Quiet>,
    frame: &[u8],
) -> Result<usize, StartRefused> {
    assert!(rt; client.idle());
    assert!(rt; !client.calls().input_ended());
    client.feed(frame)
}

/// The client asks for call 1 of a method, with this answer.
pub fn invokes(
    rt: &impl Abort,
    client: &mut Client<Quiet>,
    alloc: Global,
    method: MethodRef,
    want: Result<u32, InvokeRefused>,
)
    requires { client.old.serving.table.setting.role ≡ client_role }
    ensures { client.new.serving.table.setting ≡ client.old.serving.table.setting }
{
    assert_eq!(rt; invoke(rt, client, alloc, method), want);
}

// What was said of a call has this answer.
fn answers(rt: &impl Abort, answer: Result<(), SayRefused>, want: Result<(), SayRefused>) {
    assert_eq!(rt; answer, want);
}

/// A message of call 0, which must be there, is said with this answer.
pub fn says(rt: &impl Abort, client: &mut Client<Quiet>, want: Result<(), SayRefused>)
    ensures { client.new.serving.table.setting ≡ client.old.serving.table.setting }
{
    assert!(rt; 0 < client.calls().count());
    let answer = client.say(0, Out::Say(Bytes::from_static(b"a")));
    answers(rt, answer, want);
}

/// The client ends the stream of call 0, which must be there, with this answer.
pub fn completes(rt: &impl Abort, client: &mut Client<Quiet>, want: Result<(), SayRefused>)
    requires { client.old.serving.table.setting.role ≡ client_role }
    ensures { client.new.serving.table.setting ≡ client.old.serving.table.setting }
{
    let answer = done(rt, client, 0);
    answers(rt, answer, want);
}

/// All of a frame is fed.
pub fn feeds(rt: &impl Abort, client: &mut Client<Quiet>, frame: &[u8]) {
    took(rt, feed(rt, client, frame), frame.len());
}

/// This goes out next.
pub fn sends(rt: &impl Abort, client: &mut Client<Quiet>, want: Option<(PacketType, Status)>) {
    is_sent(rt, client.next_out(), want);
}

/// Whether the client has nothing to do.
pub fn idles(rt: &impl Abort, client: &Client<Quiet>, want: bool) {
    fact_is(rt, client.idle(), want);
}
