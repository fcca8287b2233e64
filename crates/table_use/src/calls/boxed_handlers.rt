//! A client's table whose handlers are boxed objects.
ghost use Rattle.std.specs.Prelude.{◌≡◌, [], None, IfOk};
ghost use Rattle.rpc_ids.specs.declared.method.Role.TheVariants.{Client};

use super::letters::Letter;
use bytes::Bytes;
use rpc_calls::Calls;
use rpc_channel::Channels;
use rpc_handlers::{Acts, Answer, Event, Handler, Maker, Memo, Nobody, Outs, Parts, Words};
use rpc_ids::{Kind, Registry, Role};
use rpc_packet::CallName;
use std::alloc::{AllocError, Global};
use std::process::Abort;
use std::test::Fail;

// A client's table without a call, and a name of one.
fn open_client<H: Handler>(alloc: Global) -> Result<(Calls<H>, CallName), Fail>
    ensures { IfOk result (λ made. made.0.setting.role ≡ Client) }
{
    let mut channels = Channels::new(alloc);
    channels.add(1)?;
    let mut registry = Registry::new(alloc);
    let method = registry.add(b"demo.Demo", b"Chat", Kind::Bidi, false)?;
    let nobody: Nobody<H> = Nobody::new(alloc);
    let seed = nobody.seed()?;
    let calls = Calls::new(alloc, Role::Client, channels, registry, seed)?;
    let name = CallName {
        channel: 1,
        service: method.service,
        method: method.method,
        call: 1,
    };
    Ok((calls, name))
}

// A call is opened with the first handler, which the second replaces. Gives the state of the one that comes back.
fn replaced<H: Handler>(rt: &impl Abort, alloc: Global, first: H, second: H) -> Result<Memo, Fail>
    requires first { H.can_act first }
    requires second { H.can_act second }
{
    let (mut calls, name) = open_client(alloc)?;
    assert!(rt; name.channel != 0);
    assert!(rt; name.service != 0);
    assert!(rt; name.method != 0);
    let Ok(call) = calls.invoke(2, name, Bytes::new(), first) else {
        panic!(rt; "refused")
    };
    let Ok(Some(old)) = calls.replace(2, call, second) else {
        panic!(rt; "no handler")
    };
    Ok(old.memo()?)
}

fn letter(alloc: Global, letter: u8) -> Letter {
    Letter {
        alloc,
        letter,
        ends: false,
    }
}

#[test]
fn a_boxed_handler_is_replaced_and_comes_back(rt: HostRuntime) -> Result<(), Fail> {
    let alloc = rt.alloc();
    let first: Box<dyn Acts + Send> = Box::new(alloc, letter(alloc, b'a'))?;
    let second: Box<dyn Acts + Send> = Box::new(alloc, letter(alloc, b'b'))?;
    let memo = replaced(&rt, alloc, first, second)?;
    let Some(part) = memo.parts.as_slice().first() else {
        panic!(rt; "no part")
    };
    assert_eq!(rt; part.as_slice(), b"a".as_slice());
    Ok(())
}

// Says nothing, and its call goes on.
#[derive(Drop)]
struct Mute {
    alloc: Global,
}

impl Acts for Mute {
    ghost can_act = { λ _. Unit {0} };

    ghost now = { λ _. record { words = []; parts = [] } };

    ghost gives = { λ _ _. record { items = []; end = None } };

    ghost moves = { λ _ _. record { words = []; parts = [] } };

    fn on(&mut self, ev: &Event) -> Result<Answer, AllocError> {
        let _ = ev;
        Ok(Answer {
            items: Outs::new(self.alloc),
            end: None,
        })
    }

    fn memo(&self) -> Result<Memo, AllocError> {
        Ok(Memo {
            words: Words::new(self.alloc),
            parts: Parts::new(self.alloc),
        })
    }
}

#[test]
fn a_boxed_handler_is_replaced_by_one_of_another_type(rt: HostRuntime) -> Result<(), Fail> {
    let alloc = rt.alloc();
    let first: Box<dyn Acts + Send> = Box::new(alloc, letter(alloc, b'a'))?;
    let second: Box<dyn Acts + Send> = Box::new(alloc, Mute { alloc })?;
    let memo = replaced(&rt, alloc, first, second)?;
    let Some(part) = memo.parts.as_slice().first() else {
        panic!(rt; "no part")
    };
    assert_eq!(rt; part.as_slice(), b"a".as_slice());
    Ok(())
}
