//! A handler of a stored closure, asked here and on another thread.
ghost use Rattle.std.specs.Prelude.{◌≡◌, [], ◌∷◌, ◌++◌, IfOk, None};

use bytes::Bytes;
use rpc_handlers::*;
use rpc_ids::{Kind, MethodRef};
use std::alloc::{AllocError, Global};
use std::process::Abort;
use std::test::Fail;
use std::thread::join;

/// Counts the events: each adds a word to the state. It answers nothing.
#[derive(Drop)]
struct CountsEvents;

impl Rule for CountsEvents {
    ghost answer = { λ _ _. record { items = []; end = None } };

    ghost next = { λ m _. record m { words = m.words ++ 1 ∷ [] } };

    ghost first = { λ seed _. seed };
}

fn count_event(alloc: Global, m: &Memo) -> Result<(Answer, Memo), AllocError>
    ensures { IfOk result (λ given. (given.0.items ≡ []) × (given.0.end ≡ None) × (given.1 ≡ record m.now { words = m.now.words ++ 1 ∷ [] })) }
{
    let mut next = m.clone()?;
    next.words.push(1)?;
    let answer = Answer {
        items: Outs::new(alloc),
        end: None,
    };
    Ok((answer, next))
}

// Asks once more, and gives the state.
fn ask_again<H: Acts>(handler: H) -> Result<Memo, AllocError>
    requires { H.can_act handler }
{
    let mut handler = handler;
    let _ = handler.on(&Event::Completion)?;
    handler.memo()
}

#[test]
fn a_stored_closure_is_asked_on_two_threads(rt: HostRuntime) -> Result<(), Fail> {
    let alloc = rt.alloc();
    let first = Memo {
        words: Words::new(alloc),
        parts: Parts::new(alloc),
    };
    let mut counter: Fun<_, CountsEvents> = Fun::new(
        move |m: &Memo, _ev: &Event| count_event(alloc, m),
        first,
    );
    assert!(rt; counter.on(&Event::Completion)?.end.is_none());
    let (memo, _) = join(&rt, move || ask_again(counter), || ());
    assert_eq!(rt; memo?.words.as_slice(), [1u64, 1].as_slice());
    Ok(())
}

fn has_so_many(rt: &impl Abort, count: usize, want: usize) {
    assert_eq!(rt; count, want);
}

#[test]
fn lists_and_makers_at_work(rt: HostRuntime) -> Result<(), Fail> {
    let alloc = rt.alloc();
    let mut outs = Outs::new(alloc);
    outs.push(Out::Say(Bytes::from_static(b"hi")))?;
    outs.push(Out::Commit { session: 1 })?;
    has_so_many(&rt, outs.clone()?.as_slice().len(), 2);
    let mut parts = Parts::new(alloc);
    parts.push(Bytes::from_static(b"part"))?;
    has_so_many(&rt, parts.as_slice().len(), 1);
    let nobody: Nobody<Fun<fn(&Memo, &Event) -> Result<(Answer, Memo), AllocError>, CountsEvents>> =
        Nobody::new(alloc);
    has_so_many(&rt, nobody.seed()?.words.as_slice().len(), 0);
    let method = MethodRef {
        service: 1,
        method: 2,
        kind: Kind::Unary,
        ticks: false,
    };
    assert!(rt; nobody.make(method).is_err());
    Ok(())
}
