//! A client's table behind the lock.
ghost use Rattle.std.specs.Prelude.{◌≡◌, [], false, IfOk};
ghost use Rattle.rpc_handlers.specs.Limits.{is_long_out};
ghost use Rattle.rpc_ids.specs.declared.method.Role.TheVariants.{Client};
ghost use Rattle.rpc_shared.specs.Helpers.{IsSeat};

use super::claims::letter_is;
use super::desk::share;
use super::letters::{Letter, Letters};
use bytes::Bytes;
use rpc_calls::{Calls, InvokeRefused, SayRefused};
use rpc_channel::Channels;
use rpc_handlers::{Maker, Nobody, Out};
use rpc_ids::{Kind, MethodRef, Registry, Role};
use rpc_packet::CallName;
use rpc_shared::{Pass, Shared};
use std::alloc::Global;
use std::process::Abort;
use std::sync::Wait;
use std::test::Fail;

// A client's table without a call, and the one method that it knows.
fn open_client(alloc: Global) -> Result<(Calls<Letter>, MethodRef), Fail>
    ensures role { IfOk result (λ made. made.0.setting.role ≡ Client) }
    ensures empty { IfOk result (λ made. made.0.entries ≡ []) }
{
    let mut channels = Channels::new(alloc);
    channels.add(1)?;
    let mut registry = Registry::new(alloc);
    let count = registry.add(b"demo.Demo", b"Count", Kind::ServerStream, true)?;
    let nobody: Nobody<Letter> = Nobody::new(alloc);
    let seed = nobody.seed()?;
    let calls = Calls::new(alloc, Role::Client, channels, registry, seed)?;
    Ok((calls, count))
}

// Opens call 1 of this method with payload `03`.
fn invoke<R: Abort + Wait>(
    rt: &R,
    shared: &Shared<Letter>,
    pass: &mut Pass<Letter>,
    method: MethodRef,
    letter: Letter,
) -> Result<u32, (Letter, InvokeRefused)>
    requires role { shared.now.base.role ≡ Client }
    requires seat { IsSeat shared.now pass.old }
    ensures seat { IsSeat shared.now pass.new }
{
    let name = CallName {
        channel: 1,
        service: method.service,
        method: method.method,
        call: 1,
    };
    assert!(rt; name.service != 0);
    assert!(rt; name.method != 0);
    shared.invoke(rt, pass, name, Bytes::from_static(b"\x03"), letter)
}

// Says this of a call, which must be there.
fn say<R: Abort + Wait>(
    rt: &R,
    shared: &Shared<Letter>,
    pass: &mut Pass<Letter>,
    call: u32,
    out: Out,
) -> Result<(), SayRefused>
    requires short { is_long_out out ≡ false }
    requires seat { IsSeat shared.now pass.old }
    ensures seat { IsSeat shared.now pass.new }
{
    let look = shared.look(rt, pass);
    assert!(rt; call < look.calls);
    shared.say(rt, pass, call, out)
}

// The client ends its stream of this call, which must be there.
fn done<R: Abort + Wait>(
    rt: &R,
    shared: &Shared<Letter>,
    pass: &mut Pass<Letter>,
    call: u32,
) -> Result<(), SayRefused>
    requires role { shared.now.base.role ≡ Client }
    requires seat { IsSeat shared.now pass.old }
    ensures seat { IsSeat shared.now pass.new }
{
    let look = shared.look(rt, pass);
    assert!(rt; call < look.calls);
    shared.done(rt, pass, call)
}

fn letter_out() -> Out
    ensures { is_long_out result ≡ false }
{
    Out::Say(Bytes::from_static(b"a"))
}

// The letter is said of a call, with this answer.
fn says<R: Abort + Wait>(
    rt: &R,
    shared: &Shared<Letter>,
    pass: &mut Pass<Letter>,
    call: u32,
    want: Result<(), SayRefused>,
)
    requires seat { IsSeat shared.now pass.old }
    ensures seat { IsSeat shared.now pass.new }
{
    assert_eq!(rt; say(rt, shared, pass, call, letter_out()), want);
}

// The client ends its stream of a call, with this answer.
fn completes<R: Abort + Wait>(
    rt: &R,
    shared: &Shared<Letter>,
    pass: &mut Pass<Letter>,
    call: u32,
    want: Result<(), SayRefused>,
)
    requires role { shared.now.base.role ≡ Client }
    requires seat { IsSeat shared.now pass.old }
    ensures seat { IsSeat shared.now pass.new }
{
    assert_eq!(rt; done(rt, shared, pass, call), want);
}

// The handler came back with this letter, since call 0 is live.
fn is_live(rt: &impl Abort, back: (Letter, InvokeRefused), letter: u8) {
    let (handler, refusal) = back;
    letter_is(rt, &handler, letter);
    assert_eq!(rt; refusal, InvokeRefused::Live(0));
}

#[test]
fn a_name_is_live_once_and_its_stream_ends_once(rt: HostRuntime) -> Result<(), Fail> {
    let letters = Letters::new(rt.alloc(), b'c', false)?;
    let (calls, count) = open_client(rt.alloc())?;
    let (shared, mut passes) = share(&rt, rt.alloc(), calls);
    let first = letters.make_other(b'f')?;
    let opened = invoke(&rt, &shared, &mut passes.worker, count, first);
    assert!(rt; matches!(opened, Ok(0)));
    let second = letters.make_other(b's')?;
    match invoke(&rt, &shared, &mut passes.other, count, second) {
        Ok(_) => panic!(rt; "two calls of one name"),
        Err(back) => is_live(&rt, back, b's'),
    }
    says(
        &rt,
        &shared,
        &mut passes.worker,
        0,
        Err(SayRefused::NoStream),
    );
    completes(&rt, &shared, &mut passes.worker, 0, Ok(()));
    completes(
        &rt,
        &shared,
        &mut passes.other,
        0,
        Err(SayRefused::Completed),
    );
    Ok(())
}
