//! A table goes to another thread and comes back.
ghost use Rattle.std.specs.Prelude.{◌≡◌};

use super::letters::Letter;
use super::server_steps::server_behind;
use super::steps::Method::*;
use super::steps::Step::*;
use super::steps::{GOES_ON, ITS_LETTER, Step};
use super::taking::take_all;
use rpc_calls::Calls;
use rpc_journal::StartRefused;
use std::test::Fail;
use std::thread::join;

// The table after a tick.
fn ticked(mut calls: Calls<Letter>) -> (Calls<Letter>, Result<(), StartRefused>)
    ensures { result.0.setting ≡ calls.setting }
{
    let told = calls.tick(1, 500);
    (calls, told)
}

const ONE_CALL: &[Step] = &[Opens(Chat, 0)];

const BEHIND_THE_TICK: &[Step] = &[Counts(1), Waits(0, 2), Runs(None), Sends(ITS_LETTER)];

#[test]
fn a_table_works_on_two_threads(rt: HostRuntime) -> Result<(), Fail> {
    let calls = server_behind(&rt, rt.alloc(), GOES_ON, ONE_CALL)?;
    let (back, ()) = join(&rt, move || ticked(calls), || ());
    let (mut calls, told) = back;
    assert_eq!(rt; told, Ok(()));
    take_all(&rt, rt.alloc(), &mut calls, BEHIND_THE_TICK);
    Ok(())
}
