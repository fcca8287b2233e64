//! Runs outside the lock, which another pass cancels or whose handler it replaces.
ghost use Rattle.rpc_shared.specs.Helpers.{IsSeat};

use super::claims::{came_back, counts_cancels, length_is, letter_is, runs_none_behind, told};
use super::desk::{arrives, close, next_item, open_table, opens, packet_on, sends, share};
use super::jobs::{begin, cancels, end, refused, replace, tries_to_cancel};
use super::letters::{Letter, Letters};
use rpc_calls::{Arrived, Cancelled, ReplaceRefused};
use rpc_ids::Status;
use rpc_journal::{Act, Item};
use rpc_packet::PacketType;
use rpc_shared::{Pass, Shared};
use std::process::Abort;
use std::sync::Wait;
use std::test::Fail;

const RUNNING: Cancelled = Cancelled::Running(Status::Cancelled, 2);

const QUIET: Cancelled = Cancelled::Quiet(Status::Cancelled);

// The store's work of a call is left next.
fn leaves<R: Abort + Wait>(rt: &R, shared: &Shared<Letter>, writer: &mut Pass<Letter>)
    requires seat { IsSeat shared.now writer.old }
    ensures seat { IsSeat shared.now writer.new }
{
    let item = next_item(rt, shared, writer);
    assert!(rt;
        matches!(
            item,
            Some(Item {
                act: Act::LeaveCall,
                ..
            })
        )
    );
}

// Nothing goes out next.
fn has_no_item<R: Abort + Wait>(rt: &R, shared: &Shared<Letter>, writer: &mut Pass<Letter>)
    requires seat { IsSeat shared.now writer.old }
    ensures seat { IsSeat shared.now writer.new }
{
    assert!(rt; next_item(rt, shared, writer).is_none());
}

#[test]
fn a_run_that_is_cancelled_gives_its_handler_back(rt: HostRuntime) -> Result<(), Fail> {
    let maker = Letters::new(rt.alloc(), b'a', false)?;
    let (calls, methods) = open_table(rt.alloc(), &maker)?;
    let (shared, mut passes) = share(&rt, rt.alloc(), calls);
    opens(&rt, &shared, &mut passes.reader, &maker, methods.chat);
    let running = begin(&rt, &shared, &mut passes.worker);
    cancels(&rt, &shared, &mut passes.other, 0, RUNNING);
    let sent = Some((PacketType::ServerError, Status::Cancelled));
    sends(&rt, &shared, &mut passes.writer, sent);
    let back = end(&rt, &shared, &mut passes.worker, running);
    came_back(&rt, back, Some(b'a'));
    leaves(&rt, &shared, &mut passes.writer);
    has_no_item(&rt, &shared, &mut passes.writer);
    cancels(&rt, &shared, &mut passes.other, 0, QUIET);
    let calls = close(&rt, rt.alloc(), shared, passes)?;
    // The request, the run's start and finish, the cancel and two flushes.
    let journal = calls.into_journal();
    length_is(&rt, &journal, 6);
    counts_cancels(&rt, &journal, 1);
    runs_none_behind(&rt, rt.alloc(), &journal);
    told(&rt, &maker, (1, 1));
    Ok(())
}

#[test]
fn a_spilled_run_is_on_for_good(rt: HostRuntime) -> Result<(), Fail> {
    let maker = Letters::new(rt.alloc(), b'a', false)?;
    let (calls, methods) = open_table(rt.alloc(), &maker)?;
    let (shared, mut passes) = share(&rt, rt.alloc(), calls);
    opens(&rt, &shared, &mut passes.reader, &maker, methods.chat);
    let running = begin(&rt, &shared, &mut passes.worker);
    tries_to_cancel(&rt, &shared, &mut passes.other, 0, RUNNING);
    let _ = running.spill();
    tries_to_cancel(&rt, &shared, &mut passes.other, 0, RUNNING);
    Ok(())
}

#[test]
fn a_cancelled_call_takes_no_other_handler(rt: HostRuntime) -> Result<(), Fail> {
    let maker = Letters::new(rt.alloc(), b'a', false)?;
    let (calls, methods) = open_table(rt.alloc(), &maker)?;
    let (shared, mut passes) = share(&rt, rt.alloc(), calls);
    opens(&rt, &shared, &mut passes.reader, &maker, methods.chat);
    cancels(&rt, &shared, &mut passes.other, 0, QUIET);
    let newer = maker.make_other(b'n')?;
    match shared.try_replace(&mut passes.other, 0, newer) {
        Ok(Err(back)) => refused(&rt, back, b'n', ReplaceRefused::Closed(Status::Cancelled)),
        Ok(Ok(_)) | Err(_) => panic!(rt; "it took another handler"),
    }
    Ok(())
}

#[test]
fn a_run_goes_on_with_its_own_handler_while_the_call_gets_another(
    rt: HostRuntime,
) -> Result<(), Fail> {
    let maker = Letters::new(rt.alloc(), b'a', false)?;
    let (calls, methods) = open_table(rt.alloc(), &maker)?;
    let (shared, mut passes) = share(&rt, rt.alloc(), calls);
    opens(&rt, &shared, &mut passes.reader, &maker, methods.chat);
    let newer = maker.make_other(b'n')?;
    let running = begin(&rt, &shared, &mut passes.worker);
    let replaced = replace(&rt, &shared, &mut passes.other, 0, newer);
    assert!(rt; matches!(replaced, Ok(None)));
    let back = end(&rt, &shared, &mut passes.worker, running);
    came_back(&rt, back, Some(b'a'));
    let message = packet_on(1, PacketType::ClientStream, methods.chat, 1);
    let queued = Ok(Arrived::Queued(0));
    arrives(&rt, &shared, &mut passes.reader, &maker, &message, queued);
    let next = begin(&rt, &shared, &mut passes.worker);
    letter_is(&rt, &next.spill(), b'n');
    Ok(())
}
