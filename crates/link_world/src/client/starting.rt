//! How commands start at the client.
ghost use Rattle.std.specs.Prelude.{◌≡◌, ℕ, ◌+◌, ◌<◌, ◌≤◌, ◌^◌, true, List, [], ◌++◌, length, Some, IfErr, IfOk, IfSome, OnOk, unwrap_or};
ghost use Rattle.link_io.specs.Resources.{found};
ghost use Rattle.link_script.specs.declared.command.Command.TheVariants.{Read, Write};
ghost use Rattle.rpc_ids.specs.declared.method.Role.TheVariants.{Client as client_role};
ghost use Rattle.rpc_journal.specs.Calls.{call_count};
ghost use Rattle.rpc_journal.specs.Items.{items_waiting};
ghost use Rattle.rpc_schedule.specs.Serving.{deeds};
ghost use Rattle.rpc_schedule.specs.Settling.{IsOrderly};
ghost use Rattle.rpc_schedule.specs.ends.EndState.{WasFed};
ghost use Rattle.transfer_base.specs.declared.limits.TheConstants.{MAX_RESOURCE};
ghost use Rattle.link_laws.specs.transfers_fit.Fits.{AreSmall};
ghost use Rattle.link_laws.specs.world.Starts.{adding_stops, starts};
ghost use Rattle.link_laws.specs.world.Setup.{client_setting};
ghost use Rattle.link_laws.specs.world.World.{Setup, World};
ghost use Rattle.link_world.specs.client.Asking.{HasBegun, ClientAdds, IsAsked, IsClientOf};
ghost use Rattle.link_world.specs.client.ClientSide.{IsNumbered};
ghost use Rattle.link_world.specs.client.Underway.{call_seen, last_poll};

use crate::client::asking::{ask_call, ask_stream, transfer_call};
use crate::client::quiet::Quiet;
use crate::client::speaker::Speaker;
use crate::client::transfer_task::Way;
use crate::client::under::{Plain, Under};
use crate::server::{Stopped, WorldStore};
use bytes::Bytes;
use demo_services::ids;
use link_script::Command;
use rpc_client::Client;
use std::alloc::Global;
use transfer_base::Tuning;
use transfer_client::{ReadTask, WriteTask};

/// The client's owner adds what a command starts with. Answers what is under way then.
pub(crate) fn begin(
    alloc: Global,
    client: &mut Client<Quiet>,
    store: &WorldStore,
    command: &Command,
    sessions: &mut u32,
    tuning: Tuning,
) -> Result<Under, Stopped>
    requires setting { client.old.serving.table.setting ≡ client_setting }
    requires orderly { IsOrderly client.old.serving }
    requires numbered { IsNumbered (deeds client.old.serving) }
    requires asked { IsAsked command.now }
    requires room { sessions.old + 1 < 2 ^ 32 }
    requires small { AreSmall store.now.full }
    ensures begins { IfOk result (λ way. (k : Setup) (w : World) (at : ℕ) → IsClientOf k w (record { end = client.old; stored = store.now; items = []; events = [] }) sessions.old tuning at → HasBegun k w (command.now) client.new.serving.table.entries way sessions.new) }
    ensures adds { OnOk result (ClientAdds client.old.serving client.new.serving.table.entries client.new.serving) }
    ensures there { IfOk result (λ way. IfSome (call_seen (Some way)) (λ c. c < call_count (deeds client.new.serving))) }
    ensures unpolled { IfOk result (λ way. last_poll (Some way) ≡ 0) }
    ensures few { OnOk result (items_waiting (deeds client.new.serving) ≤ items_waiting (deeds client.old.serving) + 8002) }
    ensures full { IfErr result (λ why. why ≡ Stopped.Journal → (k : Setup) (w : World) (at : ℕ) → IsClientOf k w (record { end = client.old; stored = store.now; items = []; events = [] }) sessions.old tuning at → adding_stops (starts k w (command.now)).adds w.client ≡ true) }
    ensures fed { OnOk result ((bytes : List ℕ) → WasFed client_role client.old bytes → WasFed client_role client.new bytes) }
{
    match command {
        Command::Read(resource, offset) => {
            begin_read(alloc, client, store, *resource, *offset, sessions, tuning)
        }
        Command::Write(resource, offset) => {
            begin_write(alloc, client, store, *resource, *offset, sessions, tuning)
        }
        Command::Echo(bytes) => {
            match ask_call(alloc, client, Plain::Echo, bytes.clone()?) {
                Ok(call) => Ok(Under::Calling(Plain::Echo, call)),
                Err(stopped) => Err(stopped),
            }
        }
        Command::Count(number) => {
            let payload = Bytes::copy_from_slice(alloc, &[*number as u8])?;
            match ask_call(alloc, client, Plain::Count, payload) {
                Ok(call) => Ok(Under::Calling(Plain::Count, call)),
                Err(stopped) => Err(stopped),
            }
        }
        Command::Sum(bytes) => {
            match ask_stream(alloc, client, Plain::Sum, bytes.as_slice()) {
                Ok(call) => Ok(Under::Calling(Plain::Sum, call)),
                Err(stopped) => Err(stopped),
            }
        }
        Command::Chat(bytes) => {
            match ask_stream(alloc, client, Plain::Chat, bytes.as_slice()) {
                Ok(call) => Ok(Under::Calling(Plain::Chat, call)),
                Err(stopped) => Err(stopped),
            }
        }
        // The server closes channels.
        Command::Close(_) => unreachable!(),
    }
}

// A read asks from what is left of the resource at the client on, or from the offset, where that is less.
#[tactic(auto, unfolding(rpc_ids::specs::Names::name_id))]
fn begin_read(
    alloc: Global,
    client: &mut Client<Quiet>,
    store: &WorldStore,
    resource: u32,
    offset: u64,
    sessions: &mut u32,
    tuning: Tuning,
) -> Result<Under, Stopped>
    requires setting { client.old.serving.table.setting ≡ client_setting }
    requires orderly { IsOrderly client.old.serving }
    requires numbered { IsNumbered (deeds client.old.serving) }
    requires offset { offset ≤ MAX_RESOURCE }
    requires room { sessions.old + 1 < 2 ^ 32 }
    ensures begins { IfOk result (λ way. (k : Setup) (w : World) (at : ℕ) → IsClientOf k w (record { end = client.old; stored = store.now; items = []; events = [] }) sessions.old tuning at → HasBegun k w (Read resource offset) client.new.serving.table.entries way sessions.new) }
    ensures adds { OnOk result (ClientAdds client.old.serving client.new.serving.table.entries client.new.serving) }
    ensures there { IfOk result (λ way. IfSome (call_seen (Some way)) (λ c. c < call_count (deeds client.new.serving))) }
    ensures unpolled { IfOk result (λ way. last_poll (Some way) ≡ 0) }
    ensures few { OnOk result (items_waiting (deeds client.new.serving) ≤ items_waiting (deeds client.old.serving) + 1) }
    ensures full { IfErr result (λ why. why ≡ Stopped.Journal → (k : Setup) (w : World) (at : ℕ) → IsClientOf k w (record { end = client.old; stored = store.now; items = []; events = [] }) sessions.old tuning at → adding_stops (starts k w (Read resource offset)).adds w.client ≡ true) }
    ensures fed { OnOk result ((bytes : List ℕ) → WasFed client_role client.old bytes → WasFed client_role client.new bytes) }
{
    let session = *sessions + 1;
    let from = offset.min(left_length(store, resource));
    let way = Way::Read(ReadTask::new(alloc, session, resource, from, tuning));
    let call = match transfer_call(alloc, client, ids::READ) {
        Ok(call) => call,
        Err(stopped) => return Err(stopped),
    };
    let speaker = Speaker::new(alloc, call, session, resource, way)?;
    *sessions = session;
    Ok(Under::Transferring(speaker))
}

// A write asks from the offset on, or from the end of the resource.
#[tactic(auto, unfolding(rpc_ids::specs::Names::name_id))]
fn begin_write(
    alloc: Global,
    client: &mut Client<Quiet>,
    store: &WorldStore,
    resource: u32,
    offset: u64,
    sessions: &mut u32,
    tuning: Tuning,
) -> Result<Under, Stopped>
    requires setting { client.old.serving.table.setting ≡ client_setting }
    requires orderly { IsOrderly client.old.serving }
    requires numbered { IsNumbered (deeds client.old.serving) }
    requires room { sessions.old + 1 < 2 ^ 32 }
    requires small { AreSmall store.now.full }
    ensures begins { IfOk result (λ way. (k : Setup) (w : World) (at : ℕ) → IsClientOf k w (record { end = client.old; stored = store.now; items = []; events = [] }) sessions.old tuning at → HasBegun k w (Write resource offset) client.new.serving.table.entries way sessions.new) }
    ensures adds { OnOk result (ClientAdds client.old.serving client.new.serving.table.entries client.new.serving) }
    ensures there { IfOk result (λ way. IfSome (call_seen (Some way)) (λ c. c < call_count (deeds client.new.serving))) }
    ensures unpolled { IfOk result (λ way. last_poll (Some way) ≡ 0) }
    ensures few { OnOk result (items_waiting (deeds client.new.serving) ≤ items_waiting (deeds client.old.serving) + 1) }
    ensures full { IfErr result (λ why. why ≡ Stopped.Journal → (k : Setup) (w : World) (at : ℕ) → IsClientOf k w (record { end = client.old; stored = store.now; items = []; events = [] }) sessions.old tuning at → adding_stops (starts k w (Write resource offset)).adds w.client ≡ true) }
    ensures fed { OnOk result ((bytes : List ℕ) → WasFed client_role client.old bytes → WasFed client_role client.new bytes) }
{
    let Some(bytes) = store.full(resource) else {
        return Ok(Under::Lacking(resource));
    };
    let length = bytes.len() as u64;
    let session = *sessions + 1;
    let task = WriteTask::new(alloc, session, resource, bytes.clone()?, offset.min(length));
    let call = match transfer_call(alloc, client, ids::WRITE) {
        Ok(call) => call,
        Err(stopped) => return Err(stopped),
    };
    let speaker = Speaker::new(alloc, call, session, resource, Way::Write(task))?;
    *sessions = session;
    Ok(Under::Transferring(speaker))
}

// How much is left of a resource, in bytes.
fn left_length(store: &WorldStore, resource: u32) -> u64
    ensures { result ≡ length (unwrap_or (found resource store.now.left) []) }
{
    match store.left(resource) {
        Some(bytes) => bytes.len() as u64,
        None => 0,
    }
}
