//! What the client adds as a command starts.
ghost use Rattle.std.specs.Prelude.{◌≡◌, ◌≢◌, ℕ, ◌+◌, ◌<◌, ◌≤◌, ◌&&◌, ◌==◌, is_none, true, false, List, [], ◌∷◌, ◌++◌, length, slice_get, IfErr, IfOk, IfSome, OnOk, Some};
ghost use Rattle.demo_services.specs.Methods.{demo_id, demo_methods, transfer_id};
ghost use Rattle.rpc_handlers.specs.Limits.{is_long, is_long_out};
ghost use Rattle.rpc_handlers.specs.HandlerRule.{empty_memo};
ghost use Rattle.rpc_ids.specs.Names.{name_id};
ghost use Rattle.rpc_ids.specs.Registry.{method_of};
ghost use Rattle.rpc_ids.specs.declared.method.MethodRef.{MethodRef};
ghost use Rattle.rpc_ids.specs.declared.method.Role.TheVariants.{Client as client_role};
ghost use Rattle.rpc_journal.specs.declared.entry.EntryKind.TheVariants.{Done, Say};
ghost use Rattle.rpc_journal.specs.Calls.{call_count};
ghost use Rattle.rpc_journal.specs.History.{adding};
ghost use Rattle.rpc_journal.specs.Items.{items_waiting};
ghost use Rattle.rpc_schedule.specs.Schedule.{run_seat};
ghost use Rattle.rpc_schedule.specs.Serving.{deeds};
ghost use Rattle.rpc_schedule.specs.Settling.{IsOrderly};
ghost use Rattle.rpc_schedule.specs.ends.EndState.{WasFed};
ghost use Rattle.rpc_journal.specs.Refusals.{is_full};
ghost use Rattle.rpc_journal.specs.Rows.{method_named};
ghost use Rattle.link_laws.specs.world.Starts.{adding_stops, all_added, live_transfers, next_name, opens_with, request};
ghost use Rattle.link_laws.specs.world.Setup.{client_setting};
ghost use Rattle.link_laws.specs.one_run.Speaking.{IsSpeaking, opening_by};
ghost use Rattle.link_world.specs.client.Asking.{CanSpeak, ClientAdds, adds_by, call_by, has_stream, byte_messages, method_id};
ghost use Rattle.link_world.specs.client.ClientSide.{IsNumbered};

use crate::client::quiet::Quiet;
use crate::client::under::Plain;
use crate::server::Stopped;
use bytes::Bytes;
use demo_services::ids;
use rpc_calls::{InvokeRefused, SayRefused};
use rpc_client::Client;
use rpc_handlers::Out;
use rpc_ids::Status;
use rpc_packet::CallName;
use std::alloc::Global;

// The channel of all calls.
const CHANNEL: u32 = 1;

/// Opens a call of a method of the demo service, with this payload. Answers its number.
#[tactic(auto, unfolding(rpc_ids::specs::Names::name_id))]
pub(crate) fn ask_call(
    alloc: Global,
    client: &mut Client<Quiet>,
    plain: Plain,
    payload: Bytes,
) -> Result<u32, Stopped>
    requires setting { client.old.serving.table.setting ≡ client_setting }
    requires orderly { IsOrderly client.old.serving }
    requires numbered { IsNumbered (deeds client.old.serving) }
    requires short { is_long payload ≡ false }
    ensures call { IfOk result (λ c. c ≡ call_count (deeds client.old.serving)) }
    ensures there { IfOk result (λ c. c < call_count (deeds client.new.serving)) }
    ensures adds { OnOk result (ClientAdds client.old.serving (adding client.old.serving.table.entries run_seat (opens_with demo_id (method_id plain) payload (deeds client.old.serving))) client.new.serving) }
    ensures few { OnOk result (items_waiting (deeds client.new.serving) ≤ items_waiting (deeds client.old.serving) + 1) }
    ensures speaks { IfOk result (λ c. has_stream plain ≡ true → CanSpeak client.new.serving c) }
    ensures full { IfErr result (λ why. why ≡ Stopped.Journal → is_full client.old.serving.table.entries ≡ true) }
    ensures fed { (bytes : List ℕ) → WasFed client_role client.old bytes → WasFed client_role client.new bytes }
{
    open(alloc, client, ids::DEMO, method_of(plain), payload)
}

/// Opens a call of a method of the demo service, sends each of these bytes as a message, and ends its stream.
pub(crate) fn ask_stream(
    alloc: Global,
    client: &mut Client<Quiet>,
    plain: Plain,
    bytes: &[u8],
) -> Result<u32, Stopped>
    requires setting { client.old.serving.table.setting ≡ client_setting }
    requires orderly { IsOrderly client.old.serving }
    requires numbered { IsNumbered (deeds client.old.serving) }
    requires streams { has_stream plain ≡ true }
    ensures call { IfOk result (λ c. c ≡ call_count (deeds client.old.serving)) }
    ensures there { IfOk result (λ c. c < call_count (deeds client.new.serving)) }
    ensures adds { IfOk result (λ c. ClientAdds client.old.serving (all_added (opens_with demo_id (method_id plain) [] (deeds client.old.serving) ∷ (byte_messages c bytes.now ++ Done c ∷ [])) client.old.serving.table.entries) client.new.serving) }
    ensures few { OnOk result (items_waiting (deeds client.new.serving) ≤ items_waiting (deeds client.old.serving) + (length bytes.now + 2)) }
    ensures full { IfErr result (λ why. why ≡ Stopped.Journal → adding_stops (opens_with demo_id (method_id plain) [] (deeds client.old.serving) ∷ (byte_messages (call_count (deeds client.old.serving)) bytes.now ++ Done (call_count (deeds client.old.serving)) ∷ [])) client.old.serving.table.entries ≡ true) }
    ensures fed { (bytes : List ℕ) → WasFed client_role client.old bytes → WasFed client_role client.new bytes }
{
    let call = match ask_call(alloc, client, plain, Bytes::new()) {
        Ok(call) => call,
        Err(stopped) => return Err(stopped),
    };
    match send_all(alloc, client, call, bytes) {
        Ok(()) => {}
        Err(stopped) => return Err(stopped),
    }
    match complete(client, call) {
        Ok(()) => Ok(call),
        Err(stopped) => Err(stopped),
    }
}

/// The first live call of a method of the transfer service, or else a new one.
#[tactic(auto, unfolding(rpc_ids::specs::Names::name_id))]
pub(crate) fn transfer_call(
    alloc: Global,
    client: &mut Client<Quiet>,
    method: u32,
) -> Result<u32, Stopped>
    requires setting { client.old.serving.table.setting ≡ client_setting }
    requires orderly { IsOrderly client.old.serving }
    requires numbered { IsNumbered (deeds client.old.serving) }
    requires method { method ≢ 0 }
    requires known { is_none (method_of demo_methods transfer_id method) ≡ false }
    ensures call { IfOk result (λ c. c ≡ call_by (live_transfers method (deeds client.old.serving)) (call_count (deeds client.old.serving))) }
    ensures there { IfOk result (λ c. c < call_count (deeds client.new.serving)) }
    ensures adds { OnOk result (ClientAdds client.old.serving (all_added (adds_by (live_transfers method (deeds client.old.serving)) (opens_with transfer_id method [] (deeds client.old.serving))) client.old.serving.table.entries) client.new.serving) }
    ensures few { OnOk result (items_waiting (deeds client.new.serving) ≤ items_waiting (deeds client.old.serving) + 1) }
    ensures full { IfErr result (λ why. why ≡ Stopped.Journal → adding_stops (adds_by (live_transfers method (deeds client.old.serving)) (opens_with transfer_id method [] (deeds client.old.serving))) client.old.serving.table.entries ≡ true) }
    ensures fed { (bytes : List ℕ) → WasFed client_role client.old bytes → WasFed client_role client.new bytes }
{
    match live_call(client, method) {
        Some(call) => Ok(call),
        None => open(alloc, client, ids::TRANSFER, method, Bytes::new()),
    }
}

// Opens a call on channel 1, with the next call id.
fn open(
    alloc: Global,
    client: &mut Client<Quiet>,
    service: u32,
    method: u32,
    payload: Bytes,
) -> Result<u32, Stopped>
    requires setting { client.old.serving.table.setting ≡ client_setting }
    requires orderly { IsOrderly client.old.serving }
    requires numbered { IsNumbered (deeds client.old.serving) }
    requires service { service ≢ 0 }
    requires method { method ≢ 0 }
    requires known { is_none (method_of demo_methods service method) ≡ false }
    requires short { is_long payload ≡ false }
    ensures call { IfOk result (λ c. c ≡ call_count (deeds client.old.serving)) }
    ensures there { IfOk result (λ c. c < call_count (deeds client.new.serving)) }
    ensures adds { OnOk result (ClientAdds client.old.serving (adding client.old.serving.table.entries run_seat (opens_with service method payload (deeds client.old.serving))) client.new.serving) }
    ensures few { OnOk result (items_waiting (deeds client.new.serving) ≤ items_waiting (deeds client.old.serving) + 1) }
    ensures speaks { IfOk result (λ c. (m : MethodRef) → method_named client.old.serving.table.setting (next_name service method (deeds client.old.serving)) ≡ Some m → IsSpeaking (deeds client.new.serving) c (opening_by (request (next_name service method (deeds client.old.serving)) payload) m empty_memo)) }
    ensures full { IfErr result (λ why. why ≡ Stopped.Journal → is_full client.old.serving.table.entries ≡ true) }
    ensures fed { (bytes : List ℕ) → WasFed client_role client.old bytes → WasFed client_role client.new bytes }
{
    // There are no more calls than entries, so the journal is full long before.
    let Some(id) = client.calls().count().checked_add(1) else {
        return Err(Stopped::Journal);
    };
    let name = CallName {
        channel: CHANNEL,
        service,
        method,
        call: id,
    };
    match client.invoke(name, payload, Quiet { alloc }) {
        Ok(call) => Ok(call),
        Err((_, refused)) => match refused {
            InvokeRefused::JournalFull => Err(Stopped::Journal),
            InvokeRefused::Memory => Err(Stopped::Memory),
            // The channel is open, the method is known, and no call has this id.
            _ => unreachable!(),
        },
    }
}

// Sends each of these bytes as a message of a call.
fn send_all(
    alloc: Global,
    client: &mut Client<Quiet>,
    call: u32,
    bytes: &[u8],
) -> Result<(), Stopped>
    requires setting { client.old.serving.table.setting ≡ client_setting }
    requires orderly { IsOrderly client.old.serving }
    requires there { call < call_count (deeds client.old.serving) }
    requires speaks { CanSpeak client.old.serving call }
    ensures speaks { OnOk result (CanSpeak client.new.serving call) }
    ensures adds { OnOk result (ClientAdds client.old.serving (all_added (byte_messages call bytes.now) client.old.serving.table.entries) client.new.serving) }
    ensures full { IfErr result (λ why. why ≡ Stopped.Journal → adding_stops (byte_messages call bytes.now) client.old.serving.table.entries ≡ true) }
    ensures fed { (bytes : List ℕ) → WasFed client_role client.old bytes → WasFed client_role client.new bytes }
{
    'bytes: for byte in bytes {
        match send(client, call, Bytes::copy_from_slice(alloc, &[*byte])?) {
            Ok(()) => {}
            Err(stopped) => return Err(stopped),
        }
    }
    Ok(())
}

// Sends a message of a call.
fn send(client: &mut Client<Quiet>, call: u32, message: Bytes) -> Result<(), Stopped>
    requires orderly { IsOrderly client.old.serving }
    requires there { call < call_count (deeds client.old.serving) }
    requires short { is_long message ≡ false }
    requires setting { client.old.serving.table.setting ≡ client_setting }
    requires speaks { CanSpeak client.old.serving call }
    ensures speaks { OnOk result (CanSpeak client.new.serving call) }
    ensures adds { OnOk result (ClientAdds client.old.serving (adding client.old.serving.table.entries run_seat (Say call (Out.Say message))) client.new.serving) }
    ensures full { IfErr result (λ why. why ≡ Stopped.Journal → is_full client.old.serving.table.entries ≡ true) }
    ensures fed { (bytes : List ℕ) → WasFed client_role client.old bytes → WasFed client_role client.new bytes }
{
    match client.say(call, Out::Say(message)) {
        Ok(()) => Ok(()),
        Err(SayRefused::JournalFull) => Err(Stopped::Journal),
        Err(SayRefused::Memory) => Err(Stopped::Memory),
        Err(_) => unreachable!(),
    }
}

// Ends the stream of a call's messages.
fn complete(client: &mut Client<Quiet>, call: u32) -> Result<(), Stopped>
    requires setting { client.old.serving.table.setting ≡ client_setting }
    requires orderly { IsOrderly client.old.serving }
    requires there { call < call_count (deeds client.old.serving) }
    requires speaks { CanSpeak client.old.serving call }
    ensures adds { OnOk result (ClientAdds client.old.serving (adding client.old.serving.table.entries run_seat (Done call)) client.new.serving) }
    ensures full { IfErr result (λ why. why ≡ Stopped.Journal → is_full client.old.serving.table.entries ≡ true) }
    ensures fed { (bytes : List ℕ) → WasFed client_role client.old bytes → WasFed client_role client.new bytes }
{
    match client.done(call) {
        Ok(()) => Ok(()),
        Err(SayRefused::JournalFull) => Err(Stopped::Journal),
        Err(SayRefused::Memory) => Err(Stopped::Memory),
        Err(_) => unreachable!(),
    }
}

// The id of a method of the demo service.
#[tactic(auto, unfolding(rpc_ids::specs::Names::name_id))]
fn method_of(plain: Plain) -> u32
    ensures { result ≡ method_id plain }
{
    match plain {
        Plain::Echo => ids::ECHO,
        Plain::Count => ids::COUNT,
        Plain::Sum => ids::SUM,
        Plain::Chat => ids::CHAT,
    }
}

// The first live call of a method of the transfer service.
fn live_call(client: &Client<Quiet>, method: u32) -> Option<u32>
    ensures first { result ≡ slice_get (live_transfers method (deeds client.now.serving)) 0 }
    ensures there { IfSome result (λ c. c < call_count (deeds client.now.serving)) }
{
    let calls = client.calls();
    'calls: for call in 0..calls.count() {
        if is_open_transfer(calls.name(call), calls.status(call), method) {
            return Some(call);
        }
    }
    None
}

// Whether a call of this name with this end is a live one of the method.
#[tactic(auto, unfolding(rpc_ids::specs::Names::name_id))]
fn is_open_transfer(name: CallName, end: Option<Status>, method: u32) -> bool
    ensures { result ≡ (((name.service == transfer_id) && (name.method == method)) && is_none end) }
{
    name.service == ids::TRANSFER && name.method == method && end.is_none()
}
