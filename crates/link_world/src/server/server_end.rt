//! The server of a world, with its store.
ghost use Rattle.std.specs.Prelude.{◌≡◌, ◌⊎◌, ℕ, List, [], ◌++◌, IfErr, IfOk, OnOk, Some, None, true, false, filter_map, if◌then◌else◌, slice_get};
ghost use Rattle.demo_services.specs.DemoRule.{demo_rule};
ghost use Rattle.rpc_ids.specs.declared.method.Role.TheVariants.{Server as server_role};
ghost use Rattle.rpc_journal.specs.declared.entry.EntryKind.TheVariants.{EndIn, Tick};
ghost use Rattle.rpc_journal.specs.Calls.{same_name};
ghost use Rattle.rpc_journal.specs.History.{adding};
ghost use Rattle.rpc_journal.specs.Items.{items_flushed};
ghost use Rattle.rpc_journal.specs.Refusals.{is_full};
ghost use Rattle.rpc_journal.specs.Lawful.{IsLegal};
ghost use Rattle.link_laws.specs.world.Committed.{committed};
ghost use Rattle.link_laws.specs.world.Stops.{ServerStops, ServerStopsWith};
ghost use Rattle.link_laws.specs.world.Lines.{calls_named};
ghost use Rattle.link_laws.specs.world.Setup.{server_setting};
ghost use Rattle.link_laws.specs.world.Starts.{closed_by, ended_by_close};
ghost use Rattle.rpc_schedule.specs.Schedule.{Settles, flush_seat, input_seat};
ghost use Rattle.rpc_schedule.specs.Serving.{deeds};
ghost use Rattle.rpc_schedule.specs.ends.EndState.{WasFed};
ghost use Rattle.link_world.specs.Room.{StaysWithin};
ghost use Rattle.link_world.specs.server.ServerSide.{ServerHeard, ServerMoves, ServerRests, ServerStopsHearing};

use crate::server::channels::world_channels;
use crate::server::progress::committed;
use crate::server::serving::{feed_all, settle};
use crate::server::stopped::Stopped;
use crate::server::stores::shelf_of;
use crate::server::wires::Wires;
use crate::server::world_store::WorldStore;
use demo_services::{DemoMaker, demo_registry};
use rpc_calls::CloseRefused;
use rpc_journal::{Item, Journal};
use rpc_packet::CallName;
use rpc_server::Server;
use std::alloc::{AllocError, Global};
use std::marker::Model;
use transfer_base::Tuning;

/// The server. What goes out of it is kept.
pub struct ServerEnd {
    server: Server<DemoMaker>,
    store: WorldStore,
    items: Vec<Item>,
}

impl Model for ServerEnd {
    ghost use Rattle.link_world.specs.server.ServerSide.{ServerState};

    ghost Value = { ServerState };

    ghost view = { λ s. record { end = s.server; stored = s.store; items = s.items.items } };
}

impl Drop for ServerEnd {
    fn drop(self) {
        let Self {
            server: _,
            store: _,
            items: _,
        } = self;
    }
}

impl ServerEnd {
    /// A server without a call, whose transfers are of what the store lists now.
    pub fn new(
        alloc: Global,
        mut store: WorldStore,
        tuning: Tuning,
    ) -> Result<ServerEnd, AllocError>
        ensures setting { IfOk result (λ s. s.end.serving.table.setting ≡ server_setting store tuning.window tuning.chunk) }
        ensures rest { IfOk result ServerRests }
        ensures begins { IfOk result (λ s. (s.end.serving.table.entries ≡ []) × (s.stored ≡ store) × (s.items ≡ [])) }
        ensures unfed { IfOk result (λ s. WasFed server_role s.end []) }
    {
        let shelf = shelf_of(&mut store)?;
        let maker = DemoMaker::new(alloc, shelf, tuning)?;
        let server = Server::new(alloc, world_channels(alloc)?, demo_registry(alloc)?, maker)?;
        Ok(ServerEnd {
            server,
            store,
            items: Vec::new(alloc),
        })
    }

    /// The journal and the store.
    pub fn into_parts(self) -> (Journal, WorldStore)
        ensures journal { result.0.entries ≡ self.end.serving.table.entries }
        ensures legal { IsLegal demo_rule self.end.serving.table.setting self.end.serving.table.entries }
        ensures store { result.1 ≡ self.stored }
    {
        let ServerEnd {
            server,
            store,
            items: _,
        } = self;
        (server.into_calls().into_journal(), store)
    }

    /// Closes a channel. Answers how many calls ended, or `None` where it was closed before.
    pub fn close_channel(&mut self, channel: u32, wires: &mut Wires) -> Result<Option<u32>, Stopped>
        requires { ServerRests self.old }
        ensures rest { OnOk result (ServerRests self.new) }
        ensures settles { IfOk result (λ ended. Settles demo_rule self.old.end.serving.table.setting (closed_by channel ended self.old.end.serving.table.entries) self.new.end.serving.table.entries) }
        ensures fed { OnOk result ((fed : List ℕ) → WasFed server_role self.old.end fed → WasFed server_role self.new.end fed) }
        ensures moves { OnOk result (ServerMoves self.old wires.old self.new wires.new) }
        ensures counts { IfOk result (λ ended. ended ≡ ended_by_close self.old.end.serving.table.setting (deeds self.old.end.serving) channel) }
        ensures full { IfErr result (λ why. why ≡ Stopped.Journal → (is_full self.old.end.serving.table.entries ≡ true) ⊎ ServerStops demo_rule self.old.end.serving.table.setting (closed_by channel (ended_by_close self.old.end.serving.table.setting (deeds self.old.end.serving) channel) self.old.end.serving.table.entries)) }
    {
        let ended = match self.server.close_channel(channel) {
            Ok(ended) => Some(ended),
            Err(CloseRefused::NotIn) => None,
            Err(CloseRefused::JournalFull) => return Err(Stopped::Journal),
            Err(CloseRefused::Memory) => return Err(Stopped::Memory),
        };
        match settle(&mut self.server, &mut self.store, &mut self.items, wires) {
            Ok(()) => {}
            Err(stopped) => return Err(stopped),
        }
        Ok(ended)
    }

    /// The length that a session has committed in a call of this name, if it has: in the first one that has.
    pub fn committed(&self, name: CallName, session: u32) -> Option<u64>
        ensures { result ≡ slice_get (filter_map (committed self.now.items session) (calls_named name (deeds self.now.end.serving))) 0 }
    {
        let calls = self.server.calls();
        'calls: for call in 0..calls.count() {
            match committed_as(name, calls.name(call), self.items.as_slice(), session, call) {
                Some(length) => return Some(length),
                None => {}
            }
        }
        None
    }

    /// A frame comes: each packet that is heard in it arrives, and is settled before the next one. After an `Err` the world
    /// is to be given up.
    pub fn deliver(&mut self, frame: &[u8], wires: &mut Wires) -> Result<(), Stopped>
        requires { ServerRests self.old }
        ensures rest { OnOk result (ServerRests self.new) }
        ensures hears { OnOk result ((fed : List ℕ) → WasFed server_role self.old.end fed → ServerHeard demo_rule self.old.end.serving self.new.end.serving fed frame.now) }
        ensures fed { OnOk result ((fed : List ℕ) → WasFed server_role self.old.end fed → WasFed server_role self.new.end (fed ++ frame.now)) }
        ensures moves { OnOk result (ServerMoves self.old wires.old self.new wires.new) }
        ensures full { IfErr result (λ why. why ≡ Stopped.Journal → (fed : List ℕ) → WasFed server_role self.old.end fed → ServerStopsHearing demo_rule self.old.end.serving fed frame.now) }
    {
        feed_all(
            &mut self.server,
            frame,
            &mut self.store,
            &mut self.items,
            wires,
        )
    }

    /// The time has come to this moment, in milliseconds.
    pub fn tick(&mut self, now: u64, wires: &mut Wires) -> Result<(), Stopped>
        requires { ServerRests self.old }
        ensures rest { OnOk result (ServerRests self.new) }
        ensures settles { OnOk result (Settles demo_rule self.old.end.serving.table.setting (adding self.old.end.serving.table.entries flush_seat (Tick now)) self.new.end.serving.table.entries) }
        ensures room { OnOk result (is_full self.old.end.serving.table.entries ≡ false) }
        ensures fed { OnOk result ((fed : List ℕ) → WasFed server_role self.old.end fed → WasFed server_role self.new.end fed) }
        ensures moves { OnOk result (ServerMoves self.old wires.old self.new wires.new) }
        ensures full { IfErr result (λ why. why ≡ Stopped.Journal → ServerStopsWith demo_rule self.old.end.serving.table.setting self.old.end.serving.table.entries flush_seat (Tick now)) }
    {
        match self.server.tick(now) {
            Ok(()) => {}
            Err(refused) => return Err(Stopped::from(refused)),
        }
        settle(&mut self.server, &mut self.store, &mut self.items, wires)
    }

    /// The link is given up.
    pub fn end_in(&mut self, wires: &mut Wires) -> Result<(), Stopped>
        requires { ServerRests self.old }
        ensures settles { OnOk result (Settles demo_rule self.old.end.serving.table.setting (adding self.old.end.serving.table.entries input_seat EndIn) self.new.end.serving.table.entries) }
        ensures items { OnOk result (self.new.items ≡ items_flushed (deeds self.new.end.serving)) }
        ensures room { OnOk result (StaysWithin self.new.end.serving.table.entries) }
        ensures moves { OnOk result (ServerMoves self.old wires.old self.new wires.new) }
        ensures full { IfErr result (λ why. why ≡ Stopped.Journal → ServerStops demo_rule self.old.end.serving.table.setting (adding self.old.end.serving.table.entries input_seat EndIn)) }
    {
        self.server.end_in();
        settle(&mut self.server, &mut self.store, &mut self.items, wires)
    }
}

// The length that a session of a call has committed, where the call has this name.
fn committed_as(
    name: CallName,
    own: CallName,
    items: &[Item],
    session: u32,
    call: u32,
) -> Option<u64>
    ensures { result ≡ (if same_name own name then committed items.now session call else None) }
{
    if is_named(own, name) {
        committed(items, session, call)
    } else {
        None
    }
}

fn is_named(own: CallName, name: CallName) -> bool
    ensures { result ≡ same_name own name }
{
    own.channel == name.channel
        && own.service == name.service
        && own.method == name.method
        && own.call == name.call
}
