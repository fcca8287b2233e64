//! The client of a world, with its store.
ghost use Rattle.std.specs.Prelude.{◌≡◌, ℕ, ◌+◌, ◌<◌, ◌^◌, List, [], ◌++◌, None, Some, IfOk, IfErr, OnOk};
ghost use Rattle.rpc_ids.specs.declared.method.Role.TheVariants.{Client as client_role};
ghost use Rattle.rpc_journal.specs.declared.entry.EntryKind.TheVariants.{Cancel, EndIn};
ghost use Rattle.rpc_journal.specs.Calls.{call_count, end_of};
ghost use Rattle.rpc_journal.specs.History.{adding};
ghost use Rattle.rpc_journal.specs.Items.{items_flushed, items_waiting};
ghost use Rattle.rpc_journal.specs.Lawful.{IsLegal};
ghost use Rattle.rpc_schedule.specs.Schedule.{input_seat, run_seat};
ghost use Rattle.rpc_schedule.specs.Serving.{deeds};
ghost use Rattle.rpc_schedule.specs.ends.EndState.{WasFed};
ghost use Rattle.link_laws.specs.transfers_fit.Fits.{AreSmall};
ghost use Rattle.link_laws.specs.world.Client.{ClientSettles};
ghost use Rattle.link_laws.specs.world.Starts.{AskingStops};
ghost use Rattle.link_laws.specs.world.Stops.{ClientStops};
ghost use Rattle.link_laws.specs.world.Setup.{client_setting, quiet_rule};
ghost use Rattle.link_laws.specs.world.World.{Setup, World};
ghost use Rattle.link_world.specs.Room.{StaysWithin};
ghost use Rattle.link_world.specs.client.Asking.{ClientAsks, IsAsked, IsClientOf};
ghost use Rattle.link_world.specs.client.ClientSide.{Attends, ClientHeard, ClientMoves, ClientRests, ClientStopsHearing, ClientWorks};
ghost use Rattle.link_world.specs.client.Working.{IsKept, Settled};
ghost use Rattle.link_world.specs.client.Underway.{task_seen};

use crate::client::desk::Desk;
use crate::client::starting::begin;
use crate::client::under::Under;
use crate::client::working::{feed_all, settle};
use crate::server::{Stopped, Wires, WorldStore, world_channels};
use demo_services::demo_registry;
use link_script::Command;
use rpc_client::Client;
use rpc_journal::Journal;
use std::alloc::{AllocError, Global};
use std::marker::Model;
use transfer_base::Tuning;

/// The client. What goes out of it is kept, and so is what its calls took.
pub struct ClientEnd {
    pub(crate) alloc: Global,
    pub(crate) desk: Desk,
}

impl Model for ClientEnd {
    ghost use Rattle.link_world.specs.client.ClientSide.{ClientState, state_of};

    ghost Value = { ClientState };

    ghost view = { λ s. state_of s.desk };
}

impl Drop for ClientEnd {
    fn drop(self) {
        let Self { alloc: _, desk: _ } = self;
    }
}

impl ClientEnd {
    /// A client without a call.
    pub fn new(alloc: Global, store: WorldStore) -> Result<ClientEnd, AllocError>
        ensures rest { IfOk result ClientRests }
        ensures begins { IfOk result (λ s. (s.end.serving.table.entries ≡ []) × (s.stored ≡ store) × (s.items ≡ [])) }
        ensures unfed { IfOk result (λ s. WasFed client_role s.end []) }
    {
        let client = Client::new(alloc, world_channels(alloc)?, demo_registry(alloc)?)?;
        let desk = Desk {
            client,
            store,
            items: Vec::new(alloc),
            events: Vec::new(alloc),
        };
        Ok(ClientEnd { alloc, desk })
    }

    /// The journal and the store.
    pub fn into_parts(self) -> (Journal, WorldStore)
        ensures journal { result.0.entries ≡ self.end.serving.table.entries }
        ensures legal { IsLegal quiet_rule self.end.serving.table.setting self.end.serving.table.entries }
        ensures store { result.1 ≡ self.stored }
    {
        let ClientEnd { alloc: _, desk } = self;
        let Desk {
            client,
            store,
            items: _,
            events: _,
        } = desk;
        (client.into_calls().into_journal(), store)
    }

    /// A frame comes: each packet that is heard in it arrives, and the client does its work after it. After an `Err` the
    /// world is to be given up.
    pub fn deliver(
        &mut self,
        frame: &[u8],
        now: u64,
        under: &mut Option<Under>,
        wires: &mut Wires,
    ) -> Result<(), Stopped>
        requires rest { ClientRests self.old }
        requires attends { Attends self.old under.old now }
        ensures rest { OnOk result (ClientRests self.new) }
        ensures attends { OnOk result (Attends self.new under.new now) }
        ensures hears { OnOk result ((fed : List ℕ) → WasFed client_role self.old.end fed → ClientHeard now self.old.end.serving under.old self.new.end.serving under.new fed frame.now) }
        ensures fed { OnOk result ((fed : List ℕ) → WasFed client_role self.old.end fed → WasFed client_role self.new.end (fed ++ frame.now)) }
        ensures moves { OnOk result (ClientMoves self.old wires.old self.new wires.new) }
        ensures full { IfErr result (λ why. why ≡ Stopped.Journal → (fed : List ℕ) → WasFed client_role self.old.end fed → ClientStopsHearing now self.old.end.serving under.old fed frame.now) }
    {
        feed_all(&mut self.desk, frame, under, now, wires)
    }

    /// The client does its work at this moment: its calls run, the task that speaks is polled once, and all goes out.
    pub fn settle(
        &mut self,
        now: u64,
        under: &mut Option<Under>,
        wires: &mut Wires,
    ) -> Result<(), Stopped>
        requires rest { ClientRests self.old }
        requires attends { Attends self.old under.old now }
        ensures rest { OnOk result (ClientRests self.new) }
        ensures attends { OnOk result (Attends self.new under.new now) }
        ensures works { OnOk result (ClientWorks now self.old.end.serving.table.entries under.old self.new.end.serving.table.entries under.new) }
        ensures fed { OnOk result ((fed : List ℕ) → WasFed client_role self.old.end fed → WasFed client_role self.new.end fed) }
        ensures moves { OnOk result (ClientMoves self.old wires.old self.new wires.new) }
        ensures full { IfErr result (λ why. why ≡ Stopped.Journal → ClientStops client_setting now self.old.end.serving.table.entries (task_seen under.old)) }
    {
        self.work(now, under, wires)
    }

    /// A command of the client starts: its entries are added, and the client does its work. Answers what is under way then.
    pub fn start(
        &mut self,
        command: &Command,
        sessions: &mut u32,
        tuning: Tuning,
        now: u64,
        wires: &mut Wires,
    ) -> Result<Under, Stopped>
        requires rest { ClientRests self.old }
        requires asked { IsAsked command.now }
        requires room { sessions.old + 1 < 2 ^ 32 }
        requires small { AreSmall self.old.stored.full }
        ensures rest { OnOk result (ClientRests self.new) }
        ensures attends { IfOk result (λ way. Attends self.new (Some way) now) }
        ensures asks { IfOk result (λ way. (k : Setup) (w : World) → IsClientOf k w self.old sessions.old tuning now → ClientAsks k w command.now self.new.end.serving.table.entries way sessions.new) }
        ensures fed { OnOk result ((fed : List ℕ) → WasFed client_role self.old.end fed → WasFed client_role self.new.end fed) }
        ensures moves { OnOk result (ClientMoves self.old wires.old self.new wires.new) }
        ensures full { IfErr result (λ why. why ≡ Stopped.Journal → (k : Setup) (w : World) → IsClientOf k w self.old sessions.old tuning now → AskingStops k w command.now) }
    {
        let begun = begin(
            self.alloc,
            &mut self.desk.client,
            &self.desk.store,
            command,
            sessions,
            tuning,
        );
        let way = match begun {
            Ok(way) => way,
            Err(stopped) => return Err(stopped),
        };
        let mut under = Some(way);
        match self.work(now, &mut under, wires) {
            Ok(()) => {}
            Err(stopped) => return Err(stopped),
        }
        match under {
            Some(way) => Ok(way),
            None => unreachable!(),
        }
    }

    /// A call that has no end is cancelled, and the client does its work.
    pub fn cancel(&mut self, call: u32, now: u64, wires: &mut Wires) -> Result<(), Stopped>
        requires rest { ClientRests self.old }
        requires there { call < call_count (deeds self.old.end.serving) }
        requires open { end_of (deeds self.old.end.serving) call ≡ None }
        ensures rest { OnOk result (ClientRests self.new) }
        ensures settles { OnOk result (ClientSettles client_setting now (adding self.old.end.serving.table.entries run_seat (Cancel call)) None self.new.end.serving.table.entries None) }
        ensures calls { OnOk result (call_count (deeds self.new.end.serving) ≡ call_count (deeds self.old.end.serving)) }
        ensures fed { OnOk result ((fed : List ℕ) → WasFed client_role self.old.end fed → WasFed client_role self.new.end fed) }
        ensures moves { OnOk result (ClientMoves self.old wires.old self.new wires.new) }
        ensures full { IfErr result (λ why. why ≡ Stopped.Journal → ClientStops client_setting now (adding self.old.end.serving.table.entries run_seat (Cancel call)) None) }
    {
        // Its journal is legal, so a call without an end wasn't cancelled before.
        let _legal = self.desk.client.calls();
        let _ = self.desk.client.cancel(call);
        self.work_alone(now, wires)
    }

    /// The link is given up.
    pub fn end_in(&mut self, now: u64, wires: &mut Wires) -> Result<(), Stopped>
        requires rest { ClientRests self.old }
        ensures settles { OnOk result (ClientSettles client_setting now (adding self.old.end.serving.table.entries input_seat EndIn) None self.new.end.serving.table.entries None) }
        ensures items { OnOk result (self.new.items ≡ items_flushed (deeds self.new.end.serving)) }
        ensures room { OnOk result (StaysWithin self.new.end.serving.table.entries) }
        ensures moves { OnOk result (ClientMoves self.old wires.old self.new wires.new) }
        ensures full { IfErr result (λ why. why ≡ Stopped.Journal → ClientStops client_setting now (adding self.old.end.serving.table.entries input_seat EndIn) None) }
    {
        self.desk.client.end_in();
        self.work_alone(now, wires)
    }

    // Does its work while no task speaks.
    fn work_alone(&mut self, now: u64, wires: &mut Wires) -> Result<(), Stopped>
        requires few { items_waiting (deeds self.old.end.serving) < 65536 }
        requires kept { IsKept self.old.end.serving self.old.items self.old.events }
        ensures kept { OnOk result (IsKept self.new.end.serving self.new.items self.new.events) }
        ensures settled { OnOk result (Settled now self.old.end.serving None self.new.end.serving None) }
        ensures fed { OnOk result ((fed : List ℕ) → WasFed client_role self.old.end fed → WasFed client_role self.new.end fed) }
        ensures moves { OnOk result (ClientMoves self.old wires.old self.new wires.new) }
        ensures full { IfErr result (λ why. why ≡ Stopped.Journal → ClientStops client_setting now self.old.end.serving.table.entries None) }
    {
        self.work(now, &mut None, wires)
    }

    // The same, behind what has come.
    fn work(
        &mut self,
        now: u64,
        under: &mut Option<Under>,
        wires: &mut Wires,
    ) -> Result<(), Stopped>
        requires few { items_waiting (deeds self.old.end.serving) < 65536 }
        requires kept { IsKept self.old.end.serving self.old.items self.old.events }
        requires attends { Attends self.old under.old now }
        ensures kept { OnOk result (IsKept self.new.end.serving self.new.items self.new.events) }
        ensures settled { OnOk result (Settled now self.old.end.serving under.old self.new.end.serving under.new) }
        ensures attends { OnOk result (Attends self.new under.new now) }
        ensures fed { OnOk result ((fed : List ℕ) → WasFed client_role self.old.end fed → WasFed client_role self.new.end fed) }
        ensures moves { OnOk result (ClientMoves self.old wires.old self.new wires.new) }
        ensures full { IfErr result (λ why. why ≡ Stopped.Journal → ClientStops client_setting now self.old.end.serving.table.entries (task_seen under.old)) }
    {
        settle(&mut self.desk, under, now, wires)
    }
}
