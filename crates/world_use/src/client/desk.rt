//! Both ends of a world, and the frames between them.
ghost use Rattle.std.specs.Prelude.{◌≡◌, ◌≤◌, IfOk, OnOk};
ghost use Rattle.link_laws.specs.transfers_fit.Fits.{AreSmall};
ghost use Rattle.link_world.specs.server.ServerSide.{ServerRests};
ghost use Rattle.link_world.specs.client.Asking.{IsAsked};
ghost use Rattle.link_world.specs.client.ClientSide.{Attends, ClientRests};

use link_script::{Command, Loss, Stock};
use link_world::client::{ClientEnd, Under};
use link_world::server::{ServerEnd, Stopped, Wires, WorldStore, store_of};
use std::alloc::Global;
use std::test::Fail;
use transfer_base::Tuning;

// More than any of the worlds here delivers.
const DELIVERIES: u32 = 40;

const TUNING: Tuning = Tuning {
    window: 4,
    chunk: 256,
};

/// A client and a server, the link between them, and what is under way.
#[derive(Drop)]
pub struct Pair {
    pub client: ClientEnd,
    pub server: ServerEnd,
    pub wires: Wires,
    pub under: Option<Under>,
    pub sessions: u32,
}

/// What a store begins with.
#[derive(Clone, Copy)]
pub enum Begins {
    Empty,
    /// With resource 7, of 1,000 bytes.
    Filled,
}

const STOCK: Stock = Stock {
    id: 7,
    len: 1_000,
    seed: 1,
};

fn store(alloc: Global, begins: Begins) -> Result<WorldStore, Fail>
    ensures { IfOk result (λ store. AreSmall store.full) }
{
    Ok(match begins {
        Begins::Empty => store_of(alloc, &[], &[])?,
        Begins::Filled => store_of(alloc, &[STOCK], &[])?,
    })
}

/// Both ends over stores that begin so, where this command has started at the client.
pub fn begin(
    alloc: Global,
    client: Begins,
    server: Begins,
    losses: &[(u32, Loss)],
    command: &Command,
) -> Result<Pair, Fail>
    requires asked { IsAsked command.now }
    ensures rest { IfOk result (λ pair. ClientRests pair.client) }
    ensures attends { IfOk result (λ pair. Attends pair.client pair.under 0) }
    ensures server { IfOk result (λ pair. ServerRests pair.server) }
{
    let mut client = ClientEnd::new(alloc, store(alloc, client)?)?;
    let server = ServerEnd::new(alloc, store(alloc, server)?, TUNING)?;
    let mut wires = Wires::new(alloc, losses)?;
    let mut sessions = 0;
    let way = client.start(command, &mut sessions, TUNING, 0, &mut wires)?;
    Ok(Pair {
        client,
        server,
        wires,
        under: Some(way),
        sessions,
    })
}

/// Frames go over the link at this moment, those to the server first, until none is on it.
pub fn exchange(pair: &mut Pair, now: u64) -> Result<(), Fail>
    requires rest { ClientRests pair.old.client }
    requires attends { Attends pair.old.client pair.old.under now }
    requires server { ServerRests pair.old.server }
    ensures rest { OnOk result (ClientRests pair.new.client) }
    ensures attends { OnOk result (Attends pair.new.client pair.new.under now) }
    ensures server { OnOk result (ServerRests pair.new.server) }
{
    'frames: for _delivery in 0..DELIVERIES {
        deliver_next(pair, now)?;
    }
    Ok(())
}

// The next frame is delivered, if one is on the link.
fn deliver_next(pair: &mut Pair, now: u64) -> Result<(), Stopped>
    requires rest { ClientRests pair.old.client }
    requires attends { Attends pair.old.client pair.old.under now }
    requires server { ServerRests pair.old.server }
    ensures rest { OnOk result (ClientRests pair.new.client) }
    ensures attends { OnOk result (Attends pair.new.client pair.new.under now) }
    ensures server { OnOk result (ServerRests pair.new.server) }
{
    if let Some(frame) = pair.wires.take_for_server() {
        return pair.server.deliver(frame.as_slice(), &mut pair.wires);
    }
    match pair.wires.take_for_client() {
        Some(frame) => {
            let wires = &mut pair.wires;
            pair.client
                .deliver(frame.as_slice(), now, &mut pair.under, wires)
        }
        None => Ok(()),
    }
}
