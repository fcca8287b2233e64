//! Both directions of the link of a world, and the numbers of its frames.
ghost use Rattle.std.specs.Prelude.{◌≡◌, ◌∷◌, [], IfOk, OnOk, IfNone, ◌++◌, option_to_list, length, count_by};
ghost use Rattle.link_script.specs.lossy.Link.{new_link, released};
ghost use Rattle.rpc_journal.specs.Items.{packet_of};
ghost use Rattle.history_laws.specs.messages.Messages.{is_stream};
ghost use Rattle.link_laws.specs.world.Reports.{carries_chunk};
ghost use Rattle.link_laws.specs.world.Wiring.{with_all_sent, with_sent};

use bytes::Bytes;
use demo_services::ids;
use link_script::Loss;
use link_script::lossy::{LossyLink, loss_of};
use rpc_frames::write_frame;
use rpc_ids::Role;
use rpc_journal::{Act, Item};
use rpc_packet::{Packet, PacketType};
use std::alloc::{AllocError, Global};
use std::marker::Model;

/// Both directions of the link. Frames are numbered from 1 over both, in the order in which they went out.
pub struct Wires {
    alloc: Global,
    losses: Vec<(u32, Loss)>,
    to_server: LossyLink,
    to_client: LossyLink,
    numbered: Vec<Packet>,
}

impl Model for Wires {
    ghost use Rattle.link_laws.specs.world.Wiring.{Wiring};

    ghost Value = { Wiring };

    ghost view = { λ w. record {
      losses = w.losses.items;
      to_server = w.to_server;
      to_client = w.to_client;
      numbered = w.numbered.items;
    } };
}

impl Drop for Wires {
    fn drop(self) {
        let Self {
            alloc: _,
            losses: _,
            to_server: _,
            to_client: _,
            numbered: _,
        } = self;
    }
}

impl Wires {
    /// Without a frame. What is done to frames is said by their numbers.
    pub fn new(alloc: Global, losses: &[(u32, Loss)]) -> Result<Wires, AllocError>
        ensures { IfOk result (λ w. w ≡ record { losses = losses.now; to_server = new_link; to_client = new_link; numbered = [] }) }
    {
        Ok(Wires {
            alloc,
            losses: losses.iter().copied().collect(alloc)?,
            to_server: LossyLink::new(alloc),
            to_client: LossyLink::new(alloc),
            numbered: Vec::new(alloc),
        })
    }

    /// An item goes out at the end of this role: a packet is sent. After an `Err` the link is to be given up.
    pub fn take_out(&mut self, sender: Role, item: &Item) -> Result<(), AllocError>
        ensures { OnOk result (self.new ≡ with_all_sent sender (packet_of item.now.act) self.old) }
    {
        match &item.act {
            Act::Send(packet) => self.send(sender, packet),
            Act::Keep(_) | Act::LeaveCall => Ok(()),
        }
    }

    // The end of this role sends a packet: its frame is numbered, and put on the link, or what is said of it happens.
    fn send(&mut self, sender: Role, packet: &Packet) -> Result<(), AllocError>
        ensures { OnOk result (self.new ≡ with_sent sender self.old packet.now) }
    {
        let mut frame = Vec::new(self.alloc);
        write_frame(self.alloc, packet, &mut frame)?;
        self.numbered.push(packet.clone()?)?;
        let loss = loss_of(self.numbered.len() as u64, self.losses.as_slice());
        match sender {
            Role::Client => self.to_server.put(loss, frame),
            Role::Server => self.to_client.put(loss, frame),
        }
    }

    /// The frames that were kept back are on the link. After an `Err` it is to be given up.
    pub fn release(&mut self) -> Result<(), AllocError>
        ensures { OnOk result (self.new ≡ record self.old { to_server = released self.old.to_server; to_client = released self.old.to_client }) }
    {
        self.to_server.release()?;
        self.to_client.release()
    }

    /// Takes the oldest frame on the way to the server.
    pub fn take_for_server(&mut self) -> Option<Bytes>
        ensures frames { self.old.to_server.frames ≡ option_to_list result ++ self.new.to_server.frames }
        ensures none { IfNone result (self.old.to_server.frames ≡ []) }
        ensures rest { self.new ≡ record self.old { to_server = record self.old.to_server { frames = self.new.to_server.frames } } }
    {
        self.to_server.take_frame()
    }

    /// Takes the oldest frame on the way to the client.
    pub fn take_for_client(&mut self) -> Option<Bytes>
        ensures frames { self.old.to_client.frames ≡ option_to_list result ++ self.new.to_client.frames }
        ensures none { IfNone result (self.old.to_client.frames ≡ []) }
        ensures rest { self.new ≡ record self.old { to_client = record self.old.to_client { frames = self.new.to_client.frames } } }
    {
        self.to_client.take_frame()
    }

    /// The link to the server.
    pub fn to_server(&self) -> &LossyLink
        ensures { result.now ≡ self.now.to_server }
    {
        &self.to_server
    }

    /// The link to the client.
    pub fn to_client(&self) -> &LossyLink
        ensures { result.now ≡ self.now.to_client }
    {
        &self.to_client
    }

    /// How many frames were numbered.
    pub fn frames(&self) -> u64
        ensures { result ≡ length self.now.numbered }
    {
        self.numbered.len() as u64
    }

    /// How many of them carry a chunk.
    pub fn chunks(&self) -> u64
        ensures { result ≡ count_by carries_chunk self.now.numbered }
    {
        self.numbered
            .iter()
            .filter(|packet| carries_chunk(packet))
            .count() as u64
    }
}

// Whether a packet carries a chunk: it is a message of a stream of the transfer service.
#[tactic(auto, unfolding(rpc_ids::specs::Names::name_id))]
fn carries_chunk(packet: &Packet) -> bool
    ensures { result ≡ carries_chunk packet.now }
{
    is_stream(packet.ptype) && packet.name.service == ids::TRANSFER
}

fn is_stream(ptype: PacketType) -> bool
    ensures { result ≡ is_stream ptype }
{
    match ptype {
        PacketType::ClientStream | PacketType::ServerStream => true,
        PacketType::Request
        | PacketType::Response
        | PacketType::ClientError
        | PacketType::ServerError
        | PacketType::Completion => false,
    }
}
