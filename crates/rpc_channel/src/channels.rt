ghost use Rattle.std.specs.Prelude.{◌≡◌, ℕ, ◌≤◌, ◌≢◌, List, [], length, count_by, nat_lt, OnOk, OnErr, IsTrue, ◌↔◌};
ghost use Rattle.rpc_channel.specs.Rising.{IsRising, IsFullFor, has_id, with_id, without_id};

use std::alloc::Global;
use std::marker::Model;
use thiserror::Error;

/// How many channels one endpoint can have.
pub const MAX_CHANNELS: usize = 64;

/// Why a channel was not added.
#[derive(Clone, Copy, Debug, PartialEq, Eq, Error)]
pub enum ChannelRefused {
    /// The channel is in already.
    #[error("the channel is in already")]
    There,
    /// `MAX_CHANNELS` other channels are in.
    #[error("too many channels")]
    Full,
    /// There was no memory for the channel.
    #[error("out of memory")]
    Memory,
}

/// The ids of the channels that are in, seen as the list of them in rising order.
#[derive(Drop, Debug)]
pub struct Channels {
    ids: Vec<u32>,
}

impl Model for Channels {
    ghost Value = { List ℕ };

    ghost view = { λ c. c.ids.items };

    ghost invariant = { λ c. IsRising c.ids.items × (length c.ids.items ≤ 64) };
}

impl Channels {
    /// No channel.
    pub fn new(alloc: Global) -> Channels
        ensures { result ≡ [] }
    {
        Channels {
            ids: Vec::new(alloc),
        }
    }

    /// Adds a channel. Its id is not 0, which pw_rpc keeps for "no channel".
    pub fn add(&mut self, id: u32) -> Result<(), ChannelRefused>
        requires { id ≢ 0 }
        ensures ok { OnOk result (self.new ≡ with_id id self.old) }
        ensures there { (result ≡ Err ChannelRefused.There) ↔ IsTrue (has_id self.old id) }
        ensures full { (result ≡ Err ChannelRefused.Full) ↔ IsFullFor id self.old }
        ensures err { OnErr result (self.new ≡ self.old) }
    {
        if self.is_in(id) {
            return Err(ChannelRefused::There);
        }
        if self.ids.len() >= MAX_CHANNELS {
            return Err(ChannelRefused::Full);
        }
        let place = place_of(&self.ids, id);
        if self.ids.insert(place, id).is_err() {
            return Err(ChannelRefused::Memory);
        }
        Ok(())
    }

    /// Takes a channel out. Answers whether it was in.
    pub fn remove(&mut self, id: u32) -> bool
        ensures was_in { result ≡ has_id self.old id }
        ensures left { self.new ≡ without_id id self.old }
    {
        let was_in = self.is_in(id);
        self.ids.retain(|x| *x != id);
        was_in
    }

    /// Whether this channel is in.
    pub fn is_in(&self, id: u32) -> bool
        ensures { result ≡ has_id self.now id }
    {
        self.ids.contains(&id)
    }

    /// The ids in rising order.
    pub fn list(&self) -> &[u32]
        ensures all { result.now ≡ self.now }
        ensures rising { IsRising self.now }
        ensures few { length self.now ≤ MAX_CHANNELS }
    {
        self.ids.as_slice()
    }
}

// How many of the ids are smaller: the place of a new one.
fn place_of(ids: &[u32], id: u32) -> usize
    ensures { result ≡ count_by (λ x. nat_lt x id) ids.now }
{
    ids.iter().filter(|x| **x < id).count()
}
