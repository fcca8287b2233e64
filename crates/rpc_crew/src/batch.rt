//! Frames that go out together.

ghost use Rattle.std.specs.Prelude.{◌≡◌, ℕ, ◌^◌, ◌<◌, ◌≤◌, ◌∷◌, IfOk, IfSome, IsNone, None, Ok, OnErr, length};
ghost use Rattle.rpc_crew.specs.Batches.{EndsPast, IsAction, IsPacket, no_batch, with_frame};

use rpc_frames::write_frame;
use rpc_journal::{Act, Item};
use std::alloc::{AllocError, Global};
use std::collections::VecDeque;
use std::marker::Model;

// A batch that has so many bytes takes no further frame.
const FULL: usize = 16_384;

/// An item whose frame is in a batch, and where its frame ends there.
#[derive(Drop)]
pub(crate) struct Framed {
    pub item: Item,
    pub end: usize,
}

/// The frames of items that came one behind the other, and wait to be written. Its memory is kept for the next ones.
pub(crate) struct Batch {
    bytes: Vec<u8>,
    framed: VecDeque<Framed>,
}

impl Drop for Batch {
    fn drop(self) {
        let Self {
            bytes: _,
            framed: _,
        } = self;
    }
}

impl Model for Batch {
    ghost use Rattle.rpc_crew.specs.Batches.{BatchView};

    ghost Value = { BatchView };

    ghost view = { λ b. record { bytes = b.bytes.items; framed = b.framed.items } };
}

impl Batch {
    /// No frame.
    pub(crate) fn new(alloc: Global) -> Batch
        ensures { result ≡ no_batch }
    {
        Batch {
            bytes: Vec::new(alloc),
            framed: VecDeque::new(alloc),
        }
    }

    /// Whether it takes no further frame.
    pub(crate) fn is_full(&self) -> bool {
        self.bytes.len() >= FULL
    }

    /// How many frames there are.
    pub(crate) fn len(&self) -> usize
        ensures count { result ≡ length self.now.framed }
        ensures bound { result < 2 ^ 63 }
    {
        self.framed.len()
    }

    /// What goes out.
    pub(crate) fn bytes(&self) -> &[u8]
        ensures { result.now ≡ self.now.bytes }
    {
        &self.bytes
    }

    /// Adds the frame of an item that is a packet, and hands another item back. Want of memory leaves the batch as it was.
    pub(crate) fn push(&mut self, alloc: Global, item: Item) -> Result<Option<Item>, AllocError>
        ensures added { result ≡ Ok None → IsPacket item × (self.new ≡ with_frame item self.old) }
        ensures back { IfOk result (λ o. IfSome o (λ other. (other ≡ item) × IsAction item × (self.new ≡ self.old))) }
        ensures err { OnErr result (self.new ≡ self.old) }
    {
        self.framed.reserve(1)?;
        match &item.act {
            Act::Send(packet) => write_frame(alloc, packet, &mut self.bytes)?,
            _ => return Ok(Some(item)),
        }
        let end = self.bytes.len();
        self.framed.push_back_reserved(Framed { item, end });
        Ok(None)
    }

    /// Takes out the first item, where its frame ends within so many bytes.
    pub(crate) fn take_whole(&mut self, written: usize) -> Option<Item>
        ensures bytes { self.new.bytes ≡ self.old.bytes }
        ensures first { IfSome result (λ item. (end : ℕ) × (end ≤ written) × (self.old.framed ≡ (record { item = item; end = end }) ∷ self.new.framed)) }
        ensures none { IsNone result → (self.new.framed ≡ self.old.framed) × EndsPast written self.old.framed }
    {
        let first = self.framed.front()?;
        if first.end > written {
            return None;
        }
        let framed = self.framed.pop_front()?;
        Some(framed.item)
    }

    /// Lets all frames go.
    pub(crate) fn clear(&mut self)
        ensures { self.new ≡ no_batch }
    {
        self.bytes.clear();
        self.framed.clear();
    }
}
