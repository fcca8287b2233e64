//! What calls leave in a journal, without a table.
ghost use Rattle.std.specs.Prelude.{◌<◌};

use super::fed::{Sent, sent_packet};
use bytes::Bytes;
use rpc_handlers::{Answer, End, Outs};
use rpc_ids::Status;
use rpc_journal::{Act, Entry, EntryKind, Item, Journal};
use std::alloc::{AllocError, Global};
use std::collections::VecDeque;

/// A journal and a queue of items, which hold what a table's hold after calls of Echo that were opened and closed, and as much room.
#[derive(Drop)]
pub struct Written {
    journal: Journal,
    items: VecDeque<Item>,
}

// How many entries a table keeps room for, where so many calls were closed and one runs.
fn entries_owed(closed: u32) -> u64
    ensures { 0 < result }
{
    3 * u64::from(closed) + 520
}

// How many items a table keeps room for, where so many calls were closed and one runs.
fn items_owed(closed: u32) -> usize
    ensures { 0 < result }
{
    2 * closed as usize + 515
}

impl Written {
    /// Nothing.
    pub fn new(alloc: Global) -> Written {
        Written {
            journal: Journal::new(alloc),
            items: VecDeque::new(alloc),
        }
    }

    /// How many entries there are.
    pub fn len(&self) -> u64 {
        self.journal.len()
    }

    // One more entry, behind so many calls that were closed.
    fn write(&mut self, closed: u32, seat: u32, kind: EntryKind) -> Result<(), AllocError> {
        self.journal.reserve(entries_owed(closed))?;
        self.journal.push(Entry { seat, kind });
        Ok(())
    }

    // An item waits and goes out.
    fn pass_item(&mut self, closed: u32) -> Result<(), AllocError> {
        let more = items_owed(closed);
        let free = self.items.capacity() - self.items.len();
        if free < more {
            let doubled = free.saturating_add(self.items.capacity());
            self.items.reserve(more.max(doubled))?;
        }
        self.items.push_back(Item {
            call: Some(closed),
            act: Act::LeaveCall,
        })?;
        let _ = self.items.pop_front();
        Ok(())
    }

    /// The entries of one more call, which is opened, answered and flushed.
    pub fn write_call(&mut self, alloc: Global, call: u32) -> Result<(), AllocError> {
        let request = sent_packet(Sent::Echo, call);
        self.write(call, 0, EntryKind::Arrive(request))?;
        self.write(call, 2, EntryKind::Start(call))?;
        let answer = Answer {
            items: Outs::new(alloc),
            end: Some(End {
                status: Status::Okay,
                payload: Bytes::from_static(b"12345678"),
            }),
        };
        self.write(call, 2, EntryKind::Finish(call, answer))?;
        self.pass_item(call)?;
        self.write(call, 1, EntryKind::Flush)
    }
}
