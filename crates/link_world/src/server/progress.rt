//! How much of a resource a session has made whole.
ghost use Rattle.std.specs.Prelude.{◌≡◌};
ghost use Rattle.rpc_journal.specs.StoreSteps.{after_act, after_item, after_out};
ghost use Rattle.link_laws.specs.world.Committed.{begins_at, committed, grows_by, is_left, is_whole, progress_steps};

use rpc_handlers::Out;
use rpc_journal::{Act, Item};
use std::marker::Model;

// Of the work of one session: its end so far, where it is under way, and the end of the first work that was committed.
#[derive(Drop)]
struct Progress {
    end: Option<u64>,
    whole: Option<u64>,
}

impl Model for Progress {
    ghost use Rattle.link_laws.specs.world.Committed.{Progress as WorkProgress};

    ghost Value = { WorkProgress };

    ghost view = { λ p. record { end = p.end; whole = p.whole } };
}

impl Progress {
    fn begin(&mut self, offset: u64)
        ensures { self.new ≡ begins_at offset self.old }
    {
        self.end = Some(offset);
    }

    fn append(&mut self, count: usize)
        ensures { self.new ≡ grows_by count self.old }
    {
        self.end = match self.end {
            Some(end) => Some(end.saturating_add(count as u64)),
            None => None,
        };
    }

    fn commit(&mut self)
        ensures { self.new ≡ is_whole self.old }
    {
        if self.whole.is_none() {
            self.whole = self.end;
        }
        self.end = None;
    }

    fn leave(&mut self)
        ensures { self.new ≡ is_left self.old }
    {
        self.end = None;
    }

    // What an item does to the work of a session of a call.
    fn take(&mut self, call: u32, session: u32, item: &Item)
        ensures { self.new ≡ after_item (progress_steps call session) item.now.call item.now.act self.old }
    {
        if let Some(of) = item.call {
            self.act(of, call, session, &item.act);
        }
    }

    fn act(&mut self, of: u32, call: u32, session: u32, act: &Act)
        ensures { self.new ≡ after_act (progress_steps call session) act.now of self.old }
    {
        match act {
            Act::Send(_) => {}
            Act::Keep(out) => self.keep(of, call, session, out),
            Act::LeaveCall => {
                if of == call {
                    self.leave();
                }
            }
        }
    }

    fn keep(&mut self, of: u32, call: u32, own: u32, out: &Out)
        ensures { self.new ≡ after_out (progress_steps call own) of out.now self.old }
    {
        match out {
            Out::Say(_) => {}
            Out::Begin {
                session,
                offset,
                ..
            } => {
                if of == call && *session == own {
                    self.begin(*offset);
                }
            }
            Out::Append { session, bytes } => {
                if of == call && *session == own {
                    self.append(bytes.len());
                }
            }
            Out::Commit { session } => {
                if of == call && *session == own {
                    self.commit();
                }
            }
            Out::Leave { session } => {
                if of == call && *session == own {
                    self.leave();
                }
            }
        }
    }
}

/// The length that a session of a call has committed among these items, if it has: the offset of its work with all bytes
/// appended to it.
pub fn committed(items: &[Item], session: u32, call: u32) -> Option<u64>
    ensures { result ≡ committed items.now session call }
{
    let mut progress = Progress {
        end: None,
        whole: None,
    };
    'items: for item in items {
        progress.take(call, session, item);
    }
    progress.whole
}
