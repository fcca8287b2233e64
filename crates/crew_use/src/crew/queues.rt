//! A reader that finds a queue full.
ghost use mathlib.Core.Bool.{false≢true};
ghost use Rattle.std.specs.Prelude.{[], None, false};
ghost use Rattle.rpc_handlers.specs.HandlerRule.{empty_memo};

use super::{heard, no_memo, number_is, serve_by, sink, source, why_is, wrote};
use bytes::Bytes;
use link_io::{Still, Why};
use rpc_crew::Gate;
use rpc_frames::write_frame;
use rpc_handlers::{Acts, Answer, Event, Handler, Maker, Memo, Outs};
use rpc_ids::{Kind, MethodRef, Registry, hash_name};
use rpc_packet::{CallName, Packet, PacketType};
use std::alloc::{AllocError, Global};
use std::test::Fail;
use std::thread;
use std::time::{Clock, Duration};

// Answers nothing, and leaves its call open.
#[derive(Drop)]
struct Mute {
    alloc: Global,
}

impl Acts for Mute {
    ghost can_act = { λ _. Unit {0} };

    ghost now = { λ _. empty_memo };

    ghost gives = { λ _ _. record { items = []; end = None } };

    ghost moves = { λ _ _. empty_memo };

    fn on(&mut self, ev: &Event) -> Result<Answer, AllocError> {
        let _ = ev;
        Ok(Answer {
            items: Outs::new(self.alloc),
            end: None,
        })
    }

    fn memo(&self) -> Result<Memo, AllocError> {
        Ok(no_memo(self.alloc))
    }
}

impl Handler for Mute {
    ghost rule = { record { ruled = false; answer = λ _ _. record { items = []; end = None }; next = λ _ _. empty_memo; first = λ _ _. empty_memo } };

    ghost answers_by_rule = { λ ruled. absurd (false≢true ruled) };

    ghost moves_by_rule = { λ ruled. absurd (false≢true ruled) };
}

// Makes them.
#[derive(Drop)]
struct Mutes {
    alloc: Global,
}

impl Maker for Mutes {
    type H = Mute;

    ghost seed_memo = { λ _. empty_memo };

    fn seed(&self) -> Result<Memo, AllocError> {
        Ok(no_memo(self.alloc))
    }

    fn make(&self, m: MethodRef) -> Result<Mute, AllocError> {
        let _ = m;
        Ok(Mute { alloc: self.alloc })
    }
}

// Makes each run take a millisecond.
#[derive(Drop)]
struct Slow<'a, R> {
    rt: &'a R,
}

impl<'a, R: Clock> Gate for Slow<'a, R> {
    fn before(&self, _call: u32) {
        thread::sleep(self.rt, Duration::from_millis(1));
    }

    fn after(&self, _call: u32) {}
}

fn chat_alone(alloc: Global) -> Result<Registry, Fail> {
    let mut registry = Registry::new(alloc);
    registry.add(b"demo.Demo", b"Chat", Kind::Bidi, false)?;
    Ok(registry)
}

// The request of one call of Chat, and so many messages to it.
fn chat(alloc: Global, messages: u32) -> Result<Vec<u8>, AllocError> {
    let mut stream = Vec::new(alloc);
    for sent in 0..messages.saturating_add(1) {
        let packet = Packet {
            ptype: if sent == 0 {
                PacketType::Request
            } else {
                PacketType::ClientStream
            },
            name: CallName {
                channel: 1,
                service: hash_name(b"demo.Demo"),
                method: hash_name(b"Chat"),
                call: 1,
            },
            payload: Bytes::new(),
            status: 0,
        };
        write_frame(alloc, &packet, &mut stream)?;
    }
    Ok(stream)
}

#[test]
fn no_packet_is_lost_where_a_queue_is_full(rt: HostRuntime) -> Result<(), Fail> {
    let alloc = rt.alloc();
    let registry = chat_alone(alloc)?;
    let mut link_in = source(alloc, chat(alloc, 300)?);
    let mut link_out = sink(alloc, &[])?;
    let did = serve_by(
        &rt,
        alloc,
        &mut link_in,
        &mut link_out,
        registry,
        &Mutes { alloc },
        2,
        &mut Still::new(),
        &Slow { rt: &rt },
    )?;
    why_is(&rt, did, Why::Settled);
    heard(&rt, did, 301);
    // Each of 301 packets arrived, and so did the end of the input; the event of each had a Start and a Finish.
    number_is(&rt, did.entries, 906);
    wrote(&rt, &link_out, 0);
    Ok(())
}
