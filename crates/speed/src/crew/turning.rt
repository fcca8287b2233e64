//! Calls that turn a number over and over.
ghost use mathlib.Core.Bool.{false≢true};
ghost use Rattle.std.specs.Prelude.{◌≡◌, [], Some, false};
ghost use Rattle.rpc_handlers.specs.HandlerRule.{empty_memo};
ghost use Rattle.rpc_ids.specs.declared.status.Status.TheVariants.{Okay};

use bytes::Bytes;
use rpc_frames::write_frame;
use rpc_handlers::{Acts, Answer, End, Event, Handler, Maker, Memo, Outs, Parts, Words};
use rpc_ids::{Kind, MethodRef, Registry, Status, hash_name};
use rpc_packet::{CallName, Packet, PacketType};
use std::alloc::{AllocError, Global};

const SERVICE: &[u8] = b"bench.Bench";

const METHOD: &[u8] = b"Turn";

/// A registry with the one method.
pub fn turn_alone(alloc: Global) -> anyhow::Result<Registry> {
    let mut registry = Registry::new(alloc);
    registry.add(SERVICE, METHOD, Kind::Unary, false)?;
    Ok(registry)
}

/// The frames of so many calls, each with a call id of its own, from 1.
pub fn turn_calls(alloc: Global, count: u32) -> Result<Vec<u8>, AllocError> {
    let mut stream = Vec::new(alloc);
    for before in 0..count {
        let request = Packet {
            ptype: PacketType::Request,
            name: CallName {
                channel: 1,
                service: hash_name(SERVICE),
                method: hash_name(METHOD),
                call: before + 1,
            },
            payload: Bytes::new(),
            status: 0,
        };
        write_frame(alloc, &request, &mut stream)?;
    }
    Ok(stream)
}

/// Turns its number at each event, and ends its call.
#[derive(Drop)]
pub struct Turner {
    alloc: Global,
    rounds: u32,
    number: u64,
}

fn turned(number: u64, rounds: u32) -> u64 {
    let mut turned = number;
    for _ in 0..rounds {
        turned ^= turned.wrapping_shl(13);
        turned ^= turned.wrapping_shr(7);
        turned ^= turned.wrapping_shl(17);
    }
    turned
}

fn no_memo(alloc: Global) -> Memo
    ensures { result ≡ empty_memo }
{
    Memo {
        words: Words::new(alloc),
        parts: Parts::new(alloc),
    }
}

impl Acts for Turner {
    ghost can_act = { λ _. Unit {0} };

    ghost now = { λ _. empty_memo };

    ghost gives = { λ _ _. record { items = []; end = Some (record { status = Okay; payload = [] }) } };

    ghost moves = { λ _ _. empty_memo };

    fn on(&mut self, ev: &Event) -> Result<Answer, AllocError> {
        let _ = ev;
        self.number = turned(self.number, self.rounds);
        Ok(Answer {
            items: Outs::new(self.alloc),
            end: Some(End {
                status: Status::Okay,
                payload: Bytes::new(),
            }),
        })
    }

    fn memo(&self) -> Result<Memo, AllocError> {
        Ok(no_memo(self.alloc))
    }
}

impl Handler for Turner {
    ghost rule = { record { ruled = false; answer = λ _ _. record { items = []; end = Some (record { status = Okay; payload = [] }) }; next = λ _ _. empty_memo; first = λ _ _. empty_memo } };

    ghost answers_by_rule = { λ ruled. absurd (false≢true ruled) };

    ghost moves_by_rule = { λ ruled. absurd (false≢true ruled) };
}

/// Makes handlers whose numbers begin at 1.
#[derive(Drop)]
pub struct Turners {
    pub alloc: Global,
    /// How often each turns its number at an event.
    pub rounds: u32,
}

impl Maker for Turners {
    type H = Turner;

    ghost seed_memo = { λ _. empty_memo };

    fn seed(&self) -> Result<Memo, AllocError> {
        Ok(no_memo(self.alloc))
    }

    fn make(&self, m: MethodRef) -> Result<Turner, AllocError> {
        let _ = m;
        Ok(Turner {
            alloc: self.alloc,
            rounds: self.rounds,
            number: 1,
        })
    }
}
