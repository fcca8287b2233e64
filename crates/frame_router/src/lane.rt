//! One direction of a router.

ghost use Rattle.std.specs.Prelude.{◌≡◌, ◌<◌, ◌≤◌, [], ◌++◌, true, false, length, take, nat_lt, is_err, List, IfOk, OnErr, OnOk, IsErr, IsNone};
ghost use Rattle.std.specs.Option.{option_to_list};
ghost use Rattle.hdlc_frame.specs.Found.{FrameParts};
ghost use Rattle.hdlc_frame.specs.Found.Found.{frame};
ghost use Rattle.hdlc_frame.specs.Lent.{found_of, parts_of};
ghost use Rattle.frame_router.specs.declared.port.Port.{Port};
ghost use Rattle.frame_router.specs.declared.routes.Route.{Route};
ghost use Rattle.frame_router.specs.Steps.{admitted};
ghost use Rattle.frame_router.specs.Fates.{frame_bytes};
ghost use Rattle.frame_router.specs.Routed.{BringsFrame, HasRouted, RoutesMore, StopsAtSegment};

use crate::fate::Fate;
use crate::{Port, Routes, Tally};
use bytes::Bytes;
use hdlc_frame::{Decoder, Frame, Got, encode_ui};
use std::alloc::{AllocError, Global};
use std::collections::VecDeque;
use std::marker::Model;

/// The most frames that wait for one side.
const MAX_WAITING: usize = 256;

/// The largest content of a frame, in bytes.
pub(crate) const LARGEST_CONTENT: usize = 8_192;

/// What comes from one side and waits for the other.
#[derive(Drop)]
pub(crate) struct Lane {
    decoder: Decoder,
    waiting: VecDeque<Bytes>,
    tally: Tally,
    has_failed: bool,
    alloc: Global,
}

impl Model for Lane {
    ghost use Rattle.std.specs.Prelude.{◌≤◌, length};
    ghost use Rattle.frame_router.specs.Routed.{LaneView};

    ghost Value = { LaneView };

    ghost view = { λ l. record { reading = l.decoder; waiting = l.waiting.items; tally = l.tally; failed = l.has_failed } };
}

// The frame as it goes on.
fn frame_of(alloc: Global, frame: &Frame<'_>) -> Result<Bytes, AllocError>
    ensures { IfOk result (λ bytes. bytes ≡ frame_bytes (parts_of frame.now)) }
{
    let mut bytes = Vec::new(alloc);
    encode_ui(frame.address, frame.payload, &mut bytes)?;
    Ok(Bytes::from_vec(bytes)?)
}

// Keeps a frame that passes, where there is room for it. Answers whether there was room.
fn admit(
    waiting: &mut VecDeque<Bytes>,
    alloc: Global,
    fate: Fate,
    got: &Got<'_>,
) -> Result<bool, AllocError>
    ensures room { IfOk result (λ room. room ≡ nat_lt (length waiting.old.items) 256) }
    ensures ok { OnOk result (waiting.new.items ≡ waiting.old.items ++ admitted fate (found_of got.now) (nat_lt (length waiting.old.items) 256)) }
    ensures err { OnErr result (waiting.new.items ≡ waiting.old.items) }
    ensures passing { OnErr result ((fate ≡ Fate.Passes) × (f : FrameParts) × (found_of got.now ≡ frame f)) }
{
    let has_room = waiting.len() < MAX_WAITING;
    if !has_room {
        return Ok(false);
    }
    match (fate, got) {
        (Fate::Passes, Got::Frame(frame)) => {
            waiting.push_back(frame_of(alloc, frame)?)?;
            Ok(true)
        }
        _ => Ok(true),
    }
}

impl Lane {
    /// Nothing came yet. It takes the decoder's buffer here.
    pub(crate) fn new(alloc: Global) -> Result<Lane, AllocError>
        ensures well { IfOk result (λ lane. lane.failed ≡ false) }
        ensures routed { IfOk result (λ lane. (routes : List Route) (from : Port) → HasRouted routes from lane [] [] []) }
    {
        Ok(Lane {
            decoder: Decoder::new(alloc, LARGEST_CONTENT)?,
            waiting: VecDeque::new(alloc),
            tally: Tally::none(),
            has_failed: false,
            alloc,
        })
    }

    /// Takes bytes up to and with the first flag that ends a segment, else the whole piece. Once memory was wanting for a
    /// frame, every call is refused.
    pub(crate) fn feed(
        &mut self,
        routes: &Routes,
        from: Port,
        piece: &[u8],
    ) -> Result<usize, AllocError>
        ensures refused { self.old.failed ≡ true → IsErr result }
        ensures same { self.old.failed ≡ true → self.new ≡ self.old }
        ensures fails { self.new.failed ≡ is_err result }
        ensures taken { IfOk result (λ taken. taken ≤ length piece.now) }
        ensures progress { IfOk result (λ taken. 0 < length piece.now → 0 < taken) }
        ensures routes { IfOk result (λ taken. RoutesMore routes.now from self.old self.new (take taken piece.now)) }
        ensures stops { IfOk result (λ taken. StopsAtSegment self.old piece.now taken) }
        ensures passing { OnErr result (self.old.failed ≡ false → BringsFrame routes.now from self.old piece.now) }
        ensures waiting { OnErr result (self.new.waiting ≡ self.old.waiting) }
        ensures tally { OnErr result (self.new.tally ≡ self.old.tally) }
    {
        if self.has_failed {
            return Err(AllocError);
        }
        let pushed = self.decoder.push(piece);
        let taken = pushed.taken;
        let Some(got) = pushed.got else {
            return Ok(taken);
        };
        let fate = Fate::of(routes, from, &got);
        match admit(&mut self.waiting, self.alloc, fate, &got) {
            Ok(has_room) => {
                self.tally = self.tally.with(fate, has_room);
                Ok(taken)
            }
            Err(error) => {
                self.has_failed = true;
                Err(error)
            }
        }
    }

    /// The frame that waits longest.
    pub(crate) fn next(&mut self) -> Option<Bytes>
        ensures front { self.old.waiting ≡ option_to_list result ++ self.new.waiting }
        ensures none { IsNone result → self.old.waiting ≡ [] }
        ensures rest { self.new ≡ record self.old { waiting = self.new.waiting } }
    {
        self.waiting.pop_front()
    }

    /// How the segments were counted.
    pub(crate) fn tally(&self) -> Tally
        ensures { result ≡ self.now.tally }
    {
        self.tally
    }
}
