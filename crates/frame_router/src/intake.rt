//! What a pump takes in.

ghost use Rattle.std.specs.Prelude.{◌≡◌, ◌<◌, ◌≤◌, [], length, take, List, IfOk, OnErr, OnOk};
ghost use Rattle.hdlc_frame.specs.Found.{FrameParts};
ghost use Rattle.hdlc_frame.specs.Found.Found.{frame};
ghost use Rattle.hdlc_frame.specs.Lent.{found_of};
ghost use Rattle.frame_router.specs.declared.fate.Fate.{Fate};
ghost use Rattle.frame_router.specs.declared.port.Port.{Port};
ghost use Rattle.frame_router.specs.declared.routes.Route.{Route};
ghost use Rattle.frame_router.specs.Gathered.{GathersOn, HasCounted, lane_of, with_passing};
ghost use Rattle.frame_router.specs.Routed.{BringsFrame};

use crate::batch::Batch;
use crate::fate::Fate;
use crate::lane::LARGEST_CONTENT;
use crate::{Port, Routes, Tally};
use hdlc_frame::{Decoder, Got};
use std::alloc::{AllocError, Global};
use std::marker::Model;

/// What comes from one side: the segment that is open, and how those before it were counted.
#[derive(Drop)]
pub(crate) struct Intake {
    decoder: Decoder,
    tally: Tally,
}

impl Model for Intake {
    ghost use Rattle.frame_router.specs.Gathered.{IntakeView};

    ghost Value = { IntakeView };

    ghost view = { λ i. record { reading = i.decoder; tally = i.tally } };
}

// Adds what was found to the batch, where it is a frame that passes.
fn gather(batch: &mut Batch, fate: Fate, got: &Got<'_>, before: Tally) -> Result<(), AllocError>
    ensures ok { OnOk result (batch.new ≡ with_passing fate (found_of got.now) before batch.old) }
    ensures err { OnErr result (batch.new ≡ batch.old) }
    ensures passing { OnErr result ((fate ≡ Fate.Passes) × (f : FrameParts) × (found_of got.now ≡ frame f)) }
{
    match (fate, got) {
        (Fate::Passes, Got::Frame(frame)) => batch.push(frame, before),
        _ => Ok(()),
    }
}

impl Intake {
    /// Nothing came yet. It takes the decoder's buffer here.
    pub(crate) fn new(alloc: Global) -> Result<Intake, AllocError>
        ensures { IfOk result (λ intake. (routes : List Route) (from : Port) → HasCounted routes from intake []) }
    {
        Ok(Intake {
            decoder: Decoder::new(alloc, LARGEST_CONTENT)?,
            tally: Tally::none(),
        })
    }

    /// Takes bytes up to and with the first flag that ends a segment, else the whole piece. A frame that passes goes into the
    /// batch. Where there is no memory for it, it is counted nowhere, and the batch stays as it was.
    pub(crate) fn feed(
        &mut self,
        routes: &Routes,
        from: Port,
        piece: &[u8],
        batch: &mut Batch,
    ) -> Result<usize, AllocError>
        ensures taken { IfOk result (λ taken. taken ≤ length piece.now) }
        ensures progress { IfOk result (λ taken. 0 < length piece.now → 0 < taken) }
        ensures on { IfOk result (λ taken. GathersOn routes.now from self.old batch.old self.new batch.new (take taken piece.now)) }
        ensures brings { OnErr result (BringsFrame routes.now from (lane_of self.old) piece.now) }
        ensures batch { OnErr result (batch.new ≡ batch.old) }
        ensures tally { OnErr result (self.new.tally ≡ self.old.tally) }
    {
        let pushed = self.decoder.push(piece);
        let taken = pushed.taken;
        let Some(got) = pushed.got else {
            return Ok(taken);
        };
        let fate = Fate::of(routes, from, &got);
        gather(batch, fate, &got, self.tally)?;
        self.tally = self.tally.with(fate, true);
        Ok(taken)
    }

    /// How the segments were counted.
    pub(crate) fn tally(&self) -> Tally
        ensures { result ≡ self.now.tally }
    {
        self.tally
    }
}
