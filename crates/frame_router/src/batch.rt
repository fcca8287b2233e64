//! Frames that go out together.

ghost use Rattle.std.specs.Prelude.{◌≡◌, OnOk, OnErr};
ghost use Rattle.hdlc_frame.specs.Lent.{parts_of};
ghost use Rattle.frame_router.specs.Fates.{frame_bytes};
ghost use Rattle.frame_router.specs.Gathered.{no_batch, tally_before, with_frame};

use crate::Tally;
use hdlc_frame::{Frame, encode_ui};
use std::alloc::{AllocError, Global};
use std::marker::Model;

/// Where a frame begins in a batch, and how the segments before it were counted.
#[derive(Clone, Copy)]
pub(crate) struct Mark {
    pub start: usize,
    pub before: Tally,
}

/// The frames that pass of what one read brought, as they go on, one behind the other. Its memory is kept for the next read.
#[derive(Drop)]
pub(crate) struct Batch {
    bytes: Vec<u8>,
    marks: Vec<Mark>,
}

impl Model for Batch {
    ghost use Rattle.frame_router.specs.Gathered.{BatchView};

    ghost Value = { BatchView };

    ghost view = { λ b. record { bytes = b.bytes.items; marks = b.marks.items } };
}

impl Batch {
    /// No frame.
    pub(crate) fn new(alloc: Global) -> Batch
        ensures { result ≡ no_batch }
    {
        Batch {
            bytes: Vec::new(alloc),
            marks: Vec::new(alloc),
        }
    }

    /// Adds a frame, before which the segments were counted so. Want of memory leaves the batch as it was.
    pub(crate) fn push(&mut self, frame: &Frame<'_>, before: Tally) -> Result<(), AllocError>
        ensures ok { OnOk result (self.new ≡ with_frame (frame_bytes (parts_of frame.now)) before self.old) }
        ensures err { OnErr result (self.new ≡ self.old) }
    {
        let start = self.bytes.len();
        self.marks.reserve(1)?;
        encode_ui(frame.address, frame.payload, &mut self.bytes)?;
        self.marks.push_reserved(Mark { start, before });
        Ok(())
    }

    /// What goes out.
    pub(crate) fn bytes(&self) -> &[u8]
        ensures { result.now ≡ self.now.bytes }
    {
        &self.bytes
    }

    /// How the segments before the frame with the byte at this place were counted; `all` where no frame is there.
    pub(crate) fn tally_before(&self, at: usize, all: Tally) -> Tally
        ensures { result ≡ tally_before self.now.marks at all }
    {
        tally_before(&self.marks, at, all)
    }

    /// Lets all frames go.
    pub(crate) fn clear(&mut self)
        ensures { self.new ≡ no_batch }
    {
        self.bytes.clear();
        self.marks.clear();
    }
}

fn tally_before(marks: &[Mark], at: usize, all: Tally) -> Tally
    ensures { result ≡ tally_before marks.now at all }
{
    let mut tally = all;
    'marks: for mark in marks {
        if mark.start <= at {
            tally = mark.before;
        }
    }
    tally
}
