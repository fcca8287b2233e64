ghost use Rattle.std.specs.Prelude.{◌≡◌, ◌↔◌, true, [], ◌∷◌, ◌++◌, OnOk, IfNone, option_to_list};
ghost use Rattle.link_script.specs.lossy.Link.{new_link, put, released};

use crate::Loss;
use crate::lossy::turning::turn_bit;
use bytes::Bytes;
use std::alloc::{AllocError, Global};
use std::collections::VecDeque;
use std::marker::Model;

/// One direction of a link. Frames are on it in order, and some may be kept back.
#[derive(Drop)]
pub struct LossyLink {
    frames: VecDeque<Bytes>,
    // The newest first.
    kept_back: VecDeque<Bytes>,
}

impl Model for LossyLink {
    ghost use Rattle.link_script.specs.lossy.Link.{Link};

    ghost Value = { Link };

    ghost view = { λ l. record { frames = l.frames.items; kept_back = l.kept_back.items } };
}

impl LossyLink {
    /// Without a frame.
    pub fn new(alloc: Global) -> LossyLink
        ensures { result ≡ new_link }
    {
        LossyLink {
            frames: VecDeque::new(alloc),
            kept_back: VecDeque::new(alloc),
        }
    }

    /// Puts a frame on the link, or does to it what a script says. After an `Err` the link is to be given up.
    pub fn put(&mut self, loss: Option<Loss>, mut frame: Vec<u8>) -> Result<(), AllocError>
        ensures { OnOk result (self.new ≡ put loss frame.items self.old) }
    {
        match loss {
            None => self.add(Bytes::from_vec(frame)?),
            Some(Loss::Lose) => Ok(()),
            Some(Loss::Repeat) => {
                let first = Bytes::from_vec(frame)?;
                let again = first.clone()?;
                self.frames.push_back(first)?;
                self.add(again)
            }
            Some(Loss::Swap) => {
                self.kept_back.push_front(Bytes::from_vec(frame)?)?;
                Ok(())
            }
            Some(Loss::Flip(bit)) => {
                turn_bit(&mut frame, bit);
                self.add(Bytes::from_vec(frame)?)
            }
        }
    }

    // Puts a frame on the link, and right behind it what is kept back.
    fn add(&mut self, frame: Bytes) -> Result<(), AllocError>
        ensures { OnOk result (self.new ≡ put None frame self.old) }
    {
        self.frames.push_back(frame)?;
        self.release()
    }

    /// Puts what is kept back on the link, the newest first. After an `Err` the link is to be given up.
    pub fn release(&mut self) -> Result<(), AllocError>
        ensures { OnOk result (self.new ≡ released self.old) }
    {
        'kept: while let Some(frame) = self.kept_back.pop_front() {
            self.frames.push_back(frame)?;
        }
        Ok(())
    }

    /// Takes the oldest frame off the link; `None` where none is on it.
    pub fn take_frame(&mut self) -> Option<Bytes>
        ensures frames { self.old.frames ≡ option_to_list result ++ self.new.frames }
        ensures none { IfNone result (self.old.frames ≡ []) }
        ensures kept_back { self.new.kept_back ≡ self.old.kept_back }
    {
        self.frames.pop_front()
    }

    /// Whether no frame is on the link. Some may be kept back.
    pub fn is_empty(&self) -> bool
        ensures { (result ≡ true) ↔ (self.now.frames ≡ []) }
    {
        self.frames.is_empty()
    }
}
