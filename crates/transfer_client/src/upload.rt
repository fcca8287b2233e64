//! What a client does that writes a resource.
ghost use Rattle.std.specs.Prelude.{◌≡◌, ◌++◌, ◌≤◌, length, None, OnOk};
ghost use Rattle.transfer_base.specs.declared.limits.TheConstants.{MAX_RESOURCE};
ghost use Rattle.transfer_client.specs.Write as spec;
ghost use Rattle.transfer_words.specs.Saying.{outs_of};
ghost use Rattle.transfer_words.specs.Word.{lent_word};

use crate::machine::Machine;
use crate::stages::{Wait, Writing, end_by_call};
use bytes::Bytes;
use rpc_handlers::Outs;
use rpc_ids::Status;
use std::alloc::{AllocError, Global};
use std::marker::Model;
use transfer_base::{Ask, deadline_after};
use transfer_sender::SenderCore;
use transfer_words::{WordRef, say, say_pieces};

// The confirmation of a write asks for nothing.
const NO_ASK: Ask = Ask {
    again: true,
    offset: 0,
    window_end: 0,
    max_chunk: 0,
};

/// The write of one resource.
#[derive(Debug, Drop)]
pub struct Upload {
    resource: u32,
    bytes: Bytes,
    asked: u64,
    agreed: Option<u64>,
    stage: Writing,
}

impl Model for Upload {
    ghost use Rattle.transfer_client.specs.Write.{IsUpload, Upload};

    ghost Value = { Upload };

    ghost view = { λ u. record { resource = u.resource; bytes = u.bytes; asked = u.asked; agreed = u.agreed; stage = u.stage } };

    ghost invariant = { λ u. IsUpload (record { resource = u.resource; bytes = u.bytes; asked = u.asked; agreed = u.agreed; stage = u.stage }) };
}

impl Upload {
    /// The write of a resource with these bytes, from `offset` on, in bytes.
    pub fn new(resource: u32, bytes: Bytes, offset: u64) -> Upload
        requires size { length bytes ≤ MAX_RESOURCE }
        requires within { offset ≤ length bytes }
        ensures { result ≡ spec.new_upload resource bytes offset }
    {
        Upload {
            resource,
            bytes,
            asked: offset,
            agreed: None,
            stage: Writing::Unasked,
        }
    }

    /// Where both ends begin, in bytes: what was agreed, or asked where nothing was.
    pub fn offset(&self) -> u64
        ensures { result ≡ spec.write_offset self.now }
    {
        self.agreed.unwrap_or(self.asked)
    }

    fn ask(
        &mut self,
        alloc: Global,
        session: u32,
        outs: &mut Outs,
        wait: Wait,
    ) -> Result<(), AllocError>
        ensures after { OnOk result (self.new ≡ (spec.asks self.old wait).after) }
        ensures outs { OnOk result (outs.new ≡ outs.old ++ outs_of session (spec.asks self.old wait).sayings) }
    {
        let word = WordRef::Start {
            resource: self.resource,
            offset: self.asked,
        };
        say(alloc, outs, session, word)?;
        self.stage = Writing::Asking(wait);
        Ok(())
    }

    fn confirm(
        &mut self,
        alloc: Global,
        session: u32,
        outs: &mut Outs,
        wait: Wait,
    ) -> Result<(), AllocError>
        ensures after { OnOk result (self.new ≡ (spec.confirms self.old wait).after) }
        ensures outs { OnOk result (outs.new ≡ outs.old ++ outs_of session (spec.confirms self.old wait).sayings) }
    {
        say(alloc, outs, session, WordRef::Confirmation(NO_ASK))?;
        self.stage = Writing::Confirming(wait);
        Ok(())
    }

    fn hear_asking(
        &mut self,
        alloc: Global,
        session: u32,
        outs: &mut Outs,
        wait: Wait,
        word: WordRef<'_>,
        now: u64,
    ) -> Result<(), AllocError>
        ensures after { OnOk result (self.new ≡ (spec.asking_hears self.old wait (lent_word word.entry) now).after) }
        ensures outs { OnOk result (outs.new ≡ outs.old ++ outs_of session (spec.asking_hears self.old wait (lent_word word.entry) now).sayings) }
    {
        match word {
            WordRef::StartAck { offset } => self.agree(alloc, session, outs, offset, now),
            WordRef::Completion(status) => self.complete(alloc, session, outs, status),
            WordRef::Start { .. }
            | WordRef::Confirmation(_)
            | WordRef::Parameters(_)
            | WordRef::Data { .. }
            | WordRef::CompletionAck => {
                self.stage = Writing::Asking(wait.touched(now));
                Ok(())
            }
        }
    }

    // The service agrees to an offset.
    fn agree(
        &mut self,
        alloc: Global,
        session: u32,
        outs: &mut Outs,
        offset: u64,
        now: u64,
    ) -> Result<(), AllocError>
        ensures after { OnOk result (self.new ≡ (spec.agrees self.old offset now).after) }
        ensures outs { OnOk result (outs.new ≡ outs.old ++ outs_of session (spec.agrees self.old offset now).sayings) }
    {
        if self.asked < offset {
            let word = WordRef::Completion(Status::OutOfRange);
            say(alloc, outs, session, word)?;
            self.stage = Writing::Over(Status::OutOfRange);
            return Ok(());
        }
        self.agreed = Some(offset);
        self.confirm(alloc, session, outs, Wait::new(now))
    }

    // The service tells an end.
    fn complete(
        &mut self,
        alloc: Global,
        session: u32,
        outs: &mut Outs,
        status: Status,
    ) -> Result<(), AllocError>
        ensures after { OnOk result (self.new ≡ (spec.completed self.old status).after) }
        ensures outs { OnOk result (outs.new ≡ outs.old ++ outs_of session (spec.completed self.old status).sayings) }
    {
        say(alloc, outs, session, WordRef::CompletionAck)?;
        self.stage = Writing::Over(status);
        Ok(())
    }

    fn hear_confirming(
        &mut self,
        alloc: Global,
        session: u32,
        outs: &mut Outs,
        wait: Wait,
        word: WordRef<'_>,
        now: u64,
    ) -> Result<(), AllocError>
        ensures after { OnOk result (self.new ≡ (spec.confirming_hears self.old wait (lent_word word.entry) now).after) }
        ensures outs { OnOk result (outs.new ≡ outs.old ++ outs_of session (spec.confirming_hears self.old wait (lent_word word.entry) now).sayings) }
    {
        match word {
            WordRef::Parameters(ask) => {
                let sender = SenderCore::new(self.bytes.clone()?, self.offset(), now);
                self.send(alloc, session, outs, sender, ask, now)
            }
            WordRef::Completion(status) => self.complete(alloc, session, outs, status),
            WordRef::Start { .. }
            | WordRef::StartAck { .. }
            | WordRef::Confirmation(_)
            | WordRef::Data { .. }
            | WordRef::CompletionAck => {
                self.stage = Writing::Confirming(wait.touched(now));
                Ok(())
            }
        }
    }

    fn hear_sending(
        &mut self,
        alloc: Global,
        session: u32,
        outs: &mut Outs,
        mut sender: SenderCore,
        word: WordRef<'_>,
        now: u64,
    ) -> Result<(), AllocError>
        requires { sender.ended ≡ None }
        ensures after { OnOk result (self.new ≡ (spec.sending_hears self.old sender (lent_word word.entry) now).after) }
        ensures outs { OnOk result (outs.new ≡ outs.old ++ outs_of session (spec.sending_hears self.old sender (lent_word word.entry) now).sayings) }
    {
        match word {
            WordRef::Parameters(ask) => self.send(alloc, session, outs, sender, ask, now),
            WordRef::Completion(status) => self.complete(alloc, session, outs, status),
            WordRef::Start { .. }
            | WordRef::StartAck { .. }
            | WordRef::Confirmation(_)
            | WordRef::Data { .. }
            | WordRef::CompletionAck => {
                sender.touch(now);
                self.stage = Writing::Sending(sender);
                Ok(())
            }
        }
    }

    // Answers parameters.
    fn send(
        &mut self,
        alloc: Global,
        session: u32,
        outs: &mut Outs,
        mut sender: SenderCore,
        ask: Ask,
        now: u64,
    ) -> Result<(), AllocError>
        requires { sender.ended ≡ None }
        ensures after { OnOk result (self.new ≡ (spec.sends self.old sender ask now).after) }
        ensures outs { OnOk result (outs.new ≡ outs.old ++ outs_of session (spec.sends self.old sender ask now).sayings) }
    {
        let pieces = sender.params(alloc, ask, now)?;
        if let Some(status) = sender.end() {
            say(alloc, outs, session, WordRef::Completion(status))?;
            self.stage = Writing::Over(status);
            return Ok(());
        }
        say_pieces(alloc, outs, session, pieces.as_slice())?;
        self.stage = Writing::Sending(sender);
        Ok(())
    }

    fn tick_sending(
        &mut self,
        alloc: Global,
        session: u32,
        outs: &mut Outs,
        mut sender: SenderCore,
        now: u64,
    ) -> Result<(), AllocError>
        requires stage { self.old.stage ≡ Writing.Sending sender }
        requires going { sender.ended ≡ None }
        ensures after { OnOk result (self.new ≡ (spec.ticks_at self.old (Writing.Sending sender) now).after) }
        ensures outs { OnOk result (outs.new ≡ outs.old ++ outs_of session (spec.ticks_at self.old (Writing.Sending sender) now).sayings) }
    {
        if let Some(status) = sender.tick(now) {
            say(alloc, outs, session, WordRef::Completion(status))?;
            self.stage = Writing::Over(status);
            return Ok(());
        }
        self.stage = Writing::Sending(sender);
        Ok(())
    }

    fn tick_asking(
        &mut self,
        alloc: Global,
        session: u32,
        outs: &mut Outs,
        wait: Wait,
        now: u64,
    ) -> Result<(), AllocError>
        requires { self.old.stage ≡ Writing.Asking wait }
        ensures after { OnOk result (self.new ≡ (spec.ticks_at self.old (Writing.Asking wait) now).after) }
        ensures outs { OnOk result (outs.new ≡ outs.old ++ outs_of session (spec.ticks_at self.old (Writing.Asking wait) now).sayings) }
    {
        if !wait.is_late(now) {
            return Ok(());
        }
        match wait.again(now) {
            Some(wait) => self.ask(alloc, session, outs, wait),
            None => {
                self.stage = Writing::Over(Status::DeadlineExceeded);
                Ok(())
            }
        }
    }

    fn tick_confirming(
        &mut self,
        alloc: Global,
        session: u32,
        outs: &mut Outs,
        wait: Wait,
        now: u64,
    ) -> Result<(), AllocError>
        requires { self.old.stage ≡ Writing.Confirming wait }
        ensures after { OnOk result (self.new ≡ (spec.ticks_at self.old (Writing.Confirming wait) now).after) }
        ensures outs { OnOk result (outs.new ≡ outs.old ++ outs_of session (spec.ticks_at self.old (Writing.Confirming wait) now).sayings) }
    {
        if !wait.is_late(now) {
            return Ok(());
        }
        match wait.again(now) {
            Some(wait) => self.confirm(alloc, session, outs, wait),
            None => {
                self.stage = Writing::Over(Status::DeadlineExceeded);
                Ok(())
            }
        }
    }
}

impl Machine for Upload {
    ghost rules = { spec.write_rules };

    fn copy(&self) -> Result<Upload, AllocError> {
        Ok(Upload {
            resource: self.resource,
            bytes: self.bytes.clone()?,
            asked: self.asked,
            agreed: self.agreed,
            stage: self.stage.clone()?,
        })
    }

    fn end(&self) -> Option<Status> {
        match &self.stage {
            Writing::Over(status) => Some(*status),
            Writing::Unasked | Writing::Asking(_) | Writing::Confirming(_) | Writing::Sending(_) =>
                None,
        }
    }

    fn deadline(&self) -> Option<u64> {
        match &self.stage {
            Writing::Asking(wait) | Writing::Confirming(wait) => {
                Some(deadline_after(wait.active))
            }
            Writing::Sending(sender) => Some(sender.deadline()),
            Writing::Unasked | Writing::Over(_) => None,
        }
    }

    fn open(
        &mut self,
        alloc: Global,
        session: u32,
        outs: &mut Outs,
        now: u64,
    ) -> Result<(), AllocError> {
        match &self.stage {
            Writing::Unasked => self.ask(alloc, session, outs, Wait::new(now)),
            Writing::Asking(_) | Writing::Confirming(_) | Writing::Sending(_) | Writing::Over(_) =>
                Ok(()),
        }
    }

    fn hear(
        &mut self,
        alloc: Global,
        session: u32,
        outs: &mut Outs,
        word: WordRef<'_>,
        now: u64,
    ) -> Result<(), AllocError> {
        match &self.stage {
            Writing::Asking(wait) => {
                let wait = *wait;
                self.hear_asking(alloc, session, outs, wait, word, now)
            }
            Writing::Confirming(wait) => {
                let wait = *wait;
                self.hear_confirming(alloc, session, outs, wait, word, now)
            }
            Writing::Sending(sender) => {
                let sender = sender.clone()?;
                self.hear_sending(alloc, session, outs, sender, word, now)
            }
            Writing::Unasked | Writing::Over(_) => Ok(()),
        }
    }

    fn close(&mut self, _session: u32, _outs: &mut Outs, status: Status) -> Result<(), AllocError> {
        match &self.stage {
            Writing::Over(_) => {}
            Writing::Unasked | Writing::Asking(_) | Writing::Confirming(_) | Writing::Sending(_) =>
                {
                    self.stage = Writing::Over(end_by_call(status));
                }
        }
        Ok(())
    }

    fn tick(
        &mut self,
        alloc: Global,
        session: u32,
        outs: &mut Outs,
        now: u64,
    ) -> Result<(), AllocError> {
        match &self.stage {
            Writing::Asking(wait) => {
                let wait = *wait;
                self.tick_asking(alloc, session, outs, wait, now)
            }
            Writing::Confirming(wait) => {
                let wait = *wait;
                self.tick_confirming(alloc, session, outs, wait, now)
            }
            Writing::Sending(sender) => {
                let sender = sender.clone()?;
                self.tick_sending(alloc, session, outs, sender, now)
            }
            Writing::Unasked | Writing::Over(_) => Ok(()),
        }
    }
}
