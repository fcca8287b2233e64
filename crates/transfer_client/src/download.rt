//! What a client does that reads a resource.
ghost use Rattle.std.specs.Prelude.{◌≡◌, ◌++◌, ◌≤◌, false, OnOk};
ghost use Rattle.transfer_base.specs.declared.limits.TheConstants.{MAX_RESOURCE};
ghost use Rattle.transfer_client.specs.Read as spec;
ghost use Rattle.transfer_receiver.specs.Phase.{is_ended};
ghost use Rattle.transfer_words.specs.Saying.{outs_of};
ghost use Rattle.transfer_words.specs.Word.{lent_word};

use crate::machine::Machine;
use crate::stages::{Reading, Wait, end_by_call};
use rpc_handlers::{Out, Outs};
use rpc_ids::Status;
use std::alloc::{AllocError, Global};
use std::marker::Model;
use transfer_base::{Tuning, deadline_after};
use transfer_receiver::{Phase, ReceiverCore, Ticked};
use transfer_words::{WordRef, act_on_piece, act_on_tick, say};

/// The read of one resource.
#[derive(Debug, Drop)]
pub struct Download {
    resource: u32,
    asked: u64,
    tuning: Tuning,
    agreed: Option<u64>,
    stage: Reading,
}

impl Model for Download {
    ghost use Rattle.transfer_client.specs.Read.{Download, IsDownload};

    ghost Value = { Download };

    ghost view = { λ d. record { resource = d.resource; asked = d.asked; window = d.tuning.window; chunk = d.tuning.chunk; agreed = d.agreed; stage = d.stage } };

    ghost invariant = { λ d. IsDownload (record { resource = d.resource; asked = d.asked; window = d.tuning.window; chunk = d.tuning.chunk; agreed = d.agreed; stage = d.stage }) };
}

impl Download {
    /// The read of a resource from `offset` on, in bytes.
    pub fn new(resource: u32, offset: u64, tuning: Tuning) -> Download
        requires { offset ≤ MAX_RESOURCE }
        ensures { result ≡ spec.new_download resource offset tuning.window tuning.chunk }
    {
        Download {
            resource,
            asked: offset,
            tuning,
            agreed: None,
            stage: Reading::Unasked,
        }
    }

    /// Where both ends begin, in bytes: what was agreed, or asked where nothing was.
    pub fn offset(&self) -> u64
        ensures { result ≡ spec.read_offset self.now }
    {
        self.agreed.unwrap_or(self.asked)
    }

    fn ask(
        &mut self,
        alloc: Global,
        session: u32,
        outs: &mut Outs,
        wait: Wait,
    ) -> Result<(), AllocError>
        ensures after { OnOk result (self.new ≡ (spec.asks self.old wait).after) }
        ensures outs { OnOk result (outs.new ≡ outs.old ++ outs_of session (spec.asks self.old wait).sayings) }
    {
        let word = WordRef::Start {
            resource: self.resource,
            offset: self.asked,
        };
        say(alloc, outs, session, word)?;
        self.stage = Reading::Asking(wait);
        Ok(())
    }

    fn hear_asking(
        &mut self,
        alloc: Global,
        session: u32,
        outs: &mut Outs,
        wait: Wait,
        word: WordRef<'_>,
        now: u64,
    ) -> Result<(), AllocError>
        ensures after { OnOk result (self.new ≡ (spec.asking_hears self.old wait (lent_word word.entry) now).after) }
        ensures outs { OnOk result (outs.new ≡ outs.old ++ outs_of session (spec.asking_hears self.old wait (lent_word word.entry) now).sayings) }
    {
        match word {
            WordRef::StartAck { offset } => self.agree(alloc, session, outs, offset, now),
            WordRef::Completion(status) => {
                say(alloc, outs, session, WordRef::CompletionAck)?;
                self.stage = Reading::Over(status);
                Ok(())
            }
            WordRef::Start { .. }
            | WordRef::Confirmation(_)
            | WordRef::Parameters(_)
            | WordRef::Data { .. }
            | WordRef::CompletionAck => {
                self.stage = Reading::Asking(wait.touched(now));
                Ok(())
            }
        }
    }

    // The service agrees to an offset.
    fn agree(
        &mut self,
        alloc: Global,
        session: u32,
        outs: &mut Outs,
        offset: u64,
        now: u64,
    ) -> Result<(), AllocError>
        ensures after { OnOk result (self.new ≡ (spec.agrees self.old offset now).after) }
        ensures outs { OnOk result (outs.new ≡ outs.old ++ outs_of session (spec.agrees self.old offset now).sayings) }
    {
        if self.asked < offset {
            let word = WordRef::Completion(Status::OutOfRange);
            say(alloc, outs, session, word)?;
            self.stage = Reading::Over(Status::OutOfRange);
            return Ok(());
        }
        let receiver = ReceiverCore::new(offset, self.tuning, now);
        outs.push(Out::Begin {
            session,
            resource: self.resource,
            offset,
        })?;
        let word = WordRef::Confirmation(receiver.first());
        say(alloc, outs, session, word)?;
        self.agreed = Some(offset);
        self.stage = Reading::Receiving(receiver);
        Ok(())
    }

    fn hear_receiving(
        &mut self,
        alloc: Global,
        session: u32,
        outs: &mut Outs,
        receiver: ReceiverCore,
        word: WordRef<'_>,
        now: u64,
    ) -> Result<(), AllocError>
        requires stage { self.old.stage ≡ Reading.Receiving receiver }
        requires going { is_ended receiver.phase ≡ false }
        ensures after { OnOk result (self.new ≡ (spec.receiving_hears self.old receiver (lent_word word.entry) now).after) }
        ensures outs { OnOk result (outs.new ≡ outs.old ++ outs_of session (spec.receiving_hears self.old receiver (lent_word word.entry) now).sayings) }
    {
        match word {
            WordRef::Data {
                offset,
                bytes,
                last,
            } => {
                let mut receiver = receiver;
                let answer = receiver.piece(offset, bytes, last, now);
                act_on_piece(alloc, outs, session, bytes, answer)?;
                self.stage = Reading::Receiving(receiver);
                Ok(())
            }
            WordRef::Completion(status) => {
                self.complete(alloc, session, outs, receiver.phase(), status)
            }
            WordRef::CompletionAck => {
                if let Phase::Completing(status) = receiver.phase() {
                    self.stage = Reading::Over(status);
                }
                Ok(())
            }
            WordRef::Start { .. }
            | WordRef::StartAck { .. }
            | WordRef::Confirmation(_)
            | WordRef::Parameters(_) => Ok(()),
        }
    }

    // The service tells an end.
    fn complete(
        &mut self,
        alloc: Global,
        session: u32,
        outs: &mut Outs,
        phase: Phase,
        status: Status,
    ) -> Result<(), AllocError>
        ensures after { OnOk result (self.new ≡ (spec.completed self.old phase status).after) }
        ensures outs { OnOk result (outs.new ≡ outs.old ++ outs_of session (spec.completed self.old phase status).sayings) }
    {
        match phase {
            Phase::Completing(_) => say(alloc, outs, session, WordRef::CompletionAck),
            Phase::Receiving | Phase::Recovering | Phase::Ended => {
                outs.push(Out::Leave { session })?;
                say(alloc, outs, session, WordRef::CompletionAck)?;
                self.stage = Reading::Over(status);
                Ok(())
            }
        }
    }

    fn tick_asking(
        &mut self,
        alloc: Global,
        session: u32,
        outs: &mut Outs,
        wait: Wait,
        now: u64,
    ) -> Result<(), AllocError>
        requires { self.old.stage ≡ Reading.Asking wait }
        ensures after { OnOk result (self.new ≡ (spec.ticks_at self.old (Reading.Asking wait) now).after) }
        ensures outs { OnOk result (outs.new ≡ outs.old ++ outs_of session (spec.ticks_at self.old (Reading.Asking wait) now).sayings) }
    {
        if !wait.is_late(now) {
            return Ok(());
        }
        match wait.again(now) {
            Some(wait) => self.ask(alloc, session, outs, wait),
            None => {
                self.stage = Reading::Over(Status::DeadlineExceeded);
                Ok(())
            }
        }
    }

    fn tick_receiving(
        &mut self,
        alloc: Global,
        session: u32,
        outs: &mut Outs,
        receiver: ReceiverCore,
        now: u64,
    ) -> Result<(), AllocError>
        requires { is_ended receiver.phase ≡ false }
        ensures after { OnOk result (self.new ≡ (spec.ticks_at self.old (Reading.Receiving receiver) now).after) }
        ensures outs { OnOk result (outs.new ≡ outs.old ++ outs_of session (spec.ticks_at self.old (Reading.Receiving receiver) now).sayings) }
    {
        let mut receiver = receiver;
        let going = receiver.phase().is_open();
        let answer = receiver.tick(now);
        act_on_tick(alloc, outs, session, going, answer)?;
        self.stage = match answer {
            Ticked::Over(status) => Reading::Over(status),
            Ticked::Quiet | Ticked::Resend(_) | Ticked::ResendEnd(_) => {
                Reading::Receiving(receiver)
            }
        };
        Ok(())
    }
}

impl Machine for Download {
    ghost rules = { spec.read_rules };

    fn copy(&self) -> Result<Download, AllocError> {
        Ok(Download {
            resource: self.resource,
            asked: self.asked,
            tuning: self.tuning,
            agreed: self.agreed,
            stage: self.stage,
        })
    }

    fn end(&self) -> Option<Status> {
        match self.stage {
            Reading::Over(status) => Some(status),
            Reading::Unasked | Reading::Asking(_) | Reading::Receiving(_) => None,
        }
    }

    fn deadline(&self) -> Option<u64> {
        match self.stage {
            Reading::Asking(wait) => Some(deadline_after(wait.active)),
            Reading::Receiving(receiver) => Some(receiver.deadline()),
            Reading::Unasked | Reading::Over(_) => None,
        }
    }

    fn open(
        &mut self,
        alloc: Global,
        session: u32,
        outs: &mut Outs,
        now: u64,
    ) -> Result<(), AllocError> {
        match self.stage {
            Reading::Unasked => self.ask(alloc, session, outs, Wait::new(now)),
            Reading::Asking(_) | Reading::Receiving(_) | Reading::Over(_) => Ok(()),
        }
    }

    fn hear(
        &mut self,
        alloc: Global,
        session: u32,
        outs: &mut Outs,
        word: WordRef<'_>,
        now: u64,
    ) -> Result<(), AllocError> {
        match &self.stage {
            Reading::Asking(wait) => {
                let wait = *wait;
                self.hear_asking(alloc, session, outs, wait, word, now)
            }
            Reading::Receiving(receiver) => {
                let receiver = *receiver;
                self.hear_receiving(alloc, session, outs, receiver, word, now)
            }
            Reading::Unasked | Reading::Over(_) => Ok(()),
        }
    }

    fn close(&mut self, session: u32, outs: &mut Outs, status: Status) -> Result<(), AllocError> {
        match &self.stage {
            Reading::Over(_) => Ok(()),
            Reading::Receiving(receiver) => {
                if receiver.phase().is_open() {
                    outs.push(Out::Leave { session })?;
                }
                self.stage = Reading::Over(end_by_call(status));
                Ok(())
            }
            Reading::Unasked | Reading::Asking(_) => {
                self.stage = Reading::Over(end_by_call(status));
                Ok(())
            }
        }
    }

    fn tick(
        &mut self,
        alloc: Global,
        session: u32,
        outs: &mut Outs,
        now: u64,
    ) -> Result<(), AllocError> {
        match &self.stage {
            Reading::Asking(wait) => {
                let wait = *wait;
                self.tick_asking(alloc, session, outs, wait, now)
            }
            Reading::Receiving(receiver) => {
                let receiver = *receiver;
                self.tick_receiving(alloc, session, outs, receiver, now)
            }
            Reading::Unasked | Reading::Over(_) => Ok(()),
        }
    }
}
