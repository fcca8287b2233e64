//! What a transfer does in its session, apart from mail and waiting.
ghost use Rattle.std.specs.Prelude.{◌≡◌, ◌++◌, IfOk, OnOk};
ghost use Rattle.transfer_client.specs.Machine.{Rules};
ghost use Rattle.transfer_words.specs.Saying.{outs_of};
ghost use Rattle.transfer_words.specs.Word.{lent_word};

use rpc_handlers::Outs;
use rpc_ids::Status;
use std::alloc::{AllocError, Global};
use transfer_words::WordRef;

/// The steps of one transfer. What a step says and does goes after `outs`. After an `Err` of a step the machine is to be
/// given up, and a part may be said.
pub trait Machine {
    ghost rules: { Rules Self };

    /// The same machine once more.
    fn copy(&self) -> Result<Self, AllocError>
        ensures { IfOk result (λ copy. copy ≡ self.now) };

    /// How it ended, if it did.
    fn end(&self) -> Option<Status>
        ensures { result ≡ rules.end_of self.now };

    /// When its next timeout comes, in milliseconds, if it waits for something.
    fn deadline(&self) -> Option<u64>
        ensures { result ≡ rules.deadline_of self.now };

    /// The session begins, unless it has.
    fn open(
        &mut self,
        alloc: Global,
        session: u32,
        outs: &mut Outs,
        now: u64,
    ) -> Result<(), AllocError>
        ensures after { OnOk result (self.new ≡ (rules.opens self.old now).after) }
        ensures outs { OnOk result (outs.new ≡ outs.old ++ outs_of session (rules.opens self.old now).sayings) };

    /// The service says a word.
    fn hear(
        &mut self,
        alloc: Global,
        session: u32,
        outs: &mut Outs,
        word: WordRef<'_>,
        now: u64,
    ) -> Result<(), AllocError>
        ensures after { OnOk result (self.new ≡ (rules.hears self.old (lent_word word.entry) now).after) }
        ensures outs { OnOk result (outs.new ≡ outs.old ++ outs_of session (rules.hears self.old (lent_word word.entry) now).sayings) };

    /// The call of the session has ended.
    fn close(&mut self, session: u32, outs: &mut Outs, status: Status) -> Result<(), AllocError>
        ensures after { OnOk result (self.new ≡ (rules.closes self.old status).after) }
        ensures outs { OnOk result (outs.new ≡ outs.old ++ outs_of session (rules.closes self.old status).sayings) };

    /// The time goes on.
    fn tick(
        &mut self,
        alloc: Global,
        session: u32,
        outs: &mut Outs,
        now: u64,
    ) -> Result<(), AllocError>
        ensures after { OnOk result (self.new ≡ (rules.ticks self.old now).after) }
        ensures outs { OnOk result (outs.new ≡ outs.old ++ outs_of session (rules.ticks self.old now).sayings) };
}
