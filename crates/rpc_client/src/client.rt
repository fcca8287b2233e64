//! The client.
ghost use Rattle.std.specs.Prelude.{◌≡◌, ℕ, List, [], IfOk};
ghost use Rattle.rpc_handlers.specs.HandlerRule.{empty_memo};
ghost use Rattle.rpc_journal.specs.Lawful.{IsLegal};
ghost use Rattle.rpc_schedule.specs.Fresh.{IsFresh};
ghost use Rattle.rpc_ids.specs.declared.method.Role.TheVariants.{Client as client_role};
ghost use Rattle.rpc_schedule.specs.ends.OwnEntries.{AreOwn};
ghost use Rattle.rpc_schedule.specs.ends.EndState.{WasFed};

mod asking;
mod idle;
mod input;
mod output;
mod running;

use rpc_calls::{Calls, Running};
use rpc_channel::Channels;
use rpc_frames::Listener;
use rpc_handlers::{Handler, Maker, Nobody};
use rpc_ids::{Registry, Role};
use rpc_journal::StartRefused;
use std::alloc::{AllocError, Global};
use std::marker::Model;

/// A client on one thread: what it hears, the table of its calls, and the run that began before memory was wanting.
/// Contracts see its table, the call of that run, why it takes no further input, and its listener.
pub struct Client<H: Handler> {
    calls: Calls<H>,
    nobody: Nobody<H>,
    listener: Listener,
    kept: Option<Running<H>>,
    refused: Option<StartRefused>,
}

impl<H: Handler> Model for Client<H> {
    ghost use Rattle.rpc_schedule.specs.ends.EndState.{EndState};

    ghost Value = { EndState };

    ghost use Rattle.std.specs.Prelude.{◌≡◌};
    ghost use Rattle.rpc_ids.specs.declared.method.Role.TheVariants.{Client as client_role};
    ghost use Rattle.rpc_handlers.specs.HandlerRule.{empty_memo};
    ghost use Rattle.rpc_schedule.specs.ends.EndHolds.{IsEnd, kept_call};

    ghost view = { λ s. record {
      serving = record { table = s.calls; kept = kept_call s.kept; refused = s.refused };
      listener = s.listener;
    } };

    ghost invariant = { λ s. IsEnd client_role H.rule empty_memo s.calls s.kept s.refused × (s.listener.role ≡ client_role) };
}

impl<H: Handler> Client<H> {
    /// A client without a call, with these channels and methods.
    pub fn new(
        alloc: Global,
        channels: Channels,
        registry: Registry,
    ) -> Result<Client<H>, AllocError>
        ensures setting { IfOk result (λ c. c.serving.table.setting ≡
            record { role = Role.Client; channels = channels; registry = registry; seed = empty_memo }) }
        ensures fresh { IfOk result (λ c. IsFresh c.serving) }
        ensures unfed { IfOk result (λ c. WasFed client_role c []) }
    {
        let listener = Listener::new(alloc, Role::Client)?;
        let nobody = Nobody::new(alloc);
        let seed = nobody.seed()?;
        let calls = Calls::new(alloc, Role::Client, channels, registry, seed)?;
        Ok(Client {
            calls,
            nobody,
            listener,
            kept: None,
            refused: None,
        })
    }

    /// The table of its calls alone. A run that is kept is let go, and its call stays running for good.
    pub fn into_calls(self) -> Calls<H>
        ensures { result ≡ self.serving.table }
    {
        let Client {
            calls,
            nobody: _,
            listener: _,
            kept,
            refused: _,
        } = self;
        let_go(kept);
        calls
    }
}

impl<H: Handler> Drop for Client<H> {
    fn drop(self) {
        let _ = self.into_calls();
    }
}

// Lets a run go, where one is kept.
fn let_go<H: Handler>(kept: Option<Running<H>>) {
    if let Some(run) = kept {
        let _ = run.spill();
    }
}

impl<H: Handler> Client<H> {
    /// The table of its calls, with the journal.
    pub fn calls(&self) -> &Calls<H>
        ensures table { result.now ≡ self.now.serving.table }
        ensures legal { IsLegal H.rule self.now.serving.table.setting self.now.serving.table.entries }
        ensures own { AreOwn client_role self.now.serving.table.entries }
    {
        &self.calls
    }
}
