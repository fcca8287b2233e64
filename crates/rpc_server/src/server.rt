//! The server.
ghost use Rattle.std.specs.Prelude.{◌≡◌, ℕ, List, [], IfOk};
ghost use Rattle.rpc_frames.specs.Heard.{counts_of};
ghost use Rattle.rpc_journal.specs.Lawful.{IsLegal};
ghost use Rattle.rpc_schedule.specs.Fresh.{IsFresh};
ghost use Rattle.rpc_ids.specs.declared.method.Role.TheVariants.{Server as server_role};
ghost use Rattle.rpc_schedule.specs.ends.OwnEntries.{AreOwn};
ghost use Rattle.rpc_schedule.specs.ends.EndState.{WasFed};

mod closing;
mod idle;
mod input;
mod output;
mod running;
mod time;

use rpc_calls::{Calls, Running};
use rpc_channel::Channels;
use rpc_frames::{Counts, Listener};
use rpc_handlers::{Handler, Maker};
use rpc_ids::{Registry, Role};
use rpc_journal::StartRefused;
use std::alloc::{AllocError, Global};
use std::marker::Model;

/// A server on one thread: what it hears, the table of its calls, what makes their handlers, and the run that began
/// before memory was wanting. Contracts see its table, the call of that run, why it takes no further input, and its
/// listener.
pub struct Server<M: Maker> {
    calls: Calls<M::H>,
    maker: M,
    listener: Listener,
    kept: Option<Running<M::H>>,
    refused: Option<StartRefused>,
}

impl<M: Maker> Model for Server<M> {
    ghost use Rattle.rpc_schedule.specs.ends.EndState.{EndState};

    ghost Value = { EndState };

    ghost use Rattle.std.specs.Prelude.{◌≡◌};
    ghost use Rattle.rpc_ids.specs.declared.method.Role.TheVariants.{Server as server_role};
    ghost use Rattle.rpc_schedule.specs.ends.EndHolds.{IsEnd, kept_call};

    ghost view = { λ s. record {
      serving = record { table = s.calls; kept = kept_call s.kept; refused = s.refused };
      listener = s.listener;
    } };

    ghost invariant = { λ s. IsEnd server_role M.H.rule (M.seed_memo s.maker) s.calls s.kept s.refused × (s.listener.role ≡ server_role) };
}

impl<M: Maker + Drop> Server<M> {
    /// A server without a call, with these channels and methods. The maker makes the handlers of the calls that arrive.
    pub fn new(
        alloc: Global,
        channels: Channels,
        registry: Registry,
        maker: M,
    ) -> Result<Server<M>, AllocError>
        ensures setting { IfOk result (λ s. s.serving.table.setting ≡
            record { role = Role.Server; channels = channels; registry = registry; seed = M.seed_memo maker }) }
        ensures fresh { IfOk result (λ s. IsFresh s.serving) }
        ensures unfed { IfOk result (λ s. WasFed server_role s []) }
    {
        let listener = Listener::new(alloc, Role::Server)?;
        let seed = maker.seed()?;
        let calls = Calls::new(alloc, Role::Server, channels, registry, seed)?;
        Ok(Server {
            calls,
            maker,
            listener,
            kept: None,
            refused: None,
        })
    }

    /// The table of its calls alone. A run that is kept is let go, and its call stays running for good.
    pub fn into_calls(self) -> Calls<M::H>
        ensures { result ≡ self.serving.table }
    {
        let Server {
            calls,
            maker: _,
            listener: _,
            kept,
            refused: _,
        } = self;
        let_go(kept);
        calls
    }
}

impl<M: Maker + Drop> Drop for Server<M> {
    fn drop(self) {
        let _ = self.into_calls();
    }
}

// Lets a run go, where one is kept.
fn let_go<H: Handler>(kept: Option<Running<H>>) {
    if let Some(run) = kept {
        let _ = run.spill();
    }
}

impl<M: Maker> Server<M> {
    /// The table of its calls, with the journal. No call was cancelled, and no handler replaced; a channel was closed only by
    /// `close_channel`.
    pub fn calls(&self) -> &Calls<M::H>
        ensures table { result.now ≡ self.now.serving.table }
        ensures legal { IsLegal M.H.rule self.now.serving.table.setting self.now.serving.table.entries }
        ensures own { AreOwn server_role self.now.serving.table.entries }
    {
        &self.calls
    }

    /// How the segments of what it was fed were counted.
    pub fn counts(&self) -> Counts
        ensures counts { (bytes : List ℕ) → WasFed server_role self.now bytes → result ≡ counts_of server_role bytes }
        ensures value { result ≡ self.now.listener.counts }
    {
        self.listener.counts()
    }
}
