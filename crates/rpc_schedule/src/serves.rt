//! What the loops ask of a server.
ghost use Rattle.std.specs.Prelude.{◌≡◌, ℕ, ◌<◌, ◌≤◌, true, false, List, ◌++◌, length, None, IfOk, OnErr};
ghost use Rattle.rpc_packet.specs.declared.owned.Packet.{Packet};
ghost use Rattle.rpc_handlers.specs.HandlerRule.{HandlerRule};
ghost use Rattle.rpc_journal.specs.Choice.{SomeReady};
ghost use Rattle.rpc_journal.specs.Items.{input_ended};
ghost use Rattle.rpc_schedule.specs.Schedule.{NoneWaits};
ghost use Rattle.rpc_schedule.specs.Serving.{EndsInput, FedBy, Feeds, Gives, HasHeard, Serving, Works, deeds, is_idle};

use rpc_journal::{Item, StartRefused};

/// A server on one thread, which is fed bytes, and worked and flushed step by step.
pub trait Serves {
    /// Its table, the run that it keeps, and why it takes no further input.
    ghost seen: { Self → Serving };

    /// The rule of its handlers' type.
    ghost rule: { HandlerRule };

    /// The packets that it hears in these bytes.
    ghost heard: { List ℕ → List Packet };

    /// It was fed these bytes.
    ghost stands: { Self → List ℕ → Type 0 };

    /// Takes bytes from the front of the piece, none behind the first packet in it, and answers how many. Where that packet is in
    /// them, it arrives.
    ///
    /// # Errors
    ///
    /// Where the packet was refused. It didn't arrive then, and each later `feed` is refused.
    fn feed(&mut self, piece: &[u8]) -> Result<usize, StartRefused>
        requires open { input_ended (deeds (seen self.old)) ≡ false }
        requires idle { is_idle (seen self.old) ≡ true }
        ensures progress { IfOk result (λ n. 0 < length piece.now → 0 < n) }
        ensures step { Feeds (seen self.old) result (seen self.new) }
        ensures fed { IfOk result (FedBy heard (stands self.old) (stands self.new) piece.now) }
        ensures refused_fed { OnErr result ((n : ℕ) × FedBy heard (stands self.old) (stands self.new) piece.now n) };

    /// Runs the first ready call, or goes on with the run that it keeps. False where there is neither.
    ///
    /// # Errors
    ///
    /// Where the journal has no room for a run, or memory is wanting. A run that began before memory was wanting is kept,
    /// and the next `work` goes on with it.
    fn work(&mut self) -> Result<bool, StartRefused>
        ensures step { Works rule (seen self.old) result (seen self.new) }
        ensures fed { (s : List ℕ) → stands self.old s → stands self.new s };

    /// The input has ended.
    fn end_in(&mut self)
        requires open { input_ended (deeds (seen self.old)) ≡ false }
        ensures step { EndsInput (seen self.old) (seen self.new) }
        ensures fed { (s : List ℕ) → stands self.old s → stands self.new s };

    /// The first item that waits to go out.
    fn next_out(&mut self) -> Option<Item>
        ensures step { Gives (seen self.old) result (seen self.new) }
        ensures fed { (s : List ℕ) → stands self.old s → stands self.new s };

    /// Whether no run is kept and no event waits for a call.
    fn idle(&self) -> bool
        ensures is { result ≡ is_idle (seen self.now) }
        ensures ready { result ≡ false → (seen self.now).kept ≡ None → NoneWaits (deeds (seen self.now)) → SomeReady (deeds (seen self.now)) };

    /// What arrived are the packets heard in the bytes that it was fed.
    ghost arrived: { (x : Self) (s : List ℕ) → Self.stands x s → HasHeard (Self.heard s) (Self.seen x) };

    /// In more bytes no fewer packets are heard.
    ghost more_heard: { (s t : List ℕ) → length (Self.heard s) ≤ length (Self.heard (s ++ t)) };
}
