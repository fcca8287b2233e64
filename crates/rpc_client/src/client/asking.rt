//! What the owner of a client asks of its calls.
ghost use Rattle.std.specs.Prelude.{◌≡◌, ℕ, List, Some, IfOk, IfErr, IfSome, IsTrue};
ghost use Rattle.rpc_ids.specs.declared.method.Role.TheVariants.{Client as client_role};
ghost use Rattle.rpc_journal.specs.Changes.{CancelDid, CloseDid, DoneDid, InvokeDid, ReplaceDid, SayDid};
ghost use Rattle.rpc_journal.specs.CallTable.{past};
ghost use Rattle.rpc_journal.specs.Conditions.{CanComplete, CanInvoke, CanSay, IsCall};
ghost use Rattle.rpc_journal.specs.States.{state_of};
ghost use Rattle.rpc_schedule.specs.ends.EndState.{KeepsAside, WasFed};

use super::Client;
use bytes::Bytes;
use rpc_calls::{Cancelled, CloseRefused, InvokeRefused, ReplaceRefused, SayRefused};
use rpc_handlers::{Handler, Out};
use rpc_packet::CallName;
use rpc_schedule::RUNS;

impl<H: Handler> Client<H> {
    /// Opens a call of this name, which this handler answers: a REQUEST with this payload goes out. Answers the call's
    /// number. Refused, the handler comes back.
    pub fn invoke(
        &mut self,
        name: CallName,
        payload: Bytes,
        handler: H,
    ) -> Result<u32, (H, InvokeRefused)>
        requires can { CanInvoke self.old.serving.table.setting name payload }
        requires able { H.can_act handler }
        ensures did { InvokeDid self.old.serving.table.setting 2 name payload (H.now handler) result self.old.serving.table.entries self.new.serving.table.entries }
        ensures back { IfErr result (λ e. e.0 ≡ handler) }
        ensures aside { KeepsAside self.old self.new }
        ensures fed { (bytes : List ℕ) → WasFed client_role self.old bytes → WasFed client_role self.new bytes }
    {
        self.calls.invoke(RUNS, name, payload, handler)
    }

    /// Sends a message on a call's stream.
    pub fn say(&mut self, call: u32, out: Out) -> Result<(), SayRefused>
        requires { CanSay self.old.serving.table.setting self.old.serving.table.entries call out }
        ensures did { SayDid self.old.serving.table.setting 2 call out result self.old.serving.table.entries self.new.serving.table.entries }
        ensures aside { KeepsAside self.old self.new }
        ensures fed { (bytes : List ℕ) → WasFed client_role self.old bytes → WasFed client_role self.new bytes }
    {
        self.calls.say(RUNS, call, out)
    }

    /// Ends the stream of a call's messages.
    pub fn done(&mut self, call: u32) -> Result<(), SayRefused>
        requires { CanComplete self.old.serving.table.setting self.old.serving.table.entries call }
        ensures did { DoneDid self.old.serving.table.setting 2 call result self.old.serving.table.entries self.new.serving.table.entries }
        ensures aside { KeepsAside self.old self.new }
        ensures fed { (bytes : List ℕ) → WasFed client_role self.old bytes → WasFed client_role self.new bytes }
    {
        self.calls.done(RUNS, call)
    }

    /// Cancels a call. It is never refused, and a second time nothing changes.
    pub fn cancel(&mut self, call: u32) -> Cancelled
        requires { IsCall self.old.serving.table.setting self.old.serving.table.entries call }
        ensures did { CancelDid self.old.serving.table.setting 2 call result self.old.serving.table.entries self.new.serving.table.entries }
        ensures aside { KeepsAside self.old self.new }
        ensures fed { (bytes : List ℕ) → WasFed client_role self.old bytes → WasFed client_role self.new bytes }
    {
        self.calls.cancel(RUNS, call)
    }

    /// Gives a call another handler, which takes its next event. The old one comes back where the call doesn't run.
    /// Refused, the new one comes back.
    pub fn replace(&mut self, call: u32, handler: H) -> Result<Option<H>, (H, ReplaceRefused)>
        requires { H.can_act handler }
        ensures did { ReplaceDid self.old.serving.table.setting 2 call (H.now handler) result self.old.serving.table.entries self.new.serving.table.entries }
        ensures back { IfErr result (λ e. e.0 ≡ handler) }
        ensures able { IfOk result (λ old. IfSome old H.can_act) }
        ensures state { IfOk result (λ old. IfSome old (λ h. IsTrue H.rule.ruled → state_of H.rule self.old.serving.table.setting (past self.old.serving.table) call ≡ Some (H.now h))) }
        ensures aside { KeepsAside self.old self.new }
        ensures fed { (bytes : List ℕ) → WasFed client_role self.old bytes → WasFed client_role self.new bytes }
    {
        self.calls.replace(RUNS, call, handler)
    }

    /// Closes a channel: its live calls end, and the server is told so. Answers how many they were.
    pub fn close_channel(&mut self, channel: u32) -> Result<u32, CloseRefused>
        ensures did { CloseDid self.old.serving.table.setting 2 channel result self.old.serving.table.entries self.new.serving.table.entries }
        ensures aside { KeepsAside self.old self.new }
        ensures fed { (bytes : List ℕ) → WasFed client_role self.old bytes → WasFed client_role self.new bytes }
    {
        self.calls.close_channel(RUNS, channel)
    }
}
