//! What the one call of a live client is for.
ghost use Rattle.std.specs.Prelude.{◌≡◌, ℕ, ◌≤◌, ◌++◌, [], ◌∷◌, List, Option, Some, true, false, Bool, is_some, IfNone, IfSome, OnOk, OnErr};
ghost use Rattle.rpc_handlers.specs.declared.event.Event.{Event as Heard};
ghost use Rattle.rpc_ids.specs.declared.status.Status.{Status as End};
ghost use Rattle.task_core.specs.bells.Bells.{Tower};
ghost use Rattle.live_client.specs.Histories.{is_completion};
ghost use Rattle.live_client.specs.asks.Tasks.{Given, given_at, mails};
ghost use Rattle.live_client.specs.asks.Telling.{Progress, gone_on, said_all, unknown};

use crate::asks::utterance::Utterance;
use rpc_handlers::Event;
use rpc_ids::Status;
use std::alloc::AllocError;
use task_core::bells::Bells;

/// What the one call of a live client is for: it hears the events of the call, and says what is to be said there.
pub trait Errand {
    /// Whether it watches: else it never ends the client's stream, and never has the call cancelled.
    ghost watches: { Bool };

    /// What it keeps between its steps.
    ghost ready: { Self → Type 0 };

    /// The same, with the words of the wakes.
    ghost fits: { Self → Tower → Type 0 };

    /// The moment that it knows.
    ghost moment: { Self → ℕ };

    /// What it was made for, which stays.
    ghost Origin: { Type 0 };

    /// The same, of this one.
    ghost origin: { Self → Origin };

    /// Whether it takes further events.
    ghost listens: { Self → Bool };

    /// Whether a step of it found too little memory: it goes on no further then.
    ghost short: { Self → Bool };

    /// Whether the call is to be cancelled.
    ghost cuts: { Self → Bool };

    /// Between two moments it was told this answer of a cancel, heard these events, gave out what is said, each with the mail that had
    /// come by then, and ended so, if it did; and how far it has come.
    ghost did: { Self → Progress → ℕ → ℕ → Option End → List Heard → List Given → Option End → Type 0 };

    /// Of any of them less may be known.
    ghost weaker: { (x : Self) (far : Progress) (start upto : ℕ) (cut : Option End) (events : List Heard) (outs : List Given) (ended : Option End) → did x far start upto cut events outs ended → did x unknown start upto cut events outs ended };

    /// An event of the call was run. Where it had said all, it has nothing to say before it goes on.
    fn hear(&mut self, event: Event) -> Result<(), AllocError>
        requires ready { ready self.old }
        requires listens { listens self.old ≡ true }
        ensures ready { ready self.new }
        ensures heard { OnOk result ((start upto : ℕ) (cut : Option End) (events : List Heard) (outs : List Given) (ended : Option End) → did self.old said_all start upto cut events outs ended
            → (next : Option End) × did self.new unknown start upto cut (events ++ event ∷ []) outs next × (is_some ended ≡ true → (next ≡ ended) × (cuts self.new ≡ false) × did self.new said_all start upto cut (events ++ event ∷ []) outs next)) }
        ensures kept { OnErr result ((far : Progress) (start upto : ℕ) (cut : Option End) (events : List Heard) (outs : List Given) (ended : Option End) → did self.old far start upto cut events outs ended → did self.new far start upto cut events outs ended) }
        ensures uncut { OnErr result (cuts self.old ≡ false → cuts self.new ≡ false) }
        ensures moment { moment self.new ≡ moment self.old }
        ensures origin { origin self.new ≡ origin self.old }
        ensures short { short self.new ≡ short self.old }
        ensures fits { (tower : Tower) → fits self.old tower → fits self.new tower };

    /// It goes on at a moment, as far as it can.
    fn go_on(&mut self, bells: &Bells, now: u64) -> Result<(), AllocError>
        requires ready { ready self.old }
        requires fits { fits self.old bells.now }
        requires later { moment self.old ≤ now }
        requires whole { short self.old ≡ false }
        ensures ready { ready self.new }
        ensures did { (far : Progress) (start upto : ℕ) (cut : Option End) (events : List Heard) (outs : List Given) (ended : Option End) → start ≤ now → upto ≤ now → did self.old far start upto cut events outs ended
            → (next : Option End) × did self.new gone_on start now cut events outs next }
        ensures moment { moment self.new ≡ now }
        ensures origin { origin self.new ≡ origin self.old }
        ensures whole { OnOk result (short self.new ≡ false) }
        ensures uncut { OnErr result (cuts self.old ≡ false → cuts self.new ≡ false) }
        ensures fits { fits self.new bells.now };

    /// Takes what is to be said next.
    fn next_out(&mut self) -> Option<Utterance>
        requires ready { ready self.old }
        ensures ready { ready self.new }
        ensures some { IfSome result (λ out. (far : Progress) (start upto : ℕ) (cut : Option End) (events : List Heard) (outs : List Given) (ended : Option End) → did self.old far start upto cut events outs ended → did self.new unknown start upto cut events (outs ++ given_at (mails events) out ∷ []) ended) }
        ensures none { IfNone result ((start upto : ℕ) (cut : Option End) (events : List Heard) (outs : List Given) (ended : Option End) → did self.old gone_on start upto cut events outs ended → did self.new said_all start upto cut events outs ended) }
        ensures kept { IfNone result ((far : Progress) (start upto : ℕ) (cut : Option End) (events : List Heard) (outs : List Given) (ended : Option End) → did self.old far start upto cut events outs ended → did self.new unknown start upto cut events outs ended) }
        ensures completes { IfSome result (λ out. is_completion out ≡ true → watches ≡ true) }
        ensures moment { moment self.new ≡ moment self.old }
        ensures origin { origin self.new ≡ origin self.old }
        ensures short { short self.new ≡ short self.old }
        ensures uncut { cuts self.new ≡ cuts self.old }
        ensures fits { (tower : Tower) → fits self.old tower → fits self.new tower };

    /// Whether it takes further events.
    fn listens(&self) -> bool
        ensures { result ≡ listens self.now };

    /// Whether the call is to be cancelled.
    fn cuts(&self) -> bool
        ensures cuts { result ≡ cuts self.now }
        ensures watches { result ≡ true → watches ≡ true };

    /// The call was cancelled, which answered this status. An errand that doesn't cancel its call hears of none.
    fn cut(&mut self, status: Status)
        ensures ready { ready self.old → ready self.new }
        ensures did { cuts self.old ≡ true → (far : Progress) (start upto : ℕ) (before : Option End) (events : List Heard) (outs : List Given) (ended : Option End) → did self.old far start upto before events outs ended → (next : Option End) × did self.new far start upto (Some status) events outs next }
        ensures uncut { cuts self.new ≡ false }
        ensures moment { moment self.new ≡ moment self.old }
        ensures origin { origin self.new ≡ origin self.old }
        ensures short { short self.new ≡ short self.old }
        ensures fits { (tower : Tower) → fits self.old tower → fits self.new tower };

    /// How it ended, if it did.
    fn end(&self) -> Option<Status>
        requires ready { ready self.now }
        ensures told { (far : Progress) (start upto : ℕ) (cut : Option End) (events : List Heard) (outs : List Given) (ended : Option End) → did self.now far start upto cut events outs ended → result ≡ ended };
}
