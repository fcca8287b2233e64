//! Laws of the stream, for callers' proofs. Nothing runs here.

ghost use Rattle.std.specs.Prelude.{◌≡◌, ℕ, ◌*◌, ◌^◌, ◌<◌, ◌≤◌, length};
ghost use Rattle.load_stream.specs.Laws.{GoesOn, IsHeard};
ghost use Rattle.load_stream.specs.Load.{load_stream};

use crate::calls::{CHANNEL, LONGEST_CALL, SENT_BYTES};

/// The numbers of the calls that are made from the generator.
pub fn numbers_of_a_load()
    ensures channel { CHANNEL ≡ 1 }
    ensures bytes { SENT_BYTES ≡ 3 }
{}

/// The streams of N and of N + 1 calls begin alike.
pub fn one_call_more()
    ensures { (calls seed : ℕ) → GoesOn calls seed }
{}

/// Far more bytes than a stream has: 46,200,000 for 30,000 calls.
pub fn stream_is_short()
    ensures { (calls seed : ℕ) → length (load_stream calls seed) ≤ LONGEST_CALL * calls }
{}

/// What a server hears in the stream.
pub fn stream_is_heard()
    ensures { (calls seed : ℕ) → calls < 2 ^ 32 → IsHeard calls seed }
{}
