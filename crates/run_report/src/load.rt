//! The text of a run over a generated stream.

ghost use Rattle.std.specs.Prelude.{◌≡◌, IfOk, string_bytes};
ghost use Rattle.run_report.specs.Load.{load_report};

use crate::totals::{Totals, totals_of};
use rpc_journal::Item;
use std::alloc::{AllocError, Global};

/// The text of a run over the stream of so many calls that was generated from the seed. It has four lines: the calls
/// and the seed, the calls, the packets among the items, and the bytes of their payloads together.
#[tactic(auto, unfolding(crate::specs::Load::load_report))]
pub fn load_text(alloc: Global, calls: u32, seed: u64, items: &[Item]) -> Result<String, AllocError>
    ensures { IfOk result (λ text. string_bytes text ≡ load_report calls seed items.now) }
{
    let Totals { packets, payload } = totals_of(items);
    let mut text = String::new(alloc);
    writeln!(text, "load {calls} {seed}")?;
    writeln!(text, "calls {calls}")?;
    writeln!(text, "packets {packets}")?;
    writeln!(text, "payload {payload}")?;
    Ok(text)
}
