//! What is printed of a bridge.

ghost use Rattle.std.specs.Prelude.{◌≡◌, ◌++◌, IfOk, OnOk, string_bytes};
ghost use Rattle.frame_router.specs.bridge.Printed.{bridge_text, last_line};

use crate::Port;
use crate::bridge::Bridged;
use crate::text::push_tally;
use link_io::Why;
use std::alloc::{AllocError, Global};

/// Tells what a bridge did: a line for each side, the left one first, of how the segments that came from it were counted,
/// and a last line, which says why the bridge ended. Want of memory has no last line.
#[tactic(auto, unfolding(crate::specs::bridge::Printed::bridge_text))]
pub fn bridge_text(alloc: Global, done: Bridged) -> Result<String, AllocError>
    ensures { IfOk result (λ text. string_bytes text ≡ bridge_text done) }
{
    let mut text = String::new(alloc);
    push_tally(Port::Left, done.from_left.tally, &mut text)?;
    push_tally(Port::Right, done.from_right.tally, &mut text)?;
    push_last(done.why(), &mut text)?;
    Ok(text)
}

fn push_last(why: Why, text: &mut String) -> Result<(), AllocError>
    ensures { OnOk result (string_bytes text.new ≡ string_bytes text.old ++ last_line why) }
{
    match why {
        Why::Settled => text.push_str("done\n"),
        Why::Source => text.push_str("source fault\n"),
        Why::Sink => text.push_str("sink fault\n"),
        Why::InputLimit => text.push_str("limit input 67108864\n"),
        Why::Store | Why::JournalLimit | Why::Memory => Ok(()),
    }
}
