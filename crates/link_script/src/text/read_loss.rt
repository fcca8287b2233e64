//! The lines on what the link does.
ghost use Rattle.std.specs.Prelude.{◌≡◌, ◌++◌, ◌<◌, ◌≤◌, ◌^◌, ℕ, codes, IfSome, Some};
ghost use Rattle.std.specs.Fmt.{decimal};
ghost use Rattle.link_script.specs.Script.{IsFrameNumber};
ghost use Rattle.link_script.specs.text.Lines.{IsLossLine};

use crate::Loss;
use crate::text::fields::number_field;
use crate::text::line::LossAt;
use text_fields::{small_number, strip_word};

/// What the link does to a frame by this line.
pub(crate) fn read_loss(text: &[u8]) -> Option<LossAt>
    ensures some { IfSome result (λ loss. IsLossLine text.now loss) }
    ensures only { (loss : LossAt) → IsLossLine text.now loss → result ≡ Some loss }
{
    if let Some(number) = strip_word(text, b"drop ") {
        let frame = frame_number(number)?;
        return Some(LossAt {
            frame,
            loss: Loss::Lose,
        });
    }
    if let Some(number) = strip_word(text, b"repeat ") {
        let frame = frame_number(number)?;
        return Some(LossAt {
            frame,
            loss: Loss::Repeat,
        });
    }
    if let Some(number) = strip_word(text, b"swap ") {
        let frame = frame_number(number)?;
        return Some(LossAt {
            frame,
            loss: Loss::Swap,
        });
    }
    if let Some(numbers) = strip_word(text, b"flip ") {
        return read_flip(numbers);
    }
    None
}

fn frame_number(text: &[u8]) -> Option<u32>
    ensures some { IfSome result (λ frame. (text.now ≡ decimal frame) × IsFrameNumber frame) }
    ensures only { (frame : ℕ) → text.now ≡ decimal frame → IsFrameNumber frame → result ≡ Some frame }
{
    let frame = small_number(text)?;
    if frame < 1 {
        return None;
    }
    Some(frame)
}

fn read_flip(text: &[u8]) -> Option<LossAt>
    ensures some { IfSome result (λ loss. IsLossLine (codes "flip " ++ text.now) loss) }
    ensures only { (loss : LossAt) → IsLossLine (codes "flip " ++ text.now) loss → result ≡ Some loss }
{
    let (frame, bit) = number_field(text)?;
    let bit = small_number(bit)?;
    if frame < 1 {
        return None;
    }
    Some(LossAt {
        frame,
        loss: Loss::Flip(bit),
    })
}
