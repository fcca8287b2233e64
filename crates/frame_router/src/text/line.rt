//! Single lines.
ghost use Rattle.std.specs.Prelude.{◌≡◌, ◌≤◌, ◌++◌, ◌∷◌, ℕ, List, IfNone, IfOk, IfSome, IsSomeAnd};
ghost use Rattle.std.specs.Fmt.{decimal};
ghost use Rattle.hex.specs.Hex.{IsBytes, encode_lower};
ghost use Rattle.frame_router.specs.declared.port.Port.{Port};
ghost use Rattle.frame_router.specs.declared.text.line.Step.{Step};
ghost use Rattle.frame_router.specs.text.Lines.{IsDrain, IsFeed, IsRouteLine, IsStepLine};
ghost use Rattle.frame_router.specs.text.Printed.{side_name};

use crate::Port;
use bytes::Bytes;
use std::alloc::{AllocError, Global};
use text_fields::{hex_bytes, small_number, strip_word};

/// The most frames that one line hands out. No more can wait.
pub(crate) const MAX_DRAINED: u32 = 256;

/// What a line after the routes does.
#[derive(Drop)]
pub(crate) enum Step {
    /// These bytes come from a side.
    Feed { from: Port, bytes: Bytes },
    /// So many frames are handed out for a side.
    Drain { to: Port, count: u32 },
}

/// The side and the address of a line with a route.
pub(crate) fn read_route(line: &[u8]) -> Option<(Port, u32)>
    ensures some { IfSome result (λ r. IsRouteLine line.now r.0 r.1) }
    ensures none { IfNone result ((port : Port) (address : ℕ) → IsRouteLine line.now port address → ⊥) }
{
    let rest = strip_word(line, b"to ")?;
    let (port, digits) = read_side(rest)?;
    let address = small_number(digits)?;
    Some((port, address))
}

/// What a line after the routes does, if it is good.
pub(crate) fn read_step(alloc: Global, line: &[u8]) -> Result<Option<Step>, AllocError>
    ensures some { IfOk result (λ found. IfSome found (λ step. IsStepLine line.now step)) }
    ensures none { IfOk result (λ found. IfNone found ((step : Step) → IsStepLine line.now step → ⊥)) }
{
    match strip_word(line, b"drain ") {
        Some(rest) => Ok(read_drain(rest)),
        None => read_feed(alloc, line),
    }
}

fn read_feed(alloc: Global, line: &[u8]) -> Result<Option<Step>, AllocError>
    ensures some { IfOk result (λ found. IfSome found (λ step. IsFeed line.now step)) }
    ensures none { IfOk result (λ found. IfNone found ((from : Port) (bytes : List ℕ) → IsBytes bytes →
        line.now ≡ side_name from ++ 32 ∷ encode_lower bytes → ⊥)) }
{
    let Some((from, digits)) = read_side(line) else {
        return Ok(None);
    };
    match hex_bytes(alloc, digits)? {
        Some(bytes) => Ok(Some(Step::Feed {
            from,
            bytes: Bytes::from_vec(bytes)?,
        })),
        None => Ok(None),
    }
}

fn read_drain(rest: &[u8]) -> Option<Step>
    ensures some { IfSome result (λ step. IsDrain rest.now step) }
    ensures none { IfNone result ((to : Port) (count : ℕ) → 1 ≤ count → count ≤ 256 →
        rest.now ≡ side_name to ++ 32 ∷ decimal count → ⊥) }
{
    let (to, digits) = read_side(rest)?;
    let count = small_number(digits)?;
    if count == 0 || count > MAX_DRAINED {
        return None;
    }
    Some(Step::Drain { to, count })
}

// The side that stands in front of a text, and what stands behind it and a blank.
fn read_side(text: &[u8]) -> Option<(Port, &[u8])>
    ensures some { IfSome result (λ r. text.now ≡ side_name r.0 ++ 32 ∷ r.1.now) }
    ensures only { (port : Port) (rest : List ℕ) → text.now ≡ side_name port ++ 32 ∷ rest →
        IsSomeAnd result (λ r. (r.0 ≡ port) × (r.1.now ≡ rest)) }
{
    if let Some(rest) = strip_word(text, b"left ") {
        return Some((Port::Left, rest));
    }
    let rest = strip_word(text, b"right ")?;
    Some((Port::Right, rest))
}
