//! The text that stands for a content between two flags (RFC 1662, section 4.2).

ghost use Rattle.std.specs.Prelude.{◌≡◌, ◌<◌, ◌≤◌, ◌++◌, ◌∷◌, [], length, take, OnOk, IfOk, List, ℕ};
ghost use Rattle.hdlc_frame.specs.Encoded.{text_of, text_of_octet};
ghost use Rattle.hdlc_frame.specs.Laid.{Lays};

use crate::octets::{ESCAPE, ESCAPE_BIT, needs_escape, ordinary_len};
use std::alloc::AllocError;

/// Appends the text that stands for `content`: flags and escapes are escaped, and nothing else.
#[tactic(auto, unfolding(crate::specs::Encoded::text_of))]
pub(crate) fn push_text(content: &[u8], out: &mut Vec<u8>) -> Result<(), AllocError>
    ensures ok { OnOk result (out.new.items ≡ out.old.items ++ text_of content.now) }
    ensures kept { (more : List ℕ) × (out.new.items ≡ out.old.items ++ more) }
{
    let mut done = 0;
    'runs: while done < content.len() {
        done += push_run(&content[done..], out)?;
    }
    Ok(())
}

// Appends the text of the octets up to and with the first one that is escaped, else of all. Answers how many those are.
fn push_run(content: &[u8], out: &mut Vec<u8>) -> Result<usize, AllocError>
    requires more { 0 < length content.now }
    ensures taken { IfOk result (λ n. (0 < n) × (n ≤ length content.now)) }
    ensures ok { IfOk result (λ n. out.new.items ≡ out.old.items ++ text_of (take n content.now)) }
    ensures kept { (more : List ℕ) × (out.new.items ≡ out.old.items ++ more) }
{
    let run = ordinary_len(content);
    out.extend_from_slice(&content[..run])?;
    if run == content.len() {
        return Ok(run);
    }
    let octet = content[run];
    push_octet(octet, out)?;
    Ok(run + 1)
}

// Appends the text of one octet of content.
fn push_octet(octet: u8, out: &mut Vec<u8>) -> Result<(), AllocError>
    ensures ok { OnOk result (out.new.items ≡ out.old.items ++ text_of_octet octet) }
    ensures kept { (more : List ℕ) × (out.new.items ≡ out.old.items ++ more) }
{
    if needs_escape(octet) {
        out.push(ESCAPE)?;
        out.push(octet ^ ESCAPE_BIT)?;
    } else {
        out.push(octet)?;
    }
    Ok(())
}

/// Writes the text that stands for `content` from `at` on. Answers where it ends, and `None` where `out` is too short.
#[tactic(auto, unfolding(crate::specs::Encoded::text_of))]
pub(crate) fn put_text(out: &mut [u8], at: usize, content: &[u8]) -> Option<usize>
    requires { at ≤ length out.old }
    ensures { Lays out.old at (text_of content.now) result out.new }
{
    let mut end = at;
    for octet in content {
        end = put_octet(out, end, *octet)?;
    }
    Some(end)
}

fn put_octet(out: &mut [u8], at: usize, octet: u8) -> Option<usize>
    requires { at ≤ length out.old }
    ensures { Lays out.old at (text_of_octet octet) result out.new }
{
    if needs_escape(octet) {
        let end = put(out, at, ESCAPE)?;
        put(out, end, octet ^ ESCAPE_BIT)
    } else {
        put(out, at, octet)
    }
}

/// Writes one octet at `at`, as it is.
pub(crate) fn put(out: &mut [u8], at: usize, octet: u8) -> Option<usize>
    requires { at ≤ length out.old }
    ensures { Lays out.old at (octet ∷ []) result out.new }
{
    if at == out.len() {
        return None;
    }
    out[at] = octet;
    Some(at + 1)
}
