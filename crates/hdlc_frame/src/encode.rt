//! The writer of frames.

ghost use Rattle.std.specs.Prelude.{◌≡◌, ◌<◌, ◌≤◌, ◌++◌, IfSome, IsNone, OnOk, OnErr, List, ℕ, length, take};
ghost use Rattle.hdlc_frame.specs.Encoded.{encoded_ui};
ghost use Rattle.hdlc_frame.specs.Laid.{Lays};

use crate::header::{LONGEST_HEADER, check_of, spell_header};
use crate::octets::FLAG;
use crate::text::{push_text, put, put_text};
use std::alloc::AllocError;

/// Appends an unnumbered information frame: a flag, the text of address, control octet 03, `payload` and check
/// sequence (its lowest octet first), a flag. The address has the shortest spelling.
/// Want of memory leaves `out` as it was.
pub fn encode_ui(address: u32, payload: &[u8], out: &mut Vec<u8>) -> Result<(), AllocError>
    ensures ok { OnOk result (out.new.items ≡ out.old.items ++ encoded_ui address payload.now) }
    ensures err { OnErr result (out.new.items ≡ out.old.items) }
{
    let start = out.len();
    match push_ui(address, payload, out) {
        Ok(()) => Ok(()),
        Err(error) => {
            out.truncate(start);
            Err(error)
        }
    }
}

/// Writes the same frame to the front of `out`. Answers how many bytes it has, and `None` where `out` is shorter than
/// that: some of the frame may then stand in it. A frame has at most 22 bytes more than twice those of its payload.
pub fn encode_ui_into(address: u32, payload: &[u8], out: &mut [u8]) -> Option<usize>
    ensures written { IfSome result (λ n. (n ≤ length out.new) × (take n out.new ≡ encoded_ui address payload.now)) }
    ensures short { IsNone result → length out.new < length (encoded_ui address payload.now) }
{
    put_ui(address, payload, out)
}

fn push_ui(address: u32, payload: &[u8], out: &mut Vec<u8>) -> Result<(), AllocError>
    ensures ok { OnOk result (out.new.items ≡ out.old.items ++ encoded_ui address payload.now) }
    ensures kept { (more : List ℕ) × (out.new.items ≡ out.old.items ++ more) }
{
    let mut octets = [0; LONGEST_HEADER];
    let len = spell_header(&mut octets, address);
    let header = &octets[..len];
    let check = check_of(header, payload).to_le_bytes();
    out.push(FLAG)?;
    push_text(header, out)?;
    push_text(payload, out)?;
    push_text(&check, out)?;
    out.push(FLAG)?;
    Ok(())
}

fn put_ui(address: u32, payload: &[u8], out: &mut [u8]) -> Option<usize>
    ensures { Lays out.old 0 (encoded_ui address payload.now) result out.new }
{
    let mut octets = [0; LONGEST_HEADER];
    let len = spell_header(&mut octets, address);
    let header = &octets[..len];
    let check = check_of(header, payload).to_le_bytes();
    let begun = put(out, 0, FLAG)?;
    let behind_header = put_text(out, begun, header)?;
    let behind_payload = put_text(out, behind_header, payload)?;
    let behind_check = put_text(out, behind_payload, &check)?;
    put(out, behind_check, FLAG)
}
