//! How the arguments of a message are written.
ghost use Rattle.std.specs.Prelude.{◌≡◌, ℕ, List, ◌++◌, OnOk};
ghost use Rattle.token_text.specs.Arguments.{accepts as accepts_of, argument_of, arguments_of, fits as fits_of};
ghost use Rattle.token_text.specs.Spelling.{AreWords, IsWord, argument_text, arguments_text, zigzag};

use crate::argument::Arg;
use crate::part::Part;
use crate::read_argument::{CUT, are_printable};
use proto_wire::push_varint;
use std::alloc::AllocError;

/// A text of a message has so many bytes at most.
const MAX_TEXT: usize = 127;

/// Whether the parts take just these arguments.
pub(crate) fn fits(parts: &[Part], args: &[Arg]) -> bool
    ensures { result ≡ fits_of parts.now args.now }
{
    let mut rest = args;
    for part in parts {
        if !part.is_argument() {
            continue;
        }
        let Some((arg, behind)) = rest.split_first() else {
            return false;
        };
        if !accepts(part, arg) {
            return false;
        }
        rest = behind;
    }
    rest.is_empty()
}

fn accepts(part: &Part, arg: &Arg) -> bool
    ensures { result ≡ accepts_of part.now arg.now }
{
    match (part, arg) {
        (Part::Number { .. }, Arg::Number(_)) => true,
        (Part::Text, Arg::Text(text)) => are_printable(text.as_slice()),
        _ => false,
    }
}

/// Appends the arguments. After an `Err` a part of them may stand there.
pub(crate) fn push_arguments(out: &mut Vec<u8>, args: &[Arg]) -> Result<(), AllocError>
    ensures ok { OnOk result (out.new.items ≡ out.old.items ++ arguments_text (arguments_of args.now)) }
    ensures words { OnOk result (AreWords (arguments_of args.now)) }
    ensures begun { (part : List ℕ) × (out.new.items ≡ out.old.items ++ part) }
{
    for arg in args {
        push_argument(out, arg)?;
    }
    Ok(())
}

// Appends an argument. After an `Err` a part of it may stand there.
fn push_argument(out: &mut Vec<u8>, arg: &Arg) -> Result<(), AllocError>
    ensures ok { OnOk result (out.new.items ≡ out.old.items ++ argument_text (argument_of arg.now)) }
    ensures word { IsWord (argument_of arg.now) }
    ensures begun { (part : List ℕ) × (out.new.items ≡ out.old.items ++ part) }
{
    match arg {
        Arg::Number(number) => push_varint(out, fold(*number)),
        Arg::Text(text) => push_text(out, text.as_slice()),
    }
}

// The number as one without a sign: 2n for n of at least 0, and -2n - 1 below.
fn fold(number: i64) -> u64
    ensures { result ≡ zigzag number }
{
    if number < 0 {
        (-(number + 1)) as u64 * 2 + 1
    } else {
        number as u64 * 2
    }
}

// Appends a text, behind its length. After an `Err` a part of it may stand there.
fn push_text(out: &mut Vec<u8>, text: &[u8]) -> Result<(), AllocError>
    ensures ok { OnOk result (out.new.items ≡ out.old.items ++ argument_text (argument_of (Arg.Text text.now))) }
    ensures begun { (part : List ℕ) × (out.new.items ≡ out.old.items ++ part) }
{
    if text.len() <= MAX_TEXT {
        out.push(text.len() as u8)?;
        out.extend_from_slice(text)
    } else {
        let (shown, _) = text.split_at(MAX_TEXT);
        out.push(MAX_TEXT as u8 + CUT)?;
        out.extend_from_slice(shown)
    }
}
