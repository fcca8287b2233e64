//! Lines of formats and messages.
ghost use Rattle.std.specs.Prelude.{◌≡◌, ℕ, ◌+◌, ◌-◌, ◌<◌, ◌≤◌, ◌^◌, List, [], ◌++◌, length, IfOk, IfNone, IfSome, OnOk, OnErr, Err, true, false};
ghost use Rattle.text_fields.specs.Lines.{lines_of};
ghost use Rattle.token_text.specs.lines.Lines.{Adds, ArePrinted, BeginsWithNoFormat, HasBadLine, HasNoMessageAt, IsMessageLine, IsPrinted, MayNotAdd};

use crate::lines::answer::push_line;
use crate::{FormRefused, TokenBook};
use std::alloc::{AllocError, Global};
use text_fields::{first_line, hex_bytes, strip_word};
use thiserror::Error;

/// Why nothing was printed of some lines.
#[derive(Clone, Copy, Debug, PartialEq, Eq, Error)]
pub enum LinesRefused {
    /// The line of this number, counted from 1, is the first one that is neither a format that may be added nor a message.
    #[error("bad line {0}")]
    Line(usize),
    /// There was no memory.
    #[error("out of memory")]
    Memory,
}

impl From<AllocError> for LinesRefused {
    ghost use Rattle.token_text.specs.declared.lines.lines.LinesRefused.TheVariants.{Memory};

    ghost from_gives = { λ _ e. e ≡ Memory };

    fn from(_: AllocError) -> LinesRefused {
        LinesRefused::Memory
    }
}

/// Appends what is printed of a text's lines: first come lines with `format` and a format, and then lines with `text` and a
/// message in lower-case hexadecimal digits. Each message gives a line, with its text, `? short`, `? unknown` and its
/// token, or `? wrong` and an offset. After an `Err` `out` is as before.
pub fn print_lines(alloc: Global, text: &[u8], out: &mut Vec<u8>) -> Result<(), LinesRefused>
    ensures ok { OnOk result ((printed : List ℕ) × IsPrinted [] (lines_of text.now) printed × (out.new.items ≡ out.old.items ++ printed)) }
    ensures line { (number : ℕ) → result ≡ Err (LinesRefused.Line number) → (1 ≤ number) × HasBadLine [] (lines_of text.now) (number - 1) }
    ensures err { OnErr result (out.new.items ≡ out.old.items) }
{
    let mut book = TokenBook::new(alloc);
    let (rest, number) = read_formats(&mut book, text)?;
    let before = out.len();
    match print_messages(alloc, &book, rest, number, out) {
        Ok(()) => Ok(()),
        Err(refused) => {
            out.truncate(before);
            Err(refused)
        }
    }
}

// Adds the formats of the first lines to the book, and gives the lines behind them, with the number of the next one.
fn read_formats<'a>(book: &mut TokenBook, text: &'a [u8]) -> Result<(&'a [u8], usize), LinesRefused>
    ensures printed { IfOk result (λ r. (printed : List ℕ) → IsPrinted book.new (lines_of r.0.now) printed →
        IsPrinted book.old (lines_of text.now) printed) }
    ensures bad { IfOk result (λ r. (k : ℕ) → HasBadLine book.new (lines_of r.0.now) k →
        HasBadLine book.old (lines_of text.now) ((r.1 - 1) + k)) }
    ensures behind { IfOk result (λ r. BeginsWithNoFormat (lines_of r.0.now)) }
    ensures number { IfOk result (λ r. (1 ≤ r.1) × (r.1 + length r.0.now ≤ 1 + length text.now)) }
    ensures line { (number : ℕ) → result ≡ Err (LinesRefused.Line number) → (1 ≤ number) × HasBadLine book.old (lines_of text.now) (number - 1) }
{
    let mut rest = text;
    let mut number = 1;
    'lines: while let Some((line, behind)) = first_line(rest) {
        let Some(format) = strip_word(line, b"format ") else {
            return Ok((rest, number));
        };
        if !add_format(book, format)? {
            return Err(LinesRefused::Line(number));
        }
        rest = behind;
        number += 1;
    }
    Ok((rest, number))
}

// Adds a format, and answers whether it may be added.
fn add_format(book: &mut TokenBook, format: &[u8]) -> Result<bool, AllocError>
    ensures added { IfOk result (λ done. done ≡ true → Adds book.old format.now book.new) }
    ensures refused { IfOk result (λ done. done ≡ false → MayNotAdd book.old format.now) }
{
    match book.add(format) {
        Ok(_) => Ok(true),
        Err(FormRefused::Form(_)) => Ok(false),
        Err(FormRefused::Clash) => Ok(false),
        Err(FormRefused::Memory) => Err(AllocError),
    }
}

// Appends what is printed of messages in lines, of which the first has this number. After an `Err` a part of it may stand
// there.
fn print_messages(
    alloc: Global,
    book: &TokenBook,
    text: &[u8],
    first: usize,
    out: &mut Vec<u8>,
) -> Result<(), LinesRefused>
    requires low { 1 ≤ first }
    requires room { first + length text.now < 2 ^ 64 }
    ensures ok { OnOk result ((printed : List ℕ) × ArePrinted book.now (lines_of text.now) printed × (out.new.items ≡ out.old.items ++ printed)) }
    ensures line { (number : ℕ) → result ≡ Err (LinesRefused.Line number) → (k : ℕ) × (number ≡ first + k) × HasNoMessageAt (lines_of text.now) k }
    ensures begun { (part : List ℕ) × (out.new.items ≡ out.old.items ++ part) }
{
    let mut rest = text;
    let mut number = first;
    'lines: while let Some((line, behind)) = first_line(rest) {
        let Some(message) = read_message(alloc, line)? else {
            return Err(LinesRefused::Line(number));
        };
        push_line(alloc, book, &message, out)?;
        rest = behind;
        number += 1;
    }
    Ok(())
}

// The message of a line.
fn read_message(alloc: Global, line: &[u8]) -> Result<Option<Vec<u8>>, AllocError>
    ensures some { IfOk result (λ found. IfSome found (λ message. IsMessageLine line.now message.items)) }
    ensures none { IfOk result (λ found. IfNone found ((message : List ℕ) → IsMessageLine line.now message → ⊥)) }
{
    match strip_word(line, b"text ") {
        Some(digits) => hex_bytes(alloc, digits),
        None => Ok(None),
    }
}
