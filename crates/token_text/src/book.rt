//! A book of formats.
ghost use Rattle.std.specs.Prelude.{◌≡◌, ◌<◌, ◌≤◌, ◌^◌, ◌-◌, ◌↔◌, ◌==◌, ℕ, min, false, List, [], ◌∷◌, ◌++◌, length, drop, Some, IsSome, option_copied, IsNone, IfOk, OnOk, OnErr, MatchResult, Err};
ghost use Rattle.rpc_ids.specs.Names.{name_id};
ghost use Rattle.token_text.specs.Arguments.{Argument, arguments_of, fits as fits_of};
ghost use Rattle.token_text.specs.Book.{Entry, IsMessage, format_of, message_text, token_of};
ghost use Rattle.token_text.specs.Format.{IsFormat, IsNoFormat};
ghost use Rattle.token_text.specs.Printing.{text_of};
ghost use Rattle.token_text.specs.Spelling.{AreWords};
ghost use Rattle.token_text.specs.Steps.{IsNoMessageAt};
ghost use Rattle.token_text.specs.declared.part.Part.{Part};

use crate::argument::{Arg, Args};
use crate::format::{find_fault, parts_of};
use crate::part::Part;
use crate::print::print_parts;
use crate::write_argument::{fits, push_arguments};
use byteorder::{ByteOrder, LittleEndian};
use rpc_ids::hash_name;
use std::alloc::{AllocError, Global};
use std::marker::Model;
use thiserror::Error;

/// Why a format wasn't added.
#[derive(Clone, Copy, Debug, PartialEq, Eq, Error)]
pub enum FormRefused {
    /// The bytes aren't a format. The first part that isn't allowed begins at this offset; it is 256 where they are only
    /// too long. An offset past 4,294,967,295 is told as that number.
    #[error("no format: byte {0}")]
    Form(u32),
    /// A format with the same token is in.
    #[error("a format with this token is in")]
    Clash,
    /// There was no memory for the format.
    #[error("out of memory")]
    Memory,
}

/// Why a message has no text.
#[derive(Clone, Copy, Debug, PartialEq, Eq, Error)]
pub enum TextRefused {
    /// It has fewer than four bytes.
    #[error("no token")]
    Short,
    /// No format has this token.
    #[error("unknown token {0:08x}")]
    Unknown(u32),
    /// No argument can be read at this offset, or all are read and bytes are left from there on.
    #[error("wrong argument at byte {0}")]
    Wrong(u32),
    /// There was no memory for the text.
    #[error("out of memory")]
    Memory,
}

impl From<AllocError> for TextRefused {
    ghost use Rattle.token_text.specs.declared.book.TextRefused.TheVariants.{Memory};

    ghost from_gives = { λ _ e. e ≡ Memory };

    fn from(_: AllocError) -> TextRefused {
        TextRefused::Memory
    }
}

/// Why a message wasn't made.
#[derive(Clone, Copy, Debug, PartialEq, Eq, Error)]
pub enum MessageRefused {
    /// No format has this token.
    #[error("unknown token")]
    Unknown,
    /// The number or the kinds of the arguments don't fit the format, or a text has a byte outside 20 to 7E.
    #[error("the arguments don't fit the format")]
    Args,
    /// There was no memory for the message.
    #[error("out of memory")]
    Memory,
}

/// A format, by its token.
#[derive(Debug, Drop)]
pub struct Format {
    token: u32,
    parts: Vec<Part>,
}

impl Model for Format {
    ghost use Rattle.std.specs.Prelude.{length, ◌≤◌};
    ghost use Rattle.token_text.specs.Book.{Entry};

    ghost Value = { Entry };

    ghost view = { λ f. record { token = f.token; parts = f.parts.items } };

    ghost invariant = { λ f. length f.parts.items ≤ 256 };
}

impl Format {
    fn has_token(&self, token: u32) -> bool
        ensures { result ≡ (self.now.token == token) }
    {
        self.token == token
    }
}

/// Formats by their tokens, in the order in which they were added. No two of them have the same token.
///
/// A format is a text of at most 256 bytes from 20 to 7E, with at most 16 arguments. In it `%%` is a percent sign, `%d`,
/// `%u` and `%x` are numbers, and `%s` is a text. Between the percent sign and the letter of a number a width from 1 to
/// 20 may stand, with a zero in front of it or not. Its token is the hash by which services and methods are named.
///
/// A message is the token as four bytes, the lowest first, and then the arguments. A number is the varint of 2n for n of at
/// least 0 and of -2n - 1 below. A text is one byte, whose low seven bits are its length and whose top bit says that it was
/// cut, and then its bytes.
#[derive(Debug, Drop)]
pub struct TokenBook {
    formats: Vec<Format>,
}

impl Model for TokenBook {
    ghost use Rattle.std.specs.Prelude.{IsTrue, List};
    ghost use Rattle.token_text.specs.Book.{Entry, has_own_tokens};

    ghost Value = { List Entry };

    ghost view = { λ b. b.formats.items };

    ghost invariant = { λ b. IsTrue (has_own_tokens b.formats.items) };
}

impl TokenBook {
    /// A book with no formats. It takes no memory yet.
    pub fn new(alloc: Global) -> TokenBook
        ensures { result ≡ [] }
    {
        TokenBook {
            formats: Vec::new(alloc),
        }
    }

    /// Adds a format, and gives its token.
    pub fn add(&mut self, format: &[u8]) -> Result<u32, FormRefused>
        ensures token { IfOk result (λ token. token ≡ name_id format.now) }
        ensures added { IfOk result (λ token. (parts : List Part) × IsFormat format.now parts ×
            (self.new ≡ self.old ++ (record { token = token; parts = parts }) ∷ [])) }
        ensures parts { (parts : List Part) → IsFormat format.now parts →
            IfOk result (λ token. self.new ≡ self.old ++ (record { token = token; parts = parts }) ∷ []) }
        ensures new { OnOk result (IsNone (format_of self.old (name_id format.now))) }
        ensures found { IfOk result (λ token. IsSome (format_of self.new token)) }
        ensures others { (token : ℕ) → IsSome (format_of self.old token) → format_of self.new token ≡ format_of self.old token }
        ensures form { (at : ℕ) → result ≡ Err (FormRefused.Form at) →
            (fault : ℕ) × IsNoFormat format.now fault × (at ≡ min fault (2 ^ 32 - 1)) }
        ensures clash { result ≡ Err FormRefused.Clash →
            ((parts : List Part) × IsFormat format.now parts) × IsSome (format_of self.old (name_id format.now)) }
        ensures memory { result ≡ Err FormRefused.Memory →
            ((parts : List Part) × IsFormat format.now parts) × IsNone (format_of self.old (name_id format.now)) }
        ensures only { (parts : List Part) → IsFormat format.now parts → (at : ℕ) → result ≡ Err (FormRefused.Form at) → ⊥ }
        ensures err { OnErr result (self.new ≡ self.old) }
    {
        if let Some(at) = find_fault(format) {
            return Err(FormRefused::Form(u32::try_from(at).unwrap_or(u32::MAX)));
        }
        let token = hash_name(format);
        if self.find(token).is_some() {
            return Err(FormRefused::Clash);
        }
        let alloc = *self.formats.allocator();
        let Ok(parts) = parts_of(alloc, format) else {
            return Err(FormRefused::Memory);
        };
        match self.formats.push(Format { token, parts }) {
            Ok(()) => return Ok(token),
            Err(_) => return Err(FormRefused::Memory),
        }
    }

    /// Appends the text of a message. After an `Err` `out` is as before.
    pub fn text(&self, message: &[u8], out: &mut Vec<u8>) -> Result<(), TextRefused>
        ensures ok { OnOk result ((format : Entry) × (args : List Argument) × IsMessage self.now message.now format args ×
            (out.new.items ≡ out.old.items ++ text_of format.parts args)) }
        ensures only { (format : Entry) (args : List Argument) → IsMessage self.now message.now format args →
            MatchResult result (λ _. out.new.items ≡ out.old.items ++ text_of format.parts args) (λ e. e ≡ TextRefused.Memory) }
        ensures short { (result ≡ Err TextRefused.Short) ↔ (length message.now < 4) }
        ensures unknown { (token : ℕ) → result ≡ Err (TextRefused.Unknown token) →
            (4 ≤ length message.now) × (token ≡ token_of message.now) × IsNone (format_of self.now token) }
        ensures known { 4 ≤ length message.now → IsNone (format_of self.now (token_of message.now)) →
            result ≡ Err (TextRefused.Unknown (token_of message.now)) }
        ensures wrong { (at : ℕ) → result ≡ Err (TextRefused.Wrong at) → (format : Entry) ×
            (format_of self.now (token_of message.now) ≡ Some format) × IsNoMessageAt format.parts (drop 4 message.now) at }
        ensures err { OnErr result (out.new.items ≡ out.old.items) }
    {
        let Some((token, arguments)) = message.split_at_checked(4) else {
            return Err(TextRefused::Short);
        };
        let token = LittleEndian::read_u32(token);
        let Some(format) = self.find(token) else {
            return Err(TextRefused::Unknown(token));
        };
        let before = out.len();
        match print_parts(&format.parts, arguments, out) {
            Ok(()) => Ok(()),
            Err(refused) => {
                out.truncate(before);
                Err(refused)
            }
        }
    }

    /// Appends the message of a token and its arguments, in shortest varints. A text past 127 bytes is cut to its first 127.
    /// After an `Err` `out` is as before.
    pub fn message(&self, token: u32, args: &Args, out: &mut Vec<u8>) -> Result<(), MessageRefused>
        ensures ok { OnOk result (out.new.items ≡ out.old.items ++ message_text token (arguments_of args.now.items)) }
        ensures message { OnOk result ((format : Entry) ×
            IsMessage self.now (message_text token (arguments_of args.now.items)) format (arguments_of args.now.items)) }
        ensures unknown { (result ≡ Err MessageRefused.Unknown) ↔ IsNone (format_of self.now token) }
        ensures args { (result ≡ Err MessageRefused.Args) ↔
            ((format : Entry) × (format_of self.now token ≡ Some format) × (fits_of format.parts args.now.items ≡ false)) }
        ensures err { OnErr result (out.new.items ≡ out.old.items) }
    {
        let Some(format) = self.find(token) else {
            return Err(MessageRefused::Unknown);
        };
        if !fits(&format.parts, args) {
            return Err(MessageRefused::Args);
        }
        let before = out.len();
        match push_message(token, args, out) {
            Ok(()) => Ok(()),
            Err(_) => {
                out.truncate(before);
                Err(MessageRefused::Memory)
            }
        }
    }

    // The format with this token.
    fn find(&self, token: u32) -> Option<&Format>
        ensures { option_copied result ≡ format_of self.now token }
    {
        self.formats.iter().find(|format| format.has_token(token))
    }
}

// Appends a message. After an `Err` a part of it may stand there.
fn push_message(token: u32, args: &[Arg], out: &mut Vec<u8>) -> Result<(), AllocError>
    ensures ok { OnOk result (out.new.items ≡ out.old.items ++ message_text token (arguments_of args.now)) }
    ensures words { OnOk result (AreWords (arguments_of args.now)) }
    ensures begun { (part : List ℕ) × (out.new.items ≡ out.old.items ++ part) }
{
    out.extend_from_slice(&token.to_le_bytes())?;
    push_arguments(out, args)
}
