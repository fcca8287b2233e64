//! The method Text of the log service, with streams in both directions.
ghost use Rattle.std.specs.Prelude.{◌≡◌, ◌++◌, [], ◌∷◌, List, IfOk, OnOk, IsNone};
ghost use Rattle.rpc_handlers.specs.declared.event.Event.TheVariants.{Message};
ghost use Rattle.rpc_ids.specs.Names.{name_id};
ghost use Rattle.token_text.specs.Book.{format_of};
ghost use Rattle.token_text.specs.Format.{IsFormat};
ghost use Rattle.token_text.specs.declared.part.Part.{Part};
ghost use Rattle.demo_services.specs.Log.{log_answer, log_book, log_line, untold};

use crate::answers::{end_call, refuse_length, say, say_nothing};
use bytes::Bytes;
use rpc_handlers::{Answer, Event, MAX_PAYLOAD};
use rpc_ids::Status;
use std::alloc::{AllocError, Global};
use std::marker::Model;
use token_text::{FormRefused, TextRefused, TokenBook};

/// A call of Text, which says the text of each message until the completion. It has no state.
///
/// A message is a token with its arguments, by the formats `a`, `%d`, `%u`, `%x` and `%s`. One that has no text is said in
/// lower-case hexadecimal digits behind a question mark; where that is longer than `MAX_PAYLOAD` bytes, the call ends with
/// RESOURCE_EXHAUSTED.
#[derive(Debug, Drop)]
pub struct Log {
    pub(crate) alloc: Global,
    book: TokenBook,
}

impl Model for Log {
    ghost use Rattle.std.specs.Prelude.{◌≡◌};
    ghost use Rattle.demo_services.specs.Log.{log_book};

    ghost Value = { Unit {0} };

    ghost view = { λ _. tt };

    ghost invariant = { λ l. l.book ≡ log_book };
}

impl Log {
    /// The only error is want of memory for the formats.
    #[tactic(auto, unfolding(rpc_ids::specs::Names::name_id))]
    pub fn new(alloc: Global) -> Result<Log, AllocError> {
        let mut book = TokenBook::new(alloc);
        add(&mut book, b"a")?;
        add(&mut book, b"%d")?;
        add(&mut book, b"%u")?;
        add(&mut book, b"%x")?;
        add(&mut book, b"%s")?;
        Ok(Log { alloc, book })
    }

    /// Answers an event. The only error is want of memory.
    pub fn on(&self, ev: &Event) -> Result<Answer, AllocError>
        ensures { IfOk result (λ a. a ≡ log_answer ev.now) }
    {
        match ev {
            Event::Message(payload) => self.tell(payload.as_slice()),
            Event::Completion => Ok(end_call(self.alloc, Status::Okay, Bytes::new())),
            Event::Request(_) | Event::Ended(_) | Event::Tick(_) => Ok(say_nothing(self.alloc)),
        }
    }

    fn tell(&self, message: &[u8]) -> Result<Answer, AllocError>
        ensures { IfOk result (λ a. a ≡ log_answer (Message message.now)) }
    {
        let line = self.line_of(message)?;
        if line.len() > MAX_PAYLOAD {
            return Ok(refuse_length(self.alloc));
        }
        say(self.alloc, Bytes::from_vec(line)?)
    }

    // The text of a message, or its bytes behind a question mark.
    fn line_of(&self, message: &[u8]) -> Result<Vec<u8>, AllocError>
        ensures { IfOk result (λ line. line.items ≡ log_line message.now) }
    {
        let mut line = Vec::new(self.alloc);
        match self.book.text(message, &mut line) {
            Ok(()) => Ok(line),
            Err(TextRefused::Memory) => Err(AllocError),
            Err(TextRefused::Short) => untold(self.alloc, message),
            Err(TextRefused::Unknown(_)) => untold(self.alloc, message),
            Err(TextRefused::Wrong(_)) => untold(self.alloc, message),
        }
    }
}

// Adds a format, of which none with the same token is in.
fn add(book: &mut TokenBook, format: &[u8]) -> Result<(), AllocError>
    requires well { (parts : List Part) × IsFormat format.now parts }
    requires new { IsNone (format_of book.old (name_id format.now)) }
    ensures { OnOk result ((parts : List Part) → IsFormat format.now parts →
        book.new ≡ book.old ++ (record { token = name_id format.now; parts = parts }) ∷ []) }
{
    match book.add(format) {
        Ok(_) => Ok(()),
        Err(FormRefused::Memory) => Err(AllocError),
        Err(FormRefused::Form(_)) => unreachable!(),
        Err(FormRefused::Clash) => unreachable!(),
    }
}

// The bytes of a message behind a question mark.
fn untold(alloc: Global, message: &[u8]) -> Result<Vec<u8>, AllocError>
    ensures { IfOk result (λ line. line.items ≡ untold message.now) }
{
    let digits = hex::encode(alloc, message)?;
    let mut line = Vec::new(alloc);
    line.push(b'?')?;
    line.extend_from_slice(digits.as_bytes())?;
    Ok(line)
}
