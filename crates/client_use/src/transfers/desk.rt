//! A task of session 1 on a dispatcher of its own, followed row by row.
use crate::checks::end_is;
use bytes::Bytes;
use rpc_handlers::Out;
use rpc_ids::Status;
use std::alloc::{AllocError, Global};
use std::marker::Model;
use std::process::Abort;
use std::test::Fail;
use task_core::{Dispatcher, Mail, Task};
use transfer_base::Ask;
use transfer_chunk::ChunkRef;
use transfer_words::{WordRef, text_of};

/// The session of each task here.
pub const SESSION: u32 = 1;

/// What comes to a task, and what it says and does. Offsets and ends of windows are in bytes.
#[derive(Clone, Copy, Debug, PartialEq, Eq)]
pub enum Step {
    Start { offset: u64 },
    StartAck { offset: u64 },
    /// An offset, the end of a window, and the size of a chunk.
    Confirmation(u64, u32, u32),
    Retransmit(u64, u32, u32),
    Continue(u64, u32, u32),
    Piece(u64, &'static [u8]),
    LastPiece(u64, &'static [u8]),
    Completion(Status),
    CompletionAck,
    /// A message of the service.
    Text(&'static [u8]),
    /// The call ends.
    Closed(Status),
    Begin { offset: u64 },
    Append(&'static [u8]),
    Commit,
    Leave,
}

/// At a moment, in milliseconds, this comes, if anything does, and the task says and does that.
pub type Row = (u64, Option<Step>, &'static [Step]);

/// Rows, and how the task has ended behind them, if it has.
pub type Phase = (&'static [Row], Option<Status>);

/// A task, and the moment.
#[derive(Drop)]
pub struct Desk<T> {
    alloc: Global,
    tasks: Dispatcher<T>,
    key: usize,
    moment: u64,
}

impl<T> Model for Desk<T> {
    ghost use Rattle.std.specs.Prelude.{◌≡◌};
    ghost use Rattle.task_core.specs.Tasks.{HasKey, Tasks};

    ghost Value = { Tasks T };

    ghost view = { λ d. d.tasks };

    ghost invariant = { λ d. HasKey d.tasks d.key × (d.tasks.moment ≡ d.moment) };
}

impl<T: Task + Drop> Desk<T> {
    pub fn open(alloc: Global, task: T) -> Result<Desk<T>, Fail> {
        let mut tasks = Dispatcher::new(alloc)?;
        match tasks.add(task) {
            Ok(key) => Ok(Desk {
                alloc,
                tasks,
                key,
                moment: 0,
            }),
            Err((_, why)) => Err(Fail::new(format_args!("refused: {why:?}"))),
        }
    }

    /// Fails at the first row at which the task says or does something else.
    pub fn follow(&mut self, rows: &[Row]) -> Result<(), Fail> {
        for (number, row) in rows.iter().enumerate() {
            if !self.does(row)? {
                return Err(Fail::new(format_args!("row {number}")));
            }
        }
        Ok(())
    }

    /// The task goes through these phases.
    pub fn goes_through(&mut self, rt: &impl Abort, phases: &[Phase]) -> Result<(), Fail> {
        for (number, (rows, end)) in phases.iter().enumerate() {
            self.follow(rows)?;
            end_is(rt, self.result(), *end, number);
        }
        Ok(())
    }

    /// The mail waits for the next row.
    pub fn post(&mut self, step: Step) -> Result<(), AllocError> {
        let mail = match step {
            Step::Closed(status) => Mail::Closed(status),
            Step::Text(text) => Mail::Text(Bytes::from_static(text)),
            _ => match word_of(step) {
                Some(word) => Mail::Text(text(self.alloc, word)?),
                None => return Ok(()),
            },
        };
        self.tasks.post(self.key, mail)
    }

    /// How the task has ended.
    pub fn result(&self) -> Option<Status> {
        self.tasks.result(self.key)
    }

    fn does(&mut self, row: &Row) -> Result<bool, AllocError> {
        let (at, comes, wants) = *row;
        if let Some(step) = comes {
            self.post(step)?;
        }
        self.run(at)?;
        Ok(self.says(wants))
    }

    fn run(&mut self, at: u64) -> Result<(), AllocError> {
        if self.moment < at {
            self.tasks.advance(at);
            self.moment = at;
        }
        self.tasks.run_until_stalled(8)?;
        Ok(())
    }

    fn says(&mut self, wants: &[Step]) -> bool {
        for want in wants {
            if !self.is_next(*want) {
                return false;
            }
        }
        self.tasks.take_out().is_none()
    }

    fn is_next(&mut self, want: Step) -> bool {
        match self.tasks.take_out() {
            Some((_, out)) => is_so(&out, want),
            None => false,
        }
    }
}

// A window that ends past all numbers is taken for none.
fn text(alloc: Global, word: WordRef<'_>) -> Result<Bytes, AllocError> {
    if let WordRef::Parameters(ask) = word {
        if ask.window_end > 4_294_967_295 {
            return Ok(Bytes::new());
        }
    }
    if let WordRef::Confirmation(ask) = word {
        if ask.window_end > 4_294_967_295 {
            return Ok(Bytes::new());
        }
    }
    text_of(alloc, SESSION, word)
}

fn ask(again: bool, offset: u64, window_end: u32, max_chunk: u32) -> Ask {
    Ask {
        again,
        offset,
        window_end: u64::from(window_end),
        max_chunk,
    }
}

// The word that a chunk says, where the step is one.
fn word_of(step: Step) -> Option<WordRef<'static>> {
    match step {
        Step::Start { offset } => Some(WordRef::Start {
            resource: 7,
            offset,
        }),
        Step::StartAck { offset } => Some(WordRef::StartAck { offset }),
        Step::Confirmation(offset, end, size) => {
            Some(WordRef::Confirmation(ask(true, offset, end, size)))
        }
        Step::Retransmit(offset, end, size) => {
            Some(WordRef::Parameters(ask(true, offset, end, size)))
        }
        Step::Continue(offset, end, size) => {
            Some(WordRef::Parameters(ask(false, offset, end, size)))
        }
        Step::Piece(offset, bytes) => Some(WordRef::Data {
            offset,
            bytes,
            last: false,
        }),
        Step::LastPiece(offset, bytes) => Some(WordRef::Data {
            offset,
            bytes,
            last: true,
        }),
        Step::Completion(status) => Some(WordRef::Completion(status)),
        Step::CompletionAck => Some(WordRef::CompletionAck),
        _ => None,
    }
}

fn is_so(out: &Out, want: Step) -> bool {
    match out {
        Out::Say(text) => says(text.as_slice(), want),
        Out::Begin {
            session,
            resource,
            offset,
        } => *session == SESSION && *resource == 7 && want == Step::Begin { offset: *offset },
        Out::Append { session, bytes } => {
            *session == SESSION && matches!(want, Step::Append(part) if part == bytes.as_slice())
        }
        Out::Commit { session } => *session == SESSION && want == Step::Commit,
        Out::Leave { session } => *session == SESSION && want == Step::Leave,
    }
}

// A START names the session that is to be, each other chunk the one that is.
fn says(text: &[u8], want: Step) -> bool {
    let Ok(chunk) = ChunkRef::read(text) else {
        return false;
    };
    let session = match want {
        Step::Start { .. } => chunk.desired,
        _ => chunk.session,
    };
    let Some(word) = word_of(want) else {
        return false;
    };
    session == Some(SESSION) && WordRef::of(&chunk) == Some(word)
}
