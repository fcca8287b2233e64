ghost use Rattle.std.specs.Prelude.{◌≡◌, ◌++◌, map, flat_map, None, IfOk, OnOk, OnErr};
ghost use Rattle.transfer_chunk.specs.Chunk.{lent_chunk};
ghost use Rattle.transfer_chunk.specs.declared.ChunkType.TheVariants.{Start};
ghost use Rattle.transfer_words.specs.Spoken.{said_by};
ghost use Rattle.transfer_words.specs.Word.{lent_word, start};
ghost use Rattle.transfer_resume.specs.Book.{chunk_step, end_step, new_book, row_by, row_says, spelled_all, stage_of, start_step, tick_step, told_id, word_step};
ghost use Rattle.transfer_resume.specs.Limits.{IsWithin};
ghost use Rattle.transfer_resume.specs.Plain.{plain_parts, plain_words};
ghost use Rattle.transfer_resume.specs.Ticks as spec;

use crate::hears::stage_hears;
use crate::opening::opened;
use crate::plain::{add_fulls, add_lefts, add_numbers, add_rows, side_number};
use crate::row::Row;
use crate::rows::Rows;
use crate::service::Service;
use crate::side::Side;
use crate::ticks::{stage_stops, stage_ticks};
use link_io::Shelf;
use rpc_handlers::{Outs, Parts, Words};
use rpc_ids::Status;
use std::alloc::{AllocError, Global};
use std::marker::Model;
use transfer_chunk::{ChunkRef, Tuning};
use transfer_words::{WordRef, say};

/// The most sessions of a call.
pub const MAX_SESSIONS: usize = 256;

/// The sessions of one call at the service, all of which move resources the same way.
///
/// Contracts see it as a `Book`: what the sessions share, and where each of them stands.
#[derive(Debug, Drop)]
pub struct Sessions {
    service: Service,
    rows: Rows,
}

impl Model for Sessions {
    ghost use Rattle.std.specs.Prelude.{◌≤◌, length};
    ghost use Rattle.transfer_resume.specs.Book.{Book};

    ghost Value = { Book };

    ghost view = { λ s. record { service = s.service; rows = s.rows } };

    ghost invariant = { λ s. length s.rows ≤ 256 };
}

impl Sessions {
    /// No session yet. Resources are sent from the shelf, and uploads go on from what is left there.
    pub fn new(
        alloc: Global,
        side: Side,
        shelf: Shelf,
        tuning: Tuning,
    ) -> Result<Sessions, AllocError>
        ensures { IfOk result (λ sessions. sessions ≡ new_book side shelf tuning.window tuning.chunk) }
    {
        let service = Service {
            alloc,
            side,
            shelf,
            tuning,
            time: 0,
        };
        Ok(Sessions {
            service,
            rows: Rows::new(alloc),
        })
    }

    /// Takes a chunk that came, at the moment of the last tick. The only error is want of memory; nothing is changed then.
    pub fn on_chunk(&mut self, chunk: &ChunkRef<'_>) -> Result<Outs, AllocError>
        ensures outs { IfOk result (λ outs. outs ≡ spelled_all (chunk_step self.old (lent_chunk chunk.now)).outs) }
        ensures after { OnOk result (self.new ≡ (chunk_step self.old (lent_chunk chunk.now)).after) }
        ensures limits { IfOk result (λ outs. IsWithin outs) }
        ensures err { OnErr result (self.new ≡ self.old) }
    {
        let mut outs = Outs::new(self.service.alloc);
        self.take(chunk, &mut outs)?;
        Ok(outs)
    }

    /// Takes the time, in milliseconds: all sessions by rising id. The only error is want of memory; nothing is changed
    /// then.
    pub fn on_tick(&mut self, now: u64) -> Result<Outs, AllocError>
        ensures outs { IfOk result (λ outs. outs ≡ spelled_all (tick_step self.old now).outs) }
        ensures after { OnOk result (self.new ≡ (tick_step self.old now).after) }
        ensures limits { IfOk result (λ outs. IsWithin outs) }
        ensures err { OnErr result (self.new ≡ self.old) }
    {
        let mut outs = Outs::new(self.service.alloc);
        self.rows = self.tick_rows(now, &mut outs)?;
        self.service.time = now;
        Ok(outs)
    }

    /// Takes the end of the call: all sessions by rising id. None is open or completing after it. The only error is want
    /// of memory; nothing is changed then.
    pub fn on_end(&mut self) -> Result<Outs, AllocError>
        ensures outs { IfOk result (λ outs. outs ≡ spelled_all (end_step self.old).outs) }
        ensures after { OnOk result (self.new ≡ (end_step self.old).after) }
        ensures limits { IfOk result (λ outs. IsWithin outs) }
        ensures err { OnErr result (self.new ≡ self.old) }
    {
        let mut outs = Outs::new(self.service.alloc);
        self.rows = self.stop_rows(&mut outs)?;
        Ok(outs)
    }

    /// Adds the sessions as plain data, from which all of them are known. After an `Err` a part may be added.
    pub fn add_to(&self, words: &mut Words, parts: &mut Parts) -> Result<(), AllocError>
        ensures words { OnOk result (words.new ≡ words.old ++ plain_words self.now) }
        ensures parts { OnOk result (parts.new ≡ parts.old ++ plain_parts self.now) }
    {
        let service = &self.service;
        let head = [
            side_number(service.side),
            u64::from(service.tuning.window),
            u64::from(service.tuning.chunk),
            service.time,
            service.shelf.full.as_slice().len() as u64,
            service.shelf.left.as_slice().len() as u64,
        ];
        add_numbers(words, &head)?;
        add_fulls(words, parts, &service.shelf.full)?;
        add_lefts(words, &service.shelf.left)?;
        add_rows(words, parts, self.rows.as_slice())
    }

    fn take(&mut self, chunk: &ChunkRef<'_>, outs: &mut Outs) -> Result<(), AllocError>
        ensures outs { OnOk result (outs.new ≡ outs.old ++ spelled_all (chunk_step self.old (lent_chunk chunk.now)).outs) }
        ensures after { OnOk result (self.new ≡ (chunk_step self.old (lent_chunk chunk.now)).after) }
        ensures err { OnErr result (self.new ≡ self.old) }
    {
        let Some(word) = WordRef::of(chunk) else {
            return Ok(());
        };
        if let WordRef::Start { .. } = word {
            return self.start(chunk, word, outs);
        }
        match chunk.session {
            Some(id) => self.hear(id, word, outs),
            None => Ok(()),
        }
    }

    // A START opens the session that the client wants; one of another version opens none.
    fn start(
        &mut self,
        chunk: &ChunkRef<'_>,
        word: WordRef<'_>,
        outs: &mut Outs,
    ) -> Result<(), AllocError>
        requires { lent_word word ≡ said_by Start (lent_chunk chunk.now) }
        ensures outs { OnOk result (outs.new ≡ outs.old ++ spelled_all (start_step self.old (lent_chunk chunk.now)).outs) }
        ensures after { OnOk result (self.new ≡ (start_step self.old (lent_chunk chunk.now)).after) }
        ensures err { OnErr result (self.new ≡ self.old) }
    {
        if chunk.version.unwrap_or(0) < 2 {
            let word = WordRef::Completion(Status::Unimplemented);
            return say(self.service.alloc, outs, told_id(chunk), word);
        }
        match chunk.desired {
            Some(0) | None => Ok(()),
            Some(id) => self.hear(id, word, outs),
        }
    }

    // A word for a session.
    #[tactic(auto, using(crate::proofs::SpelledLemmas::spelled_in))]
    fn hear(&mut self, id: u32, word: WordRef<'_>, outs: &mut Outs) -> Result<(), AllocError>
        ensures outs { OnOk result (outs.new ≡ outs.old ++ spelled_all (word_step self.old id (lent_word word.entry)).outs) }
        ensures after { OnOk result (self.new ≡ (word_step self.old id (lent_word word.entry)).after) }
        ensures err { OnErr result (self.new ≡ self.old) }
    {
        let Some(stage) = self.rows.stage(id) else {
            return self.hear_unknown(id, word, outs);
        };
        let after = stage_hears(&self.service, id, stage, word, outs)?;
        self.rows.replace(id, after);
        Ok(())
    }

    // A word for a session that isn't there.
    fn hear_unknown(
        &mut self,
        id: u32,
        word: WordRef<'_>,
        outs: &mut Outs,
    ) -> Result<(), AllocError>
        requires { stage_of id self.old.rows ≡ None }
        ensures outs { OnOk result (outs.new ≡ outs.old ++ spelled_all (word_step self.old id (lent_word word.entry)).outs) }
        ensures after { OnOk result (self.new ≡ (word_step self.old id (lent_word word.entry)).after) }
        ensures err { OnErr result (self.new ≡ self.old) }
    {
        let alloc = self.service.alloc;
        match word {
            WordRef::Start { resource, offset } => self.open(id, resource, offset, outs),
            WordRef::Completion(_) => say(alloc, outs, id, WordRef::CompletionAck),
            WordRef::CompletionAck => Ok(()),
            WordRef::StartAck { .. }
            | WordRef::Confirmation(_)
            | WordRef::Parameters(_)
            | WordRef::Data { .. } => {
                let word = WordRef::Completion(Status::FailedPrecondition);
                say(alloc, outs, id, word)
            }
        }
    }

    // Opens a session, where there is room for one more.
    fn open(
        &mut self,
        id: u32,
        resource: u32,
        offset: u64,
        outs: &mut Outs,
    ) -> Result<(), AllocError>
        requires { stage_of id self.old.rows ≡ None }
        ensures outs { OnOk result (outs.new ≡ outs.old ++ spelled_all (word_step self.old id (start resource offset)).outs) }
        ensures after { OnOk result (self.new ≡ (word_step self.old id (start resource offset)).after) }
        ensures err { OnErr result (self.new ≡ self.old) }
    {
        if self.rows.len() >= MAX_SESSIONS {
            let word = WordRef::Completion(Status::ResourceExhausted);
            return say(self.service.alloc, outs, id, word);
        }
        let stage = opened(&self.service, id, resource, offset, outs)?;
        self.rows.insert(id, stage)
    }

    fn tick_rows(&self, now: u64, outs: &mut Outs) -> Result<Rows, AllocError>
        ensures rows { IfOk result (λ rows. rows ≡ map (row_by (spec.stage_ticks self.now.service.side now)) self.now.rows) }
        ensures outs { OnOk result (outs.new ≡ outs.old ++ spelled_all (flat_map (row_says (spec.stage_ticks self.now.service.side now)) self.now.rows)) }
    {
        let mut rows = Rows::new(self.service.alloc);
        for row in self.rows.as_slice() {
            let stage = stage_ticks(&self.service, row.id(), row.stage(), now, outs)?;
            rows.push(Row::new(row.id(), stage))?;
        }
        Ok(rows)
    }

    fn stop_rows(&self, outs: &mut Outs) -> Result<Rows, AllocError>
        ensures rows { IfOk result (λ rows. rows ≡ map (row_by (spec.stage_stops self.now.service.side)) self.now.rows) }
        ensures outs { OnOk result (outs.new ≡ outs.old ++ spelled_all (flat_map (row_says (spec.stage_stops self.now.service.side)) self.now.rows)) }
    {
        let mut rows = Rows::new(self.service.alloc);
        for row in self.rows.as_slice() {
            let stage = stage_stops(&self.service, row.id(), row.stage(), outs)?;
            rows.push(Row::new(row.id(), stage))?;
        }
        Ok(rows)
    }
}

// The id that a START of another version is told of.
fn told_id(chunk: &ChunkRef<'_>) -> u32
    ensures { result ≡ told_id (lent_chunk chunk.now) }
{
    match (chunk.desired, chunk.session) {
        (Some(id), _) => id,
        (None, Some(id)) => id,
        (None, None) => chunk.transfer_id,
    }
}
