//! One direction of a bridge: from a source to a sink.

ghost use Rattle.std.specs.Prelude.{◌⊎◌, ◌≡◌, ◌≢◌, ◌≤◌, [], true, false, IfOk, IfErr, OnOk, OnErr};
ghost use Rattle.std.specs.Io.KnownBytes.{Appends, Keeps};
ghost use Rattle.link_io.specs.Causes.{Rose};
ghost use Rattle.frame_router.specs.Gathered.{GathersOn, GathersPart, no_batch};
ghost use Rattle.frame_router.specs.Pumped.{Pumps};
ghost use Rattle.frame_router.specs.Steps.{IsPumped, IsSinkStop, PumpsOn, StopsIn, WritesPart, stopped_pump, tally_in};

use crate::batch::Batch;
use crate::intake::Intake;
use crate::{Port, Routes, Tally};
use link_io::{Sink, Source, Why};
use std::alloc::{AllocError, Global};

/// So many bytes of a source are read at most.
pub const INPUT_LIMIT: usize = 67_108_864;

// How many bytes are asked for in one read.
const PIECE: usize = 16_384;

/// What a pump did.
#[derive(Clone, Copy, Debug, PartialEq, Eq)]
pub struct Pumped {
    /// Why it ended.
    pub why: Why,
    /// How the segments of the bytes read were counted; where a write failed or memory was wanting, those before the frame
    /// that it was for.
    pub tally: Tally,
    /// How many bytes the source gave.
    pub read: u64,
}

/// Reads a source to its end, a fault or 67,108,864 bytes, and writes the frames that pass to a sink at once: those that one
/// read brings to their end go out together, before the next read. At the end of the source the sink is finished. Its memory
/// doesn't grow with the input.
///
/// # Errors
///
/// `AllocError` where there was no memory to begin; later want of memory is `Why::Memory`.
pub fn pump<I: Source, O: Sink>(
    alloc: Global,
    routes: &Routes,
    from: Port,
    link_in: &mut I,
    link_out: &mut O,
) -> Result<Pumped, AllocError>
    requires open { O.finished link_out.old ≡ false }
    ensures pumps { IfOk result (λ pumped. Pumps routes.now from (I.left link_in.old) (I.left link_in.new) (O.written link_out.old) (O.written link_out.new) pumped) }
    ensures source { IfOk result (λ pumped. pumped.why ≡ Why.Source → Rose (I.faults link_in.old) (I.faults link_in.new)) }
    ensures sink { IfOk result (λ pumped. pumped.why ≡ Why.Sink → Rose (O.faults link_out.old) (O.faults link_out.new)) }
    ensures finished { IfOk result (λ pumped. pumped.why ≡ Why.Settled → O.finished link_out.new ≡ true) }
    ensures endings { IfOk result (λ pumped. (pumped.why ≢ Why.Store) × (pumped.why ≢ Why.JournalLimit)) }
    ensures untouched { OnErr result ((link_in.new ≡ link_in.old) × (link_out.new ≡ link_out.old)) }
{
    let mut intake = Intake::new(alloc)?;
    let mut batch = Batch::new(alloc);
    Ok(pump_stream(&mut intake, &mut batch, routes, from, link_in, link_out))
}

// A frame that could not go on, with the counts of the segments before it.
enum Stopped {
    Sink(Tally),
    Memory(Tally),
}

impl Stopped {
    // What the pump did then.
    fn pumped(self, read: u64) -> Pumped
        ensures { result ≡ stopped_pump self read }
    {
        match self {
            Stopped::Sink(tally) => Pumped {
                why: Why::Sink,
                tally,
                read,
            },
            Stopped::Memory(tally) => Pumped {
                why: Why::Memory,
                tally,
                read,
            },
        }
    }
}

// Takes a piece segment by segment, up to its end or a frame for which there is no memory.
fn gather_piece(
    intake: &mut Intake,
    routes: &Routes,
    from: Port,
    piece: &[u8],
    batch: &mut Batch,
) -> Result<(), AllocError>
    ensures on { OnOk result (GathersOn routes.now from intake.old batch.old intake.new batch.new piece.now) }
    ensures stops { OnErr result (GathersPart routes.now from intake.old batch.old intake.new batch.new piece.now) }
{
    let mut done = 0;
    'segments: while done < piece.len() {
        let taken = intake.feed(routes, from, &piece[done..], batch)?;
        done += taken;
    }
    Ok(())
}

// Writes a batch, and lets its frames go. `all` is how the segments were counted in all.
fn write_batch<O: Sink>(batch: &mut Batch, all: Tally, link_out: &mut O) -> Result<(), Stopped>
    requires open { O.finished link_out.old ≡ false }
    ensures whole { OnOk result (Appends (O.written link_out.old) (O.written link_out.new) batch.old.bytes) }
    ensures empty { OnOk result (batch.new ≡ no_batch) }
    ensures part { IfErr result (λ stopped. WritesPart (O.written link_out.old) (O.written link_out.new) batch.old all (tally_in stopped)) }
    ensures cause { OnErr result (Rose (O.faults link_out.old) (O.faults link_out.new)) }
    ensures later { O.faults link_out.old ≤ O.faults link_out.new }
    ensures open { O.finished link_out.new ≡ false }
{
    let bytes = batch.bytes();
    let mut done = 0;
    'writes: while done < bytes.len() {
        match link_out.write(&bytes[done..]) {
            Ok(count) => done += count,
            Err(_) => return Err(Stopped::Sink(batch.tally_before(done, all))),
        }
    }
    batch.clear();
    Ok(())
}

// Takes a piece, and writes the frames of it that pass at once: all of them, or those before one for which there is no memory.
fn pump_piece<O: Sink>(
    intake: &mut Intake,
    routes: &Routes,
    from: Port,
    piece: &[u8],
    batch: &mut Batch,
    link_out: &mut O,
) -> Result<(), Stopped>
    requires open { O.finished link_out.old ≡ false }
    requires empty { batch.old ≡ no_batch }
    ensures on { OnOk result (PumpsOn routes.now from (record { intake = intake.old; written = O.written link_out.old })
        (record { intake = intake.new; written = O.written link_out.new }) piece.now) }
    ensures empty { OnOk result (batch.new ≡ no_batch) }
    ensures stops { IfErr result (λ stopped. StopsIn routes.now from (record { intake = intake.old; written = O.written link_out.old })
        (O.written link_out.new) piece.now (tally_in stopped)) }
    ensures cause { IfErr result (λ stopped. IsSinkStop stopped → Rose (O.faults link_out.old) (O.faults link_out.new)) }
    ensures later { O.faults link_out.old ≤ O.faults link_out.new }
    ensures open { O.finished link_out.new ≡ false }
{
    let gathered = gather_piece(intake, routes, from, piece, batch);
    match write_batch(batch, intake.tally(), link_out) {
        Ok(()) => {}
        Err(stopped) => return Err(stopped),
    }
    match gathered {
        Ok(()) => Ok(()),
        Err(_) => Err(Stopped::Memory(intake.tally())),
    }
}

// Finishes the sink behind the whole source.
fn finish<O: Sink>(link_out: &mut O, tally: Tally, read: u64) -> Pumped
    requires open { O.finished link_out.old ≡ false }
    ensures pumped { result ≡ record { why = result.why; tally = tally; read = read } }
    ensures why { (result.why ≡ Why.Settled) ⊎ (result.why ≡ Why.Sink) }
    ensures kept { Keeps (O.written link_out.old) (O.written link_out.new) }
    ensures finished { result.why ≡ Why.Settled → O.finished link_out.new ≡ true }
    ensures cause { result.why ≡ Why.Sink → Rose (O.faults link_out.old) (O.faults link_out.new) }
    ensures later { O.faults link_out.old ≤ O.faults link_out.new }
{
    let why = match link_out.finish() {
        Ok(()) => Why::Settled,
        Err(_) => Why::Sink,
    };
    Pumped { why, tally, read }
}

// Reads the source to its end, a fault or the limit.
fn pump_stream<I: Source, O: Sink>(
    intake: &mut Intake,
    batch: &mut Batch,
    routes: &Routes,
    from: Port,
    link_in: &mut I,
    link_out: &mut O,
) -> Pumped
    requires open { O.finished link_out.old ≡ false }
    requires start { IsPumped routes.now from intake.old (O.written link_out.old) (O.written link_out.old) [] }
    requires empty { batch.old ≡ no_batch }
    ensures pumps { Pumps routes.now from (I.left link_in.old) (I.left link_in.new) (O.written link_out.old) (O.written link_out.new) result }
    ensures source { result.why ≡ Why.Source → Rose (I.faults link_in.old) (I.faults link_in.new) }
    ensures sink { result.why ≡ Why.Sink → Rose (O.faults link_out.old) (O.faults link_out.new) }
    ensures finished { result.why ≡ Why.Settled → O.finished link_out.new ≡ true }
    ensures endings { (result.why ≢ Why.Store) × (result.why ≢ Why.JournalLimit) }
{
    let mut buffer = [0; PIECE];
    let mut total = 0;
    'pieces: while total < INPUT_LIMIT {
        let room = PIECE.min(INPUT_LIMIT - total);
        match link_in.read(&mut buffer[..room]) {
            Ok(0) => return finish(link_out, intake.tally(), total as u64),
            Ok(count) => {
                total += count;
                match pump_piece(intake, routes, from, &buffer[..count], batch, link_out) {
                    Ok(()) => {}
                    Err(stopped) => return stopped.pumped(total as u64),
                }
            }
            Err(_) => return Pumped {
                why: Why::Source,
                tally: intake.tally(),
                read: total as u64,
            },
        }
    }
    Pumped {
        why: Why::InputLimit,
        tally: intake.tally(),
        read: total as u64,
    }
}
