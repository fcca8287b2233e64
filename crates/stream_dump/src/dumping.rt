//! A whole stream is dumped, from a source to a sink.
ghost use Rattle.std.specs.Prelude.{◌≡◌, ◌≢◌, ◌⊎◌, ◌+◌, ◌^◌, ◌<◌, ◌≤◌, [], false, length, IfOk, OnOk, OnErr};
ghost use Rattle.std.specs.Io.KnownBytes.{Appends};
ghost use Rattle.link_io.specs.Causes.{HasCause, Rose};
ghost use Rattle.link_io.specs.Device.{AppendsSome};
ghost use Rattle.stream_dump.specs.Dumps.{Dumps};
ghost use Rattle.stream_dump.specs.Names.{names_of};
ghost use Rattle.stream_dump.specs.Progress.{DumpsOn, IsDumped, StopsIn};
ghost use Rattle.stream_dump.specs.Steps.{last_lines};
ghost use Rattle.stream_dump.specs.Ends.{IsEnding};

use crate::dumper::Dumper;
use crate::names::MethodName;
use link_io::{Failed, Sink, Source, Why};

/// So many bytes of a source are read at most.
pub const INPUT_LIMIT: usize = 67_108_864;

// How many bytes are asked for in one read.
const PIECE: usize = 4_096;

/// Reads a source to its end, a fault or 67,108,864 bytes, and writes what is in it: a line as soon as the flag behind a segment is
/// read, and the last lines at the end. Services and methods are told by these names where they have their ids, else by eight
/// digits. Answers why it ended: `Settled` at the source's end, `Source` or `Sink` where a device failed, `InputLimit` at the limit.
/// It takes no memory.
pub fn dump<I: Source, O: Sink>(names: &[MethodName<'_>], input: &mut I, output: &mut O) -> Why
    requires open { O.finished output.old ≡ false }
    ensures dumps { Dumps (names_of names.now) (I.left input.old) (I.left input.new) (O.written output.old) (O.written output.new) result }
    ensures source { result ≡ Why.Source → Rose (I.faults input.old) (I.faults input.new) }
    ensures sink { result ≡ Why.Sink → Rose (O.faults output.old) (O.faults output.new) }
    ensures source_later { I.faults input.old ≤ I.faults input.new }
    ensures sink_later { O.faults output.old ≤ O.faults output.new }
    ensures endings { IsEnding result }
{
    let mut dumper = Dumper::new();
    dump_stream(&mut dumper, names, input, output)
}

// Takes a piece text by text.
fn dump_piece<O: Sink>(
    dumper: &mut Dumper,
    names: &[MethodName<'_>],
    piece: &[u8],
    output: &mut O,
) -> Result<(), Failed>
    requires room { dumper.old.start + dumper.old.len + length piece.now < 2 ^ 64 }
    requires open { O.finished output.old ≡ false }
    ensures place { OnOk result (dumper.new.start + dumper.new.len ≡ dumper.old.start + dumper.old.len + length piece.now) }
    ensures on { OnOk result (DumpsOn (names_of names.now) (record { dumper = dumper.old; written = O.written output.old })
        (record { dumper = dumper.new; written = O.written output.new }) piece.now) }
    ensures stops { OnErr result (StopsIn (names_of names.now) (record { dumper = dumper.old; written = O.written output.old }) (O.written output.new) piece.now) }
    ensures cause { HasCause (O.faults output.old) (O.faults output.new) result }
    ensures open { O.finished output.new ≡ false }
{
    let mut done = 0;
    'texts: while done < piece.len() {
        done += dumper.take(names, &piece[done..], output)?;
    }
    Ok(())
}

// Writes the last lines of a dump that ended so.
fn finish<O: Sink>(dumper: &Dumper, why: Why, output: &mut O) -> Why
    requires loud { why ≢ Why.Sink }
    requires open { O.finished output.old ≡ false }
    ensures whole { result ≢ Why.Sink → Appends (O.written output.old) (O.written output.new) (last_lines dumper.now) }
    ensures begun { AppendsSome (O.written output.old) (O.written output.new) (last_lines dumper.now) }
    ensures why { (result ≡ why) ⊎ (result ≡ Why.Sink) }
    ensures cause { result ≡ Why.Sink → Rose (O.faults output.old) (O.faults output.new) }
    ensures later { O.faults output.old ≤ O.faults output.new }
{
    match dumper.finish(output) {
        Ok(()) => why,
        Err(_) => Why::Sink,
    }
}

// Reads the source to its end, a fault or the limit.
fn dump_stream<I: Source, O: Sink>(
    dumper: &mut Dumper,
    names: &[MethodName<'_>],
    input: &mut I,
    output: &mut O,
) -> Why
    requires open { O.finished output.old ≡ false }
    requires place { dumper.old.start + dumper.old.len ≡ 0 }
    requires empty { IsDumped (names_of names.now) (record { dumper = dumper.old; written = O.written output.old }) (O.written output.old) [] }
    ensures dumps { Dumps (names_of names.now) (I.left input.old) (I.left input.new) (O.written output.old) (O.written output.new) result }
    ensures source { result ≡ Why.Source → Rose (I.faults input.old) (I.faults input.new) }
    ensures sink { result ≡ Why.Sink → Rose (O.faults output.old) (O.faults output.new) }
    ensures source_later { I.faults input.old ≤ I.faults input.new }
    ensures sink_later { O.faults output.old ≤ O.faults output.new }
    ensures endings { IsEnding result }
{
    let mut buffer = [0; PIECE];
    let mut total = 0;
    'pieces: while total < INPUT_LIMIT {
        let room = PIECE.min(INPUT_LIMIT - total);
        match input.read(&mut buffer[..room]) {
            Ok(0) => return finish(dumper, Why::Settled, output),
            Ok(count) => {
                total += count;
                match dump_piece(dumper, names, &buffer[..count], output) {
                    Ok(()) => {}
                    Err(_) => return Why::Sink,
                }
            }
            Err(_) => return finish(dumper, Why::Source, output),
        }
    }
    finish(dumper, Why::InputLimit, output)
}
