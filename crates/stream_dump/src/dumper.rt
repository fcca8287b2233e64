//! A dump under way.
ghost use Rattle.std.specs.Prelude.{◌≡◌, ◌+◌, ◌^◌, ◌<◌, ◌≤◌, ◌∷◌, ◌++◌, [], ℕ, List, false, true, length, take, IfOk, OnOk, OnErr};
ghost use Rattle.std.specs.Fmt.{decimal};
ghost use Rattle.std.specs.Io.KnownBytes.{Appends};
ghost use Rattle.hdlc_frame.specs.declared.octets.TheConstants.{FLAG};
ghost use Rattle.hdlc_frame.specs.Lent.{found_in_got, found_of, parts_of};
ghost use Rattle.hdlc_frame.specs.Machine.{HasRead};
ghost use Rattle.hdlc_frame.specs.Told.{LiesWithin, bytes_at, found_told, parts_at};
ghost use Rattle.link_io.specs.Causes.{HasCause};
ghost use Rattle.link_io.specs.Device.{AppendsSome};
ghost use Rattle.stream_dump.specs.Counting.{no_counts};
ghost use Rattle.stream_dump.specs.Dump.{counts_line, found_words};
ghost use Rattle.stream_dump.specs.Lines.{line};
ghost use Rattle.stream_dump.specs.Names.{names_of};
ghost use Rattle.stream_dump.specs.Steps.{apart_text, ended_line, last_word};

use crate::counting::{counted, no_counts};
use crate::names::MethodName;
use crate::printing::print_line;
use crate::segment_words::add_found;
use crate::words::{Word, Words, add};
use hdlc_frame::{FLAG, Frame, Got, Machine, Place, PlacedFrame, Segment};
use link_io::{Failed, Sink};
use memchr::memchr;
use rpc_frames::{Counts, LARGEST_CONTENT};
use std::marker::Model;

/// How far a dump has come.
#[derive(Drop)]
pub(crate) struct Dumper {
    machine: Machine,
    buffer: [u8; LARGEST_CONTENT],
    // Where the text behind the last flag begins.
    start: u64,
    // How long that text is so far.
    len: u64,
    has_flag: bool,
    counts: Counts,
}

impl Model for Dumper {
    ghost use Rattle.hdlc_frame.specs.Machine.{reading_at};
    ghost use Rattle.stream_dump.specs.Progress.{Progress};

    ghost Value = { Progress };

    ghost view = { λ d. record { reading = reading_at d.machine d.buffer; start = d.start; len = d.len; flagged = d.has_flag; counts = d.counts } };
}

impl Dumper {
    ghost use Rattle.stream_dump.specs.Progress.{DumpsOn, StopsIn};
    ghost use Rattle.stream_dump.specs.Steps.{NoFlag, ReadsText, last_lines};

    /// A dump of a stream that hasn't begun.
    pub(crate) fn new() -> Dumper
        ensures limit { result.reading.limit ≡ LARGEST_CONTENT }
        ensures read { HasRead result.reading [] }
        ensures state { result ≡ record { reading = result.reading; start = 0; len = 0; flagged = false; counts = no_counts } }
    {
        Dumper {
            machine: Machine::new(),
            buffer: [0; LARGEST_CONTENT],
            start: 0,
            len: 0,
            has_flag: false,
            counts: no_counts(),
        }
    }

    /// Takes the bytes up to and with the first flag, else the whole piece, and writes the line of what the flag ends.
    pub(crate) fn take<O: Sink>(
        &mut self,
        names: &[MethodName<'_>],
        piece: &[u8],
        output: &mut O,
    ) -> Result<usize, Failed>
        requires more { 0 < length piece.now }
        requires room { self.old.start + self.old.len + length piece.now < 2 ^ 64 }
        requires open { O.finished output.old ≡ false }
        ensures taken { IfOk result (λ taken. (0 < taken) × (taken ≤ length piece.now)) }
        ensures place { IfOk result (λ taken. self.new.start + self.new.len ≡ self.old.start + self.old.len + taken) }
        ensures on { IfOk result (λ taken. DumpsOn (names_of names.now) (record { dumper = self.old; written = O.written output.old })
            (record { dumper = self.new; written = O.written output.new }) (take taken piece.now)) }
        ensures stops { OnErr result (StopsIn (names_of names.now) (record { dumper = self.old; written = O.written output.old }) (O.written output.new) piece.now) }
        ensures cause { HasCause (O.faults output.old) (O.faults output.new) result }
        ensures open { O.finished output.new ≡ false }
    {
        match memchr(FLAG, piece) {
            None => {
                self.read_text(piece);
                Ok(piece.len())
            }
            Some(at) => {
                self.read_text(&piece[..at]);
                self.end_text(names, output)?;
                Ok(at + 1)
            }
        }
    }

    // Reads bytes without a flag.
    fn read_text(&mut self, text: &[u8])
        requires none { NoFlag text.now }
        requires room { self.old.start + self.old.len + length text.now < 2 ^ 64 }
        ensures { ReadsText self.old self.new text.now }
    {
        self.machine.push(&mut self.buffer, text);
        self.len += text.len() as u64;
    }

    // A flag comes: the line of what it ends is written.
    fn end_text<O: Sink>(&mut self, names: &[MethodName<'_>], output: &mut O) -> Result<(), Failed>
        requires room { self.old.start + self.old.len + 1 < 2 ^ 64 }
        requires open { O.finished output.old ≡ false }
        ensures place { OnOk result (self.new.start + self.new.len ≡ self.old.start + self.old.len + 1) }
        ensures on { OnOk result (DumpsOn (names_of names.now) (record { dumper = self.old; written = O.written output.old })
            (record { dumper = self.new; written = O.written output.new }) (FLAG ∷ [])) }
        ensures stops { OnErr result (StopsIn (names_of names.now) (record { dumper = self.old; written = O.written output.old }) (O.written output.new) (FLAG ∷ [])) }
        ensures cause { HasCause (O.faults output.old) (O.faults output.new) result }
        ensures open { O.finished output.new ≡ false }
    {
        let flag = [FLAG];
        let told = self.machine.push(&mut self.buffer, &flag);
        let got = lent_segment(told.segment, &self.buffer, &flag);
        print_ended(names, self.start, self.len, self.has_flag, got, output)?;
        self.counts = counted(self.counts, got);
        self.start += self.len + 1;
        self.len = 0;
        self.has_flag = true;
        Ok(())
    }

    /// Writes the last lines, behind the whole stream.
    pub(crate) fn finish<O: Sink>(&self, output: &mut O) -> Result<(), Failed>
        requires { O.finished output.old ≡ false }
        ensures whole { OnOk result (Appends (O.written output.old) (O.written output.new) (last_lines self.now)) }
        ensures begun { AppendsSome (O.written output.old) (O.written output.new) (last_lines self.now) }
        ensures cause { HasCause (O.faults output.old) (O.faults output.new) result }
    {
        let word = last_word(self.has_flag);
        print_apart(word, self.start, self.len, output)?;
        print_counts(self.counts, output)?;
        output.flush()
    }
}

// Where the bytes behind the last flag stand.
fn last_word(has_flag: bool) -> &'static str
    ensures { result.now ≡ last_word has_flag }
{
    if has_flag { "open" } else { "skipped" }
}

// What a segment carries that has just ended, if one has.
fn lent_segment<'a>(segment: Option<Segment>, buffer: &'a [u8], piece: &'a [u8]) -> Option<Got<'a>>
    requires { LiesWithin segment buffer.now piece.now }
    ensures { found_in_got result ≡ found_told segment buffer.now piece.now }
{
    match segment {
        None => None,
        Some(Segment::Bad(bad)) => Some(Got::Bad(bad)),
        Some(Segment::Frame(placed)) => Some(Got::Frame(lent_frame(placed, buffer, piece))),
    }
}

fn lent_frame<'a>(placed: PlacedFrame, buffer: &'a [u8], piece: &'a [u8]) -> Frame<'a>
    requires { placed.at + placed.len ≤ length (bytes_at placed.place buffer.now piece.now) }
    ensures { parts_of result ≡ parts_at placed buffer.now piece.now }
{
    let bytes = match placed.place {
        Place::Piece => piece,
        Place::Buffer => buffer,
    };
    Frame {
        address: placed.address,
        control: placed.control,
        payload: &bytes[placed.at..placed.at + placed.len],
    }
}

// Writes the line of what a flag ends: of a segment, or of the bytes in front of the first flag.
fn print_ended<O: Sink>(
    names: &[MethodName<'_>],
    at: u64,
    len: u64,
    has_flag: bool,
    got: Option<Got<'_>>,
    output: &mut O,
) -> Result<(), Failed>
    requires { O.finished output.old ≡ false }
    ensures whole { OnOk result (Appends (O.written output.old) (O.written output.new) (ended_line (names_of names.now) at len has_flag (found_in_got got.entry))) }
    ensures begun { AppendsSome (O.written output.old) (O.written output.new) (ended_line (names_of names.now) at len has_flag (found_in_got got.entry)) }
    ensures cause { HasCause (O.faults output.old) (O.faults output.new) result }
    ensures open { O.finished output.new ≡ false }
{
    match got {
        Some(got) => print_segment(names, at, len, got, output),
        None if has_flag => Ok(()),
        None => print_apart("skipped", at, len, output),
    }
}

fn print_segment<O: Sink>(
    names: &[MethodName<'_>],
    at: u64,
    len: u64,
    got: Got<'_>,
    output: &mut O,
) -> Result<(), Failed>
    requires { O.finished output.old ≡ false }
    ensures whole { OnOk result (Appends (O.written output.old) (O.written output.new) (line (decimal at ∷ found_words (names_of names.now) len (found_of got.entry)))) }
    ensures begun { AppendsSome (O.written output.old) (O.written output.new) (line (decimal at ∷ found_words (names_of names.now) len (found_of got.entry))) }
    ensures cause { HasCause (O.faults output.old) (O.faults output.new) result }
    ensures open { O.finished output.new ≡ false }
{
    let mut words = Words::new();
    add(&mut words, &[Word::Number(at)]);
    add_found(names, len, got, &mut words);
    print_line(output, words.as_slice())
}

// Writes the line of bytes in no segment, where there are some.
fn print_apart<O: Sink>(word: &'static str, at: u64, len: u64, output: &mut O) -> Result<(), Failed>
    requires { O.finished output.old ≡ false }
    ensures whole { OnOk result (Appends (O.written output.old) (O.written output.new) (apart_text word.now at len)) }
    ensures begun { AppendsSome (O.written output.old) (O.written output.new) (apart_text word.now at len) }
    ensures cause { HasCause (O.faults output.old) (O.faults output.new) result }
    ensures open { O.finished output.new ≡ false }
{
    if len == 0 {
        return Ok(());
    }
    print_line(
        output,
        &[Word::Number(at), Word::Plain(word), Word::Number(len)],
    )
}

fn print_counts<O: Sink>(counts: Counts, output: &mut O) -> Result<(), Failed>
    requires { O.finished output.old ≡ false }
    ensures whole { OnOk result (Appends (O.written output.old) (O.written output.new) (counts_line counts)) }
    ensures begun { AppendsSome (O.written output.old) (O.written output.new) (counts_line counts) }
    ensures cause { HasCause (O.faults output.old) (O.faults output.new) result }
    ensures open { O.finished output.new ≡ false }
{
    print_line(
        output,
        &[
            Word::Plain("frames"),
            Word::Number(counts.valid),
            Word::Plain("bad"),
            Word::Number(counts.bad),
            Word::Plain("other"),
            Word::Number(counts.other),
            Word::Plain("dropped"),
            Word::Number(counts.dropped),
        ],
    )
}
