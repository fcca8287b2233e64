//! The decoder of frames.
ghost use Rattle.std.specs.Prelude.{◌≡◌, ◌+◌, ◌<◌, ◌≤◌, ◌++◌, [], ℕ, List, IsNone, if◌then◌else◌, length, take};
ghost use Rattle.hdlc_frame.specs.Found.{found};
ghost use Rattle.hdlc_frame.specs.Machine.{HasRead, reading_at};
ghost use Rattle.hdlc_frame.specs.Told.{LiesWithin, found_told};
ghost use Rattle.c_codec.specs.Decoder.{bad_at, machine_at, phase_at, segment_told};

use hdlc_frame::{Bad, Machine, Phase, Place, Segment, Told};

/// A decoder, as C keeps it: `kf_decoder_start` makes one. Any values of the fields are safe; where no stream leads to
/// them, what is told is a frame or a fault of no stream.
#[repr(C)]
#[derive(Clone, Copy, Debug, PartialEq, Eq)]
pub struct KfDecoder {
    /// How many octets of the open segment's content stand in the buffer.
    pub len: usize,
    /// 0 before the first flag, 1 after a flag, 2 in a segment's text, 3 after an escape, 4 after two of them.
    pub phase: u8,
    /// 1 where the open segment's content is longer than the buffer, else 0.
    pub is_long: u8,
}

/// What became of a piece of the stream.
#[repr(C)]
#[derive(Clone, Copy, Debug, PartialEq, Eq)]
pub struct KfPushed {
    /// How many bytes of the piece were taken. Push the others next.
    pub taken: usize,
    /// Where a frame's payload begins.
    pub payload_at: usize,
    pub payload_len: usize,
    pub address: u32,
    /// 0 where no segment ended, 1 at a frame, else the fault: 2 a bad escape, 3 long, 4 short, 5 a wrong check sequence,
    /// 6 a bad address.
    pub kind: u8,
    pub control: u8,
    /// Whether a frame's payload lies in the piece; else it lies in the buffer.
    pub in_piece: bool,
}

/// Makes a decoder that has read nothing.
#[unsafe(no_mangle)]
pub extern "C" fn kf_decoder_start(decoder: &mut KfDecoder)
    ensures { (buffer : List ℕ) → HasRead (reading_at (machine_at decoder.new) buffer) [] }
{
    *decoder = decoder_of(Machine::new());
}

/// Takes bytes up to and with the first flag that ends a segment, else the whole piece. The longest content is as long as
/// the buffer, which keeps what the open segment has so far.
#[unsafe(no_mangle)]
pub extern "C" fn kf_decoder_push(
    decoder: &mut KfDecoder,
    buffer: &mut [u8],
    piece: &[u8],
) -> KfPushed
    ensures taken { result.taken ≤ length piece.now }
    ensures whole { result.kind ≡ 0 → result.taken ≡ length piece.now }
    ensures progress { 0 < length piece.now → 0 < result.taken }
    ensures kinds { result.kind ≤ 6 }
    ensures inside { result.kind ≡ 1 → result.payload_at + result.payload_len ≤ (if result.in_piece then length piece.now else length buffer.new) }
    ensures read { (stream : List ℕ) → HasRead (reading_at (machine_at decoder.old) buffer.old) stream → HasRead (reading_at (machine_at decoder.new) buffer.new) (stream ++ take result.taken piece.now) }
    ensures gives { (stream : List ℕ) → HasRead (reading_at (machine_at decoder.old) buffer.old) stream → found (length buffer.old) (stream ++ take result.taken piece.now) ≡ found (length buffer.old) stream ++ found_told (segment_told result) buffer.new piece.now }
    ensures first { (stream : List ℕ) → HasRead (reading_at (machine_at decoder.old) buffer.old) stream → (n : ℕ) → n < result.taken → found (length buffer.old) (stream ++ take n piece.now) ≡ found (length buffer.old) stream }
{
    let mut machine = machine_of(decoder);
    let told = machine.push(buffer, piece);
    *decoder = decoder_of(machine);
    pushed_of(told)
}

fn machine_of(decoder: &KfDecoder) -> Machine
    ensures { result ≡ machine_at decoder.now }
{
    Machine {
        phase: phase_of(decoder.phase),
        is_long: decoder.is_long != 0,
        len: decoder.len,
    }
}

fn phase_of(number: u8) -> Phase
    ensures { result ≡ phase_at number }
{
    match number {
        0 => Phase::Outside,
        1 => Phase::Start,
        2 => Phase::Plain,
        3 => Phase::Escaped,
        _ => Phase::Broken,
    }
}

fn decoder_of(machine: Machine) -> KfDecoder
    ensures { machine_at result ≡ machine }
{
    KfDecoder {
        len: machine.len,
        phase: phase_number(machine.phase),
        is_long: u8::from(machine.is_long),
    }
}

fn phase_number(phase: Phase) -> u8
    ensures { phase_at result ≡ phase }
{
    match phase {
        Phase::Outside => 0,
        Phase::Start => 1,
        Phase::Plain => 2,
        Phase::Escaped => 3,
        Phase::Broken => 4,
    }
}

fn pushed_of(told: Told) -> KfPushed
    ensures taken { result.taken ≡ told.taken }
    ensures segment { segment_told result ≡ told.segment }
    ensures kinds { result.kind ≤ 6 }
    ensures none { result.kind ≡ 0 → IsNone told.segment }
    ensures inside { (buffer piece : List ℕ) → LiesWithin told.segment buffer piece → result.kind ≡ 1 → result.payload_at + result.payload_len ≤ (if result.in_piece then length piece else length buffer) }
{
    let nothing = KfPushed {
        taken: told.taken,
        payload_at: 0,
        payload_len: 0,
        address: 0,
        kind: 0,
        control: 0,
        in_piece: false,
    };
    match told.segment {
        None => nothing,
        Some(Segment::Bad(bad)) => KfPushed {
            kind: fault_number(bad),
            ..nothing
        },
        Some(Segment::Frame(frame)) => KfPushed {
            taken: told.taken,
            payload_at: frame.at,
            payload_len: frame.len,
            address: frame.address,
            kind: 1,
            control: frame.control,
            in_piece: frame.place == Place::Piece,
        },
    }
}

fn fault_number(bad: Bad) -> u8
    ensures least { 2 ≤ result }
    ensures most { result ≤ 6 }
    ensures again { bad_at result ≡ bad }
{
    match bad {
        Bad::Escape => 2,
        Bad::Long => 3,
        Bad::Short => 4,
        Bad::Check => 5,
        Bad::Address => 6,
    }
}
