//! Check sequences and the writer of frames.
ghost use Rattle.std.specs.Prelude.{◌≡◌, ◌<◌, ◌≤◌, length, take};
ghost use Rattle.hdlc_frame.specs.CheckSequence.{check_sequence_of};
ghost use Rattle.hdlc_frame.specs.Encoded.{encoded_ui};

use hdlc_frame::{crc32, encode_ui_into};

/// The answer of a writer whose slice is too short. No slice is so long.
pub const KF_NO_ROOM: usize = usize::MAX;

/// The check sequence of some bytes: the CRC-32 of Ethernet and of pw_hdlc.
#[unsafe(no_mangle)]
pub extern "C" fn kf_crc32(bytes: &[u8]) -> u32
    ensures { result ≡ check_sequence_of bytes.now }
{
    crc32(bytes)
}

/// Writes an unnumbered information frame to the front of `out`, its two flags with it. Answers how many bytes it has, or
/// `KF_NO_ROOM`: some of the frame may then stand in `out`.
#[unsafe(no_mangle)]
pub extern "C" fn kf_encode_ui(address: u32, payload: &[u8], out: &mut [u8]) -> usize
    ensures written { result < KF_NO_ROOM → (result ≤ length out.new) × (take result out.new ≡ encoded_ui address payload.now) }
    ensures short { result ≡ KF_NO_ROOM → length out.new < length (encoded_ui address payload.now) }
{
    match encode_ui_into(address, payload, out) {
        Some(len) => len,
        None => KF_NO_ROOM,
    }
}
