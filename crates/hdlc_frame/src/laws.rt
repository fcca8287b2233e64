//! Laws of the definitions, for callers' proofs. Nothing runs here.

ghost use Rattle.std.specs.Prelude.{◌≡◌, ℕ, ◌^◌, ◌<◌, List};
ghost use Rattle.hdlc_frame.specs.Laws.{AreOctets, FindsOn, IsFoundIn, IsReadBack, SegmentsGrow};

use crate::crc::{ALL_ONES, POLYNOMIAL};
use crate::judge::SHORTEST_CONTENT;
use crate::octets::{ESCAPE, ESCAPE_BIT, FLAG, UI_CONTROL};

/// The numbers of the standard.
pub fn numbers_of_frames()
    ensures flag { FLAG ≡ 126 }
    ensures escape { ESCAPE ≡ 125 }
    ensures escape_bit { ESCAPE_BIT ≡ 32 }
    ensures control { UI_CONTROL ≡ 3 }
    ensures shortest { SHORTEST_CONTENT ≡ 6 }
    ensures polynomial { POLYNOMIAL ≡ 3988292384 }
    ensures all_ones { ALL_ONES ≡ 4294967295 }
{}

/// What the reader finds in a text is what the relation of text, content and frame says.
pub fn found_is_carried()
    ensures { (limit : ℕ) (text : List ℕ) → AreOctets text → IsFoundIn limit text }
{}

/// How the segments of a stream grow with it, octet by octet.
pub fn segments_grow()
    ensures { (stream : List ℕ) → SegmentsGrow stream }
{}

/// In more of a stream the same frames and faults are found first.
pub fn more_is_found_behind()
    ensures { FindsOn }
{}

/// What `encode_ui` appends is one segment, and is read back so.
pub fn written_is_read_back()
    ensures { (address : ℕ) (payload : List ℕ) → address < 2 ^ 32 → IsReadBack address payload }
{}
