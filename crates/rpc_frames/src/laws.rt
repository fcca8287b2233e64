//! Laws of the definitions, for callers' proofs. Nothing runs here.

ghost use Rattle.std.specs.Prelude.{◌≡◌, ◌+◌, ◌≤◌, List, length};
ghost use Rattle.std.specs.List.{All};
ghost use Rattle.hdlc_frame.specs.Encoded.{ui_content};
ghost use Rattle.rpc_ids.specs.declared.method.Role.{Role};
ghost use Rattle.rpc_packet.specs.declared.owned.Packet.{Packet};
ghost use Rattle.rpc_packet.specs.Message.{Message};
ghost use Rattle.rpc_packet.specs.Spelling.{IsWithinLimits, spelling_of};
ghost use Rattle.rpc_frames.specs.Laws.{AreHeardBack, HearsOn, IsHeardBack, IsHeardExactly, IsOneStep, NothingHeard};
ghost use Rattle.rpc_frames.specs.Written.{IsSendable};

use crate::limits::{ADDRESS, LARGEST_CONTENT, MOST_BESIDES_PAYLOAD};

/// The numbers of the frames that carry packets.
pub fn numbers_of_frames()
    ensures address { ADDRESS ≡ 82 }
    ensures content { LARGEST_CONTENT ≡ 8192 }
{}

/// A packet is heard in a frame exactly where frame, payload and packet are as the relation says.
pub fn heard_exactly()
    ensures { IsHeardExactly }
{}

/// In an empty stream nothing is heard, and nothing is counted.
pub fn nothing_heard()
    ensures { NothingHeard }
{}

/// In more of a stream the same packets are heard first.
pub fn more_is_heard_behind()
    ensures { HearsOn }
{}

/// The content of a packet's frame is not much longer than its payload.
pub fn content_is_short()
    ensures { (m : Message) → IsWithinLimits m → length (ui_content ADDRESS (spelling_of m)) ≤ length m.payload + MOST_BESIDES_PAYLOAD }
{}

/// What `write_frame` appends is heard as the packet that it was written for.
pub fn written_is_heard()
    ensures { (role : Role) (packet : Packet) → IsSendable role packet → IsHeardBack role packet }
{}

/// And so are the frames of several packets, in order.
pub fn all_written_are_heard()
    ensures { (role : Role) (packets : List Packet) → All (IsSendable role) packets → AreHeardBack role packets }
{}

/// A listener between frames takes the frame of a packet that it hears in one `listen`, and gives the packet.
pub fn frame_is_one_step()
    ensures { (packet : Packet) → IsOneStep packet }
{}
