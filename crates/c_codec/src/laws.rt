//! How much room the writers want. Nothing runs here.
ghost use Rattle.std.specs.Prelude.{ℕ, ◌+◌, ◌*◌, ◌^◌, ◌<◌, ◌≤◌, List, length};
ghost use Rattle.hdlc_frame.specs.Encoded.{encoded_ui};
ghost use Rattle.rpc_packet.specs.Message.{Message};
ghost use Rattle.rpc_packet.specs.Spelling.{IsWithinLimits, spelling_of};

/// A frame has at most 22 bytes more than twice those of its payload.
pub fn room_of_a_frame()
    ensures { (address : ℕ) (payload : List ℕ) → address < 2 ^ 32 → length (encoded_ui address payload) ≤ 2 * length payload + 22 }
{}

/// A packet has at most 50 bytes more than its payload.
pub fn room_of_a_packet()
    ensures { (m : Message) → IsWithinLimits m → length (spelling_of m) ≤ length m.payload + 50 }
{}
