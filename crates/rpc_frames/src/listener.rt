//! The listener: a decoder of frames, a reader of packets, and the counts.

use crate::Counts;
use crate::heard::hear;
use crate::limits::LARGEST_CONTENT;
use hdlc_frame::Decoder;
use rpc_ids::Role;
use rpc_packet::Packet;
use std::alloc::{AllocError, Global};
use std::marker::Model;

/// Hears the packets of a stream that comes in pieces, for one end of a link. It keeps the content of the segment that
/// is open and no more of the stream, so its memory doesn't grow.
#[derive(Drop)]
pub struct Listener {
    role: Role,
    decoder: Decoder,
    counts: Counts,
    alloc: Global,
}

impl Model for Listener {
    ghost use Rattle.rpc_frames.specs.Listening.{Listening};

    ghost Value = { Listening };

    ghost view = { λ l. record { role = l.role; reading = l.decoder; counts = l.counts } };
}

/// What became of a piece of the stream.
#[derive(Debug, PartialEq, Eq, Drop)]
pub struct Listened {
    /// How many bytes of the piece were taken. Listen to the others next.
    pub taken: usize,
    /// The packet that was heard with the last byte taken.
    pub packet: Option<Packet>,
}

impl Listener {
    ghost use Rattle.std.specs.Prelude.{◌≡◌, ◌<◌, ◌≤◌, [], ℕ, List, length, take, IfOk, IfSome, OnErr};
    ghost use Rattle.rpc_packet.specs.Hearing.{Hears};
    ghost use Rattle.rpc_packet.specs.Message.{message_of};
    ghost use Rattle.rpc_frames.specs.Heard.{counts_of};
    ghost use Rattle.rpc_frames.specs.Listening.{HasHeard, HearsMore, LosesFirst, LosesPacket, StopsAtPacket, StopsAtSegment};

    /// A listener that has heard nothing yet. It takes its buffer of `LARGEST_CONTENT` bytes here.
    pub fn new(alloc: Global, role: Role) -> Result<Listener, AllocError>
        ensures role { IfOk result (λ listener. listener.role ≡ role) }
        ensures heard { IfOk result (λ listener. HasHeard listener []) }
    {
        Ok(Listener {
            role,
            decoder: Decoder::new(alloc, LARGEST_CONTENT)?,
            counts: Counts::none(),
            alloc,
        })
    }

    /// Takes bytes up to and with the first flag that ends a segment, else the whole piece, and counts the segment.
    /// Where there is no memory for the packet in it, the bytes are taken and the packet is lost.
    pub fn listen(&mut self, piece: &[u8]) -> Result<Listened, AllocError>
        requires more { 0 < length piece.now }
        ensures taken { IfOk result (λ listened. (0 < listened.taken) × (listened.taken ≤ length piece.now)) }
        ensures hears { IfOk result (λ listened. HearsMore self.old self.new (take listened.taken piece.now) listened.packet) }
        ensures packet { IfOk result (λ listened. IfSome listened.packet (λ packet. Hears self.old.role (message_of packet) packet.ptype)) }
        ensures stops { IfOk result (λ listened. StopsAtSegment self.old piece.now listened.taken) }
        ensures lost { OnErr result (LosesPacket self.old self.new piece.now) }
    {
        let pushed = self.decoder.push(piece);
        let taken = pushed.taken;
        let Some(got) = pushed.got else {
            return Ok(Listened {
                taken,
                packet: None,
            });
        };
        let heard = hear(self.role, &got);
        self.counts = self.counts.with(&heard);
        let packet = heard.own(self.alloc)?;
        Ok(Listened { taken, packet })
    }

    /// Takes bytes up to and with the flag that ends the first frame with a packet, else the whole piece, and counts the segments
    /// in them. Where there is no memory for the packet, the bytes are taken and the packet is lost.
    pub fn listen_for_packet(&mut self, piece: &[u8]) -> Result<Listened, AllocError>
        ensures taken { IfOk result (λ listened. listened.taken ≤ length piece.now) }
        ensures progress { IfOk result (λ listened. 0 < length piece.now → 0 < listened.taken) }
        ensures hears { IfOk result (λ listened. HearsMore self.old self.new (take listened.taken piece.now) listened.packet) }
        ensures packet { IfOk result (λ listened. IfSome listened.packet (λ packet. Hears self.old.role (message_of packet) packet.ptype)) }
        ensures stops { IfOk result (λ listened. StopsAtPacket self.old piece.now listened.taken listened.packet) }
        ensures lost { OnErr result (LosesFirst self.old self.new piece.now) }
    {
        let mut taken = 0;
        'segments: while taken < piece.len() {
            let listened = self.listen(&piece[taken..])?;
            taken += listened.taken;
            if listened.packet.is_some() {
                return Ok(Listened {
                    taken,
                    packet: listened.packet,
                });
            }
        }
        Ok(Listened {
            taken,
            packet: None,
        })
    }

    /// How the segments of the stream were counted.
    pub fn counts(&self) -> Counts
        ensures counts { (stream : List ℕ) → HasHeard self.now stream → result ≡ counts_of self.now.role stream }
        ensures value { result ≡ self.now.counts }
    {
        self.counts
    }
}
