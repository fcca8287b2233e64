//! How the segments of a stream are counted.

ghost use Rattle.std.specs.Prelude.{◌≡◌};
ghost use Rattle.hdlc_frame.specs.Counted.{one_more};
ghost use Rattle.rpc_frames.specs.Counting.{with_segment};

use crate::heard::Heard;

/// How the segments of a stream were counted. A count that has come to 2^64 - 1 stays there.
#[derive(Clone, Copy, Debug, PartialEq, Eq)]
pub struct Counts {
    /// All valid frames.
    pub valid: u64,
    /// The segments with a fault.
    pub bad: u64,
    /// The valid frames for another address or with another control octet.
    pub other: u64,
    /// The frames for this end whose payload is no packet that it hears.
    pub dropped: u64,
}

impl Counts {
    /// Of no segment.
    pub(crate) fn none() -> Counts
        ensures { result ≡ record { valid = 0; bad = 0; other = 0; dropped = 0 } }
    {
        Counts {
            valid: 0,
            bad: 0,
            other: 0,
            dropped: 0,
        }
    }

    /// With one more segment, in which this was heard.
    pub(crate) fn with(self, heard: &Heard<'_>) -> Counts
        ensures { result ≡ with_segment self heard.now }
    {
        match heard {
            Heard::Fault => Counts {
                bad: one_more(self.bad),
                ..self
            },
            Heard::Other => Counts {
                valid: one_more(self.valid),
                other: one_more(self.other),
                ..self
            },
            Heard::Dropped => Counts {
                valid: one_more(self.valid),
                dropped: one_more(self.dropped),
                ..self
            },
            Heard::Packet(..) => Counts {
                valid: one_more(self.valid),
                ..self
            },
        }
    }
}

fn one_more(count: u64) -> u64
    ensures { result ≡ one_more count }
{
    count.saturating_add(1)
}
