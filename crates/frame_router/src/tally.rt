//! How the segments of one side are counted.

ghost use Rattle.std.specs.Prelude.{◌≡◌};
ghost use Rattle.hdlc_frame.specs.Counted.{one_more};
ghost use Rattle.frame_router.specs.Steps.{with_fate};

use crate::fate::Fate;

/// How the segments that came from one side were counted. A count that has come to 2^64 - 1 stays there.
#[derive(Clone, Copy, Debug, PartialEq, Eq)]
pub struct Tally {
    /// The frames that passed to the other side.
    pub passed: u64,
    /// The frames whose address lies at the side from which they came.
    pub home: u64,
    /// The frames whose address has no route.
    pub lost: u64,
    /// The frames with another control octet than 03.
    pub other: u64,
    /// The segments with a fault.
    pub bad: u64,
    /// The frames that would have passed, but came while 256 waited.
    pub full: u64,
}

impl Tally {
    /// Of no segment.
    pub(crate) fn none() -> Tally
        ensures { result ≡ record { passed = 0; home = 0; lost = 0; other = 0; bad = 0; full = 0 } }
    {
        Tally {
            passed: 0,
            home: 0,
            lost: 0,
            other: 0,
            bad: 0,
            full: 0,
        }
    }

    /// With one more segment of this fate. One that passes counts by whether it was kept.
    pub(crate) fn with(self, fate: Fate, is_kept: bool) -> Tally
        ensures { result ≡ with_fate self fate is_kept }
    {
        match fate {
            Fate::Passes => {
                if is_kept {
                    Tally {
                        passed: one_more(self.passed),
                        ..self
                    }
                } else {
                    Tally {
                        full: one_more(self.full),
                        ..self
                    }
                }
            }
            Fate::Home => Tally {
                home: one_more(self.home),
                ..self
            },
            Fate::Lost => Tally {
                lost: one_more(self.lost),
                ..self
            },
            Fate::Other => Tally {
                other: one_more(self.other),
                ..self
            },
            Fate::Bad => Tally {
                bad: one_more(self.bad),
                ..self
            },
        }
    }
}

fn one_more(count: u64) -> u64
    ensures { result ≡ one_more count }
{
    count.saturating_add(1)
}
