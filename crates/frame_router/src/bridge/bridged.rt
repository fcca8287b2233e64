ghost use Rattle.std.specs.Prelude.{◌≡◌};
ghost use Rattle.frame_router.specs.bridge.Bridges.{reason_of};

use crate::Pumped;
use link_io::Why;

/// What a bridge did in each direction.
#[derive(Clone, Copy, Debug, PartialEq, Eq)]
pub struct Bridged {
    /// From the left link to the right one.
    pub from_left: Pumped,
    /// From the right link to the left one.
    pub from_right: Pumped,
}

impl Bridged {
    /// Why the bridge ended: as the direction from the left did, or, where that settled, as the one from the right did.
    pub fn why(self) -> Why
        ensures { result ≡ reason_of self }
    {
        match self.from_left.why {
            Why::Settled => self.from_right.why,
            why => why,
        }
    }
}
