//! What becomes of a segment.

ghost use Rattle.std.specs.Prelude.{◌≡◌};
ghost use Rattle.hdlc_frame.specs.Lent.{found_of};
ghost use Rattle.frame_router.specs.Fates.{fate_of};

use crate::{Port, Routes};
use hdlc_frame::{Got, UI_CONTROL};

/// What becomes of a segment that comes from one side.
#[derive(Clone, Copy, Debug, PartialEq, Eq)]
pub(crate) enum Fate {
    /// A frame for the other side.
    Passes,
    /// A frame whose address lies at the side from which it comes.
    Home,
    /// A frame whose address has no route.
    Lost,
    /// A frame with another control octet.
    Other,
    /// A segment with a fault.
    Bad,
}

impl Fate {
    /// Of a segment from this side.
    pub(crate) fn of(routes: &Routes, from: Port, got: &Got<'_>) -> Fate
        ensures { result ≡ fate_of routes.now from (found_of got.now) }
    {
        let frame = match got {
            Got::Bad(_) => return Fate::Bad,
            Got::Frame(frame) => frame,
        };
        if frame.control != UI_CONTROL {
            return Fate::Other;
        }
        match (from, routes.find(frame.address)) {
            (_, None) => Fate::Lost,
            (Port::Left, Some(Port::Right)) | (Port::Right, Some(Port::Left)) => Fate::Passes,
            (Port::Left, Some(Port::Left)) | (Port::Right, Some(Port::Right)) => Fate::Home,
        }
    }
}
