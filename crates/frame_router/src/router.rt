//! A router: both directions, and the routes that they share.

ghost use Rattle.std.specs.Prelude.{◌≡◌, ◌<◌, ◌≤◌, [], ◌++◌, true, false, length, take, is_err, List, IfOk, OnErr, IsErr, IsNone, ℕ};
ghost use Rattle.std.specs.Option.{option_to_list};
ghost use Rattle.frame_router.specs.declared.port.Port.{Port};
ghost use Rattle.frame_router.specs.Fates.{other_side};
ghost use Rattle.frame_router.specs.Routed.{Arrival, BringsFrame, HasRouted, RoutesMore, StopsAtSegment, lane_from};

use crate::lane::Lane;
use crate::{Port, Routes, Tally};
use bytes::Bytes;
use std::alloc::{AllocError, Global};
use std::marker::Model;

/// Sends frames from one side on to the other, by their address. At most 256 frames wait for a side, and a decoder keeps
/// at most 8,192 bytes, so its memory is bounded whatever comes.
#[derive(Drop)]
pub struct Router {
    routes: Routes,
    from_left: Lane,
    from_right: Lane,
}

impl Model for Router {
    ghost use Rattle.frame_router.specs.Routed.{RouterView};

    ghost Value = { RouterView };

    ghost view = { λ r. record { routes = r.routes; from_left = r.from_left; from_right = r.from_right } };
}

impl Router {
    /// A router to which nothing came yet.
    pub fn new(alloc: Global, routes: Routes) -> Result<Router, AllocError>
        ensures routes { IfOk result (λ router. router.routes ≡ routes) }
        ensures well { IfOk result (λ router. (from : Port) → (lane_from router from).failed ≡ false) }
        ensures routed { IfOk result (λ router. (from : Port) → HasRouted router.routes from (lane_from router from) [] [] []) }
    {
        Ok(Router {
            routes,
            from_left: Lane::new(alloc)?,
            from_right: Lane::new(alloc)?,
        })
    }

    /// Takes bytes that came from a side, up to and with the end of the first frame or bad segment, and answers how many.
    /// A frame that passes waits for the other side; where 256 wait there it is dropped.
    ///
    /// # Errors
    ///
    /// `AllocError` where there was no memory for a frame that passes. That frame is lost and counted nowhere, and this
    /// side is refused for good: make a new router.
    pub fn feed(&mut self, from: Port, piece: &[u8]) -> Result<usize, AllocError>
        ensures refused { (lane_from self.old from).failed ≡ true → IsErr result }
        ensures same { (lane_from self.old from).failed ≡ true → self.new ≡ self.old }
        ensures fails { (lane_from self.new from).failed ≡ is_err result }
        ensures taken { IfOk result (λ taken. taken ≤ length piece.now) }
        ensures progress { IfOk result (λ taken. 0 < length piece.now → 0 < taken) }
        ensures routes { IfOk result (λ taken. RoutesMore self.old.routes from (lane_from self.old from) (lane_from self.new from) (take taken piece.now)) }
        ensures stops { IfOk result (λ taken. StopsAtSegment (lane_from self.old from) piece.now taken) }
        ensures passing { OnErr result ((lane_from self.old from).failed ≡ false → BringsFrame self.old.routes from (lane_from self.old from) piece.now) }
        ensures waiting { OnErr result ((lane_from self.new from).waiting ≡ (lane_from self.old from).waiting) }
        ensures tally { OnErr result ((lane_from self.new from).tally ≡ (lane_from self.old from).tally) }
        ensures across { lane_from self.new (other_side from) ≡ lane_from self.old (other_side from) }
        ensures routes_stay { self.new.routes ≡ self.old.routes }
    {
        match from {
            Port::Left => self.from_left.feed(&self.routes, from, piece),
            Port::Right => self.from_right.feed(&self.routes, from, piece),
        }
    }

    /// Hands out the frame that waits longest for a side, as bytes to write there; `None` where none waits.
    pub fn next(&mut self, to: Port) -> Option<Bytes>
        ensures front { (lane_from self.old (other_side to)).waiting ≡ option_to_list result ++ (lane_from self.new (other_side to)).waiting }
        ensures none { IsNone result → (lane_from self.old (other_side to)).waiting ≡ [] }
        ensures given { (stream : List ℕ) (arrivals : List Arrival) (given : List (List ℕ)) →
            HasRouted self.old.routes (other_side to) (lane_from self.old (other_side to)) stream arrivals given →
            HasRouted self.new.routes (other_side to) (lane_from self.new (other_side to)) stream arrivals (given ++ option_to_list result) }
        ensures failed { (lane_from self.new (other_side to)).failed ≡ (lane_from self.old (other_side to)).failed }
        ensures tally { (lane_from self.new (other_side to)).tally ≡ (lane_from self.old (other_side to)).tally }
        ensures across { lane_from self.new to ≡ lane_from self.old to }
        ensures routes_stay { self.new.routes ≡ self.old.routes }
    {
        match to {
            Port::Left => self.from_right.next(),
            Port::Right => self.from_left.next(),
        }
    }

    /// How the segments that came from a side were counted, but for the one that is open.
    pub fn tally(&self, from: Port) -> Tally
        ensures { result ≡ (lane_from self.now from).tally }
    {
        match from {
            Port::Left => self.from_left.tally(),
            Port::Right => self.from_right.tally(),
        }
    }
}
