//! Which address lies at which side.

ghost use Rattle.std.specs.Prelude.{◌≡◌, ◌∷◌, ◌++◌, [], ◌<◌, ◌≤◌, IsSome, IsNone, OnOk, OnErr, IfErr, Err, None, length};
ghost use Rattle.frame_router.specs.Routes.{port_of};

use crate::Port;
use std::alloc::Global;
use std::marker::Model;

/// The most addresses that a router knows.
const MAX_ROUTES: usize = 64;

/// An address, and the side at which it lies.
#[derive(Clone, Copy, Debug, PartialEq, Eq)]
pub struct Route {
    pub address: u32,
    pub port: Port,
}

/// Why no route was added.
#[derive(Clone, Copy, Debug, PartialEq, Eq)]
pub enum RouteRefused {
    /// The address has a route already.
    There,
    /// 64 other addresses have routes.
    Full,
    /// There was no memory.
    Memory,
}

/// The routes of at most 64 addresses, in the order in which they were added.
#[derive(Drop)]
pub struct Routes {
    routes: Vec<Route>,
}

impl Model for Routes {
    ghost use Rattle.std.specs.Prelude.{List, ◌≤◌, length};
    ghost use Rattle.frame_router.specs.declared.routes.Route.{Route};

    ghost Value = { List Route };

    ghost view = { λ r. r.routes.items };

    ghost invariant = { λ r. length r.routes.items ≤ 64 };
}

impl Routes {
    /// No route.
    pub fn new(alloc: Global) -> Routes
        ensures { result ≡ [] }
    {
        Routes {
            routes: Vec::new(alloc),
        }
    }

    /// Adds a route.
    ///
    /// # Errors
    ///
    /// `There`, then `Full`, then `Memory`. The routes are then as they were.
    pub fn add(&mut self, address: u32, port: Port) -> Result<(), RouteRefused>
        ensures ok { OnOk result (self.new ≡ self.old ++ record { address = address; port = port } ∷ []) }
        ensures err { OnErr result (self.new ≡ self.old) }
        ensures new { OnOk result (port_of self.old address ≡ None) }
        ensures room { OnOk result (length self.old < 64) }
        ensures there { IsSome (port_of self.old address) → result ≡ Err RouteRefused.There }
        ensures full { IsNone (port_of self.old address) → 64 ≤ length self.old → result ≡ Err RouteRefused.Full }
        ensures memory { IsNone (port_of self.old address) → length self.old < 64 → IfErr result (λ why. why ≡ RouteRefused.Memory) }
    {
        if self.find(address).is_some() {
            return Err(RouteRefused::There);
        }
        if self.routes.len() >= MAX_ROUTES {
            return Err(RouteRefused::Full);
        }
        match self.routes.push(Route { address, port }) {
            Ok(()) => Ok(()),
            Err(_) => Err(RouteRefused::Memory),
        }
    }

    /// The side at which an address lies, or `None` exactly where it has no route.
    pub fn find(&self, address: u32) -> Option<Port>
        ensures { result ≡ port_of self.now address }
    {
        let route = self.routes.iter().find(|route| route.address == address)?;
        Some(route.port)
    }
}
