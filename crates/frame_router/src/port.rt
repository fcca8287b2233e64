//! The two sides of a router.

ghost use Rattle.std.specs.Prelude.{◌≡◌};
ghost use Rattle.frame_router.specs.Fates.{other_side};

/// A side of a router.
#[derive(Clone, Copy, Debug, PartialEq, Eq)]
pub enum Port {
    Left,
    Right,
}

impl Port {
    /// The side across.
    pub fn other(self) -> Port
        ensures { result ≡ other_side self }
    {
        match self {
            Port::Left => Port::Right,
            Port::Right => Port::Left,
        }
    }
}
