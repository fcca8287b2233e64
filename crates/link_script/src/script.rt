ghost use Rattle.std.specs.Prelude.{◌≡◌};
ghost use Rattle.link_script.specs.Script.{new_script};

use crate::lists::{Commands, Losses, Stocks};
use std::alloc::Global;

/// The bytes of a chunk where a script says nothing of them.
pub const DEFAULT_CHUNK: u32 = 256;

/// The chunks of a window where a script says nothing of them.
pub const DEFAULT_WINDOW: u32 = 4;

/// The most whole resources of both stores together.
pub const MAX_FULL: usize = 64;

/// What a world begins with, what its link does, and what happens in it, in order.
#[derive(Debug)]
pub struct Script {
    /// The bytes of a chunk, where the script says them.
    pub chunk: Option<u32>,
    /// The chunks of a window, where the script says them.
    pub window: Option<u32>,
    /// The whole resources of the server's store.
    pub server: Stocks,
    /// The whole resources of the client's store.
    pub client: Stocks,
    /// What was left in the server's store.
    pub left_server: Stocks,
    /// What was left in the client's store.
    pub left_client: Stocks,
    /// The frames to which the link does something, by their numbers, which count from 1 over both directions.
    pub losses: Losses,
    pub commands: Commands,
}

impl Drop for Script {
    fn drop(self) {
        let Self {
            chunk: _,
            window: _,
            server: _,
            client: _,
            left_server: _,
            left_client: _,
            losses: _,
            commands: _,
        } = self;
    }
}

impl Script {
    /// A script that says nothing.
    pub fn new(alloc: Global) -> Script
        ensures { result ≡ new_script }
    {
        Script {
            chunk: None,
            window: None,
            server: Stocks::new(alloc),
            client: Stocks::new(alloc),
            left_server: Stocks::new(alloc),
            left_client: Stocks::new(alloc),
            losses: Losses::new(alloc),
            commands: Commands::new(alloc),
        }
    }
}
