//! What one line of a script says.
use crate::{Command, Loss, Stock};
use rpc_ids::Role;

/// How chunks are asked for, or what a store has as the world begins.
#[derive(Clone, Copy, Debug)]
pub enum Setting {
    /// The bytes of a chunk.
    Chunk(u32),
    /// The chunks of a window.
    Window(u32),
    /// A whole resource of the store at this end.
    Full(Role, Stock),
    /// What was left in the store at this end.
    Left(Role, Stock),
}

/// What the link does to the frame with a number.
#[derive(Clone, Copy, Debug)]
pub struct LossAt {
    pub frame: u32,
    pub loss: Loss,
}

/// One line.
#[derive(Debug, Drop)]
pub enum Line {
    Setting(Setting),
    Loss(LossAt),
    Command(Command),
}
