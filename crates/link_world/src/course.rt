//! How far a run has come.

ghost use Rattle.std.specs.Prelude.{◌≡◌, [], None};

use crate::client::Under;
use link_script::ReportLines;
use std::alloc::Global;

/// What a run has begun and counted.
#[derive(Drop)]
pub(crate) struct Course {
    /// How many commands have started.
    pub(crate) started: usize,
    /// The one that has started and hasn't ended.
    pub(crate) under: Option<Under>,
    /// How many sessions the client has begun.
    pub(crate) sessions: u32,
    /// How many frames were delivered.
    pub(crate) delivered: u64,
    /// How many turns of time there were.
    pub(crate) times: u64,
    /// The lines of the commands that have ended.
    pub(crate) lines: ReportLines,
}

impl Course {
    /// Before anything happens.
    pub(crate) fn new(alloc: Global) -> Course
        ensures { result ≡ record { started = 0; under = None; sessions = 0; delivered = 0; times = 0; lines = [] } }
    {
        Course {
            started: 0,
            under: None,
            sessions: 0,
            delivered: 0,
            times: 0,
            lines: ReportLines::new(alloc),
        }
    }
}
