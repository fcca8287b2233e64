//! The commands that read a text and tell what they find in it.
ghost use Rattle.std.specs.Prelude.{◌≡◌, ◌≤◌};
ghost use Rattle.rpc_schedule.specs.declared.stream.TheConstants.{INPUT_LIMIT};
ghost use Rattle.pw_run.specs.Texts.{limit_of};

use rpc_schedule::INPUT_LIMIT;

/// The most bytes of a text of lines.
pub const TEXT_LIMIT: usize = 1_048_576;

/// A command that reads a text, and tells what it finds in it.
#[derive(Clone, Copy, Debug, PartialEq, Eq)]
pub enum TextCommand {
    /// A journal's text is judged.
    Check,
    /// Log messages are printed by their formats.
    Detoken,
    /// A script is run, over a link that loses.
    Link,
    /// Frames are routed between two sides.
    Route,
}

impl TextCommand {
    /// The most bytes of its text.
    pub(crate) fn limit(self) -> usize
        ensures value { result ≡ limit_of self }
        ensures most { result ≤ INPUT_LIMIT }
    {
        match self {
            TextCommand::Check => INPUT_LIMIT,
            TextCommand::Detoken | TextCommand::Link | TextCommand::Route => TEXT_LIMIT,
        }
    }
}
