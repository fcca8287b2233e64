ghost use Rattle.std.specs.Prelude.{◌≡◌};

use link_io::Why;
use rpc_schedule::Ending;

/// How a run of the program ended.
#[derive(Clone, Copy, Debug, PartialEq, Eq)]
pub enum Outcome {
    /// The input was read to its end, and what belongs to it was written.
    Done,
    /// There was no memory. Nothing was written, but for the lines of connections that were served before.
    NoMemory,
    /// The words are no command. Nothing was read or written.
    BadWords,
    /// A read of the input or of a link failed, and what belongs to the bytes before it was written.
    SourceFault,
    /// A write of the output or of a link failed.
    SinkFault,
    /// The store failed. What belongs to the items that went out before was written.
    StoreFault,
    /// There was no place to listen at, or a connection couldn't be accepted or made.
    LinkFault,
    /// A line of the text that was read is bad, and its number was written.
    BadLine,
    /// So many bytes were read as an input may have, and what belongs to them was written.
    InputLimit,
    /// The journal was full.
    JournalLimit,
    /// So many frames were delivered as a run of a script may have.
    FrameLimit,
    /// What a client was asked ended with another status than OK, or there was nothing to send; its line was written.
    NotOkay,
}

impl Outcome {
    ghost use Rattle.pw_run.specs.Outcome.{code_of, hosted_outcome, outcome_for, outcome_of};

    /// The exit status of the program.
    pub fn code(self) -> u8
        ensures { result ≡ code_of self }
    {
        match self {
            Outcome::Done => 0,
            Outcome::NoMemory => 1,
            Outcome::BadWords => 2,
            Outcome::SourceFault => 3,
            Outcome::SinkFault => 4,
            Outcome::StoreFault => 5,
            Outcome::LinkFault => 6,
            Outcome::BadLine => 7,
            Outcome::InputLimit | Outcome::JournalLimit | Outcome::FrameLimit => 8,
            Outcome::NotOkay => 9,
        }
    }

    /// The outcome of a run whose stream ended so, and whose text was written whole.
    pub(crate) fn of(ending: Ending) -> Outcome
        ensures { result ≡ outcome_of ending }
    {
        match ending {
            Ending::AtEnd => Outcome::Done,
            Ending::SourceFault => Outcome::SourceFault,
            Ending::StoreFault => Outcome::StoreFault,
            Ending::InputLimit => Outcome::InputLimit,
            Ending::JournalLimit => Outcome::JournalLimit,
        }
    }

    /// The outcome of a session that ended for this reason, and whose text was written whole.
    pub(crate) fn of_session(why: Why) -> Outcome
        ensures { result ≡ outcome_for why }
    {
        match why {
            Why::Settled => Outcome::Done,
            Why::Source => Outcome::SourceFault,
            Why::Sink => Outcome::SinkFault,
            Why::Store => Outcome::StoreFault,
            Why::InputLimit => Outcome::InputLimit,
            Why::JournalLimit => Outcome::JournalLimit,
            Why::Memory => Outcome::NoMemory,
        }
    }

    /// The outcome of a run of `host` whose connection ended for this reason, and whose lines were written whole.
    pub(crate) fn of_hosted(why: Why) -> Outcome
        ensures { result ≡ hosted_outcome why }
    {
        match why {
            Why::Store | Why::Memory => Outcome::of_session(why),
            Why::Settled | Why::Source | Why::Sink | Why::InputLimit | Why::JournalLimit => {
                Outcome::Done
            }
        }
    }
}
