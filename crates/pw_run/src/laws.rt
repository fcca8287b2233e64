//! The numbers of the program, and what follows from its definitions. Nothing runs here.
ghost use Rattle.std.specs.Prelude.{◌≡◌};
ghost use Rattle.pw_run.specs.UnderWay.{LeavesNone};

use crate::{
    LAST_CHANNEL, MAX_CONNECTIONS, MAX_HOSTED, MAX_LOAD, MAX_WATCH, MAX_WORKERS, TEXT_LIMIT,
};

/// How many calls a load has at most, the last channel that is in, how many bytes are too many for a text of lines, how many
/// messages a watch waits for at most, how many workers a session has at most, and how many connections `serve` and `host` serve at
/// most.
pub fn numbers_of_the_program()
    ensures load { MAX_LOAD ≡ 30000 }
    ensures channels { LAST_CHANNEL ≡ 8 }
    ensures text { TEXT_LIMIT ≡ 1048576 }
    ensures watch { MAX_WATCH ≡ 64 }
    ensures workers { MAX_WORKERS ≡ 16 }
    ensures connections { MAX_CONNECTIONS ≡ 1000 }
    ensures hosted { MAX_HOSTED ≡ 4294967295 }
{}

/// Where all uploads that a connection has under way are left, none is under way.
pub fn nothing_stays_under_way()
    ensures { LeavesNone }
{}
