//! Why a session ended.
ghost use Rattle.std.specs.Prelude.{◌≡◌, true, false, is_none};
ghost use Rattle.rpc_shared.specs.session.Reasons.{reason_of};

use link_io::{Ending, Why};

/// Why a session or a live client ended: for the reason of the halt, else as the reading ended.
pub fn why_of(halted: Option<Why>, ending: Option<Ending>) -> Why
    requires { is_none halted ≡ true → is_none ending ≡ false }
    ensures { result ≡ reason_of halted ending }
{
    if let Some(why) = halted {
        return why;
    }
    match ending {
        Some(Ending::AtEnd) => Why::Settled,
        Some(Ending::AtLimit) => Why::InputLimit,
        Some(Ending::Failed) => Why::Source,
        None => unreachable!(),
    }
}
