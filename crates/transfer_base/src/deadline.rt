ghost use Rattle.std.specs.Prelude.{◌≡◌};
ghost use Rattle.transfer_base.specs.Deadline.{deadline_after};

use crate::limits::TIMEOUT;

/// When a timeout comes after the activity of a moment, both in milliseconds.
pub fn deadline_after(active: u64) -> u64
    ensures { result ≡ deadline_after active }
{
    active.saturating_add(TIMEOUT)
}
