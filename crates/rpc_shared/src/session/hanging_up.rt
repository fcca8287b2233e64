//! A halted table writes nothing more.
ghost use Rattle.std.specs.Prelude.{◌≡◌, ◌≤◌, false};
ghost use Rattle.std.specs.Io.KnownBytes.{Keeps};
ghost use Rattle.rpc_shared.specs.session.Leaving.{HangsUp};

use link_io::Sink;

/// Tells a link whose table is halted that nothing more comes: its other end meets the end of its input, and doesn't wait for an
/// answer for good. Where that fails nothing is to be done, since the halt stands.
pub fn hang_up<O: Sink>(link: &mut O)
    requires open { O.finished link.old ≡ false }
    ensures bytes { Keeps (O.written link.old) (O.written link.new) }
    ensures hangs_up { HangsUp (O.finished link.new) (O.faults link.old) (O.faults link.new) }
    ensures later { O.faults link.old ≤ O.faults link.new }
{
    let _ = link.finish();
}
