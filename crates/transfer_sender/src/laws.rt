ghost use Rattle.std.specs.Prelude.{◌≡◌};
ghost use Rattle.transfer_sender.specs.Cut.{CutIsExact};
ghost use Rattle.transfer_sender.specs.Run.{SendsParts};
ghost use Rattle.transfer_sender.specs.declared.cut.TheConstants.{MAX_PIECES};
ghost use Rattle.transfer_sender.specs.declared.sender.TheConstants.{MAX_TIMEOUTS};

/// The numbers of a sender.
pub fn numbers_of_a_sender()
    ensures pieces { MAX_PIECES ≡ 64 }
    ensures timeouts { MAX_TIMEOUTS ≡ 5 }
{}

/// There is one way to cut a window into pieces, and it is the one that is computed.
pub fn cut_is_exact()
    ensures { CutIsExact }
{}

/// Whatever comes to a sender, all that it sends are parts of its resource.
pub fn sends_parts()
    ensures { SendsParts }
{}
