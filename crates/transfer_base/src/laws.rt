ghost use Rattle.std.specs.Prelude.{◌≡◌};
ghost use Rattle.transfer_base.specs.declared.limits.TheConstants.{MAX_CHUNK, MAX_RESOURCE, MAX_WINDOW, TIMEOUT};

/// The numbers of a transfer.
pub fn numbers_of_a_transfer()
    ensures resource { MAX_RESOURCE ≡ 16777216 }
    ensures chunk { MAX_CHUNK ≡ 1024 }
    ensures window { MAX_WINDOW ≡ 64 }
    ensures timeout { TIMEOUT ≡ 2000 }
{}
