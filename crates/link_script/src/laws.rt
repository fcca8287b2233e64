ghost use Rattle.std.specs.Prelude.{◌≡◌};
ghost use Rattle.link_script.specs.declared.command.TheConstants.{MAX_MESSAGE};
ghost use Rattle.link_script.specs.declared.generator.TheConstants.{INCREMENT, MULTIPLIER};
ghost use Rattle.link_script.specs.declared.script.TheConstants.{DEFAULT_CHUNK, DEFAULT_WINDOW, MAX_FULL};
ghost use Rattle.link_script.specs.declared.stock.TheConstants.{MAX_STOCK};

/// The numbers of a script, and of the generator of its resources.
pub fn numbers_of_a_script()
    ensures chunk { DEFAULT_CHUNK ≡ 256 }
    ensures window { DEFAULT_WINDOW ≡ 4 }
    ensures full { MAX_FULL ≡ 64 }
    ensures stock { MAX_STOCK ≡ 65536 }
    ensures message { MAX_MESSAGE ≡ 8000 }
    ensures multiplier { MULTIPLIER ≡ 6364136223846793005 }
    ensures increment { INCREMENT ≡ 1442695040888963407 }
{}
