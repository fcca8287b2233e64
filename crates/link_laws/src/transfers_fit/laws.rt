//! What follows from the definitions. Each function does nothing: what counts is its contract.
ghost use Rattle.link_laws.specs.transfers_fit.Fits.{FitsThroughout, StoresStaySmall};
ghost use Rattle.link_laws.specs.transfers_fit.Scripts.{RunsAreHeard, ScriptsMeanTheBytes, SoundScriptsMeanTheBytes};

/// A client's store never gets a resource with more bytes than a resource may have, nor are more left of one.
pub fn stores_stay_small()
    ensures { StoresStaySmall }
{}

/// Each transfer that starts in a run of a script's commands fits a chunk's fields.
pub fn fits_throughout()
    ensures { FitsThroughout }
{}

/// In a run of a script over links that damage nothing, a line with OK tells of a Commit of the session that its own command began,
/// whose bytes are the resource's from the line's offset on, and of the resource's length: of a write in the server's store, of a
/// read in the client's.
pub fn scripts_mean_the_bytes()
    ensures { ScriptsMeanTheBytes }
{}

/// And so it is over links that damage frames, where at each moment of the run what had arrived at one end was sent by the other.
pub fn sound_scripts_mean_the_bytes()
    ensures { SoundScriptsMeanTheBytes }
{}

/// Over links that damage nothing, each packet that has gone out in a run is one that the other end hears, in a frame that isn't
/// too long for it.
pub fn runs_are_heard()
    ensures { RunsAreHeard }
{}
