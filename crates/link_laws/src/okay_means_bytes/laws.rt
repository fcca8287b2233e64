//! What follows from the definitions. Each function does nothing: what counts is its contract.
ghost use Rattle.link_laws.specs.okay_means_bytes.Okay.{OkayMeansTheBytes, SoundThroughout};

/// Where each packet that arrives was sent by the other end, a line with OK tells of a Commit whose bytes are the resource's
/// from the line's offset on, and of the resource's length: of a write in the server's store, of a read in the client's.
pub fn okay_means_the_bytes()
    ensures { OkayMeansTheBytes }
{}

/// Over links that damage nothing, each packet that arrives was sent by the other end, at every moment of a run.
pub fn sound_throughout()
    ensures { SoundThroughout }
{}
