//! What follows from the definitions. The function does nothing: what counts is its contract.
ghost use Rattle.history_laws.specs.sends.Sends.{SendsAreHeard};

/// Each packet that a legal history has sent is one that the other end hears, in a frame that isn't too long for it, where
/// the numbers of the packets that came and of the calls fit their fields.
pub fn sends_are_heard()
    ensures { SendsAreHeard }
{}
