//! Where a decoder stands in a segment.

ghost use Rattle.std.specs.Prelude.{◌≡◌};
ghost use Rattle.hdlc_frame.specs.Steps.{phase_in_text};

#[derive(Clone, Copy, Debug, PartialEq, Eq)]
pub enum Phase {
    /// No flag came yet.
    Outside,
    /// A flag came last.
    Start,
    /// The segment has text, and an escape isn't its last octet.
    Plain,
    /// An escape came last.
    Escaped,
    /// An escape was followed by another one.
    Broken,
}

impl Phase {
    // Inside a segment's text.
    pub(crate) fn in_text(is_escaped: bool) -> Phase
        ensures { result ≡ phase_in_text is_escaped }
    {
        if is_escaped {
            Phase::Escaped
        } else {
            Phase::Plain
        }
    }
}
