/// What the link does to a frame.
#[derive(Clone, Copy, Debug, PartialEq, Eq)]
pub enum Loss {
    /// The frame isn't delivered.
    Lose,
    /// It is delivered twice.
    Repeat,
    /// It is delivered after the next frame of its direction.
    Swap,
    /// One bit of it is turned over: the bit of this number modulo those that the frame has, from the lowest bit of its
    /// first byte on.
    Flip(u32),
}
