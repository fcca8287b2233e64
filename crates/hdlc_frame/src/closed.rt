//! How a segment stands that a flag has ended.

use crate::found::Bad;

/// Where the content lies of a segment that has just ended.
#[derive(Clone, Copy)]
pub(crate) enum Closed {
    /// No segment ended.
    Open,
    Faulty(Bad),
    /// In the buffer, at its front.
    Kept,
    /// In the piece, from here to there.
    Whole(usize, usize),
}
