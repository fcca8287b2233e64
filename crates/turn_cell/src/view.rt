//! What a pass knows. These types are for contracts and proofs: no value of them is made.
use std::collections::LinkedList;

/// What is known of one number: the log that was seen, and the entries of this number.
pub struct Known<E> {
    pub number: u32,
    pub seen: LinkedList<E>,
    pub mine: LinkedList<E>,
}

/// What one pass knows, and what it did.
pub struct View<E, B> {
    pub known: Known<E>,
    /// The base of the guarded value. A pass that was taken in by another has none.
    pub base: Option<B>,
    pub holds: bool,
    /// It was taken in by another.
    pub spent: bool,
    /// How many loads it made.
    pub looks: u64,
    /// The word of its last load.
    pub loaded: u64,
    /// The word that its last load or lost exchange gave.
    pub saw: u64,
    /// How many numbers are given out, which pass 0 alone counts.
    pub given: u32,
    /// What the ended numbers knew, which pass 0 alone keeps.
    pub ended: LinkedList<Known<E>>,
}
