//! What a seat of the table knows. These types are for contracts and proofs: no value of them is made.
use std::collections::LinkedList;

/// One load of a task's word: how often the task's key had been rung by then, in all.
pub struct Look {
    pub key: u32,
    pub total: u64,
}

/// What one seat knows, and what it did.
pub struct View {
    pub is_ear: bool,
    pub is_bell: bool,
    /// The keys that it rang, the newest first.
    pub rings: LinkedList<u32>,
    /// The loads that it made, the newest first.
    pub looks: LinkedList<Look>,
    /// How many bells the ear gave out and took back.
    pub made: u32,
    pub back: u32,
}
