//! The words, and the calls on them.
ghost use Rattle.std.specs.Prelude.{◌≡◌, ◌<◌, ◌∷◌};
ghost use Rattle.task_core.specs.bells.Bells.{GivesTotal};

mod closing;
mod opening;

use crate::bells::bell::Bell;
use crate::bells::ear::Ear;
use crate::bells::rule::{Hear, Law, Ring};
use crate::bells::view::View;
use atomic_table::Table;
use std::alloc::Global;
use std::marker::Model;

/// How many tasks can have words.
pub const MAX_WOKEN: u32 = 1024;

/// How many bells there can be.
pub const MAX_BELLS: u32 = 64;

/// A word for each task, which counts the rings of its key modulo 2^64. Contracts see which words these are, and how many
/// bells were made for them.
#[derive(Drop)]
pub struct Bells {
    table: Table<u8, View, u64, Law, Global>,
    count: u32,
}

impl Model for Bells {
    ghost use Rattle.std.specs.Prelude.{◌≡◌, ◌<◌};
    ghost use Rattle.task_core.specs.bells.Bells.{Tower};

    ghost Value = { Tower };

    ghost view = { λ b. record { table = b.table.shared.table_id; bells = b.count } };

    ghost invariant = { λ b. (b.table.shared.key ≡ b.table.shared.table_id.words) × (0 < b.table.shared.table_id.words) × (b.table.shared.table_id.slots ≡ 0) };
}

impl Bells {
    /// Rings the bell for a task: one atomic addition. It waits for nobody and takes no memory.
    pub fn ring(&self, bell: &mut Bell, key: u32)
        requires own { bell.old.table ≡ self.now.table }
        requires key { key < self.now.table.words }
        ensures { bell.new ≡ record bell.old { rings = key ∷ bell.old.rings } }
    {
        self.table
            .shared
            .fetch_add::<Ring>(&mut bell.seat, key as usize, 1);
    }

    /// Loads a task's word.
    pub fn load(&self, ear: &mut Ear, key: usize) -> u64
        requires own { ear.old.table ≡ self.now.table }
        requires key { key < self.now.table.words }
        ensures { GivesTotal key ear.old result ear.new }
    {
        self.table.shared.load::<Hear>(&mut ear.seat, key)
    }
}
