//! A logged value for the tests: numbers, each with the number of the pass that added it.
ghost use Rattle.std.specs.Prelude.{◌≡◌, ℕ, ◌<◌, ◌^◌, List, [], length};

use std::alloc::Global;
use std::marker::Model;
use turn_cell::Logged;

/// How many entries there may be.
const MOST: usize = 1_000_000;

#[derive(Drop)]
pub struct Sums {
    entries: Vec<(u32, u64)>,
}

impl Model for Sums {
    ghost use Rattle.std.specs.Prelude.{ℕ, ◌<◌, ◌^◌, List, length};

    ghost Value = { List (ℕ × ℕ) };

    ghost view = { λ s. s.entries.items };

    ghost invariant = { λ s. length s.entries.items < 2 ^ 62 };
}

impl Logged for Sums {
    type Entry = (u32, u64);

    type Base = ();

    ghost log = { λ s. s };

    ghost maker = { λ e. e.0 };

    ghost base = { λ _. tt };

    fn log_len(&self) -> u64 {
        self.entries.len() as u64
    }
}

impl Sums {
    ghost use Rattle.std.specs.Prelude.{◌≡◌, []};
    ghost use Rattle.entry_lists.specs.Entries.{GoesOn};

    pub fn new(alloc: Global) -> Sums
        ensures { result ≡ [] }
    {
        Sums {
            entries: Vec::new(alloc),
        }
    }

    /// Adds one entry, unless memory is wanting or there are too many.
    pub fn add(&mut self, seat: u32, number: u64) -> bool
        ensures { GoesOn (λ e. e.0) seat self.old self.new }
    {
        self.entries.len() < MOST && self.entries.push((seat, number)).is_ok()
    }

    pub fn entries(&self) -> &[(u32, u64)]
        ensures { result.now ≡ self.now }
    {
        self.entries.as_slice()
    }
}
