//! Where the guarded value lies.
ghost use Rattle.std.specs.Prelude.{◌≡◌, IfOk, IfErr};
ghost use Rattle.std.specs.Borrow.{Lends, sem};

use std::alloc::Global;
use std::marker::Model;

/// A value on the heap, so that a turn moves its address alone. Contracts see the value.
#[derive(Drop)]
pub struct Kept<T> {
    value: Box<T>,
}

impl<T> Model for Kept<T> {
    ghost Value = { T };

    ghost view = { λ k. k.value.value };
}

impl<T> Kept<T> {
    ghost use Rattle.turn_cell.specs.contracts.kept.Kept.{the_row};

    /// The value, on the heap. Where memory is wanting, it comes back.
    pub fn new(alloc: Global, value: T) -> Result<Kept<T>, T>
        ensures kept { IfOk result (λ k. k ≡ value) }
        ensures back { IfErr result (λ v. v ≡ value) }
    {
        match Box::new(alloc, value) {
            Ok(value) => Ok(Kept { value }),
            Err(failed) => Err(failed.value),
        }
    }

    /// The value, to read.
    pub fn get(&self) -> &T
        ensures { result.now ≡ self.now }
    {
        &self.value
    }

    /// The value, to read and to change.
    pub fn get_mut(&mut self) -> &mut T
        ensures* writes_back { sem 𝓛 (Lends (the_row T.row) T.row self.entry result (λ w. w)) }
        ensures value { result.now ≡ self.old }
    {
        &mut self.value
    }

    /// The value alone.
    pub fn into_inner(self) -> T
        ensures { result ≡ self }
    {
        let Kept { value } = self;
        Box::into_inner(value)
    }
}
