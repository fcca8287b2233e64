//! The definitions at one short list.
ghost use Rattle.entry_lists.specs.Examples.{Chosen, NoneChosen, WentOn, OfAnother};

/// Of the entries (1, 50), (2, 60), (1, 70) the first and the last are maker 1's, and none is maker 3's.
/// Maker 2 goes on from the first with two entries of its own, and not with one of maker 1's.
pub fn three_entries()
    ensures chosen { Chosen }
    ensures none { NoneChosen }
    ensures went_on { WentOn }
    ensures of_another { OfAnother }
{}
