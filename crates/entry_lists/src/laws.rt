//! Laws of lists of entries. Each function does nothing: what counts is its contract, which is proved.
ghost use Rattle.entry_lists.specs.Laws.{JoinedEntries, OwnEntriesAreOwn, OneMakersEntries, AnotherMakersEntries, NoneBehind, HoldsByMaker, MakersAreBelow, PrefixOfItself, PrefixOfPrefix, ShorterPrefix, LongestPrefix, PrefixIsShorter, PrefixKeepsPlaces, OwnEntriesBegin, GoesOnWithNone, GoesOnWithOne, GoesOnTwice, GoesOnFromPrefix, OthersKeepTheirs};

/// The entries of one maker.
pub fn entries_of_one_maker<E>()
    ensures joined { JoinedEntries E }
    ensures own { OwnEntriesAreOwn E }
    ensures all { OneMakersEntries E }
    ensures none { AnotherMakersEntries E }
    ensures behind { NoneBehind E }
    ensures begin { OwnEntriesBegin E }
{}

/// What the entries of each maker say of the whole list.
pub fn entries_by_maker<E>()
    ensures each { HoldsByMaker E }
    ensures below { MakersAreBelow E }
{}

/// Beginnings of a list.
pub fn beginnings<E>()
    ensures itself { PrefixOfItself E }
    ensures further { PrefixOfPrefix E }
    ensures shorter { ShorterPrefix E }
    ensures longest { LongestPrefix E }
    ensures length { PrefixIsShorter E }
    ensures places { PrefixKeepsPlaces E }
{}

/// Lists that one maker goes on with.
pub fn going_on<E>()
    ensures none { GoesOnWithNone E }
    ensures one { GoesOnWithOne E }
    ensures twice { GoesOnTwice E }
    ensures prefix { GoesOnFromPrefix E }
    ensures others { OthersKeepTheirs E }
{}
