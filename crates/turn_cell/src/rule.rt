//! The rule of the table, and what each step on it tells.
ghost use Rattle.turn_cell.specs.Views.{giving, given_out, keeping, gone_view};
ghost use Rattle.turn_cell.specs.Steps.{looked, grabbed, gave};

use crate::kept::Kept;
use crate::logged::Logged;
use crate::view::View;
use atomic_table::{Join, Play, Split, TableRule};
use std::marker::PhantomData;
use std::snapshot::Snapshot;

/// The word is twice the log's length, and one more while the lock is held. The table's key is the first value, whose base stays.
pub struct Law<T> {
    of: PhantomData<T>,
}

impl<T: Logged> TableRule<Option<Kept<T>>, View<T::Entry, T::Base>, Snapshot<T>> for Law<T> {
    ghost use Rattle.turn_cell.specs.Rule.{Ruled};
    ghost use Rattle.turn_cell.specs.Views.{starting};

    ghost holds = { λ key. Ruled T.log T.maker T.base (T.base key.value) };

    ghost first = { λ key. starting (T.base key.value) };
}

/// A load of the word.
pub(crate) struct Look;

impl<T, E, B> Play<Option<T>, View<E, B>> for Look {
    ghost then = { looked };
}

/// An exchange of the word, which takes the slot.
pub(crate) struct Grab;

impl<T: Logged> Play<Option<Kept<T>>, View<T::Entry, T::Base>> for Grab {
    ghost then = { grabbed T.log T.maker T.base };
}

/// A store of the word, which gives the slot back.
pub(crate) struct Leave;

impl<T: Logged> Play<Option<Kept<T>>, View<T::Entry, T::Base>> for Leave {
    ghost then = { gave T.log T.maker T.base };
}

/// Pass 0 gives out numbers, and takes the passes in again.
pub(crate) struct Count;

impl<E, B> Split<View<E, B>> for Count {
    ghost left = { giving };

    ghost right = { given_out };
}

impl<E, B> Join<View<E, B>> for Count {
    ghost both = { keeping };

    ghost spent = { gone_view };
}
