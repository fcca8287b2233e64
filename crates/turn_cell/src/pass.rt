//! The right to take one lock, which one thread has at a time.
ghost use Rattle.std.specs.Prelude.{◌≡◌, ◌<◌, false};
ghost use Rattle.turn_cell.specs.Views.{giving, given_out, keeping};

use crate::kept::Kept;
use crate::logged::Logged;
use crate::rule::{Count, Law};
use crate::view::View;
use atomic_table::{Seat, Shared};
use std::marker::Model;
use std::snapshot::Snapshot;

// The table as its steps see it.
pub(crate) type Top<T> = Shared<
    Option<Kept<T>>,
    View<<T as Logged>::Entry, <T as Logged>::Base>,
    Snapshot<T>,
    Law<T>,
>;

/// A pass of one `Turn`. Contracts see which lock it is of and what it knows: its number, the base, the log
/// that it has seen, its own entries, and what its loads gave.
pub struct Pass<T: Logged> {
    number: u32,
    pub(crate) holding: bool,
    pub(crate) seat: Seat<Option<Kept<T>>, View<T::Entry, T::Base>>,
}

impl<T: Logged> Drop for Pass<T> {
    fn drop(self) {
        let Self {
            number: _,
            holding: _,
            seat: _,
        } = self;
    }
}

impl<T: Logged> Model for Pass<T> {
    ghost use Rattle.turn_cell.specs.Passes.{PassView, pass_view, IsPassView};

    ghost Value = { PassView T.Entry T.Base };

    ghost view = { λ p. pass_view p.seat };

    ghost invariant = { λ p. IsPassView p.number p.holding p.seat };
}

impl<T: Logged> Pass<T> {
    ghost use Rattle.turn_cell.specs.Passes.{pass_view, IsPassView};

    /// The number that this pass's entries carry.
    pub fn number(&self) -> u32
        ensures { result ≡ self.now.view.known.number }
    {
        self.number
    }

    /// Whether the pass has taken the lock and not yet given it back.
    pub fn holds(&self) -> bool
        ensures { result ≡ self.now.view.holds }
    {
        self.holding
    }

    // The pass of a new table's first seat.
    pub(crate) fn first(seat: Seat<Option<Kept<T>>, View<T::Entry, T::Base>>) -> Pass<T>
        requires { IsPassView 0 false seat }
        ensures { result ≡ pass_view seat }
    {
        Pass {
            number: 0,
            holding: false,
            seat,
        }
    }

    // The seat, at the table's end.
    pub(crate) fn into_seat(self) -> Seat<Option<Kept<T>>, View<T::Entry, T::Base>>
        requires { self.view.holds ≡ false }
        ensures { (pass_view result ≡ self) × IsPassView self.view.known.number false result }
    {
        let Pass {
            number: _,
            holding: _,
            seat,
        } = self;
        seat
    }

    // A new pass with the next number. Pass 0 alone may give numbers out.
    pub(crate) fn split(&mut self, top: &Top<T>, number: u32) -> Pass<T>
        requires table { (self.old.table ≡ top.now.table_id) × (0 < top.now.table_id.words) }
        requires zero { (self.old.view.known.number ≡ 0) × (self.old.view.holds ≡ false) }
        requires next { self.old.view.given ≡ number }
        ensures counted { self.new ≡ record self.old { view = giving self.old.view } }
        ensures new { (result.table ≡ self.old.table) × (result.view ≡ given_out self.old.view) }
    {
        let seat = top.split_seat::<Count>(&mut self.seat);
        Pass {
            number,
            holding: false,
            seat,
        }
    }

    // Takes another pass in. Pass 0 alone may.
    pub(crate) fn absorb(&mut self, top: &Top<T>, other: Pass<T>)
        requires table { (self.old.table ≡ top.now.table_id) × (other.table ≡ top.now.table_id) × (0 < top.now.table_id.words) }
        requires zero { (self.old.view.known.number ≡ 0) × (self.old.view.holds ≡ false) }
        requires idle { other.view.holds ≡ false }
        ensures kept { self.new ≡ record self.old { view = keeping self.old.view other.view } }
    {
        let Pass {
            number: _,
            holding: _,
            seat,
        } = other;
        top.join_seat::<Count>(&mut self.seat, seat);
    }
}
