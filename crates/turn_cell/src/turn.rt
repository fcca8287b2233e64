//! The lock.
ghost use Rattle.std.specs.Prelude.{◌≡◌, ◌+◌, ◌*◌, ◌<◌, true, false, Some, IfOk, IfErr};

use crate::busy::Busy;
use crate::held::Held;
use crate::kept::Kept;
use crate::logged::Logged;
use crate::pass::Pass;
use crate::rule::{Grab, Law, Leave, Look};
use crate::view::View;
use atomic_table::Table;
use std::alloc::{AllocError, Global};
use std::marker::Model;
use std::snapshot::Snapshot;
use std::sync::Wait;
use std::sync::atomic::{AtomicU64, Ordering};

mod closing;
mod opening;

/// A lock over a value whose log grows. Contracts see which lock it is, the base of its value, and how many
/// passes it has.
#[derive(Drop)]
pub struct Turn<T: Logged> {
    table: Table<Option<Kept<T>>, View<T::Entry, T::Base>, Snapshot<T>, Law<T>, Global>,
    count: u32,
    // How many threads sleep, or are about to: one that counts itself looks at the word again before it sleeps.
    sleepers: AtomicU64,
}

impl<T: Logged> Model for Turn<T> {
    ghost use Rattle.std.specs.Prelude.{◌≡◌, ◌<◌};
    ghost use Rattle.turn_cell.specs.Passes.{LockView};

    ghost Value = { LockView T.Base };

    ghost view = { λ t. record { table = t.table.shared.table_id; base = T.base t.table.shared.key.value; count = t.count } };

    ghost invariant = { λ t. (t.table.shared.table_id.words ≡ 1) × (t.table.shared.table_id.slots ≡ 1) × (0 < t.count) };
}

impl<T: Logged> Turn<T> {
    ghost use Rattle.turn_cell.specs.Passes.{HasTaken, TurnedAway, HasGiven};
    ghost use Rattle.entry_lists.specs.Entries.{GoesOn};

    /// Tries once: one load of the word and at most one exchange. It waits for nobody and takes no memory.
    /// `Busy` comes only where another pass held the lock or came between the two.
    pub fn try_take(&self, pass: &mut Pass<T>) -> Result<Held<T>, Busy>
        requires own { pass.old.table ≡ self.now.table }
        requires idle { pass.old.view.holds ≡ false }
        ensures taken { IfOk result (λ held. HasTaken T.log T.maker T.base pass.old pass.new held) }
        ensures busy { IfErr result (λ b. TurnedAway pass.old pass.new b.loaded b.word) }
        ensures one_look { pass.new.view.looks ≡ pass.old.view.looks + 1 }
    {
        let shared = &self.table.shared;
        let loaded = shared.load::<Look>(&mut pass.seat, 0);
        if loaded % 2 == 1 {
            return Err(Busy {
                loaded,
                word: loaded,
            });
        }
        let word = shared.compare_exchange::<Grab>(&mut pass.seat, 0, loaded, loaded + 1);
        if word != loaded {
            return Err(Busy { loaded, word });
        }
        pass.holding = true;
        let slot = shared.exchange(&mut pass.seat, 0, None);
        let Some(value) = slot else { unreachable!() };
        Ok(Held { value })
    }

    /// Takes the lock, and waits while others hold it.
    pub fn take<R: Wait>(&self, rt: &R, pass: &mut Pass<T>) -> Held<T>
        requires own { pass.old.table ≡ self.now.table }
        requires idle { pass.old.view.holds ≡ false }
        ensures taken { HasTaken T.log T.maker T.base pass.old pass.new result }
    {
        for _ in rt.forever() {
            match self.try_take(pass) {
                Ok(held) => return held,
                // Where nobody held the lock, there is nothing to wait for.
                Err(busy) if busy.word % 2 == 0 => {}
                Err(busy) => {
                    let expected = (busy.word % 4_294_967_296) as u32;
                    self.sleepers.fetch_add(1, Ordering::SeqCst);
                    self.table.shared.park(rt, 0, expected);
                    self.sleepers.fetch_sub(1, Ordering::SeqCst);
                }
            }
        }
        unreachable!()
    }

    /// Gives the value back, and wakes one of those who sleep. Where none does, that is no call of the system. It waits for nobody and takes no memory.
    pub fn give(&self, pass: &mut Pass<T>, held: Held<T>)
        requires own { pass.old.table ≡ self.now.table }
        requires holds { pass.old.view.holds ≡ true }
        requires base { Some (T.base held) ≡ pass.old.view.base }
        requires log { GoesOn T.maker pass.old.view.known.number pass.old.view.known.seen (T.log held) }
        ensures given { HasGiven T.log T.maker pass.old pass.new held }
    {
        let Held { value } = held;
        let length = value.get().log_len();
        let shared = &self.table.shared;
        let slot = shared.exchange(&mut pass.seat, 0, Some(value));
        let None = slot else { unreachable!() };
        shared.store::<Leave>(&mut pass.seat, 0, 2 * length);
        pass.holding = false;
        if self.sleepers.load(Ordering::SeqCst) != 0 {
            shared.wake_one(0);
        }
    }
}
