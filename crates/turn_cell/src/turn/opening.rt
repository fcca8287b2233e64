//! How a lock is made, with all its passes.
ghost use Rattle.std.specs.Prelude.{◌≡◌, ◌+◌, ◌-◌, ◌<◌, ◌≤◌, false, [], ◌∷◌, Some, IfOk, IfErr, vec_len, vec_capacity};
ghost use Rattle.turn_cell.specs.Views.{starting};
ghost use Rattle.turn_cell.specs.Helpers.{AreNewcomers};

use crate::kept::Kept;
use crate::logged::Logged;
use crate::pass::{Pass, Top};
use crate::rule::Law;
use crate::turn::Turn;
use crate::view::View;
use atomic_table::{Refused, Seat, Table};
use std::alloc::{AllocError, Global};
use std::snapshot::Snapshot;
use std::sync::atomic::AtomicU64;

type Place<T> = Seat<Option<Kept<T>>, View<<T as Logged>::Entry, <T as Logged>::Base>>;

type Board<T> = Table<
    Option<Kept<T>>,
    View<<T as Logged>::Entry, <T as Logged>::Base>,
    Snapshot<T>,
    Law<T>,
    Global,
>;

// The value of the one slot that was refused.
fn sent_back<T>(refused: Refused<Option<Kept<T>>, Global>) -> T
    requires { (x : T) × (refused.slots.items ≡ Some x ∷ []) }
    ensures { refused.slots.items ≡ Some result ∷ [] }
{
    let Refused { mut slots } = refused;
    let last = slots.pop();
    let Some(Some(value)) = last else {
        unreachable!()
    };
    slots.destroy_empty();
    value.into_inner()
}

// The word and the slot with the value in it.
fn lay<T: Logged>(alloc: Global, value: T) -> Result<(Board<T>, Place<T>), (T, AllocError)>
    requires { T.log value ≡ [] }
    ensures sizes { IfOk result (λ r. (r.0.shared.table_id.words ≡ 1) × (r.0.shared.table_id.slots ≡ 1)) }
    ensures key { IfOk result (λ r. r.0.shared.key.value ≡ value) }
    ensures seat { IfOk result (λ r. (r.1.table_id ≡ r.0.shared.table_id) × (r.1.me ≡ (starting (T.base value), []))) }
    ensures back { IfErr result (λ r. r.0 ≡ value) }
{
    let key = Snapshot::of(&value);
    let value = match Kept::new(alloc, value) {
        Ok(value) => value,
        Err(value) => return Err((value, AllocError)),
    };
    let mut slots = match Vec::with_capacity(alloc, 1) {
        Ok(slots) => slots,
        Err(refused) => return Err((value.into_inner(), refused)),
    };
    slots.push_reserved(Some(value));
    match Table::new(alloc, &[0], slots, &key) {
        Ok(made) => Ok(made),
        Err(refused) => Err((sent_back(refused), AllocError)),
    }
}

// Pass 0 gives out the numbers below n, each to a new pass.
fn give_out<T: Logged>(top: &Top<T>, first: &mut Pass<T>, n: u32, passes: &mut Vec<Pass<T>>)
    requires count { 0 < n }
    requires table { (first.old.table ≡ top.now.table_id) × (0 < top.now.table_id.words) }
    requires zero { (first.old.view.known.number ≡ 0) × (first.old.view.holds ≡ false) × (first.old.view.given ≡ 1) }
    requires room { (passes.old.items ≡ []) × (n ≤ vec_capacity passes.old) }
    ensures first { first.new ≡ record first.old { view = record first.old.view { given = n } } }
    ensures room { vec_capacity passes.new ≡ vec_capacity passes.old }
    ensures passes { AreNewcomers first.old passes.new.items }
    ensures count { vec_len passes.new + 1 ≡ n }
{
    for number in 1..n {
        let fresh = first.split(top, number);
        passes.push_reserved(fresh);
    }
}

impl<T: Logged> Turn<T> {
    ghost use Rattle.turn_cell.specs.Passes.{AreAll, IsNew};

    /// A lock over this value, whose log is empty, and its `n` passes in the order of their numbers, which
    /// begin with 0. There are 1 to 64. Where memory is wanting, the value comes back.
    pub fn with(alloc: Global, value: T, n: u32) -> Result<(Turn<T>, Vec<Pass<T>>), (T, AllocError)>
        requires count { (0 < n) × (n ≤ 64) }
        requires empty { T.log value ≡ [] }
        ensures turn { IfOk result (λ made. (made.0.count ≡ n) × (made.0.base ≡ T.base value)) }
        ensures passes { IfOk result (λ made. AreAll made.0 (IsNew made.0) made.1.items) }
        ensures back { IfErr result (λ refused. refused.0 ≡ value) }
    {
        let mut passes = match Vec::with_capacity(alloc, n as usize) {
            Ok(passes) => passes,
            Err(refused) => return Err((value, refused)),
        };
        let (table, seat) = lay(alloc, value)?;
        let mut first = Pass::first(seat);
        give_out(&table.shared, &mut first, n, &mut passes);
        let Ok(()) = passes.insert(0, first) else {
            unreachable!()
        };
        let turn = Turn {
            table,
            count: n,
            sleepers: AtomicU64::new(0),
        };
        Ok((turn, passes))
    }
}
