//! The lock at work: rows of outside values, a lock that is held, and four threads.
ghost use Rattle.std.specs.Prelude.{◌≡◌, ◌<◌, ◌≤◌, false, vec_len};
ghost use Rattle.turn_cell.specs.Passes.{AreAll, IsNew, IsIdle, IsSame};

mod sums;
mod threads;

use std::alloc::Global;
use std::process::Abort;
use std::sync::Wait;
use std::test::Fail;
use std::thread::Threads;
use sums::Sums;
use threads::crew;
use turn_cell::{Busy, Pass, Turn};

// A lock over no entries, with n passes.
fn opened(rt: &impl Abort, alloc: Global, n: u32) -> (Turn<Sums>, Vec<Pass<Sums>>)
    requires { (0 < n) × (n ≤ 64) }
    ensures count { result.0.count ≡ n }
    ensures passes { AreAll result.0 (IsNew result.0) result.1.items }
{
    let Ok(made) = Turn::with(alloc, Sums::new(alloc), n) else {
        panic!(rt; "no memory")
    };
    made
}

// The pass k adds a number.
fn add_as(
    turn: &Turn<Sums>,
    passes: &mut Vec<Pass<Sums>>,
    k: usize,
    number: u64,
) -> Result<bool, Busy>
    requires { AreAll turn.now (IsIdle turn.now) passes.old.items × (k < vec_len passes.old) }
    ensures all { AreAll turn.now (IsIdle turn.now) passes.new.items }
    ensures count { vec_len passes.new ≡ vec_len passes.old }
{
    let pass = &mut passes[k];
    let mut held = turn.try_take(pass)?;
    let added = held.value().add(pass.number(), number);
    turn.give(pass, held);
    Ok(added)
}

// Why the lock can't be taken now.
fn refusal(turn: &Turn<Sums>, pass: &mut Pass<Sums>) -> Option<Busy>
    requires { (pass.old.table ≡ turn.now.table) × (pass.old.view.holds ≡ false) }
    ensures { IsSame pass.old pass.new × (pass.new.view.holds ≡ false) }
{
    match turn.try_take(pass) {
        Ok(held) => {
            turn.give(pass, held);
            None
        }
        Err(busy) => Some(busy),
    }
}

// Two passes of a lock that has just these.
fn pair(turn: &Turn<Sums>, mut passes: Vec<Pass<Sums>>) -> (Pass<Sums>, Pass<Sums>)
    requires { AreAll turn.now (IsNew turn.now) passes.items × (turn.now.count ≡ 2) }
    ensures { IsNew turn.now 0 result.0 × IsNew turn.now 1 result.1 }
{
    let second = passes.remove(1);
    let first = passes.remove(0);
    (first, second)
}

// The pass k adds a number, as it can.
fn adds(rt: &impl Abort, turn: &Turn<Sums>, passes: &mut Vec<Pass<Sums>>, k: usize, number: u64)
    requires { AreAll turn.now (IsIdle turn.now) passes.old.items × (k < vec_len passes.old) }
    ensures all { AreAll turn.now (IsIdle turn.now) passes.new.items }
    ensures count { vec_len passes.new ≡ vec_len passes.old }
{
    assert_eq!(rt; add_as(turn, passes, k, number), Ok(true));
}

// The lock is held, and this is its word.
fn is_busy(rt: &impl Abort, turn: &Turn<Sums>, pass: &mut Pass<Sums>, word: u64)
    requires { (pass.old.table ≡ turn.now.table) × (pass.old.view.holds ≡ false) }
    ensures { IsSame pass.old pass.new × (pass.new.view.holds ≡ false) }
{
    assert_eq!(rt; refusal(turn, pass), Some(Busy { loaded: word, word }));
}

// Whether a pass holds the lock.
fn holds(rt: &impl Abort, pass: &Pass<Sums>, want: bool) {
    assert_eq!(rt; pass.holds(), want);
}

// One pass takes the lock and gives it back. Meanwhile it alone holds it, and the other finds it busy at this word.
fn holds_alone<R: Abort + Wait>(
    rt: &R,
    turn: &Turn<Sums>,
    holder: &mut Pass<Sums>,
    other: &mut Pass<Sums>,
    word: u64,
)
    requires holder { (holder.old.table ≡ turn.now.table) × (holder.old.view.holds ≡ false) }
    requires other { (other.old.table ≡ turn.now.table) × (other.old.view.holds ≡ false) }
    ensures holder { (holder.new.table ≡ turn.now.table) × (holder.new.view.holds ≡ false) }
    ensures other { (other.new.table ≡ turn.now.table) × (other.new.view.holds ≡ false) }
{
    let held = turn.take(rt, holder);
    holds(rt, holder, true);
    holds(rt, other, false);
    is_busy(rt, turn, other, word);
    turn.give(holder, held);
}

// The same, and the pass that holds the lock adds a number.
fn adds_alone<R: Abort + Wait>(
    rt: &R,
    turn: &Turn<Sums>,
    holder: &mut Pass<Sums>,
    other: &mut Pass<Sums>,
    word: u64,
    number: u64,
)
    requires holder { (holder.old.table ≡ turn.now.table) × (holder.old.view.holds ≡ false) }
    requires other { (other.old.table ≡ turn.now.table) × (other.old.view.holds ≡ false) }
    ensures holder { (holder.new.table ≡ turn.now.table) × (holder.new.view.holds ≡ false) }
    ensures other { (other.new.table ≡ turn.now.table) × (other.new.view.holds ≡ false) }
{
    let mut held = turn.take(rt, holder);
    is_busy(rt, turn, other, word);
    let added = held.value().add(holder.number(), number);
    assert!(rt; added);
    turn.give(holder, held);
}

// These entries were made, in order.
fn entries_are(rt: &impl Abort, sums: &Sums, want: &[(u32, u64)]) {
    assert_eq!(rt; sums.entries(), want);
}

#[test]
fn two_of_three_passes_add_one_entry_each(rt: HostRuntime) -> Result<(), Fail> {
    let (turn, mut passes) = opened(&rt, rt.alloc(), 3);
    adds(&rt, &turn, &mut passes, 0, 10);
    adds(&rt, &turn, &mut passes, 2, 20);
    entries_are(&rt, &turn.close(passes), &[(0, 10), (2, 20)]);
    Ok(())
}

#[test]
fn a_held_lock_is_busy_and_its_word_counts_the_entries(rt: HostRuntime) -> Result<(), Fail> {
    let (turn, passes) = opened(&rt, rt.alloc(), 2);
    let (mut first, mut second) = pair(&turn, passes);
    assert!(rt; first.number() == 0 && second.number() == 1);
    holds_alone(&rt, &turn, &mut first, &mut second, 1);
    // Nothing was added, so the word is as before.
    adds_alone(&rt, &turn, &mut first, &mut second, 1, 7);
    // One entry was added: the word was 2, and is 3 while the second pass holds.
    holds_alone(&rt, &turn, &mut second, &mut first, 3);
    holds(&rt, &first, false);
    holds(&rt, &second, false);
    Ok(())
}

// How many entries this pass has, if they are 0, 1, 2 and so on.
fn in_order(entries: &[(u32, u64)], seat: u32) -> Option<u64> {
    let mut next: u64 = 0;
    for (maker, number) in entries {
        if *maker == seat {
            if *number != next {
                return None;
            }
            next = next.wrapping_add(1);
        }
    }
    Some(next)
}

// The thousand entries of this pass are there, in order.
fn has_a_thousand(rt: &impl Abort, entries: &[(u32, u64)], seat: u32) {
    assert_eq!(rt; in_order(entries, seat), Some(1000), "pass {seat}");
}

// The same of each of four passes.
fn each_has_a_thousand(rt: &impl Abort, entries: &[(u32, u64)]) {
    for seat in 0..4 {
        has_a_thousand(rt, entries, seat);
    }
}

fn number_is(rt: &impl Abort, number: u64, want: u64) {
    assert_eq!(rt; number, want);
}

fn sum_of(entries: &[(u32, u64)]) -> u64 {
    let mut sum: u64 = 0;
    for (_, number) in entries {
        sum = sum.wrapping_add(*number);
    }
    sum
}

// What four passes add, each in a thread of its own.
fn sums_of_four<R: Abort + Threads + Wait + Sync>(rt: &R, alloc: Global) -> Sums {
    let (turn, passes) = opened(rt, alloc, 4);
    let passes = crew(rt, &turn, passes);
    turn.close(passes)
}

#[test]
fn four_threads_add_a_thousand_entries_each(rt: HostRuntime) -> Result<(), Fail> {
    let sums = sums_of_four(&rt, rt.alloc());
    let entries = sums.entries();
    number_is(&rt, entries.len() as u64, 4000);
    number_is(&rt, sum_of(entries), 4 * 499_500);
    each_has_a_thousand(&rt, entries);
    Ok(())
}
