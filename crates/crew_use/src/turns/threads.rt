//! Passes in threads of their own.
ghost use Rattle.std.specs.Prelude.{◌≡◌, false, vec_capacity};
ghost use Rattle.std.specs.Thread.{IsSync};
ghost use Rattle.turn_cell.specs.Passes.{IsSame, AreBack};
ghost use Rattle.turn_cell.specs.Helpers.{AreFree};

use crate::turns::sums::Sums;
use std::sync::Wait;
use std::thread::{Threads, join};
use turn_cell::{Pass, Turn};

/// Adds the numbers from 0 to 999, each in a turn of its own.
pub fn work<R: Wait>(rt: &R, turn: &Turn<Sums>, mut pass: Pass<Sums>) -> Pass<Sums>
    requires { (pass.table ≡ turn.now.table) × (pass.view.holds ≡ false) }
    ensures { IsSame pass result × (result.view.holds ≡ false) }
{
    for number in 0..1000 {
        let mut held = turn.take(rt, &mut pass);
        let _added = held.value().add(pass.number(), number);
        turn.give(&mut pass, held);
    }
    pass
}

/// The same for all passes, each in a thread of its own.
pub fn crew<R: Threads + Wait + Sync>(
    rt: &R,
    turn: &Turn<Sums>,
    mut passes: Vec<Pass<Sums>>,
) -> Vec<Pass<Sums>>
    requires { AreFree turn.now.table passes.items }
    ensures back { AreBack passes.items result.items }
    ensures room { vec_capacity result ≡ vec_capacity passes }
{
    let Some(pass) = passes.pop() else {
        return passes;
    };
    let (mut all, last) = join(
        rt,
        move || -> Vec<Pass<Sums>>
            requires { IsSync R.row × AreFree turn.now.table passes.items }
            ensures { AreBack passes.items result.items × (vec_capacity result ≡ vec_capacity passes) }
        { crew(rt, turn, passes) },
        move || -> Pass<Sums>
            requires { (pass.table ≡ turn.now.table) × (pass.view.holds ≡ false) }
            ensures { IsSame pass result × (result.view.holds ≡ false) }
        { work(rt, turn, pass) },
    );
    all.push_reserved(last);
    all
}
