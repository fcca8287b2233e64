use crate::checks::number_is;
use std::test::Fail;
use task_core::bells::Bells;

#[test]
fn what_was_not_rung_is_none(rt: HostRuntime) -> Result<(), Fail> {
    let (bells, mut ear, out) = Bells::with(rt.alloc(), 2, 3)?;
    number_is(&rt, bells.load(&mut ear, 1), 0, 0);
    let mut words = [9, 9];
    bells.close(ear, out, &mut words);
    number_is(&rt, words[0], 0, 1);
    number_is(&rt, words[1], 0, 2);
    Ok(())
}
