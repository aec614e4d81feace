//! Passes on one thread and on two.

use crate::runs::{hold_and_visit, step_each};
use std::test::Fail;

#[test]
fn each_pass_steps_its_own_vcpu(rt: HostRuntime) -> Result<(), Fail> {
    let Some((board, views)) = step_each(&rt, rt.alloc())? else {
        assert!(rt; false, "the run could not be read");
        return Ok(());
    };
    assert!(rt; board.clock() == 2);
    let schedule = board.schedule();
    assert!(rt; schedule.len() == 2);
    let first = schedule[0];
    let second = schedule[1];
    assert!(rt; first.0 == 0);
    assert!(rt; second.0 == 1);
    assert!(rt; views.len() == 2);
    for v in 0..2u8 {
        let view = &views[v as usize];
        let number = view.number();
        assert!(rt; number.0 == v);
        assert!(rt; view.log().is_empty());
    }
    Ok(())
}

#[test]
fn a_view_is_taken_while_another_thread_has_the_board(rt: HostRuntime) -> Result<(), Fail> {
    let Some((board, views, seen)) = hold_and_visit(&rt, rt.alloc())? else {
        assert!(rt; false, "the run could not be read");
        return Ok(());
    };
    assert!(rt; seen, "view 1 was not given back while the board was out");
    assert!(rt; board.clock() == 0);
    assert!(rt; views.len() == 2);
    Ok(())
}
