use super::setup::{Caller, made};
use crate::made::knows;
use go_pool::PoolGet;
use pool_core::PoolPut;
use std::test::Fail;
use sync_model::Answer;

#[test]
fn one_caller_gets_what_it_put(rt: HostRuntime) -> Result<(), Fail> {
    let (pool, mut passes) = made(rt.alloc(), 1, 1, 0, 6)?;
    assert!(rt; pool.room() == 1);
    let mut caller = Caller::last(&pool, &mut passes, knows(0)).expect(&rt, "a pass");
    for (item, answer) in [
        (1, PoolPut::Kept),
        (2, PoolPut::Kept),
        (3, PoolPut::Dropped(3)),
    ] {
        assert!(rt;
            caller.put(&rt, item) == Some(Answer::Done(answer)),
            "put {item}"
        );
    }
    for answer in [PoolGet::Item(1), PoolGet::Item(2), PoolGet::New(0)] {
        assert!(rt; caller.get(&rt) == Some(Answer::Done(answer)));
    }
    Ok(())
}

#[test]
fn the_private_item_of_another_part_isnt_taken(rt: HostRuntime) -> Result<(), Fail> {
    let (pool, mut passes) = made(rt.alloc(), 2, 1, 0, 2)?;
    let mut second = Caller::last(&pool, &mut passes, knows(0)).expect(&rt, "a pass");
    let mut first = Caller::last(&pool, &mut passes, knows(0)).expect(&rt, "a pass");
    for item in [1, 2] {
        assert!(rt; first.put(&rt, item) == Some(Answer::Done(PoolPut::Kept)));
    }
    for answer in [PoolGet::Item(2), PoolGet::New(0)] {
        assert!(rt; second.get(&rt) == Some(Answer::Done(answer)));
    }
    Ok(())
}

#[test]
fn a_get_looks_in_order(rt: HostRuntime) -> Result<(), Fail> {
    let (pool, mut passes) = made(rt.alloc(), 3, 2, 0, 32)?;
    let mut third = Caller::last(&pool, &mut passes, knows(0)).expect(&rt, "a pass");
    let mut second = Caller::last(&pool, &mut passes, knows(0)).expect(&rt, "a pass");
    let mut first = Caller::last(&pool, &mut passes, knows(0)).expect(&rt, "a pass");
    let kept = Some(Answer::Done(PoolPut::Kept));
    // Part p has the private item p1 and the shared ones p3 (the head) and p2 (the tail), the victims 100 more.
    for from in [101, 1] {
        assert!(rt; first.sweep(&rt) == Some(Answer::Done(())));
        for item in [from, from + 1, from + 2] {
            assert!(rt; first.put(&rt, item) == kept);
            assert!(rt; second.put(&rt, item + 10) == kept);
            assert!(rt; third.put(&rt, item + 20) == kept);
        }
    }
    for item in [11, 13, 12, 22, 23, 2, 3, 111, 112, 113, 122, 123, 102, 103] {
        assert!(rt; second.get(&rt) == Some(Answer::Done(PoolGet::Item(item))));
    }
    assert!(rt; second.get(&rt) == Some(Answer::Done(PoolGet::New(0))));
    Ok(())
}
