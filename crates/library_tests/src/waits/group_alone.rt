use super::setup::{Member, group};
use crate::made::knows;
use std::test::Fail;
use sync_model::Answer;
use sync_types::Misuse;

#[test]
fn a_counter_stays_within_its_range(rt: HostRuntime) -> Result<(), Fail> {
    let (group, mut passes) = group(rt.alloc(), 1, 6, 0)?;
    let mut member = Member::last(&group, &mut passes, knows(0)).expect(&rt, "a pass");
    let misuse = Misuse::NegativeWaitGroupCounter;
    for (delta, answer) in [
        (2147483647, Ok(())),
        (1, Err(misuse)),
        (-2147483647, Ok(())),
        (-1, Err(misuse)),
    ] {
        assert!(rt;
            member.add(&rt, delta) == Some(Answer::Done(answer)),
            "add {delta}"
        );
    }
    assert!(rt; member.wait(&rt) == Some(Answer::Done(Ok(()))));
    assert!(rt; member.done(&rt) == Some(Answer::Done(Err(misuse))));
    assert!(rt; member.wait(&rt) == None);
    Ok(())
}
