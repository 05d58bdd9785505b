//! The text of a seed.
use made_workload::generate;
use std::test::Fail;

#[test]
fn the_text_of_seed_7_begins_and_ends_so(rt: HostRuntime) -> Result<(), Fail> {
    let text = generate(rt.alloc(), 7)?;
    assert!(rt; text.len() == 191_634);
    assert!(rt;
        text.starts_with(
            b"workers 8\nmutex m\nint64 total\nmap t\nworker 0\nlock m\nadd total 449\nunlock m\nload t k0_14\nlock m\nadd total 135\nunlock m\ndelete t k0_15\nlock m\nadd total 764\nunlock m\nstore t k0_27 3070294\n"
        )
    );
    assert!(rt; text.ends_with(b"lock m\nadd total 480\nunlock m\ndelete t k7_39\n"));
    Ok(())
}
