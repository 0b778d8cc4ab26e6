// Placements at the edges, the numbers of each refusal, and loans.
use crate::Arena;
use mps_base::{Addr, Refusal};
use std::alloc::AllocError;

#[test]
fn places_runs_at_the_lowest_gap(rt: HostRuntime) -> Result<(), AllocError> {
    let mut arena = Arena::new(rt.alloc(), 8, 6)?;
    assert!(rt; arena.take_run(2) == Ok(Addr(0x1000)));
    assert!(rt; arena.take_run(1) == Ok(Addr(0x3000)));
    assert!(rt;
        arena.take_run(4)
            == Err(Refusal::CommitLimit {
                committed: 3,
                need: 4,
                limit: 6
            })
    );
    assert!(rt; arena.take_run(3) == Ok(Addr(0x4000)));
    assert_eq!(rt; arena.committed(), 6);
    assert!(rt; arena.set_limit(5) == Err(Refusal::BelowCommitted));
    assert!(rt; arena.set_limit(9) == Ok(()));
    assert!(rt;
        arena.take_run(3)
            == Err(Refusal::NoRun {
                need: 3,
                longest: 2
            })
    );
    assert!(rt; arena.take_run(2) == Ok(Addr(0x7000)));
    assert!(rt;
        arena.take_run(1)
            == Err(Refusal::NoRun {
                need: 1,
                longest: 0
            })
    );
    assert!(rt;
        arena.take_run(2)
            == Err(Refusal::CommitLimit {
                committed: 8,
                need: 2,
                limit: 9
            })
    );
    Ok(())
}

#[test]
fn lends_what_is_given_back_later(rt: HostRuntime) -> Result<(), AllocError> {
    let mut arena = Arena::new(rt.alloc(), 2, 2)?;
    assert!(rt; arena.item(1535) == Some(0));
    assert!(rt; arena.item(1536) == None);
    assert!(rt; arena.take_run(1) == Ok(Addr(0x1000)));
    arena.lend_mut(Addr(0x1008), 2).fill(7);
    let all = arena.lend(Addr(0x1000), 4);
    assert!(rt; all == [0, 7, 7, 0].as_slice());
    Ok(())
}

#[test]
fn reads_zeros_after_what_was_written(rt: HostRuntime) -> Result<(), AllocError> {
    let mut arena = Arena::new(rt.alloc(), 255, 255)?;
    assert!(rt; arena.take_run(1) == Ok(Addr(0x1000)));
    assert!(rt; arena.item(131_071) == Some(0));
    assert!(rt; arena.item(131_072) == None);
    assert_eq!(rt; arena.word(Addr(8 * 90_000)), 0);
    arena.clear(Addr(8 * 66_000), 2_000);
    assert!(rt; arena.item(67_999) == Some(0));
    arena.set_word(Addr(8 * 90_000), 7);
    assert!(rt; arena.item(89_999) == Some(0));
    assert!(rt; arena.item(90_000) == Some(7));
    assert!(rt; arena.item(90_001) == Some(0));
    Ok(())
}

#[test]
fn copies_words_that_are_not_stored(rt: HostRuntime) -> Result<(), AllocError> {
    let mut arena = Arena::new(rt.alloc(), 255, 255)?;
    arena.set_word(Addr(8 * 600), 7);
    arena.copy(Addr(8 * 600), Addr(8 * 90_000), 2);
    assert!(rt; arena.item(90_000) == Some(7));
    assert!(rt; arena.item(90_001) == Some(0));
    arena.copy(Addr(8 * 100_000), Addr(8 * 600), 1);
    assert!(rt; arena.item(600) == Some(0));
    arena.clear(Addr(8 * 90_000), 40_000);
    assert!(rt; arena.item(90_000) == Some(0));
    Ok(())
}

#[test]
fn lends_words_that_are_not_stored(rt: HostRuntime) -> Result<(), AllocError> {
    let mut arena = Arena::new(rt.alloc(), 255, 255)?;
    arena.lend_mut(Addr(8 * 100_000), 2).fill(9);
    assert!(rt; arena.item(99_999) == Some(0));
    assert!(rt; arena.item(100_001) == Some(9));
    assert!(rt; arena.item(100_002) == Some(0));
    Ok(())
}
