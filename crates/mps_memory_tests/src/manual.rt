// Each refusal, and what a free gives back.
ghost use Rattle.std.specs.Prelude.{◌<◌};

use mps_base::{Addr, Move, Refusal, Trail};
use mps_manual::Manual;
use mps_seg::Segs;
use std::alloc::{AllocError, Global};
use std::process::Abort;

/// A block that is asked for, and the answer.
struct Case {
    pool: u32,
    words: u32,
    answer: Result<Addr, Refusal>,
}

/// What is asked of an arena of three grains with a limit of two, one after the other. Pool 0 has blocks of any sizes, pool 1 blocks
/// of 500 words.
const CASES: [Case; 7] = [
    Case {
        pool: 0,
        words: 0,
        answer: Err(Refusal::BadSize),
    },
    Case {
        pool: 0,
        words: 65_537,
        answer: Err(Refusal::BadSize),
    },
    Case {
        pool: 1,
        words: 499,
        answer: Err(Refusal::BadSize),
    },
    Case {
        pool: 0,
        words: 10,
        answer: Ok(Addr(0x1000)),
    },
    Case {
        pool: 1,
        words: 500,
        answer: Ok(Addr(0x2000)),
    },
    Case {
        pool: 0,
        words: 502,
        answer: Ok(Addr(0x1050)),
    },
    Case {
        pool: 0,
        words: 513,
        answer: Err(Refusal::CommitLimit {
            committed: 2,
            need: 2,
            limit: 2,
        }),
    },
];

/// Adds a pool of blocks of any sizes, and one of blocks of `size` words. A third is taken off again.
fn add_two(manual: &mut Manual, size: u32) -> Result<(), AllocError> {
    manual.add(0)?;
    manual.add(size)?;
    manual.add(500)?;
    manual.remove_last();
    Ok(())
}

/// These two pools.
fn two_pools(alloc: Global, size: u32) -> Result<Manual, AllocError> {
    let mut manual = Manual::new(alloc);
    add_two(&mut manual, size)?;
    Ok(manual)
}

/// Allocates a block of a pool; BadName if there is no such pool.
fn make_with(
    manual: &Manual,
    segs: &mut Segs,
    trail: &mut Trail,
    pool: u32,
    words: u32,
) -> Result<Addr, Refusal>
    requires { 1 < trail.old.spare }
{
    if pool as usize >= manual.pools() {
        return Err(Refusal::BadName);
    }
    manual.alloc(segs, trail, pool, words)
}

/// Does the same with a trail of its own.
fn make(
    alloc: Global,
    manual: &Manual,
    segs: &mut Segs,
    pool: u32,
    words: u32,
) -> Result<Addr, Refusal> {
    let mut trail = Trail::new(alloc, 2).map_err(|_| Refusal::OutOfMemory)?;
    let made = make_with(manual, segs, &mut trail, pool, words);
    drop(trail);
    made
}

/// Frees the block of a pool that lies over a byte, and returns where it began; None if there is none.
fn free_with(manual: &Manual, segs: &mut Segs, trail: &mut Trail, pool: u32, n: u64) -> Option<Addr>
    requires { 1 < trail.old.spare }
{
    if pool as usize >= manual.pools() {
        return None;
    }
    let at = segs.block_at(n)?;
    manual.free(segs, trail, pool, at);
    Some(at)
}

fn compare_made(rt: &impl Abort, alloc: Global, manual: &Manual, segs: &mut Segs, case: &Case) {
    let answer = make(alloc, manual, segs, case.pool, case.words);
    assert!(rt; answer == case.answer, "{} words", case.words);
}

/// Which sizes the two pools have; there is no third.
fn compare_sizes(rt: &impl Abort, manual: &Manual) {
    assert!(rt; manual.takes(0, 65_536) == Some(true) && manual.takes(0, 65_537) == Some(false));
    assert!(rt; manual.takes(1, 500) == Some(true) && manual.takes(1, 499) == Some(false));
    assert!(rt; manual.takes(2, 500) == None);
}

fn compare_all(rt: &impl Abort, alloc: Global, manual: &Manual, segs: &mut Segs) {
    compare_sizes(rt, manual);
    for case in &CASES {
        compare_made(rt, alloc, manual, segs, case);
    }
}

/// Compares where a block that was freed began, and the moves.
fn compare_moves(rt: &impl Abort, began: Option<Addr>, made: &[Move], moves: &[Move]) {
    let block = moves.first().map(|first| *first
        == Move::Free {
            at: began.unwrap_or(Addr(0)),
        });
    assert!(rt; block == Some(true) && made == moves);
}

/// Frees the block over a byte, and compares where it began and the moves.
fn compare_freed(
    rt: &impl Abort,
    alloc: Global,
    manual: &Manual,
    segs: &mut Segs,
    pool: u32,
    n: u64,
    moves: &[Move],
) -> Result<(), AllocError> {
    let mut trail = Trail::new(alloc, 2)?;
    let began = free_with(manual, segs, &mut trail, pool, n);
    compare_moves(rt, began, trail.moves(), moves);
    drop(trail);
    Ok(())
}

/// A block of each pool is made and freed; the segment of the first pool is given back, that of the second stays.
fn make_and_free(
    rt: &impl Abort,
    alloc: Global,
    manual: &Manual,
    segs: &mut Segs,
) -> Result<(), AllocError> {
    assert!(rt; make(alloc, manual, segs, 0, 4) == Ok(Addr(0x1000)));
    assert!(rt; make(alloc, manual, segs, 1, 4) == Ok(Addr(0x2000)));
    let second = [Move::Free { at: Addr(0x2000) }];
    compare_freed(rt, alloc, manual, segs, 1, 0x2007, &second)?;
    let first = [
        Move::Free { at: Addr(0x1000) },
        Move::Unseg { base: Addr(0x1000) },
    ];
    compare_freed(rt, alloc, manual, segs, 0, 0x101f, &first)
}

/// Fills the block over a byte with a word, and returns how many words it has; None if there is none.
fn fill_with(segs: &mut Segs, n: u64, word: u64) -> Option<usize> {
    let at = segs.block_at(n)?;
    let words = Manual::lend_mut(segs, at);
    words.fill(word);
    Some(words.len())
}

/// The words of the block over a byte; None if there is none.
fn words_of(segs: &Segs, n: u64) -> Option<&[u64]> {
    let at = segs.block_at(n)?;
    Some(Manual::lend(segs, at))
}

/// Of two neighbours the first is filled, and freed and made again.
fn fill_and_free(
    rt: &impl Abort,
    alloc: Global,
    manual: &Manual,
    segs: &mut Segs,
) -> Result<(), AllocError> {
    assert!(rt; make(alloc, manual, segs, 0, 3) == Ok(Addr(0x1000)));
    assert!(rt; make(alloc, manual, segs, 0, 2) == Ok(Addr(0x1018)));
    assert!(rt; fill_with(segs, 0x1017, 7) == Some(3));
    assert!(rt; words_of(segs, 0x1000) == Some(&[7, 7, 7]));
    assert!(rt; words_of(segs, 0x1018) == Some(&[0, 0]));
    let moves = [Move::Free { at: Addr(0x1000) }];
    compare_freed(rt, alloc, manual, segs, 0, 0x1000, &moves)?;
    assert!(rt; words_of(segs, 0x1000) == None);
    assert!(rt; make(alloc, manual, segs, 0, 3) == Ok(Addr(0x1000)));
    assert!(rt; words_of(segs, 0x1000) == Some(&[0, 0, 0]));
    Ok(())
}

#[test]
fn blocks_lie_in_the_lowest_gap(rt: HostRuntime) -> Result<(), AllocError> {
    let manual = two_pools(rt.alloc(), 500)?;
    let mut segs = Segs::new(rt.alloc(), 3, 2)?;
    compare_all(&rt, rt.alloc(), &manual, &mut segs);
    drop(segs);
    drop(manual);
    Ok(())
}

#[test]
fn an_empty_segment_is_given_back(rt: HostRuntime) -> Result<(), AllocError> {
    let manual = two_pools(rt.alloc(), 4)?;
    let mut segs = Segs::new(rt.alloc(), 2, 2)?;
    let freed = make_and_free(&rt, rt.alloc(), &manual, &mut segs);
    let committed = segs.committed();
    drop(segs);
    drop(manual);
    freed?;
    assert_eq!(rt; committed, 1);
    Ok(())
}

#[test]
fn a_loan_is_the_block_and_no_more(rt: HostRuntime) -> Result<(), AllocError> {
    let manual = two_pools(rt.alloc(), 4)?;
    let mut segs = Segs::new(rt.alloc(), 2, 2)?;
    let freed = fill_and_free(&rt, rt.alloc(), &manual, &mut segs);
    drop(segs);
    drop(manual);
    freed
}
