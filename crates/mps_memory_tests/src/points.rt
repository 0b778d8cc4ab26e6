// Blocks that are reserved and committed at one point, one after the other; and a reservation that is given up.
ghost use Rattle.std.specs.Prelude.{◌^◌, ◌<◌, ◌≤◌};
ghost use Rattle.mps_base.specs.Address.{max_block_words};
ghost use Rattle.mps_buffer.specs.Tokens.{IsReady, NoneIsOpen};

use mps_base::{Addr, Rank, Refusal, Trail};
use mps_buffer::{OpenPoints, Points};
use mps_format::{Format, Front};
use mps_seg::Segs;
use std::alloc::{AllocError, Global};
use std::process::Abort;

/// A block that is asked for, and the answer.
struct Case {
    words: u32,
    answer: Result<Addr, Refusal>,
}

/// What is asked of an arena of three grains with a limit of two, at a point of a pool that moves blocks. The rest of a segment that
/// was free in the buffer is lost if a new one is taken, and stays there after a refusal.
const CASES: [Case; 5] = [
    Case {
        words: 4,
        answer: Ok(Addr(0x1000)),
    },
    Case {
        words: 507,
        answer: Ok(Addr(0x1020)),
    },
    Case {
        words: 2,
        answer: Ok(Addr(0x2000)),
    },
    Case {
        words: 511,
        answer: Err(Refusal::CommitLimit {
            committed: 2,
            need: 1,
            limit: 2,
        }),
    },
    Case {
        words: 510,
        answer: Ok(Addr(0x2010)),
    },
];

/// Reserves and commits a block at a point.
fn make_with(
    points: &mut OpenPoints,
    segs: &mut Segs,
    trail: &mut Trail,
    key: u32,
    words: u32,
) -> Result<Addr, Refusal>
    requires nonzero { 0 < words }
    requires at_most { words ≤ max_block_words }
    requires fits { 1 < trail.old.spare }
    requires ready { IsReady points.old segs.old key }
    ensures ready { IsReady points.new segs.new key }
{
    points.reserve(segs, trail, key, 7, words)?;
    let committed = points.commit(segs, trail, key);
    committed.map_err(|_| Refusal::NotOpen)
}

/// Does the same with a trail of its own.
fn make(
    alloc: Global,
    points: &mut OpenPoints,
    segs: &mut Segs,
    key: u32,
    words: u32,
) -> Result<Addr, Refusal>
    requires { IsReady points.old segs.old key }
    ensures { IsReady points.new segs.new key }
{
    if words == 0 || words > 65_536 {
        return Err(Refusal::BadSize);
    }
    let mut trail = Trail::new(alloc, 2).map_err(|_| Refusal::OutOfMemory)?;
    let made = make_with(points, segs, &mut trail, key, words);
    drop(trail);
    made
}

fn compare(
    rt: &impl Abort,
    alloc: Global,
    points: &mut OpenPoints,
    segs: &mut Segs,
    key: u32,
    case: &Case,
)
    requires { IsReady points.old segs.old key }
    ensures { IsReady points.new segs.new key }
{
    let answer = make(alloc, points, segs, key, case.words);
    assert!(rt; answer == case.answer, "{} words", case.words);
}

fn compare_all(rt: &impl Abort, alloc: Global, points: &mut OpenPoints, segs: &mut Segs, key: u32)
    requires { IsReady points.old segs.old key }
    ensures { IsReady points.new segs.new key }
{
    for case in &CASES {
        compare(rt, alloc, points, segs, key, case);
    }
}

/// A point is made after a flip, the blocks are made at it, and it is dropped.
fn make_all(rt: &impl Abort, alloc: Global, points: &mut OpenPoints, segs: &mut Segs)
    requires none_open { NoneIsOpen points.old.points }
    requires fits { points.old.flips < 2 ^ 63 }
    ensures none_open { NoneIsOpen points.new.points }
{
    points.flip(segs);
    assert!(rt; points.flips() == 1);
    let Ok(key) = points.add(0, Rank::Exact, true) else {
        return;
    };
    compare_all(rt, alloc, points, segs, key);
    assert!(rt; points.get(key).is_some() && points.get(256).is_none());
    points.drop_point(key);
    assert!(rt; points.get(key).is_none());
}

/// Does so with points of its own.
fn make_and_finish(rt: &impl Abort, alloc: Global, segs: &mut Segs) -> Result<(), AllocError> {
    let mut points = OpenPoints::new(alloc)?;
    make_all(rt, alloc, &mut points, segs);
    points.finish(segs);
    Ok(())
}

#[test]
fn blocks_lie_one_after_the_other(rt: HostRuntime) -> Result<(), AllocError> {
    let mut segs = Segs::new(rt.alloc(), 3, 2)?;
    let made = make_and_finish(&rt, rt.alloc(), &mut segs);
    let words = segs.live_words();
    drop(segs);
    made?;
    assert_eq!(rt; words, 1023);
    Ok(())
}

/// A head of the format `front`: three words without a reference.
const HEAD: u64 = 0x301;

/// Makes a point of a pool that doesn't move blocks, reserves a block at it by its head, and gives it up. Whether a block of a grain
/// fits before, meanwhile and after.
fn give_up(points: &mut Points, segs: &mut Segs, trail: &mut Trail) -> Result<[bool; 3], Refusal>
    requires { 0 < trail.old.spare }
{
    let key = points.add(4, Rank::Weak, false)?;
    let before = points.fits(segs, key, 512);
    if !Front.accepts(HEAD) {
        return Err(Refusal::BadHead);
    }
    let token = points.reserve(segs, trail, key, &Front, HEAD)?;
    let meanwhile = points.fits(segs, key, 512);
    points.abandon(segs, token);
    Ok([before, meanwhile, points.fits(segs, key, 512)])
}

#[test]
fn words_are_free_once_given_up(rt: HostRuntime) -> Result<(), AllocError> {
    let mut points = Points::new(rt.alloc())?;
    let mut trail = Trail::new(rt.alloc(), 1)?;
    let mut segs = Segs::new(rt.alloc(), 3, 2)?;
    let fits = give_up(&mut points, &mut segs, &mut trail);
    drop(segs);
    drop(trail);
    drop(points);
    assert!(rt; fits == Ok([false, false, true]));
    Ok(())
}
