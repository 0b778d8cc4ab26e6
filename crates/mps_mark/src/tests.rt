// Sweeps of pseudo-random blocks, some of which are kept, beside a plain list of them.
ghost use Rattle.std.specs.Prelude.{◌≡◌, ◌+◌, ◌<◌, ◌≤◌, length};
ghost use Rattle.mps_base.specs.Address.{max_block_words};

use crate::Mark;
use mps_base::{Addr, Move, Rank, Trail};
use mps_seg::Segs;
use std::alloc::{AllocError, Global};
use std::process::Abort;

/// A block that was made: where it begins, and whether it is kept.
#[derive(Clone, Copy)]
struct Made {
    at: Addr,
    is_kept: bool,
}

/// The next of a row of pseudo-random numbers.
fn next_number(n: u64) -> u64 {
    n.wrapping_mul(6_364_136_223_846_793_005)
        .wrapping_add(1_442_695_040_888_963_407)
}

/// Makes a block of `words` words in the lowest gap, and returns where it begins; None if there is no room.
fn make_with(segs: &mut Segs, trail: &mut Trail, words: u32) -> Option<Addr>
    requires nonzero { 0 < words }
    requires at_most { words ≤ max_block_words }
    requires fits { 0 < trail.old.spare }
{
    let at = segs.place(trail, 0, Rank::Exact, words).ok()?;
    segs.commit_block(at, words);
    Some(at)
}

/// Makes a block of 2 to 17 words, which one number in two keeps.
fn make(alloc: Global, segs: &mut Segs, number: u64) -> Result<Option<Made>, AllocError> {
    let mut trail = Trail::new(alloc, 1)?;
    let words = 2 + (number >> 40) as u32 % 16;
    let Some(at) = make_with(segs, &mut trail, words) else {
        return Ok(None);
    };
    let is_kept = number >> 60 & 1 == 1;
    if is_kept && segs.has_word(at) {
        Mark.fix(segs, at);
    }
    Ok(Some(Made { at, is_kept }))
}

/// Sweeps the segment at `base` with room for the moves of all blocks, and returns the moves; None if no segment begins there.
fn sweep(alloc: Global, segs: &mut Segs, base: Addr) -> Result<Option<Trail>, AllocError> {
    let blocks = segs.live_blocks();
    if blocks >= 100_000 {
        return Ok(None);
    }
    let mut trail = Trail::new(alloc, blocks as u32 + 1)?;
    let Some(found) = segs.segment_of(base) else {
        return Ok(None);
    };
    if found.0 != base.0 {
        return Ok(None);
    }
    segs.blocks_are_in_order();
    Mark.reclaim_seg(segs, &mut trail, base);
    Ok(Some(trail))
}

/// What the plain list says of the segment of one grain at `base`: a Free for each of its blocks that isn't kept, in ascending order,
/// and an Unseg if none is kept.
fn plain_moves(alloc: Global, made: &[Made], base: Addr) -> Result<Vec<Move>, AllocError> {
    let mut moves = Vec::new(alloc);
    let mut is_any_kept = false;
    for word in 0..512u64 {
        let at = Addr(base.0.wrapping_add(8 * word));
        if let Some(block) = made.iter().find(|block| block.at == at) {
            if block.is_kept {
                is_any_kept = true;
            } else {
                moves.push(Move::Free { at })?;
            }
        }
    }
    if !is_any_kept {
        moves.push(Move::Unseg { base })?;
    }
    Ok(moves)
}

/// Sweeps the four grains, and says whether the moves are those of the plain list and the kept blocks are left.
fn sweeps_agree(alloc: Global, segs: &mut Segs, made: &[Made]) -> Result<bool, AllocError> {
    for grain in 1..5u64 {
        let base = Addr(0x1000 * grain);
        let Some(trail) = sweep(alloc, segs, base)? else {
            continue;
        };
        if trail.moves() != plain_moves(alloc, made, base)?.as_slice() {
            return Ok(false);
        }
    }
    Ok(segs.live_blocks() == made.iter().filter(|block| block.is_kept).count())
}

/// Whether a sweep of blocks that a seed gives does what the plain list says.
fn agrees(alloc: Global, seed: u64) -> Result<bool, AllocError> {
    let mut segs = Segs::new(alloc, 4, 4)?;
    let mut made = Vec::new(alloc);
    let mut number = seed;
    for _ in 0..200 {
        number = next_number(number);
        if let Some(block) = make(alloc, &mut segs, number)? {
            made.push(block)?;
        }
    }
    sweeps_agree(alloc, &mut segs, &made)
}

#[test]
fn a_sweep_frees_what_is_not_kept(rt: HostRuntime) -> Result<(), AllocError> {
    for seed in 0..40u64 {
        let same = agrees(rt.alloc(), seed)?;
        assert!(rt; same, "seed {seed}");
    }
    Ok(())
}
