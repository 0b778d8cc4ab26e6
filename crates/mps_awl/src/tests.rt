// A weak block whose references become null, kept and then freed.
ghost use Rattle.std.specs.Prelude.{◌≡◌, ◌+◌, ◌%◌, ◌<◌, ◌≤◌};

use crate::Awl;
use mps_base::{Addr, Move, Rank, Trail};
use mps_seg::Segs;
use std::alloc::{AllocError, Global};
use std::process::Abort;

/// A head, a reference with tag 3, a null reference, and a reference with tag 5.
const BEFORE: [u64; 4] = [0x401, 0x200b, 0, 0x3005];

/// The same with null references.
const AFTER: [u64; 4] = [0x401, 3, 0, 5];

/// Makes a weak block of these words, and returns where it begins; None if there is no room.
fn make_with(segs: &mut Segs, trail: &mut Trail, words: &[u64; 4]) -> Option<Addr>
    requires { 0 < trail.old.spare }
{
    let at = segs.place(trail, 0, Rank::Weak, 4).ok()?;
    segs.commit_block(at, 4);
    let _ = segs.grains(); // its words are those of the arena
    for i in 0..4u64 {
        let place = Addr(at.0.wrapping_add(8 * i));
        if segs.item(place.word()).is_some() {
            segs.set_word(place, words[i as usize]);
        }
    }
    Some(at)
}

/// Splats a cell of the block at `holder`; false if the arena has no such word.
fn splat_with(segs: &mut Segs, trail: &mut Trail, holder: Addr, cell: u32) -> bool
    requires { 0 < trail.old.spare }
{
    if holder.0 % 8 != 0 || segs.item(holder.word() + cell as usize).is_none() {
        return false;
    }
    Awl.splat(segs, trail, holder, cell);
    true
}

/// Does the same with a trail of its own, and says whether its move is the Splat of that cell.
fn splats(alloc: Global, segs: &mut Segs, holder: Addr, cell: u32) -> Result<bool, AllocError> {
    let mut trail = Trail::new(alloc, 1)?;
    let done = splat_with(segs, &mut trail, holder, cell);
    Ok(done && trail.moves() == [Move::Splat { holder, cell }].as_slice())
}

/// Whether these are the words from an address on.
fn has_words(segs: &Segs, at: Addr, words: &[u64; 4]) -> bool {
    for i in 0..4usize {
        if segs.item(at.word() + i) != Some(words[i]) {
            return false;
        }
    }
    true
}

/// Keeps the block at an address; false if the arena has no such word.
fn keep(segs: &mut Segs, at: Addr) -> bool {
    if !segs.has_word(at) {
        return false;
    }
    Awl.fix(segs, at);
    true
}

/// Reclaims the segment at `base` with room for the moves of all blocks, and returns the moves; None if no segment begins there.
fn reclaim(alloc: Global, segs: &mut Segs, base: Addr) -> Result<Option<Trail>, AllocError> {
    let blocks = segs.live_blocks();
    if blocks >= 100_000 {
        return Ok(None);
    }
    let mut trail = Trail::new(alloc, blocks as u32 + 1)?;
    let Some(found) = segs.segment_of(base) else {
        return Ok(None);
    };
    if found.0 != base.0 {
        return Ok(None);
    }
    segs.blocks_are_in_order();
    Awl.reclaim_seg(segs, &mut trail, base);
    Ok(Some(trail))
}

/// Whether a reclaim makes these moves.
fn reclaims(alloc: Global, segs: &mut Segs, moves: &[Move]) -> Result<bool, AllocError> {
    match reclaim(alloc, segs, Addr(0x1000))? {
        Some(trail) => Ok(trail.moves() == moves),
        None => Ok(false),
    }
}

fn make(rt: &impl Abort, alloc: Global, segs: &mut Segs) -> Result<(), AllocError> {
    let mut trail = Trail::new(alloc, 1)?;
    assert!(rt; make_with(segs, &mut trail, &BEFORE) == Some(Addr(0x1000)));
    Ok(())
}

fn splat_and_reclaim(rt: &impl Abort, alloc: Global, segs: &mut Segs) -> Result<(), AllocError> {
    make(rt, alloc, segs)?;
    assert!(rt; has_words(segs, Addr(0x1000), &BEFORE));
    assert!(rt; splats(alloc, segs, Addr(0x1000), 1)?);
    assert!(rt; splats(alloc, segs, Addr(0x1000), 3)?);
    assert!(rt; has_words(segs, Addr(0x1000), &AFTER));
    assert!(rt; keep(segs, Addr(0x1000)));
    assert!(rt; reclaims(alloc, segs, &[])?);
    assert!(rt; has_words(segs, Addr(0x1000), &AFTER));
    segs.end_collection();
    let freed = [
        Move::Free { at: Addr(0x1000) },
        Move::Unseg { base: Addr(0x1000) },
    ];
    assert!(rt; reclaims(alloc, segs, &freed)?);
    Ok(())
}

#[test]
fn a_weak_reference_becomes_null(rt: HostRuntime) -> Result<(), AllocError> {
    let mut segs = Segs::new(rt.alloc(), 2, 2)?;
    splat_and_reclaim(&rt, rt.alloc(), &mut segs)
}
