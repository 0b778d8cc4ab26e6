// Which words of areas keep a transform from being applied, and what it makes of slots, in 2,000 random steps beside plain lists.
ghost use Rattle.std.specs.Prelude.{◌≡◌, ◌<◌, true};
ghost use Rattle.mps_xform.specs.State.{is_live, no_transforms};

use crate::slots::slots_alike;
use mps_base::{Addr, Rank, Trail};
use mps_root::{Roots, Stored};
use mps_seg::Segs;
use mps_xform::{AddRefusal, Pair, Transforms};
use std::alloc::{AllocError, Global};

/// The blocks that there are, each of 33 words.
const BLOCKS: [u64; 2] = [0x1000, 0x2000];

const BLOCK_WORDS: u32 = 33;

const BLOCK_BYTES: u64 = 264;

/// How far a word lies from a block's address: at it, in its first and second word, in its last word, and after it.
const DISTANCES: [u64; 8] = [0, 1, 7, 8, 256, 263, 264, 2048];

// Makes a block in a segment of its own. Its address, None if there is no grain for it.
fn make_with(segs: &mut Segs, trail: &mut Trail) -> Option<Addr>
    requires { 0 < trail.old.spare }
{
    let Ok(at) = segs.take(trail, 0, BLOCK_WORDS, 0, Rank::Exact) else {
        return None;
    };
    segs.commit_block(at, BLOCK_WORDS);
    Some(at)
}

// Does the same with a trail of its own.
fn make_block(alloc: Global, segs: &mut Segs) -> Result<Option<Addr>, AllocError> {
    let mut trail = Trail::new(alloc, 1)?;
    let at = make_with(segs, &mut trail);
    drop(trail);
    Ok(at)
}

// Adds an area of which one word isn't 0.
fn add_area(roots: &mut Roots, size: u32, index: u32, word: u64) -> Result<(), AllocError>
    requires { index < size }
{
    let key = roots.area(size)?;
    roots.set_word(key, index as usize, Stored { word, holds: true });
    Ok(())
}

// Adds two areas, each with a word.
fn add_areas(roots: &mut Roots, words: [u64; 2]) -> Result<(), AllocError> {
    add_area(roots, 3, 1, words[0])?;
    add_area(roots, 1, 0, words[1])
}

// Whether one of two words, each in an area of its own, blocks a transform.
fn is_blocked_by(
    alloc: Global,
    transforms: &mut Transforms,
    transform: u32,
    segs: &Segs,
    words: [u64; 2],
) -> Result<bool, AllocError>
    ensures { transforms.new ≡ transforms.old }
{
    let mut roots = Roots::new(alloc);
    add_areas(&mut roots, words)?;
    let blocked = transforms.blocked(transform, segs, &roots);
    drop(roots);
    Ok(blocked)
}

// Whether a word lies in the old block of a pair, by the numbers.
fn plain_lies(pair: &Pair, word: u64) -> bool {
    let old = pair.old.0;
    if pair.inside {
        BLOCKS.contains(&old) && word >= old && word - old < BLOCK_BYTES
    } else {
        word == old
    }
}

// Whether one of two words lies in the old block of a pair of a transform. The words that are 0 lie in none.
fn plain_blocked(pairs: &[Pair], transform: u32, words: [u64; 2]) -> bool {
    pairs.iter().any(|pair| {
        pair.transform == transform && (plain_lies(pair, words[0]) || plain_lies(pair, words[1]))
    })
}

// Whether a pair is added as to the plain list.
fn added_alike(
    transforms: &mut Transforms,
    plain: &mut Vec<Pair>,
    pair: Pair,
) -> Result<bool, AllocError>
    requires { is_live transforms.old pair.transform ≡ true }
    ensures { is_live transforms.new pair.transform ≡ true }
{
    let twice = plain.iter().any(|other| other.transform == pair.transform
        && other.old == pair.old);
    if !twice {
        plain.push(pair)?;
    }
    let refusal = transforms.add(pair).err();
    Ok(refusal == twice.then_some(AddRefusal::OldTwice))
}

// An address in one of three grains, the last of which has no block.
fn address(grain: u8, distance: u8) -> u64 {
    4096 * (1 + u64::from(grain % 3)) + DISTANCES[distance as usize % 8]
}

// Whether a step has the same answer in the plain list.
fn agree(
    alloc: Global,
    transforms: &mut Transforms,
    transform: u32,
    segs: &Segs,
    plain: &mut Vec<Pair>,
    bytes: [u8; 8],
) -> Result<bool, AllocError>
    requires { is_live transforms.old transform ≡ true }
    ensures { is_live transforms.new transform ≡ true }
{
    let [choice, grain, distance, inside, _, _, _, _] = bytes;
    if choice < 48 {
        plain.clear();
        transforms.empty_all();
    }
    let pair = Pair {
        transform,
        old: Addr(address(grain, distance)),
        new: Addr(address(distance, inside)),
        inside: inside < 128,
    };
    if !added_alike(transforms, plain, pair)? {
        return Ok(false);
    }
    let words = [address(bytes[4], bytes[5]), address(bytes[6], bytes[7])];
    let blocked = is_blocked_by(alloc, transforms, transform, segs, words)?;
    if blocked != plain_blocked(plain, transform, words) {
        return Ok(false);
    }
    slots_alike(alloc, transforms, transform, plain, words)
}

// Makes a transform with a pair that is never asked for, and another for 2,000 steps. Whether each has the same answer in the plain list.
fn all_agree(
    alloc: Global,
    transforms: &mut Transforms,
    segs: &Segs,
    plain: &mut Vec<Pair>,
) -> Result<bool, AllocError>
    requires { transforms.old ≡ no_transforms }
{
    let other = Pair {
        transform: transforms.make(),
        old: Addr(0x1000),
        new: Addr(0x3000),
        inside: true,
    };
    if !added_alike(transforms, plain, other)? || !transforms.has_room() {
        return Ok(false);
    }
    let transform = transforms.make();
    let mut seed = 1u64;
    for _ in 0..2_000 {
        seed = seed
            .wrapping_mul(6364136223846793005)
            .wrapping_add(1442695040888963407);
        let bytes = (seed ^ (seed >> 32)).to_be_bytes();
        if !agree(alloc, transforms, transform, segs, plain, bytes)? {
            return Ok(false);
        }
    }
    Ok(true)
}

// Makes the blocks and takes the steps.
fn stay_alike(
    alloc: Global,
    transforms: &mut Transforms,
    segs: &mut Segs,
) -> Result<bool, AllocError>
    requires { transforms.old ≡ no_transforms }
{
    let first = make_block(alloc, segs)?;
    let second = make_block(alloc, segs)?;
    if first != Some(Addr(BLOCKS[0])) || second != Some(Addr(BLOCKS[1])) {
        return Ok(false);
    }
    let mut plain = Vec::new(alloc);
    let alike = all_agree(alloc, transforms, segs, &mut plain);
    drop(plain);
    alike
}

#[test]
fn is_blocked_as_by_plain_lists(rt: HostRuntime) -> Result<(), AllocError> {
    let mut transforms = Transforms::new(rt.alloc())?;
    let mut segs = Segs::new(rt.alloc(), 3, 3)?;
    let alike = stay_alike(rt.alloc(), &mut transforms, &mut segs);
    drop(segs);
    drop(transforms);
    assert!(rt; alike == Ok(true));
    Ok(())
}
