// A transform is applied to the references of a block, in 2,000 random steps beside plain lists.
ghost use Rattle.std.specs.Prelude.{◌≡◌, ◌<◌, ◌%◌, ℕ, true, IfOk};
ghost use Rattle.std.specs.List.{All};
ghost use Rattle.mps_base.specs.Address.{bytes_of_word};
ghost use Rattle.mps_format.specs.Front.{front_layout};
ghost use Rattle.mps_seg.specs.Segs.{new_segments};
ghost use Rattle.mps_xform.specs.Applying.{CanApply};
ghost use Rattle.mps_xform.specs.State.{is_live, no_transforms};
ghost use Rattle.mps_transform_tests.specs.Full.{AreFull};

use mps_base::{Addr, Rank, Refusal, Trail, ZoneSet};
use mps_format::Front;
use mps_seg::Segs;
use mps_xform::{AddRefusal, Pair, Transforms};
use std::alloc::{AllocError, Global};

/// The head of a block of the format `front` with 33 words, of which the 16 after the head are references.
const HEAD: u64 = 0x10_0000_2101;

/// The first word of the block, and those of its first reference and of its first number.
const BLOCK: usize = 512;

const REFERENCES: usize = 513;

const NUMBERS: usize = 529;

// Makes a block of 33 words in a segment of pool 0, whose summary has all zones.
fn make_block(segs: &mut Segs, trail: &mut Trail) -> Result<(), Refusal>
    requires unused { segs.old ≡ new_segments 2 2 }
    requires fits { 0 < trail.old.spare }
    ensures can { IfOk result (λ _. (pool : ℕ) → CanApply front_layout segs.new pool) }
    ensures full { IfOk result (λ _. AreFull segs.new) }
{
    let at = segs.take(trail, 0, 33, 0, Rank::Exact)?;
    segs.set_summary(at, ZoneSet(u64::MAX));
    segs.commit_block(at, 33);
    segs.set_word(at, HEAD);
    Ok(())
}

// Writes a word of a block that isn't its head. Whether there is one.
fn write(segs: &mut Segs, at: Addr, word: u64) -> bool
    requires can { (pool : ℕ) → CanApply front_layout segs.old pool }
    requires full { AreFull segs.old }
    ensures can { (pool : ℕ) → CanApply front_layout segs.new pool }
    ensures full { AreFull segs.new }
{
    let Some(block) = segs.block_at(at.0) else {
        return false;
    };
    if block.word() == at.word() || segs.item(at.word()).is_none() {
        return false;
    }
    segs.set_word(at, word);
    true
}

// The pairs of two transforms, and the references and the numbers of the block.
#[derive(Drop)]
struct Plain {
    pairs: Vec<Pair>,
    references: Vec<u64>,
    numbers: Vec<u64>,
}

// The plain lists of a block whose words are 0 but for its head.
fn plain_lists(alloc: Global) -> Result<Plain, AllocError> {
    Ok(Plain {
        pairs: Vec::new(alloc),
        references: vec![in alloc; 0u64; 16usize]?,
        numbers: vec![in alloc; 0u64; 16usize]?,
    })
}

// A reference after a transform: it leads to the new address of the first pair with the address to which it led.
fn plain_reference(pairs: &[Pair], transform: u32, word: u64) -> u64 {
    let tag = word % 8;
    for pair in pairs {
        if pair.transform == transform && pair.old.0 == word - tag {
            return pair.new.0 | tag;
        }
    }
    word
}

// Applies a transform to the references of a plain list.
fn plain_apply(plain: &mut Plain, transform: u32) {
    let pairs = &plain.pairs;
    for reference in plain.references.iter_mut() {
        *reference = plain_reference(pairs, transform, *reference);
    }
}

// Whether the words from a number on are those of a list.
fn has_words(segs: &Segs, from: usize, words: &[u64]) -> bool {
    let mut at = from;
    for word in words {
        if segs.item(at) != Some(*word) {
            return false;
        }
        at = at.saturating_add(1);
    }
    true
}

// Whether the block has the words of the plain lists.
fn are_alike(segs: &Segs, plain: &Plain) -> bool {
    segs.item(BLOCK) == Some(HEAD)
        && has_words(segs, REFERENCES, &plain.references)
        && has_words(segs, NUMBERS, &plain.numbers)
}

// Whether a word is written in the block as in the plain lists.
fn written_alike(segs: &mut Segs, plain: &mut Plain, cell: u8, word: u64) -> bool
    requires can { (pool : ℕ) → CanApply front_layout segs.old pool }
    requires full { AreFull segs.old }
    ensures can { (pool : ℕ) → CanApply front_layout segs.new pool }
    ensures full { AreFull segs.new }
{
    let index = cell as usize % 32;
    if index < 16 && index < plain.references.len() {
        plain.references[index] = word;
    } else if index >= 16 && index - 16 < plain.numbers.len() {
        plain.numbers[index - 16] = word;
    }
    write(segs, Addr(8 * (REFERENCES + index) as u64), word)
}

// Whether a pair from and to multiples of 8 is added as to the plain list.
fn added_alike(
    transforms: &mut Transforms,
    transform: u32,
    plain: &mut Plain,
    old: u8,
    new: u8,
) -> Result<bool, AllocError>
    requires live { is_live transforms.old transform ≡ true }
    requires aligned { All (λ p. p.new.0 % bytes_of_word ≡ 0) transforms.old.pairs }
    ensures live { is_live transforms.new transform ≡ true }
    ensures aligned { All (λ p. p.new.0 % bytes_of_word ≡ 0) transforms.new.pairs }
{
    let pair = Pair {
        transform,
        old: Addr(8 * u64::from(old)),
        new: Addr(8 * u64::from(new)),
        inside: false,
    };
    let twice = plain.pairs.iter().any(|other| other.transform == transform
        && other.old == pair.old);
    if !twice {
        plain.pairs.push(pair)?;
    }
    let refusal = transforms.add(pair).err();
    Ok(refusal == twice.then_some(AddRefusal::OldTwice))
}

// Applies a transform to a pool.
fn apply_to(transforms: &mut Transforms, transform: u32, segs: &mut Segs, pool: u32)
    requires aligned { All (λ p. p.new.0 % bytes_of_word ≡ 0) transforms.old.pairs }
    requires can { (pool : ℕ) → CanApply front_layout segs.old pool }
    requires full { AreFull segs.old }
    ensures unchanged { transforms.new ≡ transforms.old }
    ensures can { (pool : ℕ) → CanApply front_layout segs.new pool }
    ensures full { AreFull segs.new }
{
    transforms.apply(transform, &Front, segs, pool);
}

// Whether a step has the same result in the plain lists.
fn agree(
    transforms: &mut Transforms,
    transform: u32,
    segs: &mut Segs,
    plain: &mut Plain,
    bytes: [u8; 4],
) -> Result<bool, AllocError>
    requires live { is_live transforms.old transform ≡ true }
    requires aligned { All (λ p. p.new.0 % bytes_of_word ≡ 0) transforms.old.pairs }
    requires can { (pool : ℕ) → CanApply front_layout segs.old pool }
    requires full { AreFull segs.old }
    ensures live { is_live transforms.new transform ≡ true }
    ensures aligned { All (λ p. p.new.0 % bytes_of_word ≡ 0) transforms.new.pairs }
    ensures can { (pool : ℕ) → CanApply front_layout segs.new pool }
    ensures full { AreFull segs.new }
{
    let [choice, cell, old, new] = bytes;
    match choice {
        0 | 1 => {
            plain.pairs.clear();
            transforms.empty_all();
        }
        2..=19 => apply_to(transforms, transform, segs, 1),
        20..=49 => {
            plain_apply(plain, transform);
            apply_to(transforms, transform, segs, 0);
        }
        50..=149 => {
            if !written_alike(segs, plain, cell, u64::from(old)) {
                return Ok(false);
            }
        }
        _ => {
            if !added_alike(transforms, transform, plain, old % 32, new % 32)? {
                return Ok(false);
            }
        }
    }
    Ok(are_alike(segs, plain))
}

// Makes a transform, takes 50 steps with it and drops it. Whether each has the same result in the plain lists.
fn agree_in_turn(
    transforms: &mut Transforms,
    segs: &mut Segs,
    plain: &mut Plain,
    seed: &mut u64,
) -> Result<bool, AllocError>
    requires aligned { All (λ p. p.new.0 % bytes_of_word ≡ 0) transforms.old.pairs }
    requires can { (pool : ℕ) → CanApply front_layout segs.old pool }
    requires full { AreFull segs.old }
    ensures aligned { All (λ p. p.new.0 % bytes_of_word ≡ 0) transforms.new.pairs }
    ensures can { (pool : ℕ) → CanApply front_layout segs.new pool }
    ensures full { AreFull segs.new }
{
    if !transforms.has_room() {
        return Ok(false);
    }
    let transform = transforms.make();
    for _ in 0..50 {
        *seed = seed
            .wrapping_mul(6364136223846793005)
            .wrapping_add(1442695040888963407);
        let [choice, cell, old, new, _, _, _, _] = seed.to_be_bytes();
        if !agree(transforms, transform, segs, plain, [choice, cell, old, new])? {
            return Ok(false);
        }
    }
    plain.pairs.retain(|pair| pair.transform != transform);
    transforms.drop_transform(transform);
    Ok(true)
}

// Makes a transform with a pair that is never applied, and takes 2,000 steps with 40 others in turn. Whether all have the same results.
fn all_agree(
    transforms: &mut Transforms,
    segs: &mut Segs,
    plain: &mut Plain,
) -> Result<bool, AllocError>
    requires none { transforms.old ≡ no_transforms }
    requires can { (pool : ℕ) → CanApply front_layout segs.old pool }
    requires full { AreFull segs.old }
{
    let other = transforms.make();
    let mut seed = 1u64;
    if !added_alike(transforms, other, plain, 1, 2)? {
        return Ok(false);
    }
    for _ in 0..40 {
        if !agree_in_turn(transforms, segs, plain, &mut seed)? {
            return Ok(false);
        }
    }
    Ok(true)
}

// Makes the block and takes the steps.
fn stay_with(
    transforms: &mut Transforms,
    segs: &mut Segs,
    trail: &mut Trail,
    plain: &mut Plain,
) -> Result<bool, AllocError>
    requires none { transforms.old ≡ no_transforms }
    requires unused { segs.old ≡ new_segments 2 2 }
    requires fits { 0 < trail.old.spare }
{
    match make_block(segs, trail) {
        Ok(()) => all_agree(transforms, segs, plain),
        Err(_) => Ok(false),
    }
}

// Does the same with a trail and plain lists of its own.
fn stay_alike(
    alloc: Global,
    transforms: &mut Transforms,
    segs: &mut Segs,
) -> Result<bool, AllocError>
    requires none { transforms.old ≡ no_transforms }
    requires unused { segs.old ≡ new_segments 2 2 }
{
    let mut plain = plain_lists(alloc)?;
    let mut trail = Trail::new(alloc, 1)?;
    let alike = stay_with(transforms, segs, &mut trail, &mut plain);
    drop(trail);
    drop(plain);
    alike
}

#[test]
fn stays_beside_plain_lists(rt: HostRuntime) -> Result<(), AllocError> {
    let mut transforms = Transforms::new(rt.alloc())?;
    let mut segs = Segs::new(rt.alloc(), 2, 2)?;
    let alike = stay_alike(rt.alloc(), &mut transforms, &mut segs);
    drop(segs);
    drop(transforms);
    assert!(rt; alike == Ok(true));
    Ok(())
}
