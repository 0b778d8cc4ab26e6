// Calls that tests make: each looks for itself whether a call may be made, and does nothing else.
ghost use Rattle.std.specs.Prelude.{◌<◌, ◌≤◌, ◌≡◌};
ghost use Rattle.mps_base.specs.Address.{max_block_words};

use mps_base::{Addr, Rank, Refusal, Trail, ZoneSet};
use mps_seg::Segs;
use std::alloc::Global;

/// Makes a block in the lowest gap of a pool, or else at the base of a new segment.
fn fill_with(segs: &mut Segs, trail: &mut Trail, pool: u32, words: u32) -> Result<Addr, Refusal>
    requires nonzero { 0 < words }
    requires at_most { words ≤ max_block_words }
    requires fits { 0 < trail.old.spare }
{
    let at = segs.place(trail, pool, Rank::Exact, words)?;
    segs.commit_block(at, words);
    Ok(at)
}

/// Makes a block as `fill_with` does, and refuses a number of words that no block has.
pub(super) fn fill(alloc: Global, segs: &mut Segs, pool: u32, words: u32) -> Result<Addr, Refusal> {
    if words == 0 || words > 65536 {
        return Err(Refusal::BadSize);
    }
    let mut trail = Trail::new(alloc, 1).map_err(|_| Refusal::OutOfMemory)?;
    let made = fill_with(segs, &mut trail, pool, words);
    drop(trail);
    made
}

/// The lowest gap of a pool and a rank for a block; None too if no block has this number of words.
pub(super) fn gap(segs: &Segs, pool: u32, rank: Rank, words: u32) -> Option<Addr> {
    if words == 0 {
        return None;
    }
    segs.lowest_gap(pool, rank, words)
}

/// Frees the block over a byte, and returns where it began.
pub(super) fn free_over(segs: &mut Segs, n: u64) -> Option<Addr> {
    let at = segs.block_at(n)?;
    let words = segs.block_words(at);
    segs.drop_block(at, words);
    Some(at)
}

/// Moves the block over a byte to the lowest gap of pool 0 that fits, and returns where it then lies.
pub(super) fn move_over(segs: &mut Segs, n: u64) -> Option<Addr> {
    let at = segs.block_at(n)?;
    let words = segs.block_words(at);
    if words == 0 {
        return None;
    }
    let to = segs.lowest_gap(0, Rank::Exact, words)?;
    segs.blocks_are_covered();
    segs.move_block(at, to, words);
    Some(to)
}

/// Gives back the segment at a base.
fn give_with(segs: &mut Segs, trail: &mut Trail, at: Addr) -> bool
    requires { 0 < trail.old.spare }
{
    let Some(base) = segs.segment_of(at) else {
        return false;
    };
    if !segs.is_empty(base) {
        return false;
    }
    segs.give(trail, base);
    true
}

/// Gives back the segment over an address if there is one and it is empty, and returns whether it did.
pub(super) fn give_over(alloc: Global, segs: &mut Segs, at: Addr) -> bool {
    let Ok(mut trail) = Trail::new(alloc, 1) else {
        return false;
    };
    let given = give_with(segs, &mut trail, at);
    drop(trail);
    given
}

/// The lowest block of the segment over an address that begins at that address or above.
pub(super) fn walk_over(segs: &Segs, at: Addr) -> Option<Addr> {
    let base = segs.segment_of(at)?;
    segs.walk(base, at)
}

/// Reserves `words` words in a new segment, ends the reservation, and makes a block of them.
fn reserve_with(segs: &mut Segs, trail: &mut Trail, words: u32) -> Result<Addr, Refusal>
    requires nonzero { 0 < words }
    requires at_most { words ≤ max_block_words }
    requires fits { 0 < trail.old.spare }
{
    let at = segs.take(trail, 3, words, 0, Rank::Weak)?;
    segs.cover(at, words);
    segs.uncover(at, words);
    segs.cover(at, words);
    segs.commit(at, words);
    Ok(at)
}

/// Makes a block of 600 words by way of a reservation.
pub(super) fn reserve_and_commit(alloc: Global, segs: &mut Segs) -> Result<Addr, Refusal> {
    let mut trail = Trail::new(alloc, 1).map_err(|_| Refusal::OutOfMemory)?;
    let made = reserve_with(segs, &mut trail, 600);
    drop(trail);
    made
}

/// Condemns the segment over an address, and returns whether there is one.
pub(super) fn condemn_over(segs: &mut Segs, at: Addr) -> bool {
    let Some(base) = segs.segment_of(at) else {
        return false;
    };
    segs.condemn(base);
    true
}

/// Makes all blocks of the segment over an address grey, and returns whether there is one.
pub(super) fn grey_all_over(segs: &mut Segs, at: Addr) -> bool {
    let Some(base) = segs.segment_of(at) else {
        return false;
    };
    segs.grey_segment(base);
    true
}

/// The lowest grey block of the segment over an address.
pub(super) fn grey_over(segs: &Segs, at: Addr) -> Option<Addr> {
    let base = segs.segment_of(at)?;
    segs.grey_in(base)
}

/// How many grains the segment over an address has, 0 if there is none.
pub(super) fn grains_over(segs: &Segs, at: Addr) -> u32 {
    match segs.segment_of(at) {
        Some(base) => segs.segment(base).grains,
        None => 0,
    }
}

/// The collection keeps the block at an address; false if the arena has no such word.
pub(super) fn keep_at(segs: &mut Segs, at: Addr) -> bool {
    if !segs.has_word(at) {
        return false;
    }
    segs.keep(at);
    true
}

/// Makes the block at an address grey; false if the arena has no such word.
pub(super) fn grey_at(segs: &mut Segs, at: Addr) -> bool {
    if !segs.has_word(at) {
        return false;
    }
    segs.set_grey(at);
    true
}

/// Blackens the block at an address; false if the arena has no such word.
pub(super) fn blacken_at(segs: &mut Segs, at: Addr) -> bool {
    if !segs.has_word(at) {
        return false;
    }
    segs.blacken(at);
    true
}

/// Whether the block at an address is white, kept and grey.
pub(super) fn marks_at(segs: &Segs, at: Addr) -> [bool; 3] {
    if !segs.has_word(at) {
        return [false; 3];
    }
    [segs.is_white(at), segs.is_kept(at), segs.is_grey(at)]
}

/// Whether the words of the block of four words at an address are these, read one by one and all together; false if there is no
/// such block.
pub(super) fn has_words(segs: &Segs, at: Addr, words: &[u64; 4]) -> bool {
    let Some(block) = segs.block_at(at.0) else {
        return false;
    };
    if block.0 != at.0 || segs.block_words(block) != 4 {
        return false;
    }
    segs.lend(block, 4) == words.as_slice() && begins_with(segs, at, words)
}

/// Whether the words from an address in a segment on begin with these; false if there is no segment.
fn begins_with(segs: &Segs, at: Addr, words: &[u64; 4]) -> bool {
    let Some(_) = segs.segment_of(at) else {
        return false;
    };
    let found = segs.words_from(at);
    found.len() >= 4 && found[..4] == words[..]
}

/// Writes a word in each of the two that are borrowed from an address on; false if the arena has no such words.
pub(super) fn write_two(segs: &mut Segs, at: Addr, word: u64) -> bool {
    if at.0 % 8 != 0 || segs.item(at.word() + 1).is_none() {
        return false;
    }
    segs.lend_mut(at, 2).fill(word);
    true
}

/// Writes a word, and says whether it is read again.
pub(super) fn write_word(segs: &mut Segs, at: Addr, word: u64) -> bool {
    if segs.item(at.word()).is_none() {
        return false;
    }
    segs.set_word(at, word);
    segs.word(at) == word && segs.item(at.word()) == Some(word)
}

/// Writes a word in a segment, and says whether it is read again; false if the address lies in none.
pub(super) fn write_held(segs: &mut Segs, at: Addr, word: u64) -> bool {
    let Some(_) = segs.segment_of(at) else {
        return false;
    };
    segs.set_held_word(at, word);
    segs.held_word(at) == word
}

/// Copies words to the word after the first one and the words after that; false if the arena has no such words.
pub(super) fn copy_up(segs: &mut Segs, at: Addr, words: u32) -> bool {
    if at.0 >= 0x10000 || segs.item(at.word() + words as usize).is_none() {
        return false;
    }
    segs.copy(at, Addr(at.0 + 8), words);
    true
}

/// Clears words from an address on; false if the arena has no such words.
pub(super) fn clear_at(segs: &mut Segs, at: Addr, words: u32) -> bool {
    let past = at.word() + words as usize;
    if past > 0 && segs.item(past - 1).is_none() {
        return false;
    }
    segs.clear(at, words);
    true
}

/// The summary of the segment at a base, none if the arena has no such grain.
pub(super) fn summary_at(segs: &Segs, base: Addr) -> ZoneSet {
    if base.grain() > segs.grains() as usize {
        return ZoneSet(0);
    }
    segs.summary(base)
}

/// Sets the summary of the segment at a base; false if the arena has no such grain.
pub(super) fn set_summary_at(segs: &mut Segs, base: Addr, zones: ZoneSet) -> bool {
    if base.grain() > segs.grains() as usize {
        return false;
    }
    segs.set_summary(base, zones);
    true
}
