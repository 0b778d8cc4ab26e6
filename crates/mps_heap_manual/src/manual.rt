// The calls on manual blocks.
ghost use Rattle.std.specs.Prelude.{◌≡◌, ◌<◌, ℕ, IfOk, Contains, length, slice_index};
ghost use Rattle.mps_base.specs.Address.{word_of};
ghost use Rattle.mps_root.specs.State.{HasPlace};
ghost use Rattle.mps_heap_spec.specs.Coming.{Comes, ComesMoving};
ghost use Rattle.mps_heap_spec.specs.Manual.{with_block_place, block_allocated, block_in, block_freed, one_freed, word_in_block, word_loaded, word_stored};
ghost use Rattle.mps_heap_manual.specs.Placed.{allocated_into, freed_at};

use mps_base::{Addr, BYTES_OF_WORD, Name, Refusal, Slot, Trail};
use mps_format::{Format, is_automatic};
use mps_heap_spec::{Entry, begins_block, is_block_over, pool_of_segment, write_word};
use mps_heap_state::State;
use mps_snc::{Block, MAX_NOTES, Place};

/// The most words that a block may have.
const MAX_BLOCK_WORDS: u64 = 65_536;

/// Writes a place of a table of blocks that was found.
pub fn set_place<F: Format>(state: &mut State<F>, place: Entry<u64>, at: u64)
    requires { HasPlace state.old.roots.blocks place.key place.index }
    ensures { state.new ≡ with_block_place state.old place at }
{
    state.roots.set_place(place.key, place.index, at);
}

/// Makes a block of n words, all 0, in a manual pool, and puts it in a place. Refuses `WrongPool` if the pool is automatic,
/// `BadSize` if it has no blocks of this size, `NameTaken` if the place has a block, and `CommitLimit` and `NoRun` if there
/// is no room.
pub fn alloc<F: Format>(
    state: &mut State<F>,
    trail: &mut Trail,
    pool: Name,
    words: u64,
    place: Slot,
) -> Result<(), Refusal>
    requires { 1 < trail.old.spare }
    ensures { ComesMoving state.old trail.old (block_allocated state.old trail.old pool words place) result state.new trail.new }
{
    let from = state.pool_named(pool)?;
    if is_automatic(from.value) {
        return Err(Refusal::WrongPool);
    }
    let into = state.block_place_in(place)?;
    alloc_into(state, trail, from.key, words, into)
}

/// Makes a block of n words in the manual pool with a number, and puts it in a place that was found.
fn alloc_into<F: Format>(
    state: &mut State<F>,
    trail: &mut Trail,
    pool: u32,
    words: u64,
    into: Entry<u64>,
) -> Result<(), Refusal>
    requires place { HasPlace state.old.roots.blocks into.key into.index }
    requires fits { 1 < trail.old.spare }
    ensures { ComesMoving state.old trail.old (allocated_into state.old trail.old pool words into) result state.new trail.new }
{
    let Some(takes) = state.pools.manual().takes(pool, words) else {
        return Err(Refusal::BadName);
    };
    if !takes {
        return Err(Refusal::BadSize);
    }
    if into.value != 0 {
        return Err(Refusal::NameTaken);
    }
    if !state.beside.frames.has_room(pool) {
        return Err(Refusal::TooMany {
            limit: MAX_NOTES as u32,
        });
    }
    let manual = state.pools.manual();
    let at = manual.alloc(&mut state.segs, trail, pool, words as u32)?;
    set_place(state, into, at.0);
    let place = Place {
        table: into.key,
        index: into.index,
    };
    state.beside.frames.note(pool, Block { at, place });
    Ok(())
}

/// The address of the manual block in a place.
pub fn block_in<F: Format>(state: &State<F>, place: Entry<u64>) -> Result<u64, Refusal>
    ensures value { result ≡ block_in state.now place }
    ensures block { IfOk result (λ at. (words : ℕ) × Contains state.now.segs.blocks (record { from = word_of at; count = words })) }
{
    if place.value == 0 || !begins_block(&state.segs, place.value) {
        return Err(Refusal::NotABlock);
    }
    Ok(place.value)
}

/// Frees the block in a place, and empties the place. Refuses `NotABlock` if it is empty, and `WrongPool` if the block's pool is one of
/// frames.
pub fn free<F: Format>(state: &mut State<F>, trail: &mut Trail, place: Slot) -> Result<(), Refusal>
    requires { 1 < trail.old.spare }
    ensures { ComesMoving state.old trail.old (block_freed state.old trail.old place) result state.new trail.new }
{
    let from = state.block_place_in(place)?;
    let at = block_in(state, from)?;
    free_at(state, trail, from, at)
}

/// Frees the block at an address, and empties the place that was found. Refuses `WrongPool` if its pool is one of frames.
fn free_at<F: Format>(
    state: &mut State<F>,
    trail: &mut Trail,
    from: Entry<u64>,
    at: u64,
) -> Result<(), Refusal>
    requires place { HasPlace state.old.roots.blocks from.key from.index }
    requires block { (words : ℕ) × Contains state.old.segs.blocks (record { from = word_of at; count = words }) }
    requires fits { 1 < trail.old.spare }
    ensures { ComesMoving state.old trail.old (freed_at state.old trail.old from at) result state.new trail.new }
{
    let Some(pool) = pool_of_segment(&state.segs, at) else {
        return Err(Refusal::NotABlock);
    };
    if state.beside.frames.is_pool(pool) {
        return Err(Refusal::WrongPool);
    }
    if pool as usize >= state.pools.manual().pools() {
        return Err(Refusal::NotABlock);
    }
    let manual = state.pools.manual();
    manual.free(&mut state.segs, trail, pool, Addr(at));
    set_place(state, from, 0);
    Ok(())
}

/// Frees the block that begins at an address, of the manual pool with a number, if one begins there. Its place isn't emptied.
pub fn free_block<F: Format>(state: &mut State<F>, trail: &mut Trail, pool: u32, at: u64)
    requires listed { pool < length state.old.sizes }
    requires fits { 1 < trail.old.spare }
    ensures state { state.new ≡ record state.old {
      segs = (one_freed (slice_index state.old.sizes pool)
          (record { segs = state.old.segs; trail = trail.old }) at).segs;
    } }
    ensures moves { trail.new ≡ (one_freed (slice_index state.old.sizes pool)
        (record { segs = state.old.segs; trail = trail.old }) at).trail }
{
    if begins_block(&state.segs, at) {
        let manual = state.pools.manual();
        manual.free(&mut state.segs, trail, pool, Addr(at));
    }
}

/// The number of word `k` of a block.
fn word_in_block<F: Format>(state: &State<F>, at: u64, k: u64) -> Result<usize, Refusal>
    ensures { result ≡ word_in_block state.now at k }
{
    if k >= MAX_BLOCK_WORDS {
        return Err(Refusal::BadIndex);
    }
    let word = Addr(at).word() + k as usize;
    let _ = state.segs.grains(); // the address of a word fits
    if state.segs.item(word).is_none() || !is_block_over(&state.segs, at + BYTES_OF_WORD * k, at) {
        return Err(Refusal::BadIndex);
    }
    Ok(word)
}

/// Word `k` of the block in a place. Refuses `BadIndex` if the block has no such word.
pub fn load<F: Format>(state: &State<F>, place: Slot, k: u64) -> Result<u64, Refusal>
    ensures { result ≡ word_loaded state.now place k }
{
    let from = state.block_place_in(place)?;
    let at = block_in(state, from)?;
    let word = word_in_block(state, at, k)?;
    state.segs.item(word).ok_or(Refusal::BadIndex)
}

/// Writes word `k` of the block in a place.
pub fn store<F: Format>(
    state: &mut State<F>,
    place: Slot,
    k: u64,
    value: u64,
) -> Result<(), Refusal>
    ensures { Comes state.old (word_stored state.old place k value) result state.new }
{
    let into = state.block_place_in(place)?;
    let at = block_in(state, into)?;
    let word = word_in_block(state, at, k)?;
    write_word(&mut state.segs, word, value);
    Ok(())
}
