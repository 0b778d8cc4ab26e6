// The calls on frames.
ghost use Rattle.std.specs.Prelude.{◌≡◌, ◌-◌, ◌*◌, ◌<◌, ◌≤◌, Some, Ok, Err, IsSome, MatchBool, MatchResult, length, slice_index};
ghost use Rattle.mps_root.specs.State.{with_place};
ghost use Rattle.mps_snc.specs.State.{opened_at, pool_at, state_of};
ghost use Rattle.mps_heap_spec.specs.Coming.{Comes, ComesMoving};
ghost use Rattle.mps_heap_spec.specs.Framing.{frame_pushed, frames_named};
ghost use Rattle.mps_heap_spec.specs.Popping.{frame_closed, frame_popped, moves_of_pop};
ghost use Rattle.mps_heap_framing.specs.Closing.{IsClosed, IsLastFreed};

use mps_base::{Name, Refusal, Trail};
use mps_format::Format;
use mps_heap_manual::manual::free_block;
use mps_heap_state::State;
use mps_root::Roots;
use mps_snc::Place;

/// The number of the pool of frames that has a name.
#[inline(always)]
fn pool_of_frames<F: Format>(state: &State<F>, name: Name) -> Result<u32, Refusal>
    ensures { MatchResult result
        (λ key. pool_at state.now.beside.frames key ≡ Some (state_of state.now.beside.frames key)
        × (frames_named state.now name ≡ Ok (record { key = key; value = state_of state.now.beside.frames key })))
        (λ why. frames_named state.now name ≡ Err why) }
{
    let of = state.pool_named(name)?;
    if !state.beside.frames.is_pool(of.key) {
        return Err(Refusal::WrongPool);
    }
    Ok(of.key)
}

/// Opens a frame of a pool, and returns how many of it were open. Refuses `BadName` if there is no such pool, `WrongPool` if it isn't one
/// of frames, and `TooMany` if 4,096 frames of all pools are open.
pub fn push<F: Format>(state: &mut State<F>, name: Name) -> Result<u32, Refusal>
    ensures { Comes state.old (frame_pushed state.old name) result state.new }
{
    let pool = pool_of_frames(state, name)?;
    state.beside.frames.push(pool)
}

/// Empties a place of a table of blocks, if there is one.
fn empty_place(roots: &mut Roots, place: Place)
    ensures { roots.new ≡ record roots.old { blocks = with_place roots.old.blocks place.table place.index 0 } }
{
    if place.table >= roots.block_tables() {
        return;
    }
    let row = roots.places(place.table);
    if place.index >= row.len() {
        return;
    }
    roots.set_place(place.table, place.index, 0);
}

/// Frees the block of a pool that was made last, and empties its place, if it was made since a frame was opened; returns whether one was.
/// If none was, closes that frame and those above it.
fn free_last<F: Format>(state: &mut State<F>, trail: &mut Trail, pool: u32, frame: u32) -> bool
    requires there { IsSome (pool_at state.old.beside.frames pool) }
    requires opened { frame < length (state_of state.old.beside.frames pool).frames }
    requires listed { pool < length state.old.sizes }
    requires fits { opened_at (state_of state.old.beside.frames pool) frame < length (state_of state.old.beside.frames pool).blocks
        → 1 < trail.old.spare }
    ensures { MatchBool result (IsLastFreed state.old trail.old pool frame state.new trail.new)
        (IsClosed state.old trail.old pool frame state.new trail.new) }
{
    let Some(block) = state.beside.frames.pop(pool, frame) else {
        return false;
    };
    empty_place(&mut state.roots, block.place);
    free_block(state, trail, pool, block.at.0);
    true
}

/// Frees the blocks of a pool that were made since a frame was opened, the latest first, and empties their places. Then closes the frame
/// and those above it.
fn close_frame<F: Format>(state: &mut State<F>, trail: &mut Trail, pool: u32, frame: u32)
    requires there { IsSome (pool_at state.old.beside.frames pool) }
    requires opened { frame < length (state_of state.old.beside.frames pool).frames }
    requires listed { pool < length state.old.sizes }
    requires fits { 2 * (length (state_of state.old.beside.frames pool).blocks - opened_at (state_of state.old.beside.frames pool) frame)
        ≤ trail.old.spare }
    ensures state { state.new ≡ (frame_closed state.old trail.old pool (slice_index state.old.sizes pool) frame
        (opened_at (state_of state.old.beside.frames pool) frame)).state }
    ensures moves { trail.new ≡ (frame_closed state.old trail.old pool (slice_index state.old.sizes pool) frame
        (opened_at (state_of state.old.beside.frames pool) frame)).trail }
{
    loop {
        if !free_last(state, trail, pool, frame) {
            return;
        }
    }
}

/// Closes a frame of a pool and those above it: the blocks that were made since it was opened are freed, the latest first, and their
/// places are emptied. Refuses `BadName` if there is no such pool, `WrongPool` if it isn't one of frames, and `BadIndex` if no such frame
/// is open.
pub fn pop<F: Format>(
    state: &mut State<F>,
    trail: &mut Trail,
    name: Name,
    frame: u64,
) -> Result<(), Refusal>
    requires fits { moves_of_pop state.old name frame ≤ trail.old.spare }
    ensures outcome { ComesMoving state.old trail.old (frame_popped state.old trail.old name frame) result state.new trail.new }
{
    let pool = pool_of_frames(state, name)?;
    if frame >= u64::from(state.beside.frames.frames(pool)) {
        return Err(Refusal::BadIndex);
    }
    if pool as usize >= state.pools.manual().pools() {
        return Err(Refusal::NotABlock);
    }
    close_frame(state, trail, pool, frame as u32);
    Ok(())
}

/// How many moves `pop` makes at most: two for each block that was made since the frame was opened, 0 if it is refused.
pub fn most_moves_of_pop<F: Format>(state: &State<F>, name: Name, frame: u64) -> u32
    ensures { result ≡ moves_of_pop state.now name frame }
{
    let Ok(pool) = pool_of_frames(state, name) else {
        return 0;
    };
    if frame >= u64::from(state.beside.frames.frames(pool)) {
        return 0;
    }
    2 * state.beside.frames.made_since(pool, frame as u32)
}
